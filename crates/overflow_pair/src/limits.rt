//! The limit of this crate, by name.

/// How many entries a buffer holds at most.
pub const MOST_BUFFER: usize = 8_192;
