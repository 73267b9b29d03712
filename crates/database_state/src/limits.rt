//! The limits of a head.

/// The most rows of a head: profiles, unknown profiles and segments.
pub const MOST_ROWS: u128 = 65_536;

/// The greatest generation.
pub const LAST_GENERATION: u64 = 65_536;
