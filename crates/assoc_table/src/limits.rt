//! The limits of this crate, each once and by name.

/// How many entries a bucket holds at most: it has so many ways.
pub const WAYS: usize = 4;

/// How many buckets a table has at most; it is also the usual number.
pub const MOST_BUCKETS: usize = 4_096;
