//! What a driver is made for, and how it counted its samples.

use sample_key::Pace;

/// What a driver is made for.
#[derive(Clone, Copy, Debug, PartialEq, Eq)]
pub struct Plan {
    /// Whether it loses samples or waits.
    pub pace: Pace,
    /// The bell value of the close: odd, at most 2^32.
    pub last: u64,
    /// How many entries an overflow buffer holds.
    pub buffer: usize,
}

/// How often samples were counted in each way.
#[derive(Clone, Copy, Debug, PartialEq, Eq)]
pub struct Stats {
    /// In an entry that was there.
    pub folded: u64,
    /// In an entry in a free way.
    pub placed: u64,
    /// In an entry in place of another, which was written to a buffer.
    pub evicted: u64,
    /// In an entry that was full and was written to a buffer.
    pub spilt: u64,
    /// In a buffer, while the table was out.
    pub direct: u64,
}
