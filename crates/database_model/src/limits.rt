//! The limits of profiles and of the segments of a run.

/// The greatest count of a row of a profile.
pub const MOST_ROW_COUNT: u64 = 1 << 48;

/// The greatest number of an instruction of four bytes: an offset and a program counter are at most 2^64 - 4.
pub const LAST_POSITION: u64 = (1 << 62) - 1;

/// The greatest number of a part of a run.
pub const LAST_PART: u64 = 1_024;

/// The most records of a trace, and so the greatest position of a drain.
pub const MOST_RECORDS: u64 = 65_536;

/// The most processors of a run.
pub const MOST_PROCESSORS: u64 = 16;
