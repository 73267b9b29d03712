//! The limits of a trace, each once and by name. Those of its samples, processors' numbers and cells are `sample_key`'s,
//! that of a name `text_num`'s.

/// How many processors a trace has at most.
pub const MOST_CPUS: u32 = 16;

/// How many buckets a driver's table has at most: a power of two.
pub const MOST_BUCKETS: u32 = 4_096;

/// How many entries a driver's overflow buffer holds at most.
pub const MOST_ENTRIES: u32 = 8_192;

/// How many records a trace has at most.
pub const MOST_RECORDS: u32 = 65_536;

/// How many records of a trace end a part of it at most.
pub const MOST_PARTS: u32 = 1_024;

/// How many steps the schedule of a trace has at most.
pub const MOST_STEPS: u32 = 4_000_000;

/// How many bytes a line of a trace has at most, without its line feed.
pub const MOST_LINE_BYTES: usize = 400;

/// The greatest address at which a mapping ends: one instruction below 2 to the 64.
pub const GREATEST_END: u64 = 18_446_744_073_709_551_612;
