//! The limits that the types of this crate keep, each once and by name.

/// The greatest number of a processor: there are at most 16.
pub const LAST_CPU: u32 = 15;

/// The greatest number of a cell: 0 and 1 are a driver's overflow buffers, 2 is its table.
pub const LAST_CELL: u8 = 2;

/// How many samples an entry stands for at most.
pub const MOST_COUNT: u32 = 65_535;

/// How many samples a trace has at most, and so the stream of a processor.
pub const MOST_SAMPLES: u64 = 2_000_000;
