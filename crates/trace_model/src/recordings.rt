//! A recorded trace as plain data.

ghost use Rattle.trace_model.specs.Recording.{AreGood, InOrder};

use crate::notices::{Line, Step};
use text_num::Name;

/// A recorded trace: its sizes, the images that records name, in order of first use and without repeats, the body and
/// the schedule. Each line is in the ranges and limits of the format, bases, lengths and program counters are multiples
/// of 4, and each processor that a line or a step names is below `cpus`.
#[derive(Drop)]
pub struct Trace {
    /// How many processors, 1 to 16.
    pub cpus: u32,
    /// How many buckets a table has, a power of two from 1 to 4,096.
    pub buckets: u32,
    /// How many entries a buffer holds, 1 to 8,192.
    pub buffer: u32,
    /// The images, which records name by their index here.
    pub images: Vec<Name>,
    /// The samples and records, in order.
    pub lines: Vec<Line>,
    /// The steps of a replay, in order.
    pub schedule: Vec<Step>,
    pub ghost good: { AreGood cpus buckets buffer images.items lines.items schedule.items },
    pub ghost in_order: { InOrder cpus buckets buffer images.items lines.items schedule.items },
}
