//! The key that samples are counted by, and a sample with its mark.
//!
//! Every entry of a table and of a buffer holds a `Key`, so its fields stand from the widest to the narrowest: it takes
//! 16 bytes. Nothing sorts by it.
ghost use Rattle.std.specs.Prelude.{◌≡◌, ◌%◌};

use crate::events::Event;

/// What samples are counted by: the process, the program counter and the event. Alpha instructions are four bytes
/// long, so `pc` is a multiple of 4.
#[derive(Clone, Copy, Debug, PartialEq, Eq)]
pub struct Key {
    /// The program counter, a multiple of 4.
    pub pc: u64,
    /// The process identifier.
    pub pid: u32,
    /// What was counted.
    pub event: Event,
    pub ghost aligned: { pc % 4 ≡ 0 },
}

impl Key {
    ghost use Rattle.std.specs.Prelude.{◌≡◌};
    ghost use Rattle.sample_key.specs.Bags.{same_key};

    /// Whether both are one key: the same process, program counter and event. It says by `same_key` what the derived `==`
    /// says by equality, and definitions that count entries test keys so.
    #[inline]
    pub fn same(&self, other: &Key) -> bool
        ensures { result ≡ same_key self.now other.now }
    {
        self.pid == other.pid && self.pc == other.pc && self.event.code() == other.event.code()
    }
}

/// A sample with its mark: the number of records that stand before it in the trace.
#[derive(Clone, Copy, Debug, PartialEq, Eq)]
pub struct Marked {
    /// What the sample counts for.
    pub key: Key,
    /// How many records of the trace stand before the sample.
    pub mark: u64,
}
