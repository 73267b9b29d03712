//! Samples that were lost, and the pace at which that may happen.
use crate::events::Event;

/// A sample that was lost: it needed an overflow buffer, and both were with the daemon.
#[derive(Clone, Copy, Debug, PartialEq, Eq)]
pub struct Loss {
    /// The index of the sample in its processor's list, from 0.
    pub index: u64,
    /// The event of that sample.
    pub event: Event,
    /// The word of buffer 0 that was read when the sample was lost; odd.
    pub word0: u64,
    /// The word of buffer 1 that was read when the sample was lost; odd.
    pub word1: u64,
}

/// Whether a driver that finds no buffer loses the sample, or waits for one.
#[derive(Clone, Copy, Debug, PartialEq, Eq)]
pub enum Pace {
    /// The sample is lost, as in the real driver.
    Free,
    /// The sample is held until a buffer is back.
    Exact,
}
