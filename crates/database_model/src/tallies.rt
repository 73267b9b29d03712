//! A row of the tally of a run.

use sample_key::Event;

/// What became of the samples of one processor and event.
#[derive(Clone, Copy, Debug, PartialEq, Eq)]
pub struct TallyRow {
    /// The processor.
    pub cpu: u32,
    /// The event.
    pub event: Event,
    /// How many samples were counted at a place in an image.
    pub attributed: u128,
    /// How many samples were counted as unknown.
    pub unknown: u128,
    /// How many samples were lost.
    pub lost: u128,
}
