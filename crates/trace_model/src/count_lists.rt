//! One count of samples: of a place in an image, or of a program counter with no known mapping.

use sample_key::Event;
use text_num::Name;

/// How many samples of an event lie at an offset of an image, in one epoch.
#[derive(Drop)]
pub struct KnownCount {
    /// The epoch, from 0.
    pub epoch: u32,
    /// The image by name.
    pub image: Name,
    /// The event that was counted.
    pub event: Event,
    /// The offset in bytes from the base of the image.
    pub offset: u64,
    /// How many samples.
    pub count: u64,
}

/// How many samples of an event with no known mapping have a program counter, in one epoch.
#[derive(Clone, Copy, Debug)]
pub struct UnknownCount {
    /// The epoch, from 0.
    pub epoch: u32,
    /// The event that was counted.
    pub event: Event,
    /// The program counter, in bytes.
    pub pc: u64,
    /// How many samples.
    pub count: u64,
}
