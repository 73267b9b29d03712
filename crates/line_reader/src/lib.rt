//! Lines read from a source, in large pieces: each line is bounded, so that an input that never ends is refused.
#![tactic(auto)]

mod faults;
mod readers;

pub use faults::{Ending, LineFault};
pub use readers::LineReader;
