//! Cuts a trace into the streams that its processors and the daemon work on: the samples of each processor, each with its
//! mark, and the records.
#![tactic(auto)]

mod laws;
mod streams;

pub use laws::streams_are_in_order;
pub use streams::{Cutter, Streams, cut};
