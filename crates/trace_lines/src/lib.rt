//! The lines of a trace while it is read, kept whole or cut as they come, and the outline of a trace whose lines are gone.
#![tactic(auto)]

mod cut_traces;
mod lines;
mod outlines;

pub use cut_traces::CutTrace;
pub use lines::Lines;
pub use outlines::Outline;
