//! The laws of a whole run, each as a call without a body of its own: a caller that wants a law makes the call, and its proof
//! cites the clause. Whatever the schedule, and at both paces: the record of a finished run is valid and its statistics
//! agree, at any moment the drains so far are those of a run that was cut short, and steps only go on.
#![tactic(auto)]

mod runs;
mod traces;

pub use runs::{
    exact_runs_are_lossless, records_are_valid, records_can_be_stored, sides_are_sound, steps_go_on,
};
pub use traces::traces_are_fit;
