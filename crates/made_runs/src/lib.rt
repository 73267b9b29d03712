//! The two answers of `make`: the summary of the run of a made trace, as the first one into an empty database, and the text
//! of the trace itself. Each is determined by a seed and a number of samples, and fails for want of memory alone.
#![tactic(auto)]

mod answers;
mod laws;
mod runs;
mod traces;

pub use answers::{made_summary, made_text};
pub use laws::{fitting_runs_do_not_stop, made_run_is_whole, said_traces_are_read};
