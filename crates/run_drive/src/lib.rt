//! A run of a trace by threads: one for each processor's lane, and the daemon's. At both paces, and
//! in whatever order the threads go on, the record is valid and the database grows by it.
#![tactic(auto)]

mod ending;
mod going;
mod runs;

pub use dcpid_core::Outcome;
pub use runs::{DAEMON_GATE, run, run_cut};
