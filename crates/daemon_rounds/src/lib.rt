//! The daemon of a run over its sides: rounds of polls, and advances. What it knows of each processor
//! follows from its own doings and from what its polls promise, in whatever order the other side works.
#![tactic(auto)]

mod laws;
mod polls;
mod rounds;

pub use laws::new_daemons_know;
pub use polls::{DRAINED_GATE, poll_all};
pub use rounds::{Round, advance_all, go_round};
