//! What is known of a run where its threads are joined, with no fact on the order of two cells: by its own doings the daemon
//! knows that each flush was complete before the next record, and with the drivers' invariants that makes the record valid;
//! after a kept fault the drains so far are those of a run that was cut short.
#![tactic(auto)]

mod daemon;
mod joins;

pub use daemon::{bell_is_known, books_are_kept, daemons_collect};
pub use joins::{cuts_are_valid, joins_are_valid};
