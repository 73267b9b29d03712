//! The summary of a run as a text: its number, what became of the samples of each processor and event, how each driver
//! counted, and the totals.
#![tactic(auto)]

mod fields;
mod summaries;
mod tallies;

pub use summaries::summary_text;
pub use tallies::{put_tally, run_tally};
