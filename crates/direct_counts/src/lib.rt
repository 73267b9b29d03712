//! Counts of a trace's samples by place, taken from the trace alone, and their text: what a replay of the trace is
//! measured by. Each sample counts where the mappings that stood before it in the trace put it, in the epoch that had
//! begun by then.
#![tactic(auto)]

mod counting;
mod listings;
mod lists;
mod ranks;
mod sites;
mod walks;

pub use counting::{one_listing, plain_counts};
pub use listings::counts_text;
