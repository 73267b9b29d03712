//! The runs of a profile database as a text: `runs_text` reads the segments in the order of their generations, joins those of
//! each run, and prints each run with its tally.
//!
//! `specs/Orders.antt` says which segment is the first that is bad or out of order, `specs/Runs.antt` which record a run has,
//! `specs/Texts.antt` what is printed of a run; the lines of its tally are those of `summary_text`.
#![tactic(auto)]

mod joins;
mod laws;
mod listing;
mod texts;

pub use laws::runs_stand_in_order;
pub use listing::runs_text;
