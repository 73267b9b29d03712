//! The daemon: it takes the batches of all drivers, notes each with the records that are in force, gathers the counts by place,
//! and commits a part of the run at each record that ends one (Anderson et al., ACM TOCS 15(4), section 4.3).
//!
//! `Daemon::poll` takes what waits in a cell, `Daemon::advance` puts the next record in force, and `Daemon::finish` commits the
//! rest. It works over any side and over any store, and after a fault it goes on so that the drivers end.
#![tactic(auto)]

mod daemons;
mod flushes;
mod laws;
mod outcomes;
mod polled;
mod progress;
mod ringing;
mod rules;
mod storing;

pub use daemons::Daemon;
pub use flushes::Flush;
pub use laws::{advances_are_the_runs, counts_agree, sides_fit_on};
pub use outcomes::Outcome;
pub use polled::Polled;
pub use run_model::Advanced;
