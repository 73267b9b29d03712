//! A list that only clauses read. It takes no memory, and its calls do nothing when they run.
#![tactic(auto)]

mod told;

pub use told::Told;
