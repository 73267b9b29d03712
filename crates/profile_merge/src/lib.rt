//! From drained batches to the change of a commit: counts are gathered by place, and become changed profiles.
//!
//! `gathering.rt` adds the entries of a batch where the load map puts them. `changing.rt` makes of what was gathered the change
//! that a commit writes. What both mean is said in the words of `growth_model` (`specs/Gathering.antt`); which fault stops
//! a change stands in `specs/Faults.antt`.
#![tactic(auto)]

mod changing;
mod gathered;
mod gathering;
mod growing;
mod laws;
mod merging;
mod numbering;
mod owners;
mod parts;
mod sums;

pub use changing::change_of;
pub use gathered::Gathered;
pub use gathering::gather;
pub use laws::{growth_has_no_fault, one_fault_at_most};
pub use owners::Owner;
