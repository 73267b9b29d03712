//! The removal of the files that a profile database does not use: those of commits that were cut short, and the heads,
//! seals and profiles that later generations took the place of.
//!
//! `specs/FileForms.antt` says which names are of a database's files, `specs/Named.antt` which files these are,
//! `specs/Unused.antt` which of them a head does not use, and `specs/Removals.antt` what a tidying leaves, whole or cut
//! short.
#![tactic(auto)]

mod forms;
mod laws;
mod removing;
mod tidying;
mod used;

pub use laws::forms_are_of_files;
pub use tidying::tidy;
