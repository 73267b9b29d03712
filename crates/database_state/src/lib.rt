//! The profile database as a value, and what its files stand for.
//!
//! `specs/Database.antt` has the value, addressed by image names; `specs/Heads.antt` the head of a generation and its text;
//! `specs/Updates.antt` what a commit adds and which updates fit; `specs/Standing.antt` which files stand for which database;
//! `specs/Generations.antt` which files a commit writes; `specs/Limits.antt` what a database may hold.
#![tactic(auto)]

mod changes;
mod faults;
mod laws;
mod limits;
mod rows;

pub use changes::{Change, Changed, KnownFile, UnknownFile};
pub use faults::{DbError, DbFault, FullWhat};
pub use laws::{file_names_are_apart, told_profiles_rise};
pub use limits::{LAST_GENERATION, MOST_ROWS};
pub use rows::{KnownRow, Placed, UnknownRow, is_rising};
