//! The generations of a profile database: opening, reading and whole commits.
//!
//! A database is kept in named files. A commit writes the changed profiles, the run's part, the head of the next
//! generation and its seal, in this order; the database is what the greatest sealed head says.
#![tactic(auto)]

mod committing;
mod contents;
mod database;
mod laws;
mod next;
mod opening;
mod places;
mod reading;
mod rows;
mod seals;
mod writes;

pub use committing::commit;
pub use contents::seal_name;
pub use database::Database;
pub use database_state::{
    Change, DbError, DbFault, FullWhat, KnownFile, KnownRow, UnknownFile, UnknownRow,
};
pub use laws::{
    files_stand_for_one_database, readers_read_the_database, what_stands_is_within_limits,
};
pub use opening::open_database;
pub use reading::{read_known, read_run_part, read_unknown};
