//! The plain data of the profile database, and what its bytes mean: the rows of a profile, the segments of a run,
//! and the tally of a run.
//!
//! Each format is stated once, as a list of numbers with their ranges (`specs/ProfileForm.antt`,
//! `specs/SegmentForm.antt`); the crates that read and write it stand above this one and pass its types on.
#![tactic(auto)]

mod limits;
mod profiles;
mod segments;
mod tallies;

pub use limits::{LAST_PART, LAST_POSITION, MOST_PROCESSORS, MOST_RECORDS, MOST_ROW_COUNT};
pub use profiles::ProfileRow;
pub use segments::{Drain, RunRecord, RunSegment};
pub use tallies::TallyRow;
