//! All counts of a profile database, and their text: `database_counts` reads every profile in the order of the head and
//! lists what they count by epoch, image name, event and offset, and then what has no known mapping.
//!
//! `specs/Counting.antt` says how much a database counts at each place and which files are read.
#![tactic(auto)]

mod counts;
mod laws;
mod listing;
mod reading;
mod sections;

pub use laws::a_database_has_one_listing;
pub use listing::{cat_text, database_counts};
