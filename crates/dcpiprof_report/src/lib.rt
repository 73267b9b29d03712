//! Listings of a profile database by image and by procedure: `by_image` and `by_procedure` read the profiles of one event
//! in the order of the head, and add up what they count under each label.
//!
//! `specs/Counting.antt` says how much a database holds under a label, `specs/Reading.antt` which files are read and what is
//! answered where one is bad. The rows, their order and their two texts are in `report_text`.
#![tactic(auto)]

mod listing;
mod queries;
mod sums;

pub use listing::{by_image, by_procedure};
pub use report_text::{Epochs, Label, Row, Rows, rows_csv, rows_text};
