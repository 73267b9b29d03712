//! The rows of a listing, as dcpiprof prints them: the largest count first, with percentages; as text and as CSV.
//!
//! `specs/Labels.antt` has the order of rows, `specs/Reports.antt` what rows are a listing, `specs/Texts.antt` and
//! `specs/Csvs.antt` its two texts.
#![tactic(auto)]

mod csvs;
mod epochs;
mod labels;
mod rows;
mod shares;
mod texts;

pub use csvs::rows_csv;
pub use epochs::Epochs;
pub use labels::Label;
pub use rows::{Row, Rows};
pub use texts::rows_text;
