//! Numbers below 2^64 as bytes, in groups of seven bits, with one spelling for each number; and formats that are lists
//! of such numbers.
//!
//! A format is a value of specifications alone, a `Form`: which number may stand next, and what the numbers tell in the
//! end. That it has one reading and one first bad place is proved here once for all formats.
#![tactic(auto)]

mod errors;
mod fields;
mod laws;
mod numbers;

pub use errors::FormError;
pub use fields::{BadField, field, field_but, put_numbers};
pub use laws::{
    exactly_one_answer, none_begins_another, number_spelled_once, one_bad_place, one_reading,
    read_as_spelled, spelled_by_numbers,
};
pub use numbers::{VarBad, put_number, take_number};
