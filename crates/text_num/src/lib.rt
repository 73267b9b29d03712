//! Canonical numbers and names in text, and the fields of a text: what the trace, the heads and the printed texts are
//! made of.
//!
//! A number is canonical where it is `0` or digits without a leading zero; hexadecimal letters are lower case and no
//! prefix stands before them. A name is 1 to 255 visible bytes.
#![tactic(auto)]

mod fields;
mod names;
mod numbers;

pub use fields::cut_field;
pub use names::{MOST_NAME_BYTES, Name, is_name};
pub use numbers::{
    is_dec, is_hex, one_spelling, put_dec, put_hex, put_hundredths, read_dec, read_hex,
};
