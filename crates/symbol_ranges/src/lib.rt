//! Symbol lists: which procedure of an image lies at an offset. A list is read by lines and refused at its first bad line
//! with the first reason that applies; a name is found by halving.
#![tactic(auto)]

mod fields;
mod index;
mod laws;
mod reading;
mod refusals;
mod symbols;

pub use laws::{MOST_LIST_BYTES, lists_are_short, one_reading};
pub use reading::read_symbols;
pub use refusals::{SymbolLineError, SymbolRefusal, SymbolWhy};
pub use symbols::{MOST_LINE_BYTES, MOST_LINES, Symbols};
