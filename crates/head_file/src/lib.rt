//! Heads of generations: what a commit of the profile database leaves to be read first, as text of lines.
//!
//! Start in `reading.rt`. A head's text is stated in `database_state`. Reading takes the text apart, writes it again and
//! compares, so that exactly the texts of heads are read.
#![tactic(auto)]

mod heads;
mod ranges;
mod reading;
mod words;
mod writing;

pub use heads::Head;
pub use reading::read_head;
pub use writing::write_head;
