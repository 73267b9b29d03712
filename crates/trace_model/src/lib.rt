//! What a recorded trace is and says: its grammar, where a program counter lies, and the counts that follow from it.
//!
//! The plain types of a trace stand here beside the definitions that speak of them (`specs/`); the crates above read and
//! write them. A trace has a header, a body of samples and records, and a schedule of steps for a replay.
#![tactic(auto)]

mod count_lists;
mod counts;
mod limits;
mod notices;
mod reasons;
mod recordings;

pub use count_lists::{KnownCount, UnknownCount};
pub use counts::Counts;
pub use limits::{
    GREATEST_END, MOST_BUCKETS, MOST_CPUS, MOST_ENTRIES, MOST_LINE_BYTES, MOST_PARTS, MOST_RECORDS,
    MOST_STEPS,
};
pub use notices::{Line, Place, Record, Step};
pub use reasons::TraceWhy;
pub use recordings::Trace;
