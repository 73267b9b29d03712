//! Reads and writes recorded traces as text. A trace is read line by line, in large pieces of the input, and refused at
//! its first bad line with the first reason that applies.
#![tactic(auto)]

mod body;
mod body_lines;
mod fields;
mod headers;
mod input;
mod reading;
mod refusals;
mod samples;
mod schedule;
mod writing;

pub use reading::{read_cut, read_trace};
pub use refusals::{PutError, TraceRefusal};
pub use trace_model::{Line, Record, Step, Trace, TraceWhy};
pub use writing::{text_of, write_trace};
