//! Laws of the definitions of a trace: what is written reads as what was written, an input has one reading, and what
//! every trace keeps.
#![tactic(auto)]

mod bounds;
mod kept;
mod laws;
mod readings;

pub use bounds::{MOST_TRACE_BYTES, MOST_TRACE_LINES, traces_are_short};
pub use kept::{
    limits_are_kept, places_have_images, processors_are_there, ranges_are_kept, sizes_are_kept,
};
pub use laws::trace_text_reads;
pub use readings::one_reading;
