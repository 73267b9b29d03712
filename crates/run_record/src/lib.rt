//! What is kept of a run: the batches that the daemon took, the lost samples, the bytes of its parts, and its tally.
//!
//! The bytes are numbers of `var_bytes`, one after the other, and their format is stated in `database_model`.
//! A segment has one spelling, what was written is read again, and bytes that tell no segment are refused at their first
//! bad field.
#![tactic(auto)]

mod counting;
mod laws;
mod reading;
mod reading_losses;
mod writing;
mod writing_losses;

pub use counting::tally;
pub use database_model::{Drain, RunRecord, RunSegment, TallyRow};
pub use laws::{segment_begins_no_other, segment_spelled_once, segments_are_in_range};
pub use reading::read_segment;
pub use var_bytes::FormError as SegmentError;
pub use writing::write_segment;
