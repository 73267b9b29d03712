//! What one sample is, in plain data: the event that was counted, the process and program counter that it came from,
//! and the mark that says how much of the trace stood before it.
//! On these stand the counted entries of the driver's table and buffers, the notes and batches by which the driver hands
//! them to the daemon, and the records of samples that were lost. The ranges of their fields are facts of the types.
#![tactic(auto)]

mod batches;
mod bodies;
mod entries;
mod events;
mod keys;
mod limits;
mod losses;
mod notes;

pub use batches::{Batch, Parcel};
pub use bodies::Body;
pub use entries::Entry;
pub use events::Event;
pub use keys::{Key, Marked};
pub use limits::{LAST_CELL, LAST_CPU, MOST_COUNT, MOST_SAMPLES};
pub use losses::{Loss, Pace};
pub use notes::Note;
