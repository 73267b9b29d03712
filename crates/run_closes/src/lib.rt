//! What closed cells say of a run: the two ends of a cell agree on all but the batch handed last,
//! and the driver's invariant with the daemon's last flush says that this one was taken too.
//! Besides: what a poll promises is enough for a drain to be timely.
#![tactic(auto)]

mod closes;

pub use closes::{closes_are_joined, polls_are_timely};
