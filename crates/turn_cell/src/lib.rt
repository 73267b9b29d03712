//! A turn cell hands one value over and back between two threads, by a word and a slot, with no
//! lock.
//! A bell is one word: one thread rings values that never fall, and others hear the last of them.
//! No call but `new` takes memory, and none waits. What each end knows stands in its contract.
#![tactic(auto)]

mod bell_ends;
mod bell_view;
mod cell_ends;
mod cell_view;
mod laws;
mod passing;

pub use bell_ends::{Bell, BellMark, HearEnd, HeardNote, RingEnd};
pub use cell_ends::{Closed, DaemonEnd, LaneEnd, TurnCell, close};
pub use laws::{bell_loads_are_noted, bells_stay_sound, cell_loads_are_noted, cells_stay_sound};
pub use passing::{Kept, Look, Parcel, Poll, PollOf};
