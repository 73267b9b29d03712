//! The replay of a trace: the drivers of all processors and the daemon, on one thread, by the steps of the trace's schedule and
//! then in rounds until the close is complete.
#![tactic(auto)]

mod endings;
mod players;
mod replaying;
mod replays;
mod rounds;
mod starting;

pub use dcpid_core::Outcome;
pub use players::{turn_at, turn_of};
pub use replaying::{MOST_ROUNDS, replay, replay_owned};
pub use replays::Replay;
pub use starting::{Players, new_player, new_players};
