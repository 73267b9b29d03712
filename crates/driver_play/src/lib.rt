//! One thread plays both halves of a driver: a lane, and the daemon on the other end of its side. What happens when is
//! chosen by the caller, so that a test can say it turn by turn, and a benchmark can time it.
//! The entry is `Play`; it keeps what a turn of its lane asks, so that any order of its calls is allowed.
#![tactic(auto)]

mod plays;

pub use plays::Play;
