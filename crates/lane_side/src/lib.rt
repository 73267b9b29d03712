//! What lies between one processor's driver and the daemon: three cells, of which the value of each is handed over and
//! given back by a word, and a bell. The two traits say what each may do with them and what it learns.
//! `PlainSide` meets both for one thread, and remembers all that was handed.
#![tactic(auto)]

mod call_log;
mod cells;
mod endpoints;
mod handovers;
mod history;
mod plain;
mod plain_daemon;
mod plain_lane;
mod sides;

pub use endpoints::Endpoint;
pub use handovers::{calls_hand_over, plain_sides_hand_over};
pub use plain::PlainSide;
pub use sides::{DaemonSide, LaneSide, Poll};
pub use turn_cell::{Look, PollOf};
