//! The two sides of a processor's cells and bell for two threads: three turn cells and a bell lie
//! under them. No call of either side waits or takes a lock, and none takes memory after `shared`.
#![tactic(auto)]

mod carried;
mod closing;
mod opening;
mod passing;
mod shared_daemon;
mod shared_lane;

pub use carried::{Carried, CellKey};
pub use closing::close_shared;
pub use opening::shared;
pub use shared_daemon::SharedDaemon;
pub use shared_lane::SharedLane;
