//! The driver of one processor: it counts the samples of its list in a table, writes what the table gives out to two
//! overflow buffers, hands them to the daemon, and answers the daemon's flushes (Anderson et al., ACM TOCS 15(4), section 4.2).
//! The entry is `Lane::turn`; every turn keeps the driver's invariant.
#![tactic(auto)]

mod drivers;
mod lanes;
mod laws;

pub use driver_model::{Plan, Stats, Turn};
pub use lanes::Lane;
pub use laws::running_has_room;
