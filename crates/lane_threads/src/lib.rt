//! The lanes of a run in threads of their own: each thread gets a lane with its side over a cell,
//! takes turns until the close is answered, and gives both back at its join. A lane whose thread
//! could not be started stays where the daemon runs.
#![tactic(auto)]

mod closing;
mod making;
mod runners;
mod starts;
mod threads;
mod works;

pub use closing::{Ended, close_all};
pub use making::{Pairs, new_pair, new_pairs};
pub use runners::{Runner, end_all, start_all, step_here};
pub use starts::Waiting;
pub use threads::all_waiting;
pub use works::{Next, Work};
