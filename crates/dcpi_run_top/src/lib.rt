//! The top call of the program with threads: it runs a trace into a database by a thread for each processor, and serves
//! every other command as the call without threads does.
#![tactic(auto)]

mod answering;
mod beginning;
mod paces;
mod running;

pub use answering::dcpi;
pub use paces::pace_of;
