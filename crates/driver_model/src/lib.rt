//! What one processor's driver does, as definitions over lists: the table of counted entries, the step of the driver, the
//! invariant that its steps keep, and the handover of a value between the driver and the daemon by a word.
//! The code of the table, of the sides and of the driver is proved against these definitions.
//! Beside them stand the plain data types that they speak of.
#![tactic(auto)]

mod answers;
mod plans;

pub use answers::{Added, Turn};
pub use plans::{Plan, Stats};
