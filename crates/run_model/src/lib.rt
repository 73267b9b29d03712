//! What the daemon does and what a whole run is, as definitions over lists: the daemon over the batches that it took, a run of
//! all processors under a schedule, the record that is kept of it, and when a record is valid.
//!
//! There is no store in it, no thread and no buffer that is used again. The daemon's code, the replay and the threads are proved
//! against these definitions. Beside them stands the plain data type that they speak of.
#![tactic(auto)]

mod advances;

pub use advances::Advanced;
