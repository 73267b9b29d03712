//! What the program reads, writes and waits at, as three traits: `Source`, `Sink` and `Gate`.
//! Contracts speak of an object's bytes, where it tells them, and of its count of faults, which
//! never falls. An error comes only where that count rose, and an `Ok` leaves it as it was.
//! Tests use the objects in memory, which fail at listed calls; a program adapts std's streams.
#![tactic(auto)]

mod gates;
mod memory;
mod streams;
mod traits;
mod writing;

pub use gates::{Gate, OpenGate};
pub use memory::{ListedFaults, MemSink, MemSource};
pub use streams::{StdSink, StdSource};
pub use traits::{ReadFailed, Sink, Source, WriteFailed};
pub use writing::{WriteFault, put_all};
