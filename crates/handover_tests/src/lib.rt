//! Tests of the turn cell and the bell by their public calls: a table of calls on one thread, ends
//! that go through another cell, and two threads that pass parcels.
#![tactic(auto)]

#[cfg(test)]
mod tests;
