//! Table tests of the crates on the profile database, together: numbers, profiles and segments as bytes, a tally, what
//! stores with files put there by hand say, and commits over stores.
//! The changes that the tests commit are made by functions that a benchmark takes too.
#![tactic(auto)]

#[cfg(test)]
mod asks;
#[cfg(test)]
mod bytes;
mod changes;
#[cfg(test)]
mod commits;
mod errors;
#[cfg(test)]
mod openings;
#[cfg(test)]
mod segments;

pub use changes::{first_change, second_change};
pub use errors::NoChange;
