//! Tests of the load map and of the counts of a recording: worked rows with their places and listings, taken from the rules
//! and not from the program.
//! The crate has no code of its own.
#![tactic(auto)]

#[cfg(test)]
mod mappings;
#[cfg(test)]
mod tests;
