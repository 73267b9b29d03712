//! Tests of the store, of the folder store's faults and of the text of heads, by public calls alone.
//!
//! Tables, each with its values from the formats and from what the store promises; `failing.rt` has a runtime whose calls
//! on files fail.
#![tactic(auto)]

#[cfg(test)]
mod failing;
#[cfg(test)]
mod folders;
#[cfg(test)]
mod heads;
#[cfg(test)]
mod memory;
#[cfg(test)]
mod samples;
