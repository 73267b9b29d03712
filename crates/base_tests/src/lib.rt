//! Tests of the lowest crates, as tables: numbers, names and fields in text, streams, samples and their batches.
#![tactic(auto)]

#[cfg(test)]
mod fields;
#[cfg(test)]
mod names;
#[cfg(test)]
mod numbers;
#[cfg(test)]
mod samples;
#[cfg(test)]
mod streams;
#[cfg(test)]
mod threads;
