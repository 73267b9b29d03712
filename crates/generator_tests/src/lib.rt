//! Table tests of made traces: their text line by line, worked out by hand and by the rule of the draws, and their size.
//! The crate has no code of its own.
#![tactic(auto)]

#[cfg(test)]
mod examples;
#[cfg(test)]
mod tests;
