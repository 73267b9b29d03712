//! Table tests of the two answers of `make`: summaries and texts, and the summary of a text that is read back. The crate has no
//! code of its own.
#![tactic(auto)]

#[cfg(test)]
mod examples;
#[cfg(test)]
mod tests;
