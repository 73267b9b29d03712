//! Table tests of the crates on traces together: what is read, refused, written again and cut. The traces stand in
//! `examples`, each once.
#![tactic(auto)]

#[cfg(test)]
mod examples;
#[cfg(test)]
mod tests;
