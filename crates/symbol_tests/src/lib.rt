//! Table tests of symbol lists: what is read, what is refused, and which name lies at an offset.
#![tactic(auto)]

#[cfg(test)]
mod tests;
