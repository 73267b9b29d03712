//! Table tests of listings: texts and CSV over stores of known files, and which bad file is named.
#![tactic(auto)]

#[cfg(test)]
mod tests;
