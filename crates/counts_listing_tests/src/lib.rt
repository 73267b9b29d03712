//! Table tests of the listing of all counts: its text over stores of known files and over databases made by commits, which
//! bad file is named, and faults of the store.
#![tactic(auto)]

#[cfg(test)]
mod stores;
#[cfg(test)]
mod tests;
