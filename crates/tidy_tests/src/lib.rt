//! Table tests of the removal of unused files: which names are unused, what a failed commit left, and removals that fail.
#![tactic(auto)]

#[cfg(test)]
mod stores;
#[cfg(test)]
mod tests;
