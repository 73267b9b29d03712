//! Table tests of the listing of runs: texts of databases that commits made, each way in which a segment can be out of order,
//! and a store that fails.
#![tactic(auto)]

#[cfg(test)]
mod segments;
#[cfg(test)]
mod tests;
