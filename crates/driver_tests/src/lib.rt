//! The acceptance tables of the driver, its table and its buffers, and a new plain side by its calls. It holds tests alone.
#![tactic(auto)]

#[cfg(test)]
mod side_tests;
#[cfg(test)]
mod table_tests;
#[cfg(test)]
mod tests;
