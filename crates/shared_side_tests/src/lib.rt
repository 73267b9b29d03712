//! Tests of the shared sides by their public calls: new sides on one thread, and a lane and a
//! daemon in threads of their own.
#![tactic(auto)]

#[cfg(test)]
mod tests;
