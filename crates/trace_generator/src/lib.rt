//! A recording of any size from a number: samples of a made-up machine with a kernel, eight processes and six images,
//! drawn by a linear congruential generator. It is the load of benchmarks and of tests that want much and valid input.
#![tactic(auto)]

mod draws;
mod generator;
mod mappings;

pub use generator::make_trace;
