//! Tests of hostile use of the top call, as tables: inputs that never end, damaged files, calls of the store that fail
//! in turn, and each byte of a trace and of three files changed.
#![tactic(auto)]

#[cfg(test)]
mod calls;
#[cfg(test)]
mod changed_files;
#[cfg(test)]
mod changed_traces;
#[cfg(test)]
mod damages;
#[cfg(test)]
mod inputs;
#[cfg(test)]
mod model;
#[cfg(test)]
mod sources;
#[cfg(test)]
mod stops;
#[cfg(test)]
mod traces;
