//! Tests of the top call with threads, as tables: at both paces, with gates that hold the threads.
#![tactic(auto)]

#[cfg(test)]
mod calls;
#[cfg(test)]
mod gates;
#[cfg(test)]
mod held;
#[cfg(test)]
mod paces;
#[cfg(test)]
mod traces;
#[cfg(test)]
mod wholes;
