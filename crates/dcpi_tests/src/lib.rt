//! Tests of the top call, as tables: what is printed, what is refused, the line of each status, and the files.
#![tactic(auto)]

#[cfg(test)]
mod crashes;
#[cfg(test)]
mod listings;
#[cfg(test)]
mod makes;
#[cfg(test)]
mod plain;
#[cfg(test)]
mod refusals;
#[cfg(test)]
mod replays;
#[cfg(test)]
mod row_limit;
#[cfg(test)]
mod rows;
#[cfg(test)]
mod tidies;
#[cfg(test)]
mod traces;
