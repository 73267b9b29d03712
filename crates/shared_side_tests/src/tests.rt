//! The tests by what they show.
mod calls;
mod rounds;
mod threads;
mod working;
