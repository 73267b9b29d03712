//! The tests by what they show, and the value that they hand over.
mod calls;
mod carried;
mod crates;
mod threads;
