//! The images of a database: each name has a number, its place in the order in which the names were added.
//!
//! Start in `catalog.rt`. A catalog keeps beside its names an index, the numbers in the byte order of their names.
#![tactic(auto)]

mod catalog;
mod index;

pub use catalog::{Catalog, CatalogError, MOST_IMAGES, copies_of};
