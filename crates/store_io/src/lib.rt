//! Named files, as a trait with its faults and with what a crash at any moment may leave.
//!
//! A call that writes or removes changes one name and no other. Contracts see the files, where the store tells them, its
//! count of faults, a clock, and for each moment of the clock what a crash since then may have left. `MemStore` keeps all
//! of this and fails where it is told to; `DirStore` is a folder of the system and tells nothing.
#![tactic(auto)]

mod changes;
mod errors;
mod fails;
mod file_refs;
mod folder;
mod laws;
mod memory;
mod order;
mod steps;
mod store;

pub use errors::StoreError;
pub use fails::{Left, StoreFail};
pub use file_refs::{FileRef, name_of};
pub use folder::DirStore;
pub use laws::{crash_leaves_the_present, no_change_failed_without_fault, stays_without_fault};
pub use memory::MemStore;
pub use store::Store;
