//! What the calls of a database answer where they fail.

use std::alloc::{AllocError, AllocFailed};
use store_io::{FileRef, StoreError};
use thiserror::Error;

/// What would be more than a database holds.
#[derive(Clone, Copy, Debug, PartialEq, Eq)]
pub enum FullWhat {
    /// The images, of which there may be 4,096.
    Images,
    /// The count of a place in an image, which may be 2^48.
    Known {
        /// The epoch.
        epoch: u32,
        /// The image's number.
        image: u32,
        /// The event's code.
        event: u8,
        /// The offset into the image.
        offset: u64,
    },
    /// The count of an unknown program counter, which may be 2^48.
    Unknown {
        /// The epoch.
        epoch: u32,
        /// The event's code.
        event: u8,
        /// The program counter.
        pc: u64,
    },
    /// The rows of the head, the segments among them, of which there may be 65,536.
    Rows,
}

/// Why a call of a database failed.
#[derive(Clone, Copy, Debug, PartialEq, Eq, Error)]
pub enum DbFault {
    /// The store failed, and its count of faults rose.
    #[error("the store failed")]
    StoreFault,
    /// A file that was to be read is missing or not in its form.
    #[error("a file of the database is bad: {file:?}")]
    Bad {
        /// The file.
        file: FileRef,
    },
    /// What is held and what was to be added are together above the limit.
    #[error("the database is full: {what:?}, {held} held and {added} to be added")]
    Full {
        /// What has no room.
        what: FullWhat,
        /// How many images or rows there are, or the count that the place has.
        held: u64,
        /// How many images or rows, or how much of a count, were to be added.
        added: u128,
    },
    /// Memory ran out.
    #[error("out of memory")]
    Memory,
}

/// Why a commit failed.
#[derive(Clone, Copy, Debug, PartialEq, Eq, Error)]
pub enum DbError {
    /// This commit failed.
    #[error("the commit failed: {0}")]
    Fault(DbFault),
    /// An earlier commit of this value had failed, with this fault.
    #[error("an earlier commit had failed: {0}")]
    Stopped(DbFault),
}

impl From<StoreError> for DbFault {
    ghost use Rattle.std.specs.Prelude.{◌≡◌};
    ghost use Rattle.database_state.specs.Faults.{fault_of};

    ghost from_gives = { λ e fault. fault ≡ fault_of e };

    fn from(e: StoreError) -> DbFault {
        match e {
            StoreError::Failed => DbFault::StoreFault,
            StoreError::Memory => DbFault::Memory,
        }
    }
}

impl From<AllocError> for DbFault {
    ghost use Rattle.std.specs.Prelude.{◌≡◌};
    ghost use Rattle.database_state.specs.declared.faults.DbFault.TheVariants.{Memory};

    ghost from_gives = { λ _ fault. fault ≡ Memory };

    fn from(_: AllocError) -> DbFault {
        DbFault::Memory
    }
}

impl<T: Drop> From<AllocFailed<T>> for DbFault {
    ghost use Rattle.std.specs.Prelude.{◌≡◌};
    ghost use Rattle.database_state.specs.declared.faults.DbFault.TheVariants.{Memory};

    ghost from_gives = { λ _ fault. fault ≡ Memory };

    fn from(_: AllocFailed<T>) -> DbFault {
        DbFault::Memory
    }
}
