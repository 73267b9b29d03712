//! Why no change was made.

use std::alloc::{AllocError, AllocFailed};
use thiserror::Error;

/// Why no change was made.
#[derive(Clone, Copy, Debug, PartialEq, Eq, Error)]
pub enum NoChange {
    /// It would not fit the database, or its bytes are bad.
    #[error("the change does not fit")]
    NotFitting,
    /// Memory ran out.
    #[error("out of memory")]
    Memory,
}

impl From<AllocError> for NoChange {
    ghost use Rattle.std.specs.Prelude.{◌≡◌};
    ghost use Rattle.database_tests.specs.declared.errors.NoChange.TheVariants.{Memory};

    ghost from_gives = { λ _ e. e ≡ Memory };

    fn from(_: AllocError) -> NoChange {
        NoChange::Memory
    }
}

impl<T: Drop> From<AllocFailed<T>> for NoChange {
    ghost use Rattle.std.specs.Prelude.{◌≡◌};
    ghost use Rattle.database_tests.specs.declared.errors.NoChange.TheVariants.{Memory};

    ghost from_gives = { λ _ e. e ≡ Memory };

    fn from(_: AllocFailed<T>) -> NoChange {
        NoChange::Memory
    }
}
