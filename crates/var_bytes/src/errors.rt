//! The error of reading a value in a format, which every reader over this crate answers.

use crate::fields::BadField;
use std::alloc::{AllocError, AllocFailed};
use thiserror::Error;

/// Why bytes were not read in a format.
#[derive(Clone, Copy, Debug, PartialEq, Eq, Error)]
pub enum FormError {
    /// The bytes tell no value of the format.
    #[error("the field at byte {at} is bad")]
    Bad {
        /// The index of the first byte of the first bad field; where all fields are good, of the first byte after
        /// them.
        at: usize,
    },
    /// Memory ran out.
    #[error("out of memory")]
    Memory,
}

impl From<BadField> for FormError {
    ghost use Rattle.std.specs.Prelude.{◌≡◌};
    ghost use Rattle.var_bytes.specs.declared.errors.FormError.TheVariants.{Bad};

    ghost from_gives = { λ field e. e ≡ Bad field.at };

    fn from(field: BadField) -> FormError {
        FormError::Bad { at: field.at }
    }
}

impl From<AllocError> for FormError {
    ghost use Rattle.std.specs.Prelude.{◌≡◌};
    ghost use Rattle.var_bytes.specs.declared.errors.FormError.TheVariants.{Memory};

    ghost from_gives = { λ _ e. e ≡ Memory };

    fn from(_: AllocError) -> FormError {
        FormError::Memory
    }
}

impl<T: Drop> From<AllocFailed<T>> for FormError {
    ghost use Rattle.std.specs.Prelude.{◌≡◌};
    ghost use Rattle.var_bytes.specs.declared.errors.FormError.TheVariants.{Memory};

    ghost from_gives = { λ _ e. e ≡ Memory };

    fn from(_: AllocFailed<T>) -> FormError {
        FormError::Memory
    }
}
