//! How a line ended, and why none was read.

use outside_io::ReadFailed;
use std::alloc::AllocError;
use thiserror::Error;

/// How a line ended.
#[derive(Clone, Copy, Debug, PartialEq, Eq)]
pub enum Ending {
    /// By a line feed.
    Finished,
    /// By the end of the input.
    Unfinished,
    /// It did not end within its limit.
    TooLong,
}

/// Why a line was not read.
#[derive(Clone, Copy, Debug, PartialEq, Eq, Error)]
pub enum LineFault {
    /// The source failed.
    #[error("a read failed")]
    ReadFault,
    /// No memory was found.
    #[error("out of memory")]
    Memory,
}

impl From<ReadFailed> for LineFault {
    ghost use Rattle.std.specs.Prelude.{◌≡◌};
    ghost use Rattle.line_reader.specs.declared.faults.LineFault.TheVariants.{ReadFault};

    ghost from_gives = { λ _ e. e ≡ ReadFault };

    fn from(_: ReadFailed) -> Self {
        LineFault::ReadFault
    }
}

impl From<AllocError> for LineFault {
    ghost use Rattle.std.specs.Prelude.{◌≡◌};
    ghost use Rattle.line_reader.specs.declared.faults.LineFault.TheVariants.{Memory};

    ghost from_gives = { λ _ e. e ≡ Memory };

    fn from(_: AllocError) -> Self {
        LineFault::Memory
    }
}
