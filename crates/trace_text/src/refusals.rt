//! Why a trace, or a line of one, was not read, and why one was not written.

use line_reader::LineFault;
use outside_io::WriteFault;
use std::alloc::{AllocError, AllocFailed};
use thiserror::Error;
use trace_model::TraceWhy;

/// Why a trace was not read.
#[derive(Clone, Copy, Debug, PartialEq, Eq, Error)]
pub enum TraceRefusal {
    /// The first bad line, counted from 1, and the first reason that applies to it.
    #[error("line {line}: {why}")]
    Bad { line: u64, why: TraceWhy },
    /// The source failed.
    #[error("a read failed")]
    ReadFault,
    /// No memory was found.
    #[error("out of memory")]
    Memory,
}

/// Why a line was not taken.
#[derive(Clone, Copy, Debug, PartialEq, Eq, Error)]
pub enum LineRefusal {
    /// The first reason that applies to the line.
    #[error("{why}")]
    Bad { why: TraceWhy },
    /// No memory was found.
    #[error("out of memory")]
    Memory,
}

/// Why a trace was not written whole.
#[derive(Clone, Copy, Debug, PartialEq, Eq, Error)]
pub enum PutError {
    /// The sink failed.
    #[error("a write failed")]
    WriteFault,
    /// No memory was found.
    #[error("out of memory")]
    Memory,
}

impl From<AllocError> for LineRefusal {
    ghost use Rattle.std.specs.Prelude.{◌≡◌};
    ghost use Rattle.trace_text.specs.declared.refusals.LineRefusal.TheVariants.{Memory};

    ghost from_gives = { λ _ e. e ≡ Memory };

    fn from(_: AllocError) -> Self {
        LineRefusal::Memory
    }
}

impl<T: Drop> From<AllocFailed<T>> for LineRefusal {
    ghost use Rattle.std.specs.Prelude.{◌≡◌};
    ghost use Rattle.trace_text.specs.declared.refusals.LineRefusal.TheVariants.{Memory};

    ghost from_gives = { λ _ e. e ≡ Memory };

    fn from(_: AllocFailed<T>) -> Self {
        LineRefusal::Memory
    }
}

impl From<TraceWhy> for LineRefusal {
    ghost use Rattle.std.specs.Prelude.{◌≡◌};
    ghost use Rattle.trace_text.specs.declared.refusals.LineRefusal.TheVariants.{Bad};

    ghost from_gives = { λ why e. e ≡ Bad why };

    fn from(why: TraceWhy) -> Self {
        LineRefusal::Bad { why }
    }
}

impl From<AllocError> for TraceRefusal {
    ghost use Rattle.std.specs.Prelude.{◌≡◌};
    ghost use Rattle.trace_text.specs.declared.refusals.TraceRefusal.TheVariants.{Memory};

    ghost from_gives = { λ _ e. e ≡ Memory };

    fn from(_: AllocError) -> Self {
        TraceRefusal::Memory
    }
}

impl From<LineFault> for TraceRefusal {
    ghost use Rattle.trace_text.specs.Refusing.{IsOfLineFault};

    ghost from_gives = { IsOfLineFault };

    fn from(fault: LineFault) -> Self {
        match fault {
            LineFault::ReadFault => TraceRefusal::ReadFault,
            LineFault::Memory => TraceRefusal::Memory,
        }
    }
}

impl From<AllocError> for PutError {
    ghost use Rattle.std.specs.Prelude.{◌≡◌};
    ghost use Rattle.trace_text.specs.declared.refusals.PutError.TheVariants.{Memory};

    ghost from_gives = { λ _ e. e ≡ Memory };

    fn from(_: AllocError) -> Self {
        PutError::Memory
    }
}

impl From<WriteFault> for PutError {
    ghost use Rattle.std.specs.Prelude.{◌≡◌};
    ghost use Rattle.trace_text.specs.declared.refusals.PutError.TheVariants as puts;

    ghost from_gives = { λ _ e. e ≡ puts.WriteFault };

    fn from(_: WriteFault) -> Self {
        PutError::WriteFault
    }
}
