//! Why a line of a symbol list, or the list, was not taken.

use line_reader::LineFault;
use std::alloc::{AllocError, AllocFailed};
use thiserror::Error;

/// Why a line is refused, in the order in which a line is tested.
#[derive(Clone, Copy, Debug, PartialEq, Eq, Error)]
pub enum SymbolWhy {
    /// The input ends in this line without a line feed, after 1 to 600 bytes.
    #[error("the input stops in this line")]
    Unfinished,
    /// The line has not four fields, or its first 601 bytes hold no line feed.
    #[error("the line has not four fields")]
    BadLine,
    /// The start or the length has a leading zero, an upper-case digit, or is none.
    #[error("a number is not canonical")]
    BadNumber,
    /// The start is 2^64 or more, the length is 0, or the end is above 2^64 - 4.
    #[error("a number is out of its range")]
    OutOfRange,
    /// The start or the length is no multiple of 4.
    #[error("an offset or a length is no multiple of 4")]
    Unaligned,
    /// The image or the procedure is no name: 1 to 255 visible ASCII bytes.
    #[error("an image or a procedure is no name")]
    BadName,
    /// The range shares an offset with the range of an earlier line of the same image.
    #[error("the range overlaps an earlier one of its image")]
    Overlap,
    /// The line is past the 1,048,576th.
    #[error("there are too many lines")]
    TooMany,
}

impl SymbolWhy {
    ghost use Rattle.std.specs.Prelude.{◌≡◌};
    ghost use Rattle.symbol_ranges.specs.Words.{word_of};

    /// The word for the reason: the variant's name.
    pub fn word(self) -> &'static [u8]
        ensures { result.now ≡ word_of self }
    {
        match self {
            SymbolWhy::Unfinished => b"Unfinished",
            SymbolWhy::BadLine => b"BadLine",
            SymbolWhy::BadNumber => b"BadNumber",
            SymbolWhy::OutOfRange => b"OutOfRange",
            SymbolWhy::Unaligned => b"Unaligned",
            SymbolWhy::BadName => b"BadName",
            SymbolWhy::Overlap => b"Overlap",
            SymbolWhy::TooMany => b"TooMany",
        }
    }
}

/// Why a line was not added.
#[derive(Clone, Copy, Debug, PartialEq, Eq, Error)]
pub enum SymbolLineError {
    /// The first reason that applies to the line.
    #[error("{why}")]
    Bad { why: SymbolWhy },
    /// No memory was found.
    #[error("out of memory")]
    Memory,
}

/// Why a symbol list was not read.
#[derive(Clone, Copy, Debug, PartialEq, Eq, Error)]
pub enum SymbolRefusal {
    /// The first bad line, counted from 1, and the first reason that applies to it.
    #[error("line {line}: {why}")]
    Bad { line: u64, why: SymbolWhy },
    /// The source failed.
    #[error("a read failed")]
    ReadFault,
    /// No memory was found.
    #[error("out of memory")]
    Memory,
}

impl From<SymbolWhy> for SymbolLineError {
    ghost use Rattle.std.specs.Prelude.{◌≡◌};
    ghost use Rattle.symbol_ranges.specs.declared.refusals.SymbolLineError.TheVariants.{Bad};

    ghost from_gives = { λ why e. e ≡ Bad why };

    fn from(why: SymbolWhy) -> Self {
        SymbolLineError::Bad { why }
    }
}

impl From<AllocError> for SymbolLineError {
    ghost use Rattle.std.specs.Prelude.{◌≡◌};
    ghost use Rattle.symbol_ranges.specs.declared.refusals.SymbolLineError.TheVariants.{Memory};

    ghost from_gives = { λ _ e. e ≡ Memory };

    fn from(_: AllocError) -> Self {
        SymbolLineError::Memory
    }
}

impl<T: Drop> From<AllocFailed<T>> for SymbolLineError {
    ghost use Rattle.std.specs.Prelude.{◌≡◌};
    ghost use Rattle.symbol_ranges.specs.declared.refusals.SymbolLineError.TheVariants.{Memory};

    ghost from_gives = { λ _ e. e ≡ Memory };

    fn from(_: AllocFailed<T>) -> Self {
        SymbolLineError::Memory
    }
}

impl From<AllocError> for SymbolRefusal {
    ghost use Rattle.std.specs.Prelude.{◌≡◌};
    ghost use Rattle.symbol_ranges.specs.declared.refusals.SymbolRefusal.TheVariants.{Memory};

    ghost from_gives = { λ _ e. e ≡ Memory };

    fn from(_: AllocError) -> Self {
        SymbolRefusal::Memory
    }
}

impl From<LineFault> for SymbolRefusal {
    ghost use Rattle.symbol_ranges.specs.Reading.{IsOfLineFault};

    ghost from_gives = { IsOfLineFault };

    fn from(fault: LineFault) -> Self {
        match fault {
            LineFault::ReadFault => SymbolRefusal::ReadFault,
            LineFault::Memory => SymbolRefusal::Memory,
        }
    }
}
