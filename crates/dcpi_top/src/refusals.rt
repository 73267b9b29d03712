//! Why a command writes no whole text: one variant for each status that is not 0.
ghost use Rattle.std.specs.Prelude.{◌≡◌};
ghost use Rattle.dcpi_top.specs.Refusals.{IsOfDatabase, IsOfSymbols, IsOfTrace, status_of};
ghost use Rattle.dcpi_top.specs.declared.refusals.Refusal.TheVariants.{Memory, WriteFault};

use database_state::{DbFault, FullWhat};
use std::alloc::AllocError;
use store_io::FileRef;
use symbol_ranges::{SymbolRefusal, SymbolWhy};
use trace_text::{TraceRefusal, TraceWhy};

/// Why a command wrote no whole text. Each variant has a status and a line on the error output.
#[derive(Clone, Copy, Debug, PartialEq, Eq)]
pub enum Refusal {
    /// The words have no form of a command: status 1.
    Usage,
    /// The trace is not in the grammar: status 2.
    TraceBad {
        /// The first bad line, counted from 1.
        line: u64,
        /// The first reason that applies to it.
        why: TraceWhy,
    },
    /// A read of the input failed: status 3.
    ReadFault,
    /// A call of the store failed: status 4.
    StoreFault,
    /// A write to the output failed: status 5.
    WriteFault,
    /// No memory was found: status 6.
    Memory,
    /// A file of the database is missing or not in its format: status 7.
    DatabaseBad {
        /// The file.
        file: FileRef,
    },
    /// The database is full: status 8.
    Full {
        /// What has no room.
        what: FullWhat,
        /// How many images or rows there are, or the count that the place has.
        held: u64,
        /// How many images or rows, or how much of a count, were to be added.
        added: u128,
    },
    /// The symbol list is not in the grammar: status 9.
    SymbolBad {
        /// The first bad line, counted from 1.
        line: u64,
        /// The first reason that applies to it.
        why: SymbolWhy,
    },
    /// The epoch that was asked for is above the last one: status 10.
    NoSuchEpoch {
        /// The epoch that was asked for.
        epoch: u32,
        /// The last epoch of the database.
        last: u32,
    },
}

impl Refusal {
    /// The exit status.
    pub fn status(&self) -> u8
        ensures { result ≡ status_of self.now }
    {
        match self {
            Refusal::Usage => 1,
            Refusal::TraceBad { line: _, why: _ } => 2,
            Refusal::ReadFault => 3,
            Refusal::StoreFault => 4,
            Refusal::WriteFault => 5,
            Refusal::Memory => 6,
            Refusal::DatabaseBad { file: _ } => 7,
            Refusal::Full {
                what: _,
                held: _,
                added: _,
            } => 8,
            Refusal::SymbolBad { line: _, why: _ } => 9,
            Refusal::NoSuchEpoch { epoch: _, last: _ } => 10,
        }
    }
}

impl From<TraceRefusal> for Refusal {
    ghost from_gives = { IsOfTrace };

    fn from(refusal: TraceRefusal) -> Self {
        match refusal {
            TraceRefusal::Bad { line, why } => Refusal::TraceBad { line, why },
            TraceRefusal::ReadFault => Refusal::ReadFault,
            TraceRefusal::Memory => Refusal::Memory,
        }
    }
}

impl From<SymbolRefusal> for Refusal {
    ghost from_gives = { IsOfSymbols };

    fn from(refusal: SymbolRefusal) -> Self {
        match refusal {
            SymbolRefusal::Bad { line, why } => Refusal::SymbolBad { line, why },
            SymbolRefusal::ReadFault => Refusal::ReadFault,
            SymbolRefusal::Memory => Refusal::Memory,
        }
    }
}

impl From<DbFault> for Refusal {
    ghost from_gives = { IsOfDatabase };

    fn from(fault: DbFault) -> Self {
        match fault {
            DbFault::StoreFault => Refusal::StoreFault,
            DbFault::Bad { file } => Refusal::DatabaseBad { file },
            DbFault::Full { what, held, added } => Refusal::Full { what, held, added },
            DbFault::Memory => Refusal::Memory,
        }
    }
}

impl From<AllocError> for Refusal {
    ghost from_gives = { λ _ refusal. refusal ≡ Memory };

    fn from(_: AllocError) -> Self {
        Refusal::Memory
    }
}

impl From<outside_io::WriteFault> for Refusal {
    ghost from_gives = { λ _ refusal. refusal ≡ WriteFault };

    fn from(_fault: outside_io::WriteFault) -> Self {
        Refusal::WriteFault
    }
}
