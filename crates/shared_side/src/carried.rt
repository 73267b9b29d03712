//! What lies in the slot of a cell, the key of a cell, and what is true of every value that passes.
use assoc_table::AssocTable;
use overflow_pair::Buffer;
use sample_key::{Marked, Note};
use std::snapshot::Snapshot;
use turn_cell::{BellMark, HeardNote, Kept};

/// A value in a cell. On its way to the daemon it carries its note and what its driver had heard;
/// at home both are none.
#[derive(Drop)]
pub struct Carried<T> {
    /// The buffer or the table.
    pub body: T,
    /// The header of the batch.
    pub note: Option<Note>,
    /// What the driver had heard last when it handed the batch over.
    pub heard: Option<HeardNote>,
}

/// What a cell is made for, which never changes.
#[derive(Drop)]
pub struct CellKey {
    /// The processor, at most 15.
    pub cpu: u32,
    /// Which cell it is: 0 and 1 are the overflow buffers, 2 is the table.
    pub cell: u8,
    /// The marked samples of the processor, which take no bytes here.
    pub samples: Snapshot<Vec<Marked>>,
    /// The entries that a buffer holds, or the buckets of the table.
    pub made: usize,
    /// The bell that the driver hears.
    pub bell: BellMark,
}

impl Kept for Carried<Buffer> {
    ghost use Rattle.shared_side.specs.Carrying.{IsKeptBuffer, IsHomeBuffer};

    type Key = CellKey;

    ghost keeps = { IsKeptBuffer };

    ghost returns = { IsHomeBuffer };
}

impl Kept for Carried<AssocTable> {
    ghost use Rattle.shared_side.specs.Carrying.{IsKeptTable, IsHomeTable};

    type Key = CellKey;

    ghost keeps = { IsKeptTable };

    ghost returns = { IsHomeTable };
}
