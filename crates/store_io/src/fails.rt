//! The calls at which a store in memory is to fail.

/// What a failed call leaves under its name. After a failed removal `Bytes` counts as `AsBefore`; a call that only reads
/// leaves all as it was.
#[derive(Drop)]
pub enum Left {
    /// Nothing is there.
    Absent,
    /// What stood there before.
    AsBefore,
    /// These bytes.
    Bytes(Vec<u8>),
}

/// A call that is to fail, and what it leaves.
#[derive(Drop)]
pub struct StoreFail {
    /// Its number, from 1, over calls of all four kinds.
    pub call: u64,
    /// What it leaves under its name.
    pub left: Left,
}
