//! What a store in memory remembers of each write and removal: the name, and how it came out.

use text_num::Name;

/// How a write or a removal came out.
#[derive(Drop)]
pub enum Outcome {
    /// The name was written with these bytes.
    Written(Vec<u8>),
    /// The write failed. These bytes stand under the name now, or none; after a crash it is absent, as before, or has any
    /// bytes.
    HalfWritten(Option<Vec<u8>>),
    /// The name was removed.
    Removed,
    /// The removal failed. The name is absent now, or as before; after a crash it is either.
    HalfRemoved { gone: bool },
}

/// A write or a removal of one name.
#[derive(Drop)]
pub struct Step {
    /// The name that it changed.
    pub name: Name,
    /// How it came out.
    pub outcome: Outcome,
}
