//! What one cell holds at one hand: a parcel on its way, and a batch as the daemon keeps it.
use crate::entries::Entry;
use crate::notes::Note;
use std::marker::Model;

/// A buffer or a table on its way between the driver and the daemon, with its note.
#[derive(Debug, Drop)]
pub struct Parcel<B> {
    /// The header.
    pub note: Note,
    /// What is handed over.
    pub body: B,
}

/// What one cell held at one hand: a note, and the list of entries.
#[derive(Debug, Drop)]
pub struct Batch {
    /// The header.
    pub note: Note,
    /// The entries, in the order of the buffer, or of the table by bucket and index.
    pub entries: Vec<Entry>,
}

impl Model for Batch {
    ghost use Rattle.sample_key.specs.Sent.{Sent};

    ghost Value = { Sent };

    ghost view = { λ b. record { note = b.note; entries = b.entries.items } };
}
