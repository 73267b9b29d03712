//! What the daemon knows by its own doings.
ghost use Rattle.run_joins.specs.Collecting.{BooksAreKept, DaemonsCollect, BellIsKnown};

/// The daemon's books are kept by a batch that is noted and by every advance.
pub fn books_are_kept()
    ensures { BooksAreKept }
{}

/// Each of the daemon's doings keeps what it knows of the batches that it drained; at the end each flush and the close were
/// complete.
pub fn daemons_collect()
    ensures { DaemonsCollect }
{}

/// The value rung last says where the daemon stands.
pub fn bell_is_known()
    ensures { BellIsKnown }
{}
