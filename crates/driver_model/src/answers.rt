//! What adding a sample and a turn of a driver answer.

use sample_key::{Entry, Loss};

/// What adding a sample to the table did.
#[derive(Clone, Copy, Debug, PartialEq, Eq)]
pub enum Added {
    /// The count of the key's entry rose by one.
    Folded,
    /// The key got an entry of its own in a free way.
    Placed,
    /// The key took the way of this entry, which is given out.
    Evicted(Entry),
    /// The key's entry was full; it is given out, and the key begins again at one.
    Spilt(Entry),
}

/// What one turn of a driver did.
#[derive(Clone, Copy, Debug, PartialEq, Eq)]
pub enum Turn {
    /// A sample was taken.
    Took,
    /// A sample was lost, since both overflow buffers were out.
    Lost(Loss),
    /// The next sample is not due, or waits for a buffer.
    Held,
    /// A flush was answered.
    Answered,
    /// No sample is left, and nothing was answered.
    Idle,
    /// The close was answered, now or before.
    Done,
}
