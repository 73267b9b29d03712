//! What the daemon answers when it is asked to go on.

/// What one advance of the daemon did.
#[derive(Clone, Copy, Debug, PartialEq, Eq)]
pub enum Advanced {
    /// The next record was put in force.
    Moved,
    /// A flush was asked for before the next record, or the close where no record is left.
    Opened,
    /// A flush is asked for and this is the first processor of which it is not complete.
    Waiting {
        /// The processor, at most 15.
        cpu: u32,
    },
    /// The close was complete: the run is finished.
    Finished,
}
