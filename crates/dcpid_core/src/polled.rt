//! What a poll answers.

/// What a poll of a cell did.
#[derive(Clone, Copy, Debug, PartialEq, Eq)]
pub enum Polled {
    /// A batch was taken and noted.
    Drained,
    /// A batch was taken and given back, and nothing was noted, since the daemon keeps a fault.
    Passed,
    /// Nothing waited: the word that was read, which is even.
    Home(u64),
}
