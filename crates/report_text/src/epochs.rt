//! The epochs that a listing is asked for.

/// The epochs that are counted.
#[derive(Clone, Copy, Debug, PartialEq, Eq)]
pub enum Epochs {
    /// All epochs.
    All,
    /// This one.
    One(u32),
}
