//! One way of a bucket or one place of a buffer: a key and how many samples it stands for.
use crate::keys::Key;
use std::marker::Model;

/// A key and how many samples of it were counted, from 1 to 65,535, as one of the four ways of a bucket holds it
/// (Anderson et al., ACM TOCS 15(4), section 4.2.1).
#[derive(Clone, Copy, Debug, PartialEq, Eq)]
pub struct Entry {
    /// What was counted.
    pub key: Key,
    /// How often, from 1 to 65,535.
    pub count: u32,
}

impl Model for Entry {
    ghost use Rattle.std.specs.Prelude.{◌≤◌};
    ghost use Rattle.sample_key.specs.Counted.{Counted};
    ghost use Rattle.sample_key.specs.declared.limits.TheConstants.{MOST_COUNT};

    ghost Value = { Counted };

    ghost view = { λ e. record { key = e.key; count = e.count } };

    ghost invariant = { λ e. (1 ≤ e.count) × (e.count ≤ MOST_COUNT) };

    ghost inverse = { λ c. record { key = c.key; count = c.count } };
}
