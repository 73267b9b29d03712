//! A bell as its table sees it: what an end knows, the rule, and what each step tells.
use atomic_table::{Join, Play, Split, TableRule};
use std::collections::LinkedList;

/// The rule of a bell.
pub struct Rises;

impl TableRule<(), BellView, ()> for Rises {
    ghost use Rattle.turn_cell.specs.Doorbell.{RisesOnly, ringer};

    ghost holds = { λ _ s. RisesOnly s };

    ghost first = { λ _. ringer };
}

/// What an end knows. No value of it is made.
pub struct BellView {
    /// Whether it is the end that rings.
    pub rings: bool,
    /// All values that it rang, in order.
    pub rungs: LinkedList<u64>,
    /// The value that it heard last, or of the note that it met last.
    pub heard: u64,
    /// The word that its last load found.
    pub read: u64,
    /// Its loads.
    pub loads: u64,
}

/// A note is cut from a seat, and joined to the ringing one.
pub struct Notes;

impl Split<BellView> for Notes {
    ghost use Rattle.turn_cell.specs.Doorbell.{hearer};

    ghost left = { λ v. v };

    ghost right = { λ v. hearer v.heard };
}

impl Join<BellView> for Notes {
    ghost use Rattle.turn_cell.specs.Doorbell.{hearer, with_noted};

    ghost both = { with_noted };

    ghost spent = { hearer 0 };
}

/// The ringing end stores a value.
pub struct Rings;

impl Play<(), BellView> for Rings {
    ghost use Rattle.turn_cell.specs.Doorbell.{rang};

    ghost then = { λ _ m n m'. rang m n m' };
}

/// The ringing end loads the word, after it joined a note.
pub struct Meets;

impl Play<(), BellView> for Meets {
    ghost use Rattle.turn_cell.specs.Doorbell.{met};

    ghost then = { λ _ m n m'. met m n m' };
}

/// A hearing end loads the word.
pub struct Hears;

impl Play<(), BellView> for Hears {
    ghost use Rattle.turn_cell.specs.Doorbell.{heard};

    ghost then = { λ _ m n m'. heard m n m' };
}
