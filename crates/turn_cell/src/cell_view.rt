//! A cell as its table sees it: the rule, what an end knows, what lies in the slot, and what each
//! step tells.
ghost use Rattle.std.specs.Prelude.{◌≡◌};
ghost use Rattle.turn_cell.specs.Handoff.{value_in};

use crate::passing::{Kept, Parcel};
use atomic_table::{Join, Play, Split, TableRule};
use std::collections::LinkedList;
use std::marker::PhantomData;

/// The rule of a cell.
pub struct Turns<V> {
    kind: PhantomData<V>,
}

impl<V: Kept> TableRule<InSlot<V>, View<V::Key, V>, V::Key> for Turns<V> {
    ghost use Rattle.turn_cell.specs.Handoff.{TakesTurns, first_view};

    ghost holds = { TakesTurns V.keeps V.returns };

    ghost first = { first_view };
}

/// What an end knows. No value of it is made.
pub struct View<K, V> {
    /// Which end it is.
    pub role: Role,
    /// The key of the cell, which a spent seat does not know.
    pub key: Option<K>,
    /// All parcels that it handed, in order.
    pub handed: LinkedList<Parcel<V>>,
    /// All parcels that it took, in order.
    pub taken: LinkedList<Parcel<V>>,
    /// How many values it gave back.
    pub backs: u64,
    /// Whether it is the lane's end and holds the value.
    pub lane_holds: bool,
    /// Whether it is the daemon's end and holds the value.
    pub daemon_holds: bool,
    /// The word that its last look or poll found.
    pub read: u64,
    /// Its looks or polls.
    pub loads: u64,
}

/// The role of a seat. The first seat is cut into the lane's and the daemon's. To close a cell the
/// daemon's seat sets its slot down, both are joined, and a seat that was joined to another, or has
/// taken the slot at the end, is spent.
pub enum Role {
    Whole,
    Lane,
    Daemon,
    SetDown,
    Joined,
    Spent,
}

/// What lies in the slot.
#[derive(Drop)]
pub enum InSlot<V> {
    /// Nothing, while an end holds the value.
    Empty,
    /// The value, which was given back or was never handed.
    Resting(V),
    /// A parcel that was handed and not taken.
    Sent(Parcel<V>),
}

impl<V: Drop> InSlot<V> {
    /// The value in it, if there is one.
    pub fn into_value(self) -> Option<V>
        ensures { result ≡ value_in self }
    {
        match self {
            InSlot::Empty => None,
            InSlot::Resting(value) => Some(value),
            InSlot::Sent(parcel) => Some(parcel.value),
        }
    }
}

/// The first seat is cut into the two ends, which are joined at the close.
pub struct TwoEnds<V> {
    kind: PhantomData<V>,
}

impl<V: Kept> Split<View<V::Key, V>> for TwoEnds<V> {
    ghost use Rattle.turn_cell.specs.Handoff.{lane_part, daemon_part};

    ghost left = { lane_part };

    ghost right = { daemon_part };
}

impl<V: Kept> Join<View<V::Key, V>> for TwoEnds<V> {
    ghost use Rattle.turn_cell.specs.Handoff.{both_parts, spent_view};

    ghost both = { both_parts };

    ghost spent = { spent_view };
}

/// The lane's end loads the word, and takes a value that is back.
pub struct Looks<V> {
    kind: PhantomData<V>,
}

impl<V: Kept> Play<InSlot<V>, View<V::Key, V>> for Looks<V> {
    ghost use Rattle.turn_cell.specs.Handoff.{looked};

    ghost then = { λ _ m n m'. looked V.returns m n m' };
}

/// The lane's end raises the word, and gives its slot home.
pub struct Hands<V> {
    kind: PhantomData<V>,
}

impl<V: Kept> Play<InSlot<V>, View<V::Key, V>> for Hands<V> {
    ghost use Rattle.turn_cell.specs.Handoff.{gave_over};

    ghost then = { λ _ m _ m'. gave_over m m' };
}

/// The daemon's end loads the word, and takes a parcel that is there.
pub struct Polls<V> {
    kind: PhantomData<V>,
}

impl<V: Kept> Play<InSlot<V>, View<V::Key, V>> for Polls<V> {
    ghost use Rattle.turn_cell.specs.Handoff.{polled};

    ghost then = { λ _ m n m'. polled V.keeps m n m' };
}

/// The daemon's end raises the word, and gives its slot home.
pub struct GivesBack<V> {
    kind: PhantomData<V>,
}

impl<V: Kept> Play<InSlot<V>, View<V::Key, V>> for GivesBack<V> {
    ghost use Rattle.turn_cell.specs.Handoff.{gave_back};

    ghost then = { λ _ m _ m'. gave_back m m' };
}

/// At the close the daemon's end loads the word, and gives a slot home that it has.
pub struct SetsDown<V> {
    kind: PhantomData<V>,
}

impl<V: Kept> Play<InSlot<V>, View<V::Key, V>> for SetsDown<V> {
    ghost use Rattle.turn_cell.specs.Handoff.{set_down};

    ghost then = { λ _ m _ m'. set_down m m' };
}

/// At the close the joined end loads the word, and takes the slot.
pub struct Closes<V> {
    kind: PhantomData<V>,
}

impl<V: Kept> Play<InSlot<V>, View<V::Key, V>> for Closes<V> {
    ghost use Rattle.turn_cell.specs.Handoff.{ended};

    ghost then = { λ _ m n m'. ended V.keeps V.returns m n m' };
}
