//! A value with a key, and a generic caller.
ghost use Rattle.std.specs.Prelude.{◌≡◌, ◌^◌, ◌<◌, true, false, ◌∷◌, ◌++◌, [], length, MatchOption};

use turn_cell::{DaemonEnd, Kept, LaneEnd, Parcel, PollOf};

/// A crate of a size that is loaded and emptied, and remembers the number under which it was last
/// sent.
#[derive(Drop)]
pub struct Crate {
    /// The size of the crates of its cell.
    pub size: u64,
    /// How much is in it, at most its size.
    pub load: u64,
    /// The number of the parcel that it was in last, 0 before the first.
    pub sent: u64,
}

/// The size of the crates of one cell.
#[derive(Drop)]
pub struct Size {
    /// How much a crate takes.
    pub size: u64,
}

impl Kept for Crate {
    ghost use Rattle.std.specs.Prelude.{◌≡◌, ◌≤◌, MatchOption};

    type Key = Size;

    ghost keeps = { λ k p. (p.value.size ≡ k.size) × (p.value.load ≤ k.size)
        × (p.value.sent ≡ p.number) };

    ghost returns = { λ k last x. (x.size ≡ k.size) × (x.load ≡ 0)
        × MatchOption last (x.sent ≡ 0) (λ p. x.sent ≡ p.number) };
}

/// An empty crate that was never sent.
pub fn new_crate(size: u64) -> Crate
    ensures { (result.size ≡ size) × (result.load ≡ 0) × (result.sent ≡ 0) }
{
    Crate {
        size,
        load: 0,
        sent: 0,
    }
}

/// Hands a parcel over, and polls for it at the other end.
pub fn pass<V: Kept>(
    lane: &mut LaneEnd<V>,
    daemon: &mut DaemonEnd<V>,
    parcel: Parcel<V>,
) -> Option<Parcel<V>>
    requires lane { (lane.old.holds ≡ true) × (length lane.old.handed < 2 ^ 62) }
    requires daemon { daemon.old.holds ≡ false }
    requires keeps { V.keeps lane.old.key parcel }
    ensures handed { (lane.new.handed ≡ lane.old.handed ++ parcel ∷ []) × (lane.new.holds ≡ false) }
    ensures taken { MatchOption result
        ((daemon.new.taken ≡ daemon.old.taken) × (daemon.new.holds ≡ false))
        (λ p. (daemon.new.taken ≡ daemon.old.taken ++ p ∷ []) × (daemon.new.holds ≡ true)
        × V.keeps daemon.old.key p) }
    ensures lane_stays { (lane.new.cell ≡ lane.old.cell) × (lane.new.key ≡ lane.old.key) }
    ensures daemon_stays { (daemon.new.cell ≡ daemon.old.cell)
        × (daemon.new.key ≡ daemon.old.key) }
{
    lane.hand(parcel);
    match daemon.poll() {
        PollOf::Parcel(parcel) => Some(parcel),
        PollOf::Home(_) => None,
    }
}
