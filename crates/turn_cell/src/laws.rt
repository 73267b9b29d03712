//! What holds of a cell and of a bell between any two steps, and what each load of their ends
//! notes. The laws are about the very rules and steps under which the ends run.
ghost use Rattle.std.specs.Prelude.{◌≡◌, ℕ};
ghost use Rattle.atomic_table.specs.Table.{State, Step, Me};
ghost use Rattle.turn_cell.specs.declared.cell_view.InSlot.{InSlot as TheInSlot};
ghost use Rattle.turn_cell.specs.declared.cell_view.View.{View as TheView};
ghost use Rattle.turn_cell.specs.declared.bell_view.BellView.{BellView as TheBellView};
ghost use Rattle.turn_cell.specs.Handoff.{IsSoundCell, IsNoted};
ghost use Rattle.turn_cell.specs.Doorbell.{IsSoundBell, IsBellNoted};

use crate::bell_view::{BellView, Hears, Meets, Rises};
use crate::cell_view::{InSlot, Looks, Polls, Turns, View};
use crate::passing::Kept;
use atomic_table::{Play, TableRule};

/// Between any two steps a cell meets the handover: what was taken is what was handed or all but
/// its last, its word says whose turn it is, each end knows its part, and what lies in the slot
/// meets its fact.
pub fn cells_stay_sound<V: Kept>()
    ensures { (key : V.Key) (state : State (TheInSlot V) (TheView V.Key V))
        → ⟦<Turns<V> as TableRule<InSlot<V>, View<V::Key, V>, V::Key>>⟧.holds key state
        → IsSoundCell V.keeps V.returns key state }
{}

/// Each look and each poll notes in the view of its end the word that it found, and counts one load
/// more. `LaneEnd::look` and `DaemonEnd::poll` load by these steps.
pub fn cell_loads_are_noted<V: Kept>()
    ensures look { (how : Step (TheInSlot V)) (word : ℕ)
        (before after : Me (TheInSlot V) (TheView V.Key V))
        → ⟦<Looks<V> as Play<InSlot<V>, View<V::Key, V>>>⟧.then how before word after
        → IsNoted before word after }
    ensures poll { (how : Step (TheInSlot V)) (word : ℕ)
        (before after : Me (TheInSlot V) (TheView V.Key V))
        → ⟦<Polls<V> as Play<InSlot<V>, View<V::Key, V>>>⟧.then how before word after
        → IsNoted before word after }
{}

/// Between any two steps the word of a bell is the value rung last, which never fell and is at most
/// 2^32, and what an end has heard is at most the word and is 0 or was rung.
pub fn bells_stay_sound()
    ensures { (state : State (Unit {0}) TheBellView)
        → ⟦<Rises as TableRule<(), BellView, ()>>⟧.holds tt state
        → IsSoundBell state }
{}

/// Each hear and each meet notes in the view of its end the word that it found, and counts one load
/// more. What was heard is that word. `HearEnd::hear` and `RingEnd::meet` load by these steps.
pub fn bell_loads_are_noted()
    ensures hear { (how : Step (Unit {0})) (word : ℕ) (before after : Me (Unit {0}) TheBellView)
        → ⟦<Hears as Play<(), BellView>>⟧.then how before word after
        → (after.0.heard ≡ word) × IsBellNoted before word after }
    ensures meet { (how : Step (Unit {0})) (word : ℕ) (before after : Me (Unit {0}) TheBellView)
        → ⟦<Meets as Play<(), BellView>>⟧.then how before word after
        → IsBellNoted before word after }
{}
