//! The ends of a bell: one that rings, any number that hear, and the notes by which the ringing end
//! learns what was heard. The word is the value rung last. Each end has one function that loads it.
ghost use Rattle.std.specs.Prelude.{◌≡◌, ◌+◌, ◌^◌, ◌≤◌, true, false, [], ◌∷◌, ◌++◌, IfOk};
ghost use Rattle.atomic_table.specs.Seated.{TableId};
ghost use Rattle.turn_cell.specs.Doorbell.{last_rung, IsRungOrZero, met, heard, IsBellNoted};
ghost use Rattle.turn_cell.specs.Ends.{IsBellSeat};

use crate::bell_view::{BellView, Hears, Meets, Notes, Rings, Rises};
use atomic_table::{Seat, Shared, Table};
use std::alloc::{AllocError, Global};
use std::marker::Model;
use std::snapshot::Snapshot;
use std::sync::Arc;

/// A word that one thread rings and others hear.
pub struct Bell;

impl Bell {
    /// A bell that was not rung, whose word is 0. It fails only where there is no memory.
    pub fn new(alloc: Global) -> Result<(RingEnd, HearEnd), AllocError>
        ensures bell { IfOk result (λ ends. ends.0.bell ≡ ends.1.bell) }
        ensures ring { IfOk result (λ ends. (ends.0.rungs ≡ []) × (ends.0.noted ≡ 0)) }
        ensures meets { IfOk result (λ ends. (ends.0.read ≡ 0) × (ends.0.meets ≡ 0)) }
        ensures hear { IfOk result (λ ends. (ends.1.heard ≡ 0) × (ends.1.hears ≡ 0)) }
    {
        let (table, mut seat) = Table::of_words(alloc, &[0], &())?;
        let theirs = table.shared.split_seat::<Notes>(&mut seat);
        let table = Arc::new(alloc, table)?;
        let other = Arc::try_clone(&table)?;
        Ok((
            RingEnd { table, seat },
            HearEnd {
                table: other,
                seat: theirs,
            },
        ))
    }
}

/// The ringing end. Contracts see its bell, the values rung, the noted value that it met last, the
/// word that its last meeting read, and its meetings.
#[derive(Drop)]
pub struct RingEnd {
    table: Arc<Table<(), BellView, (), Rises, Global>, Global>,
    seat: Seat<(), BellView>,
}

impl Model for RingEnd {
    ghost use Rattle.std.specs.Prelude.{true};
    ghost use Rattle.std.specs.Arc.{arc_value};
    ghost use Rattle.turn_cell.specs.Ends.{RingSeen, IsBellSeat, ring_seen};

    ghost Value = { RingSeen };

    ghost view = { λ e. ring_seen e.seat.table_id e.seat.me.0 };

    ghost invariant = { λ e. IsBellSeat true
        e.seat.table_id (arc_value e.table).shared.table_id e.seat.me };
}

impl RingEnd {
    /// Stores the value.
    pub fn ring(&mut self, value: u64)
        requires rising { last_rung self.old.rungs ≤ value }
        requires bound { value ≤ 2 ^ 32 }
        ensures stays { (self.new.bell ≡ self.old.bell) × (self.new.noted ≡ self.old.noted) }
        ensures loads { (self.new.read ≡ self.old.read) × (self.new.meets ≡ self.old.meets) }
        ensures rungs { self.new.rungs ≡ self.old.rungs ++ value ∷ [] }
    {
        self.table.shared.store::<Rings>(&mut self.seat, 0, value);
    }

    /// Names this bell. It makes no step.
    pub fn mark(&self) -> BellMark
        ensures { result ≡ self.now.bell }
    {
        BellMark {
            of: Snapshot::of(&self.seat),
        }
    }

    /// Takes in a note, and learns by one load of the word, which is the value rung last, that the
    /// noted value is 0 or was rung, and is at most the word.
    pub fn meet(&mut self, note: HeardNote)
        requires { note.bell ≡ self.old.bell }
        ensures stays { (self.new.bell ≡ self.old.bell) × (self.new.rungs ≡ self.old.rungs) }
        ensures counted { self.new.meets ≡ self.old.meets + 1 }
        ensures read { self.new.read ≡ last_rung self.old.rungs }
        ensures noted { self.new.noted ≡ note.value }
        ensures rung { IsRungOrZero self.old.rungs note.value }
        ensures below { note.value ≤ last_rung self.old.rungs }
    {
        self.take_in(note);
        self.confirm();
    }

    // Joins the note's seat to this one.
    fn take_in(&mut self, note: HeardNote)
        requires { note.bell ≡ self.old.bell }
        ensures { self.new ≡ record self.old { noted = note.value } }
    {
        let HeardNote { seat } = note;
        self.table.shared.join_seat::<Notes>(&mut self.seat, seat);
    }

    // Learns of the noted value.
    fn confirm(&mut self)
        ensures stays { (self.new.bell ≡ self.old.bell) × (self.new.rungs ≡ self.old.rungs) }
        ensures counted { self.new.meets ≡ self.old.meets + 1 }
        ensures read { self.new.read ≡ last_rung self.old.rungs }
        ensures noted { self.new.noted ≡ self.old.noted }
        ensures rung { IsRungOrZero self.old.rungs self.old.noted }
        ensures below { self.old.noted ≤ last_rung self.old.rungs }
    {
        load_by_ringer(&self.table.shared, &mut self.seat);
    }
}

// The one load of the ringing end. It notes the word that it found.
fn load_by_ringer(shared: &Shared<(), BellView, (), Rises>, seat: &mut Seat<(), BellView>) -> u64
    requires { IsBellSeat true seat.old.table_id shared.now.table_id seat.old.me }
    ensures same { seat.new.table_id ≡ seat.old.table_id }
    ensures step { met seat.old.me result seat.new.me }
    ensures noted { IsBellNoted seat.old.me result seat.new.me }
{
    shared.load::<Meets>(seat, 0)
}

/// A hearing end. Contracts see its bell, the value heard last, and how often it heard.
#[derive(Drop)]
pub struct HearEnd {
    table: Arc<Table<(), BellView, (), Rises, Global>, Global>,
    seat: Seat<(), BellView>,
}

impl Model for HearEnd {
    ghost use Rattle.std.specs.Prelude.{false};
    ghost use Rattle.std.specs.Arc.{arc_value};
    ghost use Rattle.turn_cell.specs.Ends.{HearSeen, IsBellSeat, hear_seen};

    ghost Value = { HearSeen };

    ghost view = { λ e. hear_seen e.seat.table_id e.seat.me.0 };

    ghost invariant = { λ e. IsBellSeat false
        e.seat.table_id (arc_value e.table).shared.table_id e.seat.me };
}

impl HearEnd {
    /// One load of the word, which is 0 before the first ring.
    pub fn hear(&mut self) -> u64
        ensures stays { self.new.bell ≡ self.old.bell }
        ensures heard { self.new.heard ≡ result }
        ensures counted { self.new.hears ≡ self.old.hears + 1 }
        ensures rising { self.old.heard ≤ result }
        ensures bound { result ≤ 2 ^ 32 }
    {
        load_by_hearer(&self.table.shared, &mut self.seat)
    }

    /// A note of the value heard last.
    pub fn note(&mut self) -> HeardNote
        ensures stays { self.new ≡ self.old }
        ensures note { (result.bell ≡ self.old.bell) × (result.value ≡ self.old.heard) }
    {
        HeardNote {
            seat: self.table.shared.split_seat::<Notes>(&mut self.seat),
        }
    }
}

// The one load of a hearing end. It notes the word that it found, as what was heard.
fn load_by_hearer(shared: &Shared<(), BellView, (), Rises>, seat: &mut Seat<(), BellView>) -> u64
    requires { IsBellSeat false seat.old.table_id shared.now.table_id seat.old.me }
    ensures same { seat.new.table_id ≡ seat.old.table_id }
    ensures step { heard seat.old.me result seat.new.me }
    ensures noted { IsBellNoted seat.old.me result seat.new.me }
    ensures word { seat.new.me.0.heard ≡ result }
{
    shared.load::<Hears>(seat, 0)
}

/// What a hearing end had heard last, in a value without bytes. It can lie in the slot of a cell.
#[derive(Drop)]
pub struct HeardNote {
    seat: Seat<(), BellView>,
}

impl Model for HeardNote {
    ghost use Rattle.std.specs.Prelude.{◌≡◌, []};
    ghost use Rattle.turn_cell.specs.Ends.{NoteSeen};

    ghost Value = { NoteSeen };

    ghost view = { λ e. record { bell = e.seat.table_id; value = e.seat.me.0.heard } };

    ghost invariant = { λ e. e.seat.me.1 ≡ [] };
}

/// Names a bell to contracts, in a value without bytes.
#[derive(Drop)]
pub struct BellMark {
    of: Snapshot<Seat<(), BellView>>,
}

impl Model for BellMark {
    ghost use Rattle.atomic_table.specs.Seated.{TableId, table_id_coded};

    ghost Value = { TableId };

    ghost coded = { table_id_coded };

    ghost view = { λ e. e.of.value.table_id };
}
