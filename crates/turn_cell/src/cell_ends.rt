//! The two ends of a turn cell. The word is the number of hands and give-backs, so that it is even
//! where the turn is the lane's. Each end has one function that loads the word, and only `close`
//! loads besides.
ghost use Rattle.std.specs.Prelude.{◌≡◌, ◌+◌, ◌*◌, ◌^◌, ◌<◌, ◌↔◌, true, false, [], ◌∷◌, ◌++◌, length, IfOk, IsSome, IfSome};
ghost use Rattle.turn_cell.specs.Parcels.{IsEven, IsOdd, last_of, MatchLook, MatchPoll};
ghost use Rattle.turn_cell.specs.Handoff.{IsHandoff, IsLeft, IsNoted, first_view, looked, polled};
ghost use Rattle.turn_cell.specs.Ends.{IsLaneSeat, IsDaemonSeat};

use crate::cell_view::{
    Closes, GivesBack, Hands, InSlot, Looks, Polls, SetsDown, Turns, TwoEnds, View,
};
use crate::passing::{Kept, Look, Parcel, Poll, PollOf};
use atomic_table::{Refused, Seat, Shared, Table};
use std::alloc::{AllocError, Global};
use std::marker::{Model, PhantomData};
use std::sync::Arc;

/// A cell that passes one value over and back between two threads.
pub struct TurnCell<V> {
    kind: PhantomData<V>,
}

impl<V: Kept> TurnCell<V> {
    /// A cell whose value is at home, with its two ends. It fails only where there is no memory,
    /// and the value is dropped then.
    pub fn new(
        alloc: Global,
        key: V::Key,
        value: V,
    ) -> Result<(LaneEnd<V>, DaemonEnd<V>), AllocError>
        requires { V.returns key None value }
        ensures cell { IfOk result (λ ends. ends.0.cell ≡ ends.1.cell) }
        ensures key { IfOk result (λ ends. (ends.0.key ≡ key) × (ends.1.key ≡ key)) }
        ensures lane { IfOk result (λ ends. (ends.0.handed ≡ []) × (ends.0.holds ≡ false)
            × (ends.0.read ≡ 0) × (ends.0.tries ≡ 0)) }
        ensures daemon { IfOk result (λ ends. (ends.1.taken ≡ []) × (ends.1.backs ≡ 0)
            × (ends.1.holds ≡ false) × (ends.1.read ≡ 0) × (ends.1.tries ≡ 0)) }
    {
        let (table, mut seat) = make_table(alloc, &key, value)?;
        let theirs = table.shared.split_seat::<TwoEnds<V>>(&mut seat);
        let table = Arc::new(alloc, table)?;
        let other = Arc::try_clone(&table)?;
        Ok((
            LaneEnd { table, seat },
            DaemonEnd {
                table: other,
                seat: theirs,
            },
        ))
    }
}

type NewTable<V, K> = (
    Table<InSlot<V>, View<K, V>, K, Turns<V>, Global>,
    Seat<InSlot<V>, View<K, V>>,
);

// The table of a new cell, with its first seat.
fn make_table<V: Kept>(
    alloc: Global,
    key: &V::Key,
    value: V,
) -> Result<NewTable<V, V::Key>, AllocError>
    requires { V.returns key.now None value }
    ensures { IfOk result (λ made. (made.0.shared.table_id.words ≡ 1)
        × (made.1.table_id ≡ made.0.shared.table_id) × (made.0.shared.key ≡ key.now)
        × (made.1.me ≡ (first_view key.now, []))) }
{
    let mut slots = Vec::with_capacity(alloc, 1)?;
    slots.push_reserved(InSlot::Resting(value));
    match Table::new(alloc, &[0], slots, key) {
        Ok(made) => Ok(made),
        Err(Refused { slots: _ }) => Err(AllocError),
    }
}

/// The end that hands the value over. Contracts see its cell and key, the parcels handed, whether
/// it holds the value, the word that its last look read, and its looks.
#[derive(Drop)]
pub struct LaneEnd<V: Kept> {
    table: Arc<Table<InSlot<V>, View<V::Key, V>, V::Key, Turns<V>, Global>, Global>,
    seat: Seat<InSlot<V>, View<V::Key, V>>,
}

impl<V: Kept> Model for LaneEnd<V> {
    ghost use Rattle.std.specs.Arc.{arc_value};
    ghost use Rattle.turn_cell.specs.Ends.{LaneSeen, IsLaneSeat, lane_seen};

    ghost Value = { LaneSeen V.Key V };

    ghost view = { λ e. lane_seen e.seat.table_id (arc_value e.table).shared.key e.seat.me.0 };

    ghost invariant = { λ e. IsLaneSeat e.seat.table_id (arc_value e.table).shared.table_id
        (arc_value e.table).shared.key e.seat.me };
}

impl<V: Kept> LaneEnd<V> {
    /// One load of the word. Where the word is even the value is taken, and this end holds it.
    pub fn look(&mut self) -> Look<V>
        requires { self.old.holds ≡ false }
        ensures stays { (self.new.cell ≡ self.old.cell) × (self.new.key ≡ self.old.key)
            × (self.new.handed ≡ self.old.handed) }
        ensures counted { self.new.tries ≡ self.old.tries + 1 }
        ensures cause { MatchLook result (λ _. IsEven self.new.read)
            (λ word. (word ≡ self.new.read) × IsOdd word) }
        ensures turn { MatchLook result (λ _. self.new.read ≡ 2 * length self.old.handed)
            (λ word. word + 1 ≡ 2 * length self.old.handed) }
        ensures holds { MatchLook result
            (λ _. self.new.holds ≡ true) (λ _. self.new.holds ≡ false) }
        ensures returns { MatchLook result
            (λ value. V.returns self.old.key (last_of self.old.handed) value) (λ _. Unit {0}) }
    {
        let shared = &self.table.shared;
        let word = load_by_lane(shared, &mut self.seat);
        if word % 2 == 1 {
            return Look::Out(word);
        }
        match shared.exchange(&mut self.seat, 0, InSlot::Empty) {
            InSlot::Resting(value) => Look::Back(value),
            InSlot::Empty => unreachable!(),
            InSlot::Sent(_) => unreachable!(),
        }
    }

    /// Puts the value into the slot and raises the word by one.
    #[tactic(auto, using(crate::proofs::LastParcel::last_of_pushed))]
    pub fn hand(&mut self, parcel: Parcel<V>)
        requires holds { self.old.holds ≡ true }
        requires bound { length self.old.handed < 2 ^ 62 }
        requires keeps { V.keeps self.old.key parcel }
        ensures stays { (self.new.cell ≡ self.old.cell) × (self.new.key ≡ self.old.key)
            × (self.new.read ≡ self.old.read) × (self.new.tries ≡ self.old.tries) }
        ensures handed { self.new.handed ≡ self.old.handed ++ parcel ∷ [] }
        ensures last { last_of self.new.handed ≡ Some parcel }
        ensures holds { self.new.holds ≡ false }
    {
        let shared = &self.table.shared;
        shared.exchange(&mut self.seat, 0, InSlot::Sent(parcel));
        shared.fetch_add::<Hands<V>>(&mut self.seat, 0, 1);
    }
}

// The one load of the lane's end. It notes the word that it found.
fn load_by_lane<V: Kept>(
    shared: &Shared<InSlot<V>, View<V::Key, V>, V::Key, Turns<V>>,
    seat: &mut Seat<InSlot<V>, View<V::Key, V>>,
) -> u64
    requires seat { IsLaneSeat seat.old.table_id shared.now.table_id shared.now.key seat.old.me }
    requires free { seat.old.me.0.lane_holds ≡ false }
    ensures same { seat.new.table_id ≡ seat.old.table_id }
    ensures step { looked V.returns seat.old.me result seat.new.me }
    ensures noted { IsNoted seat.old.me result seat.new.me }
{
    shared.load::<Looks<V>>(seat, 0)
}

/// The end that takes the value and gives it back. Contracts see its cell and key, the parcels
/// taken, how many values it gave back, whether it holds the value, the word that its last poll
/// read, and its polls.
#[derive(Drop)]
pub struct DaemonEnd<V: Kept> {
    table: Arc<Table<InSlot<V>, View<V::Key, V>, V::Key, Turns<V>, Global>, Global>,
    seat: Seat<InSlot<V>, View<V::Key, V>>,
}

impl<V: Kept> Model for DaemonEnd<V> {
    ghost use Rattle.std.specs.Arc.{arc_value};
    ghost use Rattle.turn_cell.specs.Ends.{DaemonSeen, IsDaemonSeat, daemon_seen};

    ghost Value = { DaemonSeen V.Key V };

    ghost view = { λ e. daemon_seen e.seat.table_id (arc_value e.table).shared.key e.seat.me.0 };

    ghost invariant = { λ e. IsDaemonSeat e.seat.table_id (arc_value e.table).shared.table_id
        (arc_value e.table).shared.key e.seat.me };
}

impl<V: Kept> DaemonEnd<V> {
    /// One load of the word. Where the word is odd the parcel is taken, and this end holds its
    /// value.
    #[tactic(auto, using(crate::proofs::LastParcel::last_of_pushed))]
    pub fn poll(&mut self) -> Poll<V>
        requires { self.old.holds ≡ false }
        ensures stays { (self.new.cell ≡ self.old.cell) × (self.new.key ≡ self.old.key)
            × (self.new.backs ≡ self.old.backs) }
        ensures counted { self.new.tries ≡ self.old.tries + 1 }
        ensures cause { MatchPoll result (λ _. IsOdd self.new.read)
            (λ word. (word ≡ self.new.read) × IsEven word) }
        ensures turn { MatchPoll result (λ _. self.new.read ≡ 2 * self.old.backs + 1)
            (λ word. word ≡ 2 * self.old.backs) }
        ensures taken { MatchPoll result (λ parcel. self.new.taken ≡ self.old.taken ++ parcel ∷ [])
            (λ _. self.new.taken ≡ self.old.taken) }
        ensures last { MatchPoll result
            (λ parcel. last_of self.new.taken ≡ Some parcel) (λ _. Unit {0}) }
        ensures holds { MatchPoll result
            (λ _. self.new.holds ≡ true) (λ _. self.new.holds ≡ false) }
        ensures keeps { MatchPoll result (λ parcel. V.keeps self.old.key parcel) (λ _. Unit {0}) }
    {
        let shared = &self.table.shared;
        let word = load_by_daemon(shared, &mut self.seat);
        if word % 2 == 0 {
            return PollOf::Home(word);
        }
        match shared.exchange(&mut self.seat, 0, InSlot::Empty) {
            InSlot::Sent(parcel) => PollOf::Parcel(parcel),
            InSlot::Empty => unreachable!(),
            InSlot::Resting(_) => unreachable!(),
        }
    }

    /// Puts the value into the slot and raises the word by one.
    pub fn give_back(&mut self, value: V)
        requires holds { self.old.holds ≡ true }
        requires returns { V.returns self.old.key (last_of self.old.taken) value }
        ensures stays { (self.new.cell ≡ self.old.cell) × (self.new.key ≡ self.old.key)
            × (self.new.taken ≡ self.old.taken) × (self.new.read ≡ self.old.read)
            × (self.new.tries ≡ self.old.tries) }
        ensures backs { self.new.backs ≡ self.old.backs + 1 }
        ensures holds { self.new.holds ≡ false }
    {
        let shared = &self.table.shared;
        shared.exchange(&mut self.seat, 0, InSlot::Resting(value));
        shared.fetch_add::<GivesBack<V>>(&mut self.seat, 0, 1);
    }
}

// The one load of the daemon's end. It notes the word that it found.
fn load_by_daemon<V: Kept>(
    shared: &Shared<InSlot<V>, View<V::Key, V>, V::Key, Turns<V>>,
    seat: &mut Seat<InSlot<V>, View<V::Key, V>>,
) -> u64
    requires seat { IsDaemonSeat seat.old.table_id shared.now.table_id shared.now.key seat.old.me }
    requires free { seat.old.me.0.daemon_holds ≡ false }
    ensures same { seat.new.table_id ≡ seat.old.table_id }
    ensures step { polled V.keeps seat.old.me result seat.new.me }
    ensures noted { IsNoted seat.old.me result seat.new.me }
{
    shared.load::<Polls<V>>(seat, 0)
}

/// What is left of a cell.
#[derive(Drop)]
pub struct Closed<V> {
    /// The value, unless an end held it.
    pub value: Option<V>,
    /// The hands and give-backs of the cell.
    pub word: u64,
}

/// Ends a cell. Three loads: the daemon's end sets its slot down, the two ends are joined, and the
/// joined end takes what lies in the slot.
pub fn close<V: Kept>(lane: LaneEnd<V>, daemon: DaemonEnd<V>) -> Closed<V>
    requires { lane.cell ≡ daemon.cell }
    ensures handoff { IsHandoff lane.handed daemon.taken daemon.backs result.word
        lane.holds daemon.holds }
    ensures free { IsSome result.value ↔ ((lane.holds ≡ false) × (daemon.holds ≡ false)) }
    ensures value { IfSome result.value
        (λ value. IsLeft V.keeps V.returns lane.key lane.handed daemon.taken result.word value) }
{
    let LaneEnd { table, mut seat } = lane;
    let DaemonEnd {
        table: other,
        seat: mut theirs,
    } = daemon;
    let shared = &table.shared;
    shared.load::<SetsDown<V>>(&mut theirs, 0);
    shared.join_seat::<TwoEnds<V>>(&mut seat, theirs);
    let word = shared.load::<Closes<V>>(&mut seat, 0);
    let value = shared.exchange(&mut seat, 0, InSlot::Empty).into_value();
    drop(other);
    Closed { value, word }
}
