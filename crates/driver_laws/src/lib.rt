//! The laws of the driver's definitions, each as a call without a body: a caller that wants a law makes the call, and its
//! proof cites the clause.
#![tactic(auto)]

ghost use Rattle.driver_laws.specs.Turns.{StartKeeps, TurnKeeps, PollsKeep, FewCalls, RoomFalls, RoomIsEnough, BellIsHeard};
ghost use Rattle.driver_laws.specs.Causes.{AnswersHaveCauses};
ghost use Rattle.driver_laws.specs.Doings.{TurnDid, TurnGoesOn, TurnGetsOn, DoneIsClosed, ClosedIsAtRest};

/// The invariant holds of a new driver with a new side, and every turn and every call of the daemon keeps it.
pub fn invariant_is_kept()
    ensures start { StartKeeps }
    ensures turn { TurnKeeps }
    ensures polls { PollsKeep }
{}

/// A turn makes at most five calls on its side.
pub fn calls_are_few()
    ensures { FewCalls }
{}

/// A turn lowers the room of its side by just the hands that it made and the entries in them.
pub fn room_falls()
    ensures { RoomFalls }
{}

/// The room that a side takes when it is made is enough for every turn.
pub fn room_is_enough()
    ensures { RoomIsEnough }
{}

/// A turn hears the bell once and leaves the made sizes.
pub fn bell_is_heard()
    ensures { BellIsHeard }
{}

/// Each answer of a turn has its cause.
pub fn answers_have_causes()
    ensures { AnswersHaveCauses }
{}

/// A turn leaves each of the three cells alone, or hands one batch over it: what a run of drivers and daemon is made of.
pub fn turns_hand_batches()
    ensures { TurnDid }
{}

/// A turn gives no sample back, and at the free pace it gets on while a flush is asked for: why a run ends.
pub fn turns_go_on()
    ensures later { TurnGoesOn }
    ensures gets_on { TurnGetsOn }
{}

/// A turn that answers Done has answered the close, after which the driver holds nothing: what is known where its thread is
/// joined.
pub fn closes_are_answered()
    ensures done { DoneIsClosed }
    ensures rest { ClosedIsAtRest }
{}
