//! From the parcels and answers of a side to those of its cells, and back.
ghost use Rattle.std.specs.Prelude.{◌≡◌};
ghost use Rattle.turn_cell.specs.Parcels.{MatchPoll};
ghost use Rattle.shared_side.specs.Passing.{wrapped, bare, look_in, poll_in, IsOfBell, WasHeard};

use crate::carried::Carried;
use sample_key::Parcel;
use turn_cell::{HeardNote, Look, PollOf, RingEnd};

// A parcel of the side as one of the cell, with what the driver had heard.
pub(crate) fn wrapped<T>(parcel: Parcel<T>, heard: HeardNote) -> turn_cell::Parcel<Carried<T>>
    ensures { result ≡ wrapped parcel heard }
{
    turn_cell::Parcel {
        number: parcel.note.number,
        upto: parcel.note.upto,
        value: Carried {
            body: parcel.body,
            note: Some(parcel.note),
            heard: Some(heard),
        },
    }
}

// A value that is given back.
pub(crate) fn bare<T>(body: T) -> Carried<T>
    ensures { result ≡ bare body }
{
    Carried {
        body,
        note: None,
        heard: None,
    }
}

// What a look at the cell tells the driver.
pub(crate) fn look_in<T>(look: Look<Carried<T>>) -> Look<T>
    ensures { result ≡ look_in look }
{
    match look {
        Look::Back(carried) => Look::Back(carried.body),
        Look::Out(word) => Look::Out(word),
    }
}

// What a poll of the cell tells the daemon, whose bell meets what the driver had heard.
pub(crate) fn poll_in<T: Drop>(
    poll: PollOf<turn_cell::Parcel<Carried<T>>>,
    bell: &mut RingEnd,
) -> PollOf<Parcel<T>>
    requires { MatchPoll poll (IsOfBell bell.old.bell) (λ _. Unit {0}) }
    ensures stays { (bell.new.bell ≡ bell.old.bell) × (bell.new.rungs ≡ bell.old.rungs) }
    ensures poll { result ≡ poll_in poll }
    ensures met { MatchPoll poll (WasHeard bell.old.rungs) (λ _. Unit {0}) }
{
    match poll {
        PollOf::Home(word) => PollOf::Home(word),
        PollOf::Parcel(parcel) => {
            let Carried { body, note, heard } = parcel.value;
            let Some(heard) = heard else { unreachable!() };
            bell.meet(heard);
            let Some(note) = note else { unreachable!() };
            PollOf::Parcel(Parcel { note, body })
        }
    }
}
