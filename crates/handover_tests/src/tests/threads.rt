//! Ends in threads of their own: what may go to one, and two that pass parcels by tries.
ghost use Rattle.std.specs.Prelude.{◌≡◌, false, [], length};

use super::crates::{Crate, Size, new_crate};
use std::test::Fail;
use std::thread;
use turn_cell::{
    Bell, BellMark, Closed, DaemonEnd, HearEnd, HeardNote, Kept, LaneEnd, Look, Parcel, Poll,
    PollOf, RingEnd, TurnCell, close,
};

// The parcels that go over, and the most tries of each side.
const PARCELS: u64 = 10_000;

const TRIES: u64 = 10_000_000;

#[test]
fn ten_thousand_parcels_pass_by_tries(rt: HostRuntime) -> Result<(), Fail> {
    let (lane, daemon) = TurnCell::new(rt.alloc(), Size { size: 4 }, new_crate(4))?;
    cell_ends_go(&lane, &daemon);
    let ((lane, handed), (daemon, taken)) = thread::join(
        &rt,
        move || hand_all(lane),
        move || take_all(daemon),
    );
    assert!(rt; handed == PARCELS && taken == PARCELS);
    let closed = close(lane, daemon);
    assert!(rt; closed.word == 2 * PARCELS && closed.value.is_some());
    let parcel = Parcel {
        number: 1,
        upto: 0,
        value: new_crate(4),
    };
    answers_go(&parcel, &Look::Out(1), &PollOf::Home(0), &closed);
    let (ring, mut hear) = Bell::new(rt.alloc())?;
    let note = hear.note();
    bell_ends_go(&ring, &hear, &note, &ring.mark());
    Ok(())
}

// Hands parcels over by tries, numbered from 1, and says how many.
fn hand_all(mut lane: LaneEnd<Crate>) -> (LaneEnd<Crate>, u64)
    requires { (lane.holds ≡ false) × (lane.handed ≡ []) }
    ensures stays { (result.0.cell ≡ lane.cell) × (result.0.key ≡ lane.key) }
    ensures handed { (result.0.holds ≡ false) × (length result.0.handed ≡ result.1) }
{
    let mut handed = 0;
    'tries: for _ in 0..TRIES {
        if handed == PARCELS {
            break;
        }
        match lane.look() {
            Look::Back(value) => {
                handed += 1;
                let value = Crate {
                    size: value.size,
                    load: value.size,
                    sent: handed,
                };
                lane.hand(Parcel {
                    number: handed,
                    upto: handed,
                    value,
                });
            }
            Look::Out(_) => thread::yield_now(),
        }
    }
    (lane, handed)
}

// Takes parcels by tries and gives their values back, and says how many came in order.
fn take_all(mut daemon: DaemonEnd<Crate>) -> (DaemonEnd<Crate>, u64)
    requires { daemon.holds ≡ false }
    ensures stays { (result.0.cell ≡ daemon.cell) × (result.0.key ≡ daemon.key) }
    ensures free { result.0.holds ≡ false }
{
    let mut taken = 0;
    'tries: for _ in 0..TRIES {
        if taken == PARCELS {
            break;
        }
        match daemon.poll() {
            PollOf::Parcel(parcel) => {
                if parcel.number == taken + 1 {
                    taken += 1;
                }
                daemon.give_back(Crate {
                    size: parcel.value.size,
                    load: 0,
                    sent: parcel.value.sent,
                });
            }
            PollOf::Home(_) => thread::yield_now(),
        }
    }
    (daemon, taken)
}

// Each end of a cell may go to another thread, whatever it hands over.
fn cell_ends_go<V: Kept + Send>(lane: &LaneEnd<V>, daemon: &DaemonEnd<V>) {
    needs_send(lane);
    needs_send(daemon);
}

// So may a parcel, and what the calls answer.
fn answers_go<V: Send>(parcel: &Parcel<V>, look: &Look<V>, poll: &Poll<V>, closed: &Closed<V>) {
    needs_send(parcel);
    needs_send(look);
    needs_send(poll);
    needs_send(closed);
}

fn bell_ends_go(ring: &RingEnd, hear: &HearEnd, note: &HeardNote, mark: &BellMark) {
    needs_send(ring);
    needs_send(hear);
    needs_send(note);
    needs_send(mark);
    needs_sync(mark);
}

fn needs_send<T: Send>(_: &T) {}

fn needs_sync<T: Sync>(_: &T) {}
