//! Passes parcels between two threads by a turn cell, so that it can be timed.
//! The first argument says how many, up to a thousand million; without one it is a thousand.
#![tactic(auto)]

ghost use Rattle.std.specs.Prelude.{◌≡◌, ◌≤◌, false, [], IfOk};

use std::{env, io, thread};
use turn_cell::{DaemonEnd, Kept, LaneEnd, Look, Parcel, PollOf, TurnCell};

const MOST: u64 = 1_000_000_000;

/// What goes over and comes back: the number of the throw.
#[derive(Drop)]
struct Ball {
    throw: u64,
}

impl Kept for Ball {
    ghost use Rattle.std.specs.Prelude.{◌≡◌};

    type Key = ();

    ghost keeps = { λ k p. p.value.throw ≡ p.number };

    ghost returns = { λ k last x. Unit {0} };
}

// Hands parcels over by tries, and says how many.
fn throw_all(mut lane: LaneEnd<Ball>, count: u64) -> u64
    requires { (lane.holds ≡ false) × (lane.handed ≡ []) × (count ≤ MOST) }
{
    let mut handed = 0;
    'tries: for _ in 0..u64::MAX {
        if handed == count {
            break;
        }
        match lane.look() {
            Look::Back(_) => {
                handed += 1;
                lane.hand(Parcel {
                    number: handed,
                    upto: handed,
                    value: Ball { throw: handed },
                });
            }
            Look::Out(_) => thread::yield_now(),
        }
    }
    handed
}

// Takes parcels by tries and gives their values back, and says how many.
fn catch_all(mut daemon: DaemonEnd<Ball>, count: u64) -> u64
    requires { (daemon.holds ≡ false) × (count ≤ MOST) }
{
    let mut taken = 0;
    'tries: for _ in 0..u64::MAX {
        if taken == count {
            break;
        }
        match daemon.poll() {
            PollOf::Parcel(parcel) => {
                taken += 1;
                daemon.give_back(parcel.value);
            }
            PollOf::Home(_) => thread::yield_now(),
        }
    }
    taken
}

fn wanted(rt: &HostRuntime) -> io::Result<u64>
    ensures { IfOk result (λ count. count ≤ MOST) }
{
    let count = match env::args(rt)?.nth(1) {
        Some(word) => word.as_str().parse::<u64>().unwrap_or(1000),
        None => 1000,
    };
    Ok(count.min(MOST))
}

fn main(rt: HostRuntime) -> io::Result<()> {
    let count = wanted(&rt)?;
    let (lane, daemon) = TurnCell::new(rt.alloc(), (), Ball { throw: 0 })?;
    let (handed, taken) = thread::join(
        &rt,
        move || throw_all(lane, count),
        move || catch_all(daemon, count),
    );
    println!(rt; "handed {handed} taken {taken}")
}
