//! A lane in a thread of its own, and a daemon in another that drains it.
ghost use Rattle.std.specs.Prelude.{◌≡◌, ◌%◌, ◌≤◌, [], length, IfOk};
ghost use Rattle.driver_play.specs.Plays.{HaveMark};
ghost use Rattle.shared_side_tests.specs.Rounds.{IsPolledEvenly};

use super::rounds::{Taken, visit};
use super::working::Work;
use cpu_lane::{Plan, Turn};
use lane_side::DaemonSide;
use sample_key::{Entry, Event, Key, Marked, Pace};
use shared_side::SharedDaemon;
use std::alloc::{AllocError, Global};
use std::test::Fail;
use std::thread;

// How many samples there are, and how many keys.
const SAMPLES: u64 = 20_000;

const KEYS: u64 = 500;

// The bell value that asks for all that the lane holds, where the trace has no records.
const CLOSE: u64 = 1;

// The most turns and rounds.
const TRIES: u64 = 10_000_000;

#[test]
fn each_sample_is_drained_or_lost(rt: HostRuntime) -> Result<(), Fail> {
    let samples = samples(rt.alloc())?;
    let plan = Plan {
        pace: Pace::Free,
        last: CLOSE,
        buffer: 64,
    };
    let (work, daemon) = Work::new(rt.alloc(), 3, samples, plan, 4)?;
    let taken = Taken::new(rt.alloc());
    let ((work, done), (daemon, taken)) = thread::join(
        &rt,
        move || drive(work),
        move || collect(daemon, taken),
    );
    assert!(rt; done && taken.answers(CLOSE));
    let (words, stats, losses) = work.close(daemon);
    let [first, second] = taken.batches;
    assert_eq!(rt;
        words,
        [first.saturating_mul(2), second.saturating_mul(2), 2]
    );
    let written = sum(&[stats.placed, stats.evicted, stats.spilt, stats.direct]);
    assert_eq!(rt; taken.entries.len() as u64, written);
    let counted = sum_of_counts(&taken.entries);
    assert_eq!(rt; sum(&[counted, losses.len() as u64]), SAMPLES);
    Ok(())
}

// Samples of cycles, each before the first record.
fn samples(alloc: Global) -> Result<Vec<Marked>, AllocError>
    ensures { IfOk result (λ v. (length v.items ≤ 2000000) × HaveMark 0 v.items) }
{
    let mut samples = Vec::new(alloc);
    for i in 0..SAMPLES {
        let key = Key {
            pid: 7,
            pc: pc_of(i),
            event: Event::Cycles,
        };
        samples.push(Marked { key, mark: 0 })?;
    }
    Ok(samples)
}

fn pc_of(i: u64) -> u64
    ensures { result % 4 ≡ 0 }
{
    4 * (i % KEYS)
}

// Turns of the lane until the close is answered; whether it was.
fn drive(mut work: Work) -> (Work, bool)
    ensures { result.0.side.fixed ≡ work.side.fixed }
{
    for _ in 0..TRIES {
        match work.turn() {
            Turn::Done => return (work, true),
            Turn::Took => {}
            Turn::Lost(_) => thread::yield_now(),
            Turn::Held => thread::yield_now(),
            Turn::Answered => thread::yield_now(),
            Turn::Idle => thread::yield_now(),
        }
    }
    (work, false)
}

// One round, a ring of the close, and rounds until all that it asked for has come.
fn collect(mut daemon: SharedDaemon, mut taken: Taken) -> (SharedDaemon, Taken)
    requires polled { IsPolledEvenly daemon.seen daemon.far }
    requires new { daemon.far.rungs ≡ [] }
    ensures { result.0.fixed ≡ daemon.fixed }
{
    visit(&mut daemon, &mut taken);
    daemon.ring(CLOSE);
    for _ in 0..TRIES {
        visit(&mut daemon, &mut taken);
        if taken.answers(CLOSE) {
            break;
        }
        thread::yield_now();
    }
    (daemon, taken)
}

// The sum, at most 2^64 - 1.
fn sum(numbers: &[u64]) -> u64 {
    let mut total: u64 = 0;
    for number in numbers {
        total = total.saturating_add(*number);
    }
    total
}

fn sum_of_counts(entries: &[Entry]) -> u64 {
    let mut total: u64 = 0;
    for entry in entries {
        total = total.saturating_add(u64::from(entry.count));
    }
    total
}
