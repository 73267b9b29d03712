//! A lane's thread: it waits at its end of a cell until its lane and side come, takes turns until
//! the close is answered, and gives both back.
ghost use Rattle.std.specs.Prelude.{◌≡◌, false, IfOk};
ghost use Rattle.lane_threads.specs.Pairs.{Pairwise};
ghost use Rattle.lane_threads.specs.Promising.{IsOfWork};
ghost use Rattle.lane_threads.specs.Working.{IsEnded};

use crate::starts::{Start, StartKey, Waiting};
use crate::works::{Next, Work};
use crossbeam_utils::Backoff;
use outside_io::Gate;
use std::alloc::{AllocError, Global};
use std::snapshot::Snapshot;
use std::sync::Wait;
use turn_cell::{DaemonEnd, PollOf, TurnCell};

/// Gives each of these works its start cell. It fails only for want of memory.
pub fn all_waiting(alloc: Global, works: Vec<Work>) -> Result<Vec<Waiting>, AllocError>
    ensures { IfOk result (λ all. Pairwise IsOfWork works.items all.items) }
{
    let mut all = Vec::with_capacity(alloc, works.len())?;
    for work in works {
        all.push(with_cell(alloc, work)?)?;
    }
    Ok(all)
}

// The work with a start cell.
fn with_cell(alloc: Global, work: Work) -> Result<Waiting, AllocError>
    ensures { IfOk result (IsOfWork work) }
{
    let key = StartKey {
        cpu: work.cpu,
        work: Snapshot::of(&work),
    };
    let (lane, daemon) = TurnCell::new(alloc, key, Start { work: None })?;
    Ok(Waiting { work, lane, daemon })
}

// What a lane's thread does.
pub(crate) fn run_lane<R: Wait, G: Gate>(rt: &R, gate: &G, start: DaemonEnd<Start>) -> Work
    requires { start.holds ≡ false }
    ensures { IsEnded start.key.work.value result }
{
    let work = receive(rt, start);
    take_turns(rt, gate, work)
}

// Waits for the work.
fn receive<R: Wait>(rt: &R, start: DaemonEnd<Start>) -> Work
    requires { start.holds ≡ false }
    ensures { result ≡ start.key.work.value }
{
    let mut start = start;
    let backoff = Backoff::new();
    for _ in rt.forever() {
        match start.poll() {
            PollOf::Parcel(parcel) => match parcel.value.work {
                Some(work) => return work,
                None => unreachable!(),
            },
            PollOf::Home(_) => backoff.snooze(),
        }
    }
    unreachable!()
}

// Takes turns until the close is answered; after a turn that found nothing to do it waits a little.
pub(crate) fn take_turns<R: Wait, G: Gate>(rt: &R, gate: &G, work: Work) -> Work
    ensures { IsEnded work result }
{
    let mut work = work;
    let backoff = Backoff::new();
    for _ in rt.forever() {
        gate.at(work.cpu);
        match work.turn() {
            Next::End => return work,
            Next::Rest => backoff.snooze(),
            Next::GoOn => backoff.reset(),
        }
    }
    unreachable!()
}
