//! The lanes of a run while it goes on: each is in its thread, or here where none could be started.
ghost use Rattle.std.specs.Prelude.{◌≡◌, ◌≤◌, List, [], length, vec_capacity};
ghost use Rattle.lane_threads.specs.Pairs.{Pairwise};
ghost use Rattle.lane_threads.specs.Promising.{IsOfWork, Runs, TookStep};
ghost use Rattle.lane_threads.specs.Working.{Working, IsEnded};

use crate::starts::{ComesBack, Start, Waiting};
use crate::threads::{run_lane, take_turns};
use crate::works::Work;
use outside_io::Gate;
use std::snapshot::Snapshot;
use std::sync::Wait;
use std::thread::{PromisedHandle, Scope, Threads};
use turn_cell::{Look, Parcel};

/// A lane of a run: away in its thread, or here.
#[derive(Drop)]
pub enum Runner {
    /// In a thread, which has promised to give it back.
    Away(PromisedHandle<Work, ComesBack>),
    /// Here, since no thread could be started.
    Here(Work),
}

/// Starts a thread for each of these, and hands it its work. The room has a place for each.
pub fn start_all<'s, E, R: Wait + Sync, G: Gate + Sync>(
    scope: &Scope<'s, E>,
    rt: &'s R,
    gate: &'s G,
    all: Vec<Waiting>,
    room: Vec<Runner>,
) -> Vec<Runner>
    requires { (room.items ≡ []) × (length all.items ≤ vec_capacity room) }
    ensures { (works : List Working) → Pairwise IsOfWork works all.items
        → Pairwise Runs works result.items }
{
    let mut runners = room;
    for waiting in all {
        runners.push_reserved(start_one(scope, rt, gate, waiting));
    }
    runners
}

// Starts a thread, and hands it its work once it is started.
fn start_one<'s, E, R: Wait + Sync, G: Gate + Sync>(
    scope: &Scope<'s, E>,
    rt: &'s R,
    gate: &'s G,
    waiting: Waiting,
) -> Runner
    ensures { Runs waiting.work result }
{
    let Waiting {
        work,
        mut lane,
        daemon,
    } = waiting;
    let promise = ComesBack {
        of: Snapshot::of(&work),
    };
    match scope.spawn_with(promise, move || run_lane(rt, gate, daemon)) {
        Ok(handle) => {
            match lane.look() {
                Look::Back(_) => lane.hand(Parcel {
                    number: 1,
                    upto: 0,
                    value: Start { work: Some(work) },
                }),
                Look::Out(_) => unreachable!(),
            }
            Runner::Away(handle)
        }
        Err(_) => Runner::Here(work),
    }
}

/// One turn of each lane that has no thread.
pub fn step_here(runners: &mut Vec<Runner>)
    ensures steps { Pairwise TookStep runners.old.items runners.new.items }
    ensures runs { (works : List Working) → Pairwise Runs works runners.old.items
        → Pairwise Runs works runners.new.items }
{
    for i in 0..runners.len() {
        step_one(&mut runners[i]);
    }
}

// One turn, if the lane has no thread.
fn step_one(runner: &mut Runner)
    ensures { TookStep runner.old runner.new }
{
    match runner {
        Runner::Away(_) => {}
        Runner::Here(work) => {
            let _next = work.turn();
        }
    }
}

/// Joins all threads, and takes turns of the others until each has answered the close, which the
/// daemon has asked for. The room has a place for each.
pub fn end_all<R: Threads + Wait, G: Gate>(
    rt: &R,
    gate: &G,
    runners: Vec<Runner>,
    room: Vec<Work>,
) -> Vec<Work>
    requires { (room.items ≡ []) × (length runners.items ≤ vec_capacity room) }
    ensures { (works : List Working) → Pairwise Runs works runners.items
        → Pairwise IsEnded works result.items }
{
    let mut ended = room;
    for runner in runners {
        ended.push_reserved(end_one(rt, gate, runner));
    }
    ended
}

// Joins the thread, or takes turns until the close is answered.
fn end_one<R: Threads + Wait, G: Gate>(rt: &R, gate: &G, runner: Runner) -> Work
    ensures { (work : Working) → Runs work runner → IsEnded work result }
{
    match runner {
        Runner::Away(handle) => handle.join(rt),
        Runner::Here(work) => take_turns(rt, gate, work),
    }
}
