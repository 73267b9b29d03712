//! One round of polls: the cells 0, 1 and 2 of each processor, in their order.
ghost use Rattle.std.specs.Prelude.{◌≡◌, ◌<◌, ◌≤◌, length, map};
ghost use Rattle.sample_key.specs.declared.limits.TheConstants.{LAST_CELL as LAST_CELL_NUMBER};
ghost use Rattle.std.specs.List.{AllByRecursion};
ghost use Rattle.run_joins.specs.Collecting.{BooksAreKept, DaemonsCollect};
ghost use Rattle.run_closes.specs.Closes.{PollsAreTimely};
ghost use Rattle.dcpid_core.specs.Collection.{MayRing, views};
ghost use Rattle.dcpid_core.specs.Counting.{CountsAgree};
ghost use Rattle.daemon_rounds.specs.Going.{IsGoing, PollsOn};
ghost use Rattle.daemon_rounds.specs.Sides.{AreIdle, IsIdleAt, IsReadyAt, IsTriedAt, MayPollAt};

use dcpid_core::{Daemon, Polled, counts_agree};
use lane_side::DaemonSide;
use outside_io::Gate;
use run_closes::polls_are_timely;
use run_joins::{books_are_kept, daemons_collect};
use sample_key::LAST_CELL;
use std::alloc::Global;

/// Where the daemon says at the gate that it has drained a batch.
pub const DRAINED_GATE: u32 = 17;

/// Polls each cell of each processor once. Whether a batch was drained.
pub fn poll_all<T: DaemonSide, G: Gate>(
    alloc: Global,
    gate: &G,
    daemon: &mut Daemon,
    sides: &mut [T],
) -> bool
    requires going { IsGoing daemon.old (views T.seen T.far T.fixed sides.old) }
    requires idle { AreIdle (views T.seen T.far T.fixed sides.old) }
    ensures polls { PollsOn daemon.old (views T.seen T.far T.fixed sides.old)
        daemon.new (views T.seen T.far T.fixed sides.new) }
    ensures ready { AllByRecursion MayRing (views T.seen T.far T.fixed sides.new) }
    ensures fixed { map T.fixed sides.new ≡ map T.fixed sides.old }
{
    let mut drained = false;
    for cpu in 0..sides.len() {
        drained |= poll_side(alloc, gate, daemon, cpu, sides);
    }
    drained
}

// Polls each cell of a processor once.
fn poll_side<T: DaemonSide, G: Gate>(
    alloc: Global,
    gate: &G,
    daemon: &mut Daemon,
    cpu: usize,
    sides: &mut [T],
) -> bool
    requires going { IsGoing daemon.old (views T.seen T.far T.fixed sides.old) }
    requires cpu { cpu < length sides.old }
    requires idle { IsIdleAt cpu (views T.seen T.far T.fixed sides.old) }
    ensures polls { PollsOn daemon.old (views T.seen T.far T.fixed sides.old)
        daemon.new (views T.seen T.far T.fixed sides.new) }
    ensures ready { IsReadyAt cpu (views T.seen T.far T.fixed sides.old)
        (views T.seen T.far T.fixed sides.new) }
    ensures fixed { map T.fixed sides.new ≡ map T.fixed sides.old }
{
    let first = poll_cell(alloc, gate, daemon, cpu, 0, sides);
    let second = poll_cell(alloc, gate, daemon, cpu, 1, sides);
    let third = poll_cell(alloc, gate, daemon, cpu, LAST_CELL, sides);
    first | second | third
}

// Polls a cell of a processor. Whether a batch was drained, which the gate is told.
fn poll_cell<T: DaemonSide, G: Gate>(
    alloc: Global,
    gate: &G,
    daemon: &mut Daemon,
    cpu: usize,
    cell: u8,
    sides: &mut [T],
) -> bool
    requires going { IsGoing daemon.old (views T.seen T.far T.fixed sides.old) }
    requires cpu { cpu < length sides.old }
    requires cell { cell ≤ LAST_CELL_NUMBER }
    requires may { MayPollAt cell cpu (views T.seen T.far T.fixed sides.old) }
    ensures polls { PollsOn daemon.old (views T.seen T.far T.fixed sides.old)
        daemon.new (views T.seen T.far T.fixed sides.new) }
    ensures tried { IsTriedAt cell cpu (views T.seen T.far T.fixed sides.old)
        (views T.seen T.far T.fixed sides.new) }
    ensures fixed { map T.fixed sides.new ≡ map T.fixed sides.old }
{
    laws();
    match daemon.poll(alloc, cpu as u32, cell, &mut sides[cpu]) {
        Polled::Drained => {
            gate.at(DRAINED_GATE);
            true
        }
        Polled::Passed => false,
        Polled::Home(_) => false,
    }
}

// The laws of the daemon that a poll cites.
fn laws()
    ensures books { BooksAreKept }
    ensures collects { DaemonsCollect }
    ensures timely { PollsAreTimely }
    ensures counts { CountsAgree }
{
    books_are_kept();
    daemons_collect();
    polls_are_timely();
    counts_agree();
}
