//! Rounds of the daemon: polls of all cells, and one advance.
ghost use Rattle.std.specs.Prelude.{◌≡◌, ◌≢◌, true, map};
ghost use Rattle.std.specs.List.{AllByRecursion};
ghost use Rattle.run_model.specs.declared.advances.Advanced.TheVariants.{Finished};
ghost use Rattle.run_joins.specs.Collecting.{BooksAreKept, DaemonsCollect};
ghost use Rattle.dcpid_core.specs.Collection.{MayRing, views};
ghost use Rattle.dcpid_core.specs.Counting.{AdvancesAsTheRun, CountsAgree};
ghost use Rattle.daemon_rounds.specs.Going.{IsGoing, IsOver};
ghost use Rattle.daemon_rounds.specs.Sides.{AreIdle};
ghost use Rattle.daemon_rounds.specs.Storing.{GoesOn, StopsEarly};
ghost use Rattle.daemon_rounds.specs.declared.rounds.Round.TheVariants as rounds;

use crate::polls::poll_all;
use dcpid_core::{Daemon, advances_are_the_runs, counts_agree};
use lane_side::DaemonSide;
use outside_io::Gate;
use run_joins::{books_are_kept, daemons_collect};
use run_model::Advanced;
use std::alloc::Global;
use store_io::Store;

/// One advance of the daemon over all its sides, after a round of polls.
pub fn advance_all<T: DaemonSide, D: Store>(
    alloc: Global,
    daemon: &mut Daemon,
    sides: &mut [T],
    store: &mut D,
) -> Advanced
    requires going { IsGoing daemon.old (views T.seen T.far T.fixed sides.old) }
    requires ready { AllByRecursion MayRing (views T.seen T.far T.fixed sides.old) }
    ensures goes { GoesOn D.files D.faults D.moment D.left_since
        daemon.old (views T.seen T.far T.fixed sides.old) store.old
        daemon.new (views T.seen T.far T.fixed sides.new) store.new }
    ensures early { StopsEarly daemon.old → StopsEarly daemon.new }
    ensures idle { AreIdle (views T.seen T.far T.fixed sides.new) }
    ensures over { result ≡ Finished →
        IsOver daemon.new (views T.seen T.far T.fixed sides.new) }
    ensures fixed { map T.fixed sides.new ≡ map T.fixed sides.old }
    ensures origin { D.origin store.new ≡ D.origin store.old }
{
    laws();
    daemon.advance(alloc, sides, store)
}

// The laws of the daemon that an advance cites.
fn laws()
    ensures advances { AdvancesAsTheRun }
    ensures counts { CountsAgree }
    ensures books { BooksAreKept }
    ensures collects { DaemonsCollect }
{
    advances_are_the_runs();
    counts_agree();
    books_are_kept();
    daemons_collect();
}

/// What a round of the daemon came to.
#[derive(Clone, Copy, Debug, PartialEq, Eq)]
pub enum Round {
    /// The run is finished.
    Finished,
    /// Something was drained, asked for or put in force.
    Went,
    /// Nothing was drained, and a flush is waited for.
    Waits,
}

/// One round: a poll of each cell of each processor, and one advance.
pub fn go_round<T: DaemonSide, D: Store, G: Gate>(
    alloc: Global,
    gate: &G,
    daemon: &mut Daemon,
    sides: &mut [T],
    store: &mut D,
) -> Round
    requires going { IsGoing daemon.old (views T.seen T.far T.fixed sides.old) }
    requires idle { AreIdle (views T.seen T.far T.fixed sides.old) }
    ensures goes { GoesOn D.files D.faults D.moment D.left_since
        daemon.old (views T.seen T.far T.fixed sides.old) store.old
        daemon.new (views T.seen T.far T.fixed sides.new) store.new }
    ensures early { StopsEarly daemon.old → StopsEarly daemon.new }
    ensures idle { AreIdle (views T.seen T.far T.fixed sides.new) }
    ensures over { result ≡ rounds.Finished →
        IsOver daemon.new (views T.seen T.far T.fixed sides.new) }
    ensures fixed { map T.fixed sides.new ≡ map T.fixed sides.old }
    ensures origin { D.origin store.new ≡ D.origin store.old }
{
    let drained = poll_all(alloc, gate, daemon, sides);
    match advance_all(alloc, daemon, sides, store) {
        Advanced::Finished => Round::Finished,
        Advanced::Moved => Round::Went,
        Advanced::Opened => Round::Went,
        Advanced::Waiting { cpu: _ } => went_if(drained),
    }
}

// A round in which a flush is waited for.
fn went_if(drained: bool) -> Round
    ensures { result ≢ rounds.Finished }
{
    if drained { Round::Went } else { Round::Waits }
}
