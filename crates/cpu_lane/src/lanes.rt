//! A lane: the driver of one processor with the list of its samples. `Lane::turn` is the entry; whoever calls it shows the
//! driver's invariant, and gets it back.
ghost use Rattle.std.specs.Prelude.{◌≡◌, ℕ, ◌+◌, ◌≤◌, Option, true, false, IfOk};
ghost use Rattle.driver_model.specs.Sides.{Room, Side, new_side};
ghost use Rattle.driver_model.specs.Handover.{rung_of};
ghost use Rattle.driver_model.specs.Runs.{next_turn};
ghost use Rattle.driver_model.specs.Driver.{Words, turn_of, new_driver};
ghost use Rattle.driver_model.specs.Invariant.{IsSetup, DriverInvariant};
ghost use Rattle.driver_model.specs.declared.answers.Turn.TheVariants.{Done};
ghost use Rattle.driver_laws.specs.Turns.{TurnKeeps, FewCalls, RoomFalls, BellIsHeard, RoomLowered};
ghost use Rattle.driver_laws.specs.Causes.{AnswersHaveCauses, CauseOf};
ghost use Rattle.driver_laws.specs.Doings.{DoneIsClosed};
ghost use Rattle.cpu_lane.specs.Seen.{made_for};
ghost use Rattle.cpu_lane.specs.Told.{WhereTold};
ghost use Rattle.cpu_lane.specs.Steps.{Gives};
ghost use Rattle.cpu_lane.specs.Ready.{IsSideOf, HasRoom, HeardBy};

use crate::drivers::{Driver, Setup};
use driver_laws::{
    answers_have_causes, bell_is_heard, calls_are_few, closes_are_answered, invariant_is_kept,
    room_falls,
};
use driver_model::{Plan, Stats, Turn};
use lane_side::LaneSide;
use overflow_pair::Pair;
use sample_key::{Loss, Marked};
use std::alloc::{AllocError, Global};
use std::marker::Model;

/// The driver of one processor, with the list of its samples. Contracts see what it was made for (`setup`) and where it
/// stands (`driver`).
#[derive(Drop)]
pub struct Lane {
    setup: Setup,
    driver: Driver,
}

impl Model for Lane {
    ghost use Rattle.driver_model.specs.Invariant.{IsSetup};
    ghost use Rattle.cpu_lane.specs.Seen.{Seen, setup_of, driver_of, IsSound};

    ghost Value = { Seen };

    ghost view = { λ l. record { setup = setup_of l.setup; driver = driver_of l.driver } };

    ghost invariant = { λ l. IsSetup (setup_of l.setup) × IsSound l.setup l.driver };
}

impl Lane {
    /// The driver of a processor, at most 15, with at most 2,000,000 samples whose marks never fall and are at most half of
    /// the bell value of the close, which is odd and at most 2^32. It has room for every possible loss, and fails only for
    /// want of memory.
    pub fn new(
        alloc: Global,
        cpu: u32,
        samples: Vec<Marked>,
        plan: Plan,
    ) -> Result<Lane, AllocError>
        requires { IsSetup (made_for cpu samples.items plan) }
        ensures setup { IfOk result (λ l. l.setup ≡ made_for cpu samples.items plan) }
        ensures driver { IfOk result (λ l. l.driver ≡ new_driver) }
        ensures invariant { IfOk result (λ l.
            (room : Option Room) (buckets buffer : ℕ) → 1 ≤ buckets → 1 ≤ buffer →
            DriverInvariant l.setup l.driver (new_side room buckets buffer)) }
    {
        let losses = Vec::with_capacity(alloc, samples.len())?;
        Ok(Lane {
            setup: Setup { cpu, samples, plan },
            driver: Driver {
                at: 0,
                table: None,
                pair: Pair::new(),
                tables: 0,
                answered: 0,
                done: false,
                losses,
                stats: Stats {
                    folded: 0,
                    placed: 0,
                    evicted: 0,
                    spilt: 0,
                    direct: 0,
                },
            },
        })
    }

    /// One turn: hears the bell, looks for what it needs, and answers a flush, or takes, loses or holds the next sample. It
    /// makes at most five calls on its side, takes no memory and does not wait. After `Done` the close was answered.
    #[inline]
    pub fn turn<S: LaneSide>(&mut self, side: &mut S) -> Turn
        requires side { IsSideOf self.old.setup (S.fixed side.old) (S.seen side.old) }
        requires room { HasRoom self.old.driver (S.seen side.old) }
        requires invariant { DriverInvariant self.old.setup self.old.driver (S.seen side.old) }
        ensures setup { self.new.setup ≡ self.old.setup }
        // The turn of the definitions, over some words.
        ensures step { (h : Words) ×
            Gives (turn_of self.old.setup h (record { driver = self.old.driver; side = S.seen side.old }))
            result self.new.driver (S.seen side.new) }
        // Where the side tells its words and its bell, they are the told words and the value rung last.
        ensures told { WhereTold (S.far side.old) (λ g. (S.fixed side.old).told ≡ true →
            Gives (next_turn self.old.setup (rung_of (S.far side.old).rungs) g
            (record { driver = self.old.driver; side = S.seen side.old }))
            result self.new.driver (S.seen side.new)) }
        ensures done { self.old.driver.done ≡ true →
            Gives (record { answer = Done; driver = self.old.driver; side = S.seen side.old })
            result self.new.driver (S.seen side.new) }
        // After Done the close was answered, now or before.
        ensures closed { result ≡ Done → self.new.driver.done ≡ true }
        ensures invariant { DriverInvariant self.new.setup self.new.driver (S.seen side.new) }
        ensures cause { CauseOf self.old.setup self.old.driver (S.seen side.old)
            (S.seen side.new) result }
        ensures few { (S.seen side.new).steps ≤ (S.seen side.old).steps + 5 }
        ensures hears { self.old.driver.done ≡ false →
            (S.seen side.new).hears ≡ (S.seen side.old).hears + 1 }
        ensures later { (S.seen side.old).heard ≤ (S.seen side.new).heard }
        ensures heard { self.old.driver.done ≡ false →
            HeardBy (S.fixed side.old) (S.far side.old) (S.seen side.new).heard }
        ensures room { RoomLowered (S.seen side.old) (S.seen side.new) }
        ensures buckets { (S.seen side.new).buckets ≡ (S.seen side.old).buckets }
        ensures buffer { (S.seen side.new).buffer ≡ (S.seen side.old).buffer }
        ensures far { S.far side.new ≡ S.far side.old }
        ensures fixed { S.fixed side.new ≡ S.fixed side.old }
    {
        laws();
        self.driver.step(&self.setup, side)
    }

    /// How the samples so far were counted.
    pub fn stats(&self) -> Stats
        ensures { result ≡ self.now.driver.stats }
    {
        self.driver.stats
    }

    /// The samples that were lost, in order.
    pub fn into_losses(self) -> Vec<Loss>
        ensures { result.items ≡ self.driver.losses }
    {
        let driver = self.driver;
        driver.losses
    }
}

// The laws of the definitions that a turn cites.
fn laws()
    ensures keeps { TurnKeeps }
    ensures few { FewCalls }
    ensures falls { RoomFalls }
    ensures hears { BellIsHeard }
    ensures causes { AnswersHaveCauses }
    ensures closes { DoneIsClosed }
{
    invariant_is_kept();
    calls_are_few();
    room_falls();
    bell_is_heard();
    answers_have_causes();
    closes_are_answered();
}
