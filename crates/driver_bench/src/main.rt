//! Takes samples on one lane over a plain side, whose buffers are taken and given back as they come, and prints how they were
//! counted. With a number of rounds it prints how many microseconds the samples took at best; only the turns are timed.
//! The arguments are SAMPLES, at most 2,000,000, and, where times are wanted, ROUNDS.
#![tactic(auto)]

ghost use Rattle.std.specs.Prelude.{◌≤◌, IfOk};

mod generated;

use anyhow::{Context, Result};
use assoc_table::MOST_BUCKETS;
use cpu_lane::Plan;
use driver_play::Play;
use overflow_pair::MOST_BUFFER;
use sample_key::Pace;
use std::alloc::Global;
use std::env;
use std::rt::Clock;
use std::time::Instant;

/// The most samples of a lane.
const MOST: usize = 2_000_000;

/// After how many turns the daemon's half is played: so often that no buffer is out when it is wanted.
const EVERY: usize = 8_192;

fn main(rt: HostRuntime) -> Result<()> {
    let mut args = env::args(&rt)?;
    let _program = args.next();
    let count = args
        .next()
        .context("the number of samples is missing")?
        .parse::<usize>()
        .context("reading the number of samples")?
        .min(MOST);
    let mut play = made(rt.alloc(), count)?;
    let drained = take(&mut play, count);
    let stats = play.stats();
    let lost = play.into_losses().len();
    let (folded, placed, evicted) = (stats.folded, stats.placed, stats.evicted);
    println!(rt;
        "samples {count} folded {folded} placed {placed} evicted {evicted} lost {lost} drained {drained}"
    )?;
    if let Some(rounds) = args.next() {
        let rounds = rounds
            .parse::<u32>()
            .context("reading the number of rounds")?;
        time(&rt, count, rounds)?;
    }
    Ok(())
}

/// A new lane with so many samples, of a table of 4,096 buckets.
fn made(alloc: Global, count: usize) -> Result<Play>
    requires { count ≤ MOST }
{
    let samples = generated::samples(alloc, count)?;
    let plan = Plan {
        pace: Pace::Free,
        last: 1,
        buffer: MOST_BUFFER,
    };
    Ok(Play::new(alloc, samples, 0, plan, 1, MOST_BUCKETS)?)
}

/// Takes so many turns, and plays the daemon's half in between; how many buffers it drained.
fn take(play: &mut Play, count: usize) -> u64 {
    let mut drained: u64 = 0;
    for i in 0..count {
        let _answer = play.turn();
        if i % EVERY == 0 {
            for b in 0..2 {
                if play.drain(b) {
                    drained = drained.saturating_add(1);
                }
            }
        }
    }
    drained
}

/// Prints the least time that the turns took.
fn time<R: Print + AllocGlobal + Clock>(rt: &R, count: usize, rounds: u32) -> Result<()>
    requires { count ≤ MOST }
{
    let mut least = u128::MAX;
    for _ in 0..rounds {
        let mut play = made(rt.alloc(), count)?;
        let start = Instant::now(rt)?;
        let _drained = take(&mut play, count);
        least = least.min(start.elapsed(rt)?.as_micros());
    }
    println!(rt; "least {least} us")?;
    Ok(())
}
