//! Makes a profile of so many rows, writes it and reads it again. With a number of rounds it prints how long that
//! took at best.
//! The arguments are ROWS and, where times are wanted, ROUNDS.
#![tactic(auto)]

mod rows;

use anyhow::{Context, Result};
use profile_file::{Profile, read_profile, write_profile};
use std::env;
use std::rt::Clock;
use std::time::Instant;

fn main(rt: HostRuntime) -> Result<()> {
    let mut args = env::args(&rt)?;
    let _program = args.next();
    let count = args
        .next()
        .context("the number of rows is missing")?
        .parse::<u32>()
        .context("reading the number of rows")?;
    let profile = rows::made(rt.alloc(), count)?;
    report(&rt, &profile)?;
    if let Some(rounds) = args.next() {
        let rounds = rounds
            .parse::<u32>()
            .context("reading the number of rounds")?;
        time(&rt, &profile, rounds)?;
    }
    Ok(())
}

fn report<R: Print + AllocGlobal>(rt: &R, profile: &Profile) -> Result<()> {
    let bytes = write_profile(rt.alloc(), profile)?;
    let again = read_profile(rt.alloc(), &bytes)?;
    let count = again.rows().len();
    let size = bytes.len();
    let sum = rows::sum_of(again.rows());
    println!(rt; "rows {count} bytes {size} sum {sum}")?;
    Ok(())
}

fn time<R: Print + AllocGlobal + Clock>(rt: &R, profile: &Profile, rounds: u32) -> Result<()> {
    let mut write = u128::MAX;
    let mut read = u128::MAX;
    for _ in 0..rounds {
        let start = Instant::now(rt)?;
        let bytes = write_profile(rt.alloc(), profile)?;
        write = write.min(start.elapsed(rt)?.as_micros());
        let start = Instant::now(rt)?;
        let again = read_profile(rt.alloc(), &bytes)?;
        read = read.min(start.elapsed(rt)?.as_micros());
        let _count = again.rows().len();
    }
    println!(rt; "write {write} read {read}")?;
    Ok(())
}
