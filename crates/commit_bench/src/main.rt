//! Opens a database of so many images and rows, and commits a profile and an unknown one into it. With a number of
//! rounds it prints how long that took at best, beside the reading of a head of so many images and no rows alone, and a
//! commit of one profile into an empty database.
//! The arguments are IMAGES, ROWS and, where times are wanted, ROUNDS.
#![tactic(auto)]

mod heads;

use anyhow::{Context, Result};
use database_tests::{first_change, second_change};
use epoch_store::{Database, commit, open_database};
use head_file::read_head;
use std::alloc::Global;
use std::env;
use std::rt::Clock;
use std::time::Instant;
use store_io::MemStore;

/// The last part of run 1 and the only part of it, each of one processor without losses.
const LAST_PART: &[u8] = &[1, 1, 1, 1, 0, 0, 1, 0];

const WHOLE_RUN: &[u8] = &[1, 1, 0, 1, 0, 0, 1, 0];

/// A profile that counts offset 0 once.
const ONE: &[u8] = &[1, 1, 0, 1];

fn main(rt: HostRuntime) -> Result<()> {
    let mut args = env::args(&rt)?;
    let _program = args.next();
    let images = args
        .next()
        .context("the number of images is missing")?
        .parse::<u32>()
        .context("reading the number of images")?;
    let rows = args
        .next()
        .context("the number of rows is missing")?
        .parse::<u32>()
        .context("reading the number of rows")?;
    report(&rt, images, rows)?;
    if let Some(rounds) = args.next() {
        let rounds = rounds
            .parse::<u32>()
            .context("reading the number of rounds")?;
        time(&rt, images, rows, rounds)?;
    }
    Ok(())
}

fn report<R: Print + AllocGlobal>(rt: &R, images: u32, rows: u32) -> Result<()> {
    let mut store = heads::with_head(rt.alloc(), images, rows)?;
    let mut db = open_database(rt.alloc(), &mut store)?;
    let before = db.known_rows().len();
    commit_more(rt.alloc(), &mut db, &mut store)?;
    let held = db.catalog().names().len();
    let after = db.known_rows().len();
    println!(rt; "images {held} rows {before} then {after}")?;
    Ok(())
}

/// Commits the profile of the first image in the last epoch, and an unknown one.
fn commit_more(alloc: Global, db: &mut Database, store: &mut MemStore) -> Result<()> {
    let change = second_change(alloc, db, ONE, ONE, LAST_PART)?;
    commit(alloc, db, store, &change)?;
    Ok(())
}

/// Commits the profile of the first image into an empty database.
fn commit_first(alloc: Global, db: &mut Database, store: &mut MemStore) -> Result<()> {
    let change = first_change(alloc, db, 0, ONE, WHOLE_RUN)?;
    commit(alloc, db, store, &change)?;
    Ok(())
}

fn time<R: Print + AllocGlobal + Clock>(rt: &R, images: u32, rows: u32, rounds: u32) -> Result<()> {
    let mut opening = u128::MAX;
    let mut large = u128::MAX;
    let mut empty = u128::MAX;
    let mut store = heads::with_head(rt.alloc(), images, rows)?;
    for _ in 0..rounds {
        let start = Instant::now(rt)?;
        let mut db = open_database(rt.alloc(), &mut store)?;
        opening = opening.min(start.elapsed(rt)?.as_micros());
        let start = Instant::now(rt)?;
        commit_more(rt.alloc(), &mut db, &mut store)?;
        large = large.min(start.elapsed(rt)?.as_micros());
        let mut fresh = MemStore::new(rt.alloc(), Vec::new(rt.alloc()));
        let mut db = open_database(rt.alloc(), &mut fresh)?;
        let start = Instant::now(rt)?;
        commit_first(rt.alloc(), &mut db, &mut fresh)?;
        empty = empty.min(start.elapsed(rt)?.as_micros());
    }
    let head = time_of_head(rt, images, rounds)?;
    println!(rt; "opening {opening} head {head} large {large} empty {empty}")?;
    Ok(())
}

/// How long the text of a head of so many images and no rows takes to read, at best.
fn time_of_head<R: AllocGlobal + Clock>(rt: &R, images: u32, rounds: u32) -> Result<u128> {
    let text = heads::head_text(rt.alloc(), images, 0)?;
    let mut least = u128::MAX;
    for _ in 0..rounds {
        let start = Instant::now(rt)?;
        let head = read_head(rt.alloc(), text.as_bytes(), 1)?;
        least = least.min(start.elapsed(rt)?.as_micros());
        head.context("the head is not read")?;
    }
    Ok(least)
}
