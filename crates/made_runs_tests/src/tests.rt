//! Summaries and texts of made traces.

ghost use Rattle.std.specs.Prelude.{◌≤◌};
ghost use Rattle.sample_key.specs.declared.limits.TheConstants.{MOST_SAMPLES};

use crate::examples::{A_THOUSAND, NO_SAMPLES, NO_SAMPLES_TRACE, NONE_LOST, TWO_MILLION};
use epoch_store::open_database;
use made_runs::{made_summary, made_text};
use outside_io::{ListedFaults, MemSource};
use replay_drive::replay;
use run_laws::{records_can_be_stored, traces_are_fit};
use std::alloc::Global;
use std::process::Abort;
use std::test::Fail;
use store_io::MemStore;
use summary_text::summary_text;
use trace_text::read_trace;

/// The summary of the run of a trace, as the first one into an empty database.
fn summary_of(alloc: Global, text: Vec<u8>) -> Result<Vec<u8>, Fail> {
    let mut source = MemSource::new(text, ListedFaults::none(alloc));
    let trace = read_trace(alloc, &mut source)?;
    traces_are_fit(&trace);
    records_can_be_stored();
    let mut store = MemStore::new(alloc, Vec::new(alloc));
    let db = open_database(alloc, &mut store)?;
    let outcome = replay(alloc, &trace, db, &mut store)?;
    Ok(summary_text(alloc, &outcome.kept, &outcome.stats)?)
}

/// Whether the text of a made trace, read back, has the summary of its run.
fn reads_back(alloc: Global, seed: u64, samples: u32) -> Result<bool, Fail>
    requires { samples ≤ MOST_SAMPLES }
{
    let text = made_text(alloc, seed, samples)?;
    let summary = made_summary(alloc, seed, samples)?;
    let read = summary_of(alloc, text)?;
    Ok(read == summary)
}

/// How many lines begin and end so.
fn lines_between(text: &[u8], first: &[u8], last: &[u8]) -> usize {
    text.split(|byte| *byte == b'\n')
        .filter(|line| line.starts_with(first) && line.ends_with(last))
        .count()
}

#[test]
fn a_trace_without_samples_has_an_empty_summary(rt: HostRuntime) -> Result<(), Fail> {
    let summary = made_summary(rt.alloc(), 0, 0)?;
    assert!(rt; summary.as_slice() == NO_SAMPLES);
    Ok(())
}

#[test]
fn a_thousand_samples_are_taken_and_none_lost(rt: HostRuntime) -> Result<(), Fail> {
    let summary = made_summary(rt.alloc(), 1, 1_000)?;
    assert!(rt; lines_between(&summary, A_THOUSAND, NONE_LOST) == 1);
    Ok(())
}

#[test]
fn the_largest_summary_is_always_the_same(rt: HostRuntime) -> Result<(), Fail> {
    let first = made_summary(rt.alloc(), 7, 2_000_000)?;
    let second = made_summary(rt.alloc(), 7, 2_000_000)?;
    assert!(rt; first == second);
    assert!(rt; lines_between(&first, TWO_MILLION, NONE_LOST) == 1);
    Ok(())
}

#[test]
fn a_trace_without_samples_is_its_mappings(rt: HostRuntime) -> Result<(), Fail> {
    let text = made_text(rt.alloc(), 0, 0)?;
    assert!(rt; text.as_slice() == NO_SAMPLES_TRACE);
    Ok(())
}

#[test]
fn a_text_that_is_read_back_has_the_summary(rt: HostRuntime) -> Result<(), Fail> {
    assert!(rt; reads_back(rt.alloc(), 0, 0)?);
    assert!(rt; reads_back(rt.alloc(), 1, 1_000)?);
    assert!(rt; reads_back(rt.alloc(), 7, 20_001)?);
    assert!(rt; reads_back(rt.alloc(), u64::MAX, 3)?);
    Ok(())
}
