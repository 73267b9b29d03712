//! Made traces, as texts and in numbers.

use crate::examples::{
    FIRST_LINES, LAST_LINE, LAST_OF_SEVEN, SIX_OF_ZERO, TEN_THOUSANDTH_OF_SEVEN, THREE_OF_GREATEST,
    THREE_OF_ONE,
};
use outside_io::{ListedFaults, MemSink, MemSource};
use std::alloc::Global;
use std::process::Abort;
use std::test::Fail;
use trace_generator::make_trace;
use trace_text::{Line, Record, Trace, read_trace, write_trace};

fn written(alloc: Global, trace: &Trace) -> Result<Vec<u8>, Fail> {
    let mut sink = MemSink::new(alloc, ListedFaults::none(alloc));
    write_trace(alloc, trace, &mut sink)?;
    Ok(sink.bytes().to_vec(alloc)?)
}

/// The text of a trace with these samples.
fn text_with(alloc: Global, samples: &[u8]) -> Result<Vec<u8>, Fail> {
    let mut text = FIRST_LINES.to_vec(alloc)?;
    text.extend_from_slice(samples)?;
    text.extend_from_slice(LAST_LINE)?;
    Ok(text)
}

/// How many of the lines are this record.
fn count_of(lines: &[Line], notice: Record) -> usize {
    lines
        .iter()
        .filter(|line| **line == Line::Rec(notice))
        .count()
}

/// How many of the lines are samples.
fn sample_count(lines: &[Line]) -> usize {
    lines
        .iter()
        .filter(|line| matches!(line, Line::Sample { .. }))
        .count()
}

#[test]
fn a_trace_without_samples_is_its_mappings(rt: HostRuntime) -> Result<(), Fail> {
    let trace = make_trace(rt.alloc(), 0, 0)?;
    let text = written(rt.alloc(), &trace)?;
    let expected = text_with(rt.alloc(), b"")?;
    assert!(rt; text == expected);
    Ok(())
}

#[test]
fn samples_are_drawn_from_the_seed(rt: HostRuntime) -> Result<(), Fail> {
    let six = make_trace(rt.alloc(), 0, 6)?;
    let text = written(rt.alloc(), &six)?;
    assert!(rt; text == text_with(rt.alloc(), SIX_OF_ZERO)?);
    let three = make_trace(rt.alloc(), 1, 3)?;
    let text = written(rt.alloc(), &three)?;
    assert!(rt; text == text_with(rt.alloc(), THREE_OF_ONE)?);
    let greatest = make_trace(rt.alloc(), u64::MAX, 3)?;
    let text = written(rt.alloc(), &greatest)?;
    assert!(rt; text == text_with(rt.alloc(), THREE_OF_GREATEST)?);
    Ok(())
}

#[test]
fn records_follow_where_they_are_due(rt: HostRuntime) -> Result<(), Fail> {
    let trace = make_trace(rt.alloc(), 7, 10_001)?;
    let text = written(rt.alloc(), &trace)?;
    assert!(rt; text.ends_with(TEN_THOUSANDTH_OF_SEVEN));
    let trace = make_trace(rt.alloc(), 7, 100_000)?;
    let text = written(rt.alloc(), &trace)?;
    assert!(rt; text.ends_with(LAST_OF_SEVEN));
    assert!(rt; count_of(&trace.lines, Record::Drain) == 10);
    assert!(rt; count_of(&trace.lines, Record::Merge) == 1);
    Ok(())
}

#[test]
fn a_made_trace_is_read_again(rt: HostRuntime) -> Result<(), Fail> {
    let trace = make_trace(rt.alloc(), 1, 1_000)?;
    let text = written(rt.alloc(), &trace)?;
    let mut source = MemSource::new(text, ListedFaults::none(rt.alloc()));
    let again = read_trace(rt.alloc(), &mut source)?;
    assert!(rt; again.lines.as_slice() == trace.lines.as_slice());
    assert!(rt; again.images.len() == 6);
    assert!(rt; again.schedule.is_empty());
    assert!(rt; sample_count(&again.lines) == 1_000);
    Ok(())
}

#[test]
fn the_largest_trace_is_made(rt: HostRuntime) -> Result<(), Fail> {
    let trace = make_trace(rt.alloc(), 7, 2_000_000)?;
    assert!(rt; trace.lines.len() == 2_000_237);
    assert!(rt; sample_count(&trace.lines) == 2_000_000);
    assert!(rt; count_of(&trace.lines, Record::Drain) == 200);
    assert!(rt; count_of(&trace.lines, Record::Merge) == 20);
    Ok(())
}
