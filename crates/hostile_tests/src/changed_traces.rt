//! Each byte of a trace is changed to other bytes: the trace is refused at its first bad line and nothing is written,
//! or what is counted is what the changed trace says, and each of its samples is counted.
use crate::calls::{Given, call_of, has_alone, sound_store};
use crate::model::{Told, reading_of};
use crate::traces::{CAT, REPLAY, with_byte, work_lines};
use std::alloc::Global;
use std::process::Abort;
use std::test::Fail;
use store_io::MemStore;

// The lines of a text, in byte order, without the empty one behind the last.
fn sorted(alloc: Global, text: &[u8]) -> Result<Vec<Vec<u8>>, Fail> {
    let mut lines = Vec::new(alloc);
    for line in text.split(|byte| *byte == b'\n') {
        if !line.is_empty() {
            lines.push(line.to_vec(alloc)?)?;
        }
    }
    lines.sort()?;
    Ok(lines)
}

// Refused at this line, and nothing is printed or written.
fn is_refused(
    rt: &impl Abort,
    alloc: Global,
    given: &Given,
    line: usize,
    store: &mut MemStore,
) -> Result<(), Fail> {
    let start = format!(in alloc; "dcpi: trace line {line}: ")?;
    assert!(rt; given.err.starts_with(start.as_bytes()));
    assert_eq!(rt; given.status, 2);
    assert_eq!(rt; given.out.as_slice(), b"".as_slice());
    assert!(rt; has_alone(alloc, store, &[])?);
    Ok(())
}

fn counts(rt: &impl Abort, alloc: Global, given: &Given, lines: &[Vec<u8>]) -> Result<(), Fail> {
    assert_eq!(rt; given.err.as_slice(), b"".as_slice());
    assert_eq!(rt; given.status, 0);
    assert_eq!(rt; sorted(alloc, &given.out)?.as_slice(), lines);
    Ok(())
}

// Counts from the trace alone.
fn is_counted(rt: &impl Abort, alloc: Global, text: &[u8]) -> Result<(), Fail> {
    let mut store = sound_store(alloc);
    let given = call_of(alloc, &["plain"], text, &mut store)?;
    match reading_of(alloc, text)? {
        Told::Bad(line) => is_refused(rt, alloc, &given, line, &mut store),
        Told::Counts { lines, .. } => counts(rt, alloc, &given, &lines),
    }
}

// Replays into an empty database.
fn is_replayed(rt: &impl Abort, alloc: Global, text: &[u8]) -> Result<(), Fail> {
    let mut store = sound_store(alloc);
    let given = call_of(alloc, REPLAY, text, &mut store)?;
    match reading_of(alloc, text)? {
        Told::Bad(line) => is_refused(rt, alloc, &given, line, &mut store),
        Told::Counts { lines, samples } => {
            let start = format!(in alloc; "total taken {samples} ")?;
            let total = given.out.split(|byte| *byte == b'\n').rev().nth(1);
            let total = total.ok_or("no total")?;
            assert!(rt; total.starts_with(start.as_bytes()) && total.ends_with(b" lost 0"));
            let listed = call_of(alloc, CAT, b"", &mut store)?;
            counts(rt, alloc, &listed, &lines)
        }
    }
}

// The line feed, and a digit with which most lines stay good.
const TELLING: &[u8] = b"\n4";

#[test]
fn each_byte_of_a_trace_that_is_counted(rt: HostRuntime) -> Result<(), Fail> {
    let alloc = rt.alloc();
    let trace = work_lines(alloc, b"dcpi-trace 1 cpus 4\n")?;
    for place in 0..trace.len() {
        for byte in TELLING {
            is_counted(&rt, alloc, &with_byte(alloc, &trace, place, *byte)?)?;
        }
    }
    Ok(())
}

// A digit that no number of two digits or more begins with.
const DIGIT: u8 = b'0';

#[test]
fn each_byte_of_a_trace_that_is_replayed(rt: HostRuntime) -> Result<(), Fail> {
    let alloc = rt.alloc();
    let trace = work_lines(alloc, b"dcpi-trace 1 cpus 4 buckets 1 buffer 1\n")?;
    for place in 0..trace.len() {
        is_replayed(&rt, alloc, &with_byte(alloc, &trace, place, DIGIT)?)?;
    }
    Ok(())
}
