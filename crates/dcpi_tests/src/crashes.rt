//! A call of the store fails in the midst of a replay: what it answers, and what the database is afterwards.
use crate::replays::{AT_BOUNDARY, COUNTED, RUNS, TWO_PARTS, WORKED};
use crate::rows::{Row, failing_store, gives};
use std::alloc::Global;
use std::process::Abort;
use std::test::Fail;

const NOTHING: &[u8] = b"";

const FIRST: &[u8] = b"k 0 A cycles 0 1\n";

const BOTH: &[u8] = b"k 0 A cycles 0 1\nk 1 A cycles 0 1\n";

/// The call of the store before the writes: the names are asked for.
pub const BEFORE_WRITES: u64 = 1;

// A replay of which this call of the store fails, and what is listed afterwards.
fn stops(
    rt: &impl Abort,
    alloc: Global,
    row: &Row<'_>,
    call: u64,
    leaves_byte: bool,
    listed: &[u8],
) -> Result<(), Fail> {
    let mut store = failing_store(alloc, call, leaves_byte)?;
    let stopped = Row {
        status: 4,
        out: b"",
        err: b"dcpi: store fault\n",
        ..*row
    };
    gives(rt, alloc, &stopped, &mut store)?;
    let after = Row {
        out: listed,
        ..COUNTED
    };
    gives(rt, alloc, &after, &mut store)
}

// Which write of two parts fails, what it leaves, and what is listed afterwards.
const WRITES: [(u64, bool, &[u8]); 16] = [
    (1, false, NOTHING),
    (1, true, NOTHING),
    (2, false, NOTHING),
    (2, true, NOTHING),
    (3, false, NOTHING),
    (3, true, NOTHING),
    (4, false, NOTHING),
    (4, true, FIRST),
    (5, false, FIRST),
    (5, true, FIRST),
    (6, false, FIRST),
    (6, true, FIRST),
    (7, false, FIRST),
    (7, true, FIRST),
    (8, false, FIRST),
    (8, true, BOTH),
];

#[test]
fn each_write_of_two_parts_fails(rt: HostRuntime) -> Result<(), Fail> {
    for (write, leaves_byte, listed) in &WRITES {
        stops(
            &rt,
            rt.alloc(),
            &TWO_PARTS,
            BEFORE_WRITES + *write,
            *leaves_byte,
            listed,
        )?;
    }
    Ok(())
}

/// How many calls of the store the work of four processors makes: the names, six profiles, an unknown one, and the last
/// three files of a commit.
const CALLS_OF_WORK: u64 = 11;

#[test]
fn each_call_of_the_store_fails(rt: HostRuntime) -> Result<(), Fail> {
    for call in 1..CALLS_OF_WORK + 1 {
        stops(&rt, rt.alloc(), &WORKED, call, false, NOTHING)?;
    }
    let mut store = failing_store(rt.alloc(), CALLS_OF_WORK + 1, false)?;
    gives(&rt, rt.alloc(), &WORKED, &mut store)
}

/// A known and an unknown sample, listed.
pub const LISTED: Row = Row {
    out: b"k 0 A imiss ffc 1\nu 0 imiss 11000 1\n",
    ..COUNTED
};

// The third write is the part of the run.
#[test]
fn replayed_again_after_a_fault(rt: HostRuntime) -> Result<(), Fail> {
    let alloc = rt.alloc();
    let mut store = failing_store(alloc, BEFORE_WRITES + 3, false)?;
    let stopped = Row {
        status: 4,
        out: b"",
        err: b"dcpi: store fault\n",
        ..AT_BOUNDARY
    };
    for row in &[stopped, COUNTED, AT_BOUNDARY, LISTED] {
        gives(&rt, alloc, row, &mut store)?;
    }
    Ok(())
}

const SECOND_RUN: Row = Row {
    out: b"run 2\nc 0 cycles taken 2 known 2 unknown 0 lost 0\nt 0 folded 0 placed 2 evicted 0 spilt 0 direct 0\ntotal taken 2 known 2 unknown 0 lost 0\n",
    ..TWO_PARTS
};

// A run was cut at its second part; the next one is the second run.
#[test]
fn a_cut_run(rt: HostRuntime) -> Result<(), Fail> {
    let alloc = rt.alloc();
    let mut store = failing_store(alloc, BEFORE_WRITES + 5, false)?;
    let stopped = Row {
        status: 4,
        out: b"",
        err: b"dcpi: store fault\n",
        ..TWO_PARTS
    };
    let cut = Row {
        out: b"run 1 parts 1 cut\nc 0 cycles taken 1 known 1 unknown 0 lost 0\n",
        ..RUNS
    };
    let first = Row {
        out: FIRST,
        ..COUNTED
    };
    for row in &[stopped, first, cut, SECOND_RUN] {
        gives(&rt, alloc, row, &mut store)?;
    }
    Ok(())
}
