//! Inputs that come byte by byte, that never end, and that are cut.
use crate::calls::{
    Asked, Given, call, call_of, gives, has_alone, is_asked, sound_store, store_of,
};
use crate::sources::{ByteByByte, Endless};
use crate::traces::{
    BOUNDARY, BY_PROCEDURE, CAT, FOLD_FILES, HEADER, REPLAY, WORK_COUNTS, WORK_PROCEDURES,
    WORK_SUMMARY, WORK_SYMBOLS, put_times, work,
};
use std::alloc::Global;
use std::process::Abort;
use std::test::Fail;
use store_io::MemStore;
use text_num::put_hex;

// A call whose input comes byte by byte.
fn call_byte_by_byte(
    alloc: Global,
    words: &[&str],
    input: &[u8],
    store: &mut MemStore,
) -> Result<Given, Fail> {
    let mut source = ByteByByte {
        bytes: input.to_vec(alloc)?,
        given: 0,
    };
    call(alloc, words, &mut source, store)
}

const WORKED: Asked = Asked {
    words: REPLAY,
    status: 0,
    out: WORK_SUMMARY,
    err: b"",
};

const COUNTED: Asked = Asked {
    words: &["plain"],
    out: WORK_COUNTS,
    ..WORKED
};

const LISTED: Asked = Asked {
    words: CAT,
    ..COUNTED
};

const BY_SYMBOLS: Asked = Asked {
    words: BY_PROCEDURE,
    out: WORK_PROCEDURES,
    ..WORKED
};

#[test]
fn bytes_come_one_by_one(rt: HostRuntime) -> Result<(), Fail> {
    let alloc = rt.alloc();
    let mut store = sound_store(alloc);
    let trace = work(alloc)?;
    for (asked, input) in [
        (COUNTED, trace.as_slice()),
        (WORKED, trace.as_slice()),
        (LISTED, b"".as_slice()),
        (BY_SYMBOLS, WORK_SYMBOLS),
    ] {
        let given = call_byte_by_byte(alloc, asked.words, input, &mut store)?;
        is_asked(&rt, &given, &asked);
    }
    Ok(())
}

// How a trace begins, what then comes over and over without end, and the refusal.
const ENDLESS_TRACES: [(&[u8], &[u8], &[u8]); 8] = [
    (HEADER, b"x", b"dcpi: trace line 2: BadWord\n"),
    (HEADER, b"\n", b"dcpi: trace line 2: BadWord\n"),
    (b"", b"x", b"dcpi: trace line 1: NotHeader\n"),
    (b"", HEADER, b"dcpi: trace line 2: BadWord\n"),
    (
        HEADER,
        b"load 7 10000 1000 A\n",
        b"dcpi: trace line 65538: TooManyRecords\n",
    ),
    (
        HEADER,
        b"epoch\n",
        b"dcpi: trace line 1026: TooManyRecords\n",
    ),
    (ENDED, b"x", b"dcpi: trace line 3: AfterEnd\n"),
    (ENDED, b"\n", b"dcpi: trace line 3: AfterEnd\n"),
];

// A trace that has ended.
const ENDED: &[u8] = b"dcpi-trace 1 cpus 1\nend\n";

// How often what comes over and over stands in what a source goes over.
const TIMES: u32 = 4096;

// Without end: first the start, then `again` over and over.
fn call_without_end(
    alloc: Global,
    words: &[&str],
    start: &[u8],
    again: &[u8],
    store: &mut MemStore,
) -> Result<Given, Fail> {
    let mut block = Vec::new(alloc);
    put_times(&mut block, TIMES, again)?;
    call(alloc, words, &mut Endless::new(start, &block), store)
}

// A trace without end is refused, and nothing is written.
fn refuses_trace(
    rt: &impl Abort,
    alloc: Global,
    start: &[u8],
    again: &[u8],
    err: &[u8],
) -> Result<(), Fail> {
    let mut store = sound_store(alloc);
    let asked = Asked {
        words: REPLAY,
        status: 2,
        out: b"",
        err,
    };
    let given = call_without_end(alloc, asked.words, start, again, &mut store)?;
    is_asked(rt, &given, &asked);
    assert!(rt; has_alone(alloc, &mut store, &[])?);
    Ok(())
}

#[test]
fn a_trace_without_end_is_refused(rt: HostRuntime) -> Result<(), Fail> {
    for (start, again, err) in ENDLESS_TRACES {
        refuses_trace(&rt, rt.alloc(), start, again, err)?;
    }
    Ok(())
}

#[test]
fn samples_without_end_are_refused(rt: HostRuntime) -> Result<(), Fail> {
    refuses_trace(
        &rt,
        rt.alloc(),
        HEADER,
        b"s 0 7 1000 cycles\n",
        b"dcpi: trace line 2000002: TooManySamples\n",
    )
}

#[test]
fn a_schedule_without_end_is_refused(rt: HostRuntime) -> Result<(), Fail> {
    refuses_trace(
        &rt,
        rt.alloc(),
        ENDED,
        b"a\n",
        b"dcpi: trace line 4000003: TooManyRecords\n",
    )
}

// How many finished lines there are.
fn lines_in(bytes: &[u8]) -> usize {
    bytes.iter().filter(|byte| **byte == b'\n').count()
}

#[test]
fn each_prefix_of_a_trace_has_no_end(rt: HostRuntime) -> Result<(), Fail> {
    let alloc = rt.alloc();
    let mut store = sound_store(alloc);
    for length in 0..BOUNDARY.len() {
        let prefix = &BOUNDARY[..length];
        let line = lines_in(prefix).saturating_add(1);
        let err = format!(in alloc; "dcpi: trace line {line}: NoEnd\n")?;
        for words in [REPLAY, &["plain"]] {
            let asked = Asked {
                words,
                status: 2,
                out: b"",
                err: err.as_bytes(),
            };
            gives(&rt, alloc, &asked, prefix, &mut store)?;
        }
    }
    assert!(rt; has_alone(alloc, &mut store, &[])?);
    Ok(())
}

// A symbol list that is refused: how it begins, what then comes over and over, and the refusal. Where nothing comes over and
// over, the list ends.
const SYMBOL_LISTS: [(&[u8], &[u8], &[u8]); 6] = [
    (b"a 0 8 f", b"", b"dcpi: symbols line 1: Unfinished\n"),
    (b"a 2 8 f\n", b"", b"dcpi: symbols line 1: Unaligned\n"),
    (b"a 2 8 f\n", b"x", b"dcpi: symbols line 1: Unaligned\n"),
    (b"", b"x", b"dcpi: symbols line 1: BadLine\n"),
    (b"a 0 8 f\n", b"x", b"dcpi: symbols line 2: BadLine\n"),
    (b"", b"a 0 8 f\n", b"dcpi: symbols line 2: Overlap\n"),
];

fn refuses_symbols(
    rt: &impl Abort,
    alloc: Global,
    start: &[u8],
    again: &[u8],
    err: &[u8],
) -> Result<(), Fail> {
    let mut store = store_of(rt, alloc, &FOLD_FILES)?;
    let asked = Asked {
        words: BY_PROCEDURE,
        status: 9,
        out: b"",
        err,
    };
    let given = if again.is_empty() {
        call_of(alloc, asked.words, start, &mut store)?
    } else {
        call_without_end(alloc, asked.words, start, again, &mut store)?
    };
    is_asked(rt, &given, &asked);
    Ok(())
}

#[test]
fn symbol_lists_are_refused(rt: HostRuntime) -> Result<(), Fail> {
    for (start, again, err) in SYMBOL_LISTS {
        refuses_symbols(&rt, rt.alloc(), start, again, err)?;
    }
    Ok(())
}

// The good lines that a symbol list may have.
const MOST_SYMBOLS: u64 = 1_048_576;

// As many good lines, each with a range of its own.
fn most_symbols(alloc: Global) -> Result<Vec<u8>, Fail> {
    let mut text = Vec::new(alloc);
    for number in 0..MOST_SYMBOLS {
        text.extend_from_slice(b"a ")?;
        put_hex(&mut text, 4 * number)?;
        text.extend_from_slice(b" 4 f\n")?;
    }
    Ok(text)
}

#[test]
fn a_symbol_list_without_end_is_refused(rt: HostRuntime) -> Result<(), Fail> {
    let symbols = most_symbols(rt.alloc())?;
    refuses_symbols(
        &rt,
        rt.alloc(),
        &symbols,
        b"b 0 4 f\n",
        b"dcpi: symbols line 1048577: TooMany\n",
    )
}
