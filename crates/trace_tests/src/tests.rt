//! What is read, refused, written again and cut, as tables.

use crate::examples::{BOUNDARY, EACH_FORM, EMPTY, HEADER, REMAPPED};
use outside_io::{ListedFaults, MemSink, MemSource};
use sample_key::{Event, Key, Marked};
use std::alloc::{AllocError, Global};
use std::process::Abort;
use std::test::Fail;
use trace_cut::{cut, streams_are_in_order};
use trace_lines::{CutTrace, Outline};
use trace_text::{
    Line, PutError, Record, Step, Trace, TraceRefusal, TraceWhy, read_cut, read_trace, write_trace,
};

fn source(alloc: Global, bytes: &[u8]) -> Result<MemSource, AllocError> {
    Ok(MemSource::new(bytes.to_vec(alloc)?, ListedFaults::none(alloc)))
}

fn read(alloc: Global, bytes: &[u8]) -> Result<Trace, TraceRefusal> {
    read_trace(alloc, &mut source(alloc, bytes)?)
}

fn written(alloc: Global, trace: &Trace) -> Result<Vec<u8>, Fail> {
    let mut sink = MemSink::new(alloc, ListedFaults::none(alloc));
    write_trace(alloc, trace, &mut sink)?;
    Ok(sink.bytes().to_vec(alloc)?)
}

/// Whether the bytes are refused at this line for this reason.
fn is_refused(alloc: Global, bytes: &[u8], line: u64, why: TraceWhy) -> bool {
    read(alloc, bytes).err() == Some(TraceRefusal::Bad { line, why })
}

#[test]
fn a_trace_is_read_whole(rt: HostRuntime) -> Result<(), Fail> {
    let trace = read(rt.alloc(), REMAPPED)?;
    let (pid, base, length) = (7, 0x10000, 0x1000);
    let key = Key {
        pid,
        pc: 0x10004,
        event: Event::Cycles,
    };
    let load = |image: u32| {
        Line::Rec(Record::Load {
            pid,
            base,
            length,
            image,
        })
    };
    let unload = Line::Rec(Record::Unload { pid, base, length });
    let lines = [load(0), Line::Sample { cpu: 0, key }, unload, load(1)];
    let steps = [
        Step::Advance,
        Step::Lane { cpu: 0 },
        Step::Poll { cpu: 0, cell: 2 },
    ];
    assert!(rt; trace.lines.as_slice() == lines.as_slice());
    assert!(rt; trace.schedule.as_slice() == steps.as_slice());
    assert!(rt; trace.images.len() == 2);
    assert!(rt; trace.images[0].bytes() == b"A".as_slice());
    assert!(rt; trace.images[1].bytes() == b"B".as_slice());
    Ok(())
}

#[test]
fn a_header_gives_the_sizes(rt: HostRuntime) -> Result<(), Fail> {
    for (text, sizes) in [
        (b"dcpi-trace 1 cpus 4\nend\n".as_slice(), (4, 4096, 8192)),
        (
            b"dcpi-trace 1 cpus 1 buckets 1 buffer 8192\nend\n",
            (1, 1, 8192),
        ),
        (
            b"dcpi-trace 1 cpus 1\nload 7 fffffffffffffff8 4 A\nend\n",
            (1, 4096, 8192),
        ),
    ] {
        let trace = read(rt.alloc(), text)?;
        assert!(rt; (trace.cpus, trace.buckets, trace.buffer) == sizes);
    }
    Ok(())
}

/// Inputs that are no trace: the first bad line, and the reason that is told.
const BAD: &[(&[u8], u64, TraceWhy)] = &[
    (b"", 1, TraceWhy::NoEnd),
    (b"dcpi-trace 1 cpus 1\n", 2, TraceWhy::NoEnd),
    (b"dcpi-trace 2 cpus 1\n", 1, TraceWhy::NotHeader),
    (b"dcpi-trace 1 cpus 0\n", 1, TraceWhy::OutOfRange),
    (
        b"dcpi-trace 1 cpus 1 buckets 3 buffer 8\n",
        1,
        TraceWhy::OutOfRange,
    ),
    (b"dcpi-trace 1 cpus 01\n", 1, TraceWhy::BadNumber),
    (
        b"dcpi-trace 1 cpus 1\nend\ns 0 7 1000 cycles\n",
        3,
        TraceWhy::AfterEnd,
    ),
    (
        b"dcpi-trace 1 cpus 1\ns 1 7 1000 cycles\nend\n",
        2,
        TraceWhy::NoSuchCpu,
    ),
    (
        b"dcpi-trace 1 cpus 1\ns 0 7 1000 stalls\nend\n",
        2,
        TraceWhy::BadWord,
    ),
    (
        b"dcpi-trace 1 cpus 1\ns 0 7 100C cycles\nend\n",
        2,
        TraceWhy::BadNumber,
    ),
    (
        b"dcpi-trace 1 cpus 1\nload 7 0 0 A\nend\n",
        2,
        TraceWhy::OutOfRange,
    ),
    (
        b"dcpi-trace 1 cpus 1\nload 7 fffffffffffffff8 8 A\nend\n",
        2,
        TraceWhy::OutOfRange,
    ),
    (
        b"dcpi-trace 1 cpus 1\ndrain\nscan 7 0 4 A\nend\n",
        3,
        TraceWhy::ScanTooLate,
    ),
    (
        b"dcpi-trace 1 cpus 1\nend\nd 0 3\n",
        3,
        TraceWhy::OutOfRange,
    ),
    (b"dcpi-trace 1 cpus 1\ns 0 7 10", 2, TraceWhy::NoEnd),
    (b"dcpi-trace 1 cpus 1\nend\na", 3, TraceWhy::AfterEnd),
    (
        b"dcpi-trace 1 cpus 1\nload 7 1000 4 \x7f\nend\n",
        2,
        TraceWhy::BadName,
    ),
    (
        b"dcpi-trace 1 cpus 1\ns 0 7 1002 cycles\nend\n",
        2,
        TraceWhy::Unaligned,
    ),
];

/// Lines to which two reasons apply: the reason that is told is the first.
const TWO_REASONS: &[(&[u8], u64, TraceWhy)] = &[
    (b"dcpi-trace 2 cpus 01\n", 1, TraceWhy::NotHeader),
    (b"s 0 7 1000 cycles\n", 1, TraceWhy::NotHeader),
    (
        b"dcpi-trace 1 cpus 1\ns 0 07 1000 stalls\n",
        2,
        TraceWhy::BadWord,
    ),
    (b"dcpi-trace 1 cpus 1\nend\ns 0 7\n", 3, TraceWhy::AfterEnd),
    (
        b"dcpi-trace 1 cpus 1\nend\nd 00 3 0\n",
        3,
        TraceWhy::AfterEnd,
    ),
    (
        b"dcpi-trace 1 cpus 1\nend\nd 00 3\n",
        3,
        TraceWhy::BadNumber,
    ),
    (
        b"dcpi-trace 1 cpus 1\ns 16 07 1000 cycles\n",
        2,
        TraceWhy::BadNumber,
    ),
    (
        b"dcpi-trace 1 cpus 1\ns 16 7 1002 cycles\n",
        2,
        TraceWhy::OutOfRange,
    ),
    (
        b"dcpi-trace 1 cpus 1\nload 7 2 4 \x7f\n",
        2,
        TraceWhy::Unaligned,
    ),
    (
        b"dcpi-trace 1 cpus 1\ns 1 7 1002 cycles\n",
        2,
        TraceWhy::Unaligned,
    ),
    (
        b"dcpi-trace 1 cpus 1\ndrain\nscan 7 0 4 \x7f\n",
        3,
        TraceWhy::BadName,
    ),
    (
        b"dcpi-trace 1 cpus 1\ns 1 7 1002 stalls",
        2,
        TraceWhy::NoEnd,
    ),
];

#[test]
fn a_bad_line_is_refused(rt: HostRuntime) {
    for (text, line, why) in BAD {
        assert!(rt; is_refused(rt.alloc(), text, *line, *why));
    }
}

#[test]
fn of_two_reasons_the_first_is_told(rt: HostRuntime) {
    for (text, line, why) in TWO_REASONS {
        assert!(rt; is_refused(rt.alloc(), text, *line, *why));
    }
}

#[test]
fn a_front_of_a_trace_has_no_end(rt: HostRuntime) {
    for length in 0..BOUNDARY.len() {
        let pieces = BOUNDARY[..length].split(|byte| *byte == b'\n');
        let line = pieces.count() as u64;
        assert!(rt; is_refused(rt.alloc(), &BOUNDARY[..length], line, TraceWhy::NoEnd));
    }
}

/// Bytes that end a line, a field or a number, or belong to none.
const TELLING: &[u8] = b"\n 019afgAz\x00\xff";

fn same(trace: &Trace, other: &Trace) -> bool {
    let sizes = (trace.cpus, trace.buckets, trace.buffer);
    sizes == (other.cpus, other.buckets, other.buffer)
        && trace.images.as_slice() == other.images.as_slice()
        && trace.lines.as_slice() == other.lines.as_slice()
        && trace.schedule.as_slice() == other.schedule.as_slice()
}

/// Reads the bytes; where they are a trace, it is written and read again as the same.
fn is_kept(rt: &impl Abort, alloc: Global, bytes: &[u8]) -> Result<(), Fail> {
    match read(alloc, bytes) {
        Ok(trace) => {
            let text = written(alloc, &trace)?;
            let again = read(alloc, &text)?;
            assert!(rt; same(&trace, &again));
        }
        Err(refusal) => match refusal {
            TraceRefusal::Bad { .. } => {}
            TraceRefusal::ReadFault => assert!(rt; false),
            TraceRefusal::Memory => assert!(rt; false),
        },
    }
    Ok(())
}

#[test]
fn a_changed_trace_is_refused_or_kept(rt: HostRuntime) -> Result<(), Fail> {
    is_kept(&rt, rt.alloc(), BOUNDARY)?;
    for place in 0..BOUNDARY.len() {
        for byte in TELLING {
            let mut bytes = BOUNDARY.to_vec(rt.alloc())?;
            bytes[place] = *byte;
            is_kept(&rt, rt.alloc(), &bytes)?;
        }
    }
    Ok(())
}

#[test]
fn a_trace_is_written_in_the_long_form(rt: HostRuntime) -> Result<(), Fail> {
    let each = read(rt.alloc(), EACH_FORM)?;
    let text = written(rt.alloc(), &each)?;
    assert!(rt; text.as_slice() == EACH_FORM);
    let empty = read(rt.alloc(), EMPTY)?;
    let text = written(rt.alloc(), &empty)?;
    let long = b"dcpi-trace 1 cpus 1 buckets 4096 buffer 8192\nend\n".as_slice();
    assert!(rt; text.as_slice() == long);
    Ok(())
}

#[test]
fn a_fault_is_told(rt: HostRuntime) -> Result<(), Fail> {
    let trace = read(rt.alloc(), EACH_FORM)?;
    let mut sink = MemSink::new(rt.alloc(), ListedFaults::of(rt.alloc(), &[1])?);
    let answer = write_trace(rt.alloc(), &trace, &mut sink);
    assert!(rt; answer == Err(PutError::WriteFault));
    assert!(rt; sink.bytes().is_empty());
    let fails = ListedFaults::of(rt.alloc(), &[1])?;
    let mut source = MemSource::new(EACH_FORM.to_vec(rt.alloc())?, fails);
    let refusal = read_trace(rt.alloc(), &mut source).err();
    assert!(rt; refusal == Some(TraceRefusal::ReadFault));
    Ok(())
}

const SAMPLE: &[u8] = b"s 0 7 0 cycles\n";

/// As many good lines as there may be, the line behind them, and the reason that is told of it.
const LIMITS: &[(&[u8], &[u8], u32, &[u8], u64, TraceWhy)] = &[
    (
        HEADER,
        SAMPLE,
        2_000_000,
        SAMPLE,
        2_000_002,
        TraceWhy::TooManySamples,
    ),
    (
        HEADER,
        SAMPLE,
        2_000_000,
        b"s 1 7 0 cycles\n",
        2_000_002,
        TraceWhy::NoSuchCpu,
    ),
    (
        HEADER,
        b"drain\n",
        65_536,
        b"exit 7\n",
        65_538,
        TraceWhy::TooManyRecords,
    ),
    (
        HEADER,
        b"drain\n",
        65_536,
        b"scan 7 0 4 A\n",
        65_538,
        TraceWhy::ScanTooLate,
    ),
    (
        HEADER,
        b"merge\n",
        1_024,
        b"epoch\n",
        1_026,
        TraceWhy::TooManyRecords,
    ),
    (
        EMPTY,
        b"a\n",
        4_000_000,
        b"a\n",
        4_000_003,
        TraceWhy::TooManyRecords,
    ),
    (
        EMPTY,
        b"a\n",
        4_000_000,
        b"l 1\n",
        4_000_003,
        TraceWhy::NoSuchCpu,
    ),
];

#[test]
fn limits_are_kept(rt: HostRuntime) -> Result<(), Fail> {
    for (front, good, times, bad, line, why) in LIMITS {
        let mut bytes = front.to_vec(rt.alloc())?;
        for _ in 0..*times {
            bytes.extend_from_slice(good)?;
        }
        bytes.extend_from_slice(bad)?;
        assert!(rt; is_refused(rt.alloc(), &bytes, *line, *why));
    }
    Ok(())
}

#[test]
fn a_trace_is_cut_by_processor(rt: HostRuntime) -> Result<(), Fail> {
    let trace = read(rt.alloc(), EACH_FORM)?;
    streams_are_in_order(&trace);
    let first = Key {
        pid: 7,
        pc: 0x120000010,
        event: Event::Branchmp,
    };
    let last = Key {
        pid: 0,
        pc: 0xfffffffffffffffc,
        event: Event::Dmiss,
    };
    let CutTrace { outline, streams } = read_cut(rt.alloc(), &mut source(rt.alloc(), EACH_FORM)?)?;
    for streams in [cut(rt.alloc(), &trace)?, streams] {
        assert!(rt; streams.lanes.len() == 2);
        assert!(rt; streams.lanes[0].as_slice() == [Marked { key: last, mark: 9 }].as_slice());
        assert!(rt;
            streams.lanes[1].as_slice()
                == [Marked {
                    key: first,
                    mark: 2
                }]
                .as_slice()
        );
        assert!(rt; streams.records.len() == 9);
        assert!(rt; streams.records[8] == Record::Epoch);
    }
    for outline in [Outline::of(trace), outline] {
        assert!(rt; (outline.cpus, outline.buckets, outline.buffer) == (2, 64, 8));
        assert!(rt; outline.images.len() == 3);
        assert!(rt; outline.schedule.len() == 3);
    }
    Ok(())
}
