//! The command `make`: summaries and texts of made traces, read back by `replay`, and words that are nearly of its form.
use crate::replays::REPLAYED;
use crate::rows::{Row, gives, gives_all, names_of, prints, sound_store};
use std::alloc::Global;
use std::process::Abort;
use std::test::Fail;

const NO_SAMPLES: &[u8] =
    b"run 1\nt 0 folded 0 placed 0 evicted 0 spilt 0 direct 0\nt 1 folded 0 placed 0 evicted 0 spilt 0 direct 0\nt 2 folded 0 placed 0 evicted 0 spilt 0 direct 0\nt 3 folded 0 placed 0 evicted 0 spilt 0 direct 0\ntotal taken 0 known 0 unknown 0 lost 0\n";

const NO_SAMPLES_TRACE: &[u8] =
    b"dcpi-trace 1 cpus 4 buckets 4096 buffer 8192\nkernel fffffc0000000000 400000 vmunix\nscan 1 120000000 40000 prog1\nscan 1 3ff80000000 100000 libc.so\nscan 2 120000000 40000 prog2\nscan 2 3ff80000000 100000 libc.so\nscan 3 120000000 40000 prog3\nscan 3 3ff80000000 100000 libc.so\nscan 4 120000000 40000 prog0\nscan 4 3ff80000000 100000 libc.so\nscan 5 120000000 40000 prog1\nscan 5 3ff80000000 100000 libc.so\nscan 6 120000000 40000 prog2\nscan 6 3ff80000000 100000 libc.so\nscan 7 120000000 40000 prog3\nscan 7 3ff80000000 100000 libc.so\nscan 8 120000000 40000 prog0\nscan 8 3ff80000000 100000 libc.so\nend\n";

// No input is read, so its faults do not show.
const NONE_MADE: Row = Row {
    words: &["make", "0", "0"],
    input: b"",
    read_fails: &[1],
    write_fails: &[],
    status: 0,
    out: NO_SAMPLES,
    err: b"",
};

const NONE_PRINTED: Row = Row {
    words: &["make", "0", "0", "--trace"],
    out: NO_SAMPLES_TRACE,
    ..NONE_MADE
};

const GREATEST_SEED: Row = Row {
    words: &["make", "18446744073709551615", "0"],
    ..NONE_MADE
};

// Makes each call over one store, which stays empty.
fn leaves_none(rt: &impl Abort, alloc: Global, rows: &[Row<'_>]) -> Result<(), Fail> {
    let mut store = sound_store(alloc);
    for row in rows {
        gives(rt, alloc, row, &mut store)?;
    }
    assert_eq!(rt; names_of(alloc, &mut store)?.as_slice(), b"".as_slice());
    Ok(())
}

#[test]
fn no_samples(rt: HostRuntime) -> Result<(), Fail> {
    leaves_none(&rt, rt.alloc(), &[NONE_MADE, NONE_PRINTED, GREATEST_SEED])
}

const A_THOUSAND: Row = Row {
    words: &["make", "1", "1000"],
    ..NONE_MADE
};

const A_THOUSAND_PRINTED: Row = Row {
    words: &["make", "1", "1000", "--trace"],
    ..NONE_MADE
};

// How many lines begin and end so.
fn lines_between(text: &[u8], first: &[u8], last: &[u8]) -> usize {
    text.split(|byte| *byte == b'\n')
        .filter(|line| line.starts_with(first) && line.ends_with(last))
        .count()
}

#[test]
fn the_total_of_a_thousand(rt: HostRuntime) -> Result<(), Fail> {
    let alloc = rt.alloc();
    let text = prints(&rt, alloc, &A_THOUSAND, &mut sound_store(alloc))?;
    let totals = lines_between(&text, b"total taken 1000 known ", b" lost 0");
    assert_eq!(rt; totals, 1);
    Ok(())
}

const NONE_REPLAYED: Row = Row {
    input: NO_SAMPLES_TRACE,
    out: NO_SAMPLES,
    ..REPLAYED
};

#[test]
fn texts_are_read_back(rt: HostRuntime) -> Result<(), Fail> {
    let alloc = rt.alloc();
    gives_all(&rt, alloc, &[NONE_REPLAYED])?;
    let summary = prints(&rt, alloc, &A_THOUSAND, &mut sound_store(alloc))?;
    let text = prints(&rt, alloc, &A_THOUSAND_PRINTED, &mut sound_store(alloc))?;
    replays_to(&rt, alloc, &text, &summary)
}

// The replay of this text into an empty database has this summary.
fn replays_to<'a>(
    rt: &impl Abort,
    alloc: Global,
    text: &'a [u8],
    summary: &'a [u8],
) -> Result<(), Fail> {
    let replayed = Row {
        input: text,
        out: summary,
        ..REPLAYED
    };
    gives_all(rt, alloc, &[replayed])
}

const NOT_WRITTEN: Row = Row {
    write_fails: &[1],
    status: 5,
    out: b"",
    err: b"dcpi: write fault\n",
    ..NONE_MADE
};

const NOT_PRINTED: Row = Row {
    words: &["make", "0", "0", "--trace"],
    ..NOT_WRITTEN
};

#[test]
fn a_write_fails(rt: HostRuntime) -> Result<(), Fail> {
    leaves_none(&rt, rt.alloc(), &[NOT_WRITTEN, NOT_PRINTED])
}

const NO_FORMS: [&[&str]; 12] = [
    &["make"],
    &["make", "1"],
    &["make", "01", "1"],
    &["make", "1", "01"],
    &["make", "1", ""],
    &["make", "1", "2000001"],
    &["make", "18446744073709551616", "0"],
    &["make", "1", "1", "--Trace"],
    &["make", "1", "1", "trace"],
    &["make", "1", "2000001", "--trace"],
    &["Make", "1", "1", "--trace"],
    &["make", "1", "1", "--trace", "db"],
];

#[test]
fn words_of_no_form(rt: HostRuntime) -> Result<(), Fail> {
    let alloc = rt.alloc();
    for words in &NO_FORMS {
        let row = Row {
            words: *words,
            status: 1,
            out: b"",
            err: b"dcpi: usage\n",
            ..NONE_MADE
        };
        leaves_none(&rt, alloc, &[row])?;
    }
    Ok(())
}
