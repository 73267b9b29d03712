//! Runs at both paces into an empty database: what they count, beside the counts that are taken from the trace alone.
use crate::calls::{call, has_line, sound_store};
use crate::traces::{BOUNDARY, FOLD, MAP_CHANGED, STRANGER, TWO_EPOCHS, WORK};
use outside_io::OpenGate;
use std::alloc::Global;
use std::process::Abort;
use std::sync::Wait;
use std::test::Fail;
use std::thread::Threads;

/// The counts of the work of four processors.
const WORK_COUNTS: &[u8] = b"k 0 /vmunix cycles 1000 5
k 0 /usr/bin/X cycles 1000 10
k 0 /usr/bin/X cycles 2000 3
k 0 /usr/shlib/libc.so cycles 400 12
k 0 /usr/bin/sh cycles 40 3
k 0 /usr/bin/cc cycles 100 5
k 0 /usr/bin/cc dmiss 100 1
u 0 cycles 120000000 1
";

// The lines of the summary up to what was taken.
const WORK_TAKEN: [&[u8]; 6] = [
    b"c 0 cycles taken 15 ",
    b"c 1 cycles taken 9 ",
    b"c 2 cycles taken 9 ",
    b"c 3 cycles taken 6 ",
    b"c 3 dmiss taken 1 ",
    b"total taken 40 ",
];

// A trace and its counts by place.
const COUNTED: [(&[u8], &[u8]); 6] = [
    (FOLD, b"k 0 /bin/app cycles 8 3\n"),
    (MAP_CHANGED, b"k 0 A cycles 4 1\n"),
    (BOUNDARY, b"k 0 A imiss ffc 1\nu 0 imiss 11000 1\n"),
    (
        STRANGER,
        b"k 0 new cycles 10 1\nk 0 vmunix cycles 20 1\nu 0 cycles 120000010 1\n",
    ),
    (TWO_EPOCHS, b"k 0 A cycles 0 1\nk 1 A cycles 0 1\n"),
    (WORK, WORK_COUNTS),
];

// The lines of a text, in byte order.
fn sorted(alloc: Global, text: &[u8]) -> Result<Vec<Vec<u8>>, Fail> {
    let mut lines = Vec::new(alloc);
    for line in text.split(|byte| *byte == b'\n') {
        lines.push(line.to_vec(alloc)?)?;
    }
    lines.sort()?;
    Ok(lines)
}

// A run at the exact pace counts just what is counted from the trace alone.
fn counts_plainly<R: Threads + Wait + Abort + Sync>(
    rt: &R,
    alloc: Global,
    trace: &[u8],
    counts: &[u8],
) -> Result<(), Fail> {
    let mut store = sound_store(alloc);
    let words = ["run", "db", "--pace", "exact"];
    let ran = call(rt, alloc, &words, trace, &mut store, &OpenGate)?;
    assert_eq!(rt; ran.err.as_slice(), b"".as_slice());
    assert_eq!(rt; ran.status, 0);
    assert!(rt; ran.out.ends_with(b" lost 0\n"));
    let listed = call(rt, alloc, &["cat", "db"], b"", &mut store, &OpenGate)?;
    let plain = call(rt, alloc, &["plain"], trace, &mut store, &OpenGate)?;
    let wanted = sorted(alloc, counts)?;
    assert_eq!(rt; sorted(alloc, &listed.out)?.as_slice(), wanted.as_slice());
    assert_eq!(rt; sorted(alloc, &plain.out)?.as_slice(), wanted.as_slice());
    Ok(())
}

#[test]
fn exact_counts_are_plain(rt: HostRuntime) -> Result<(), Fail> {
    for (trace, counts) in COUNTED {
        counts_plainly(&rt, rt.alloc(), trace, counts)?;
    }
    Ok(())
}

#[test]
fn an_exact_run_drives_as_one_thread_does(rt: HostRuntime) -> Result<(), Fail> {
    let alloc = rt.alloc();
    let words = ["run", "db", "--pace", "exact"];
    let ran = call(
        &rt,
        alloc,
        &words,
        MAP_CHANGED,
        &mut sound_store(alloc),
        &OpenGate,
    )?;
    assert!(rt;
        has_line(
            &ran.out,
            b"t 0 folded 0 placed 1 evicted 0 spilt 0 direct 0"
        )
    );
    Ok(())
}

#[test]
fn a_free_run_takes_all_of_the_work(rt: HostRuntime) -> Result<(), Fail> {
    let alloc = rt.alloc();
    let mut store = sound_store(alloc);
    let words = ["run", "db", "--pace", "free"];
    let ran = call(&rt, alloc, &words, WORK, &mut store, &OpenGate)?;
    assert_eq!(rt; ran.status, 0);
    for line in WORK_TAKEN {
        assert!(rt; has_line(&ran.out, line));
    }
    let listed = call(&rt, alloc, &["cat", "db"], b"", &mut store, &OpenGate)?;
    assert_eq!(rt;
        sorted(alloc, &listed.out)?.as_slice(),
        sorted(alloc, WORK_COUNTS)?.as_slice()
    );
    Ok(())
}

#[test]
fn other_words_after_run_are_no_command(rt: HostRuntime) -> Result<(), Fail> {
    let alloc = rt.alloc();
    for words in [
        ["run", "db", "--pace", "slow"].as_slice(),
        &["run", "db", "--pace"],
        &["run", "db"],
        &["run", "db", "pace", "free"],
        &["run", "db", "--pace", "free", "more"],
    ] {
        let given = call(&rt, alloc, words, FOLD, &mut sound_store(alloc), &OpenGate)?;
        assert_eq!(rt; given.status, 1);
        assert_eq!(rt; given.err.as_slice(), b"dcpi: usage\n".as_slice());
    }
    Ok(())
}
