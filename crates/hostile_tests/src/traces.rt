//! The traces of the tables, and what is printed of them.
use std::alloc::Global;
use std::test::Fail;

/// The short header of one processor.
pub const HEADER: &[u8] = b"dcpi-trace 1 cpus 1\n";

/// The names of the events, by their codes.
pub const EVENTS: [&str; 4] = ["cycles", "imiss", "dmiss", "branchmp"];

/// Three samples of one instruction.
pub const FOLD: &[u8] =
    b"dcpi-trace 1 cpus 1\nload 7 10000 2000 /bin/app\ns 0 7 10008 cycles\ns 0 7 10008 cycles\ns 0 7 10008 cycles\nend\n";

/// The last instruction of a mapping, and the one behind it.
pub const BOUNDARY: &[u8] =
    b"dcpi-trace 1 cpus 1\nload 7 10000 1000 A\ns 0 7 10ffc imiss\ns 0 7 11000 imiss\nend\n";

/// A flush that is answered while samples go on.
pub const FLUSH: &[u8] =
    b"dcpi-trace 1 cpus 1\ns 0 7 1000 cycles\ns 0 7 1004 cycles\ns 0 7 1008 cycles\ndrain\nend\nl 0\na\nl 0\nl 0\nl 0\n";

/// Two epochs.
pub const TWO_EPOCHS: &[u8] =
    b"dcpi-trace 1 cpus 1\nload 7 10000 1000 A\ns 0 7 10000 cycles\nepoch\ns 0 7 10000 cycles\nend\n";

// The lines of the work of four processors behind the header, each so many times.
const WORK_LINES: [(u32, &[u8]); 16] = [
    (1, b"kernel fffffc0000230000 400000 /vmunix\n"),
    (1, b"scan 101 120000000 40000 /usr/bin/X\n"),
    (1, b"scan 101 3ff80000000 100000 /usr/shlib/libc.so\n"),
    (1, b"load 205 120000000 10000 /usr/bin/sh\n"),
    (1, b"load 205 3ff80000000 100000 /usr/shlib/libc.so\n"),
    (1, b"exec 309 120000000 20000 /usr/bin/cc\n"),
    (10, b"s 0 101 120001000 cycles\n"),
    (6, b"s 1 101 3ff80000400 cycles\n"),
    (6, b"s 2 205 3ff80000400 cycles\n"),
    (5, b"s 3 309 120000100 cycles\n"),
    (5, b"s 0 309 fffffc0000231000 cycles\n"),
    (3, b"s 1 205 120000040 cycles\n"),
    (3, b"s 2 101 120002000 cycles\n"),
    (1, b"s 3 400 120000000 cycles\n"),
    (1, b"s 3 309 120000100 dmiss\n"),
    (1, b"end\n"),
];

/// The work of four processors.
pub fn work(alloc: Global) -> Result<Vec<u8>, Fail> {
    let mut text = b"dcpi-trace 1 cpus 4\n".to_vec(alloc)?;
    for (times, line) in WORK_LINES {
        put_times(&mut text, times, line)?;
    }
    Ok(text)
}

/// The same behind another header, with each line once.
pub fn work_lines(alloc: Global, header: &[u8]) -> Result<Vec<u8>, Fail> {
    let mut text = header.to_vec(alloc)?;
    for (_, line) in WORK_LINES {
        text.extend_from_slice(line)?;
    }
    Ok(text)
}

/// Appends some bytes so many times.
pub fn put_times(text: &mut Vec<u8>, times: u32, bytes: &[u8]) -> Result<(), Fail> {
    for _ in 0..times {
        text.extend_from_slice(bytes)?;
    }
    Ok(())
}

/// The bytes with the one at this place changed; the same where the place is behind them.
pub fn with_byte(alloc: Global, bytes: &[u8], place: usize, byte: u8) -> Result<Vec<u8>, Fail> {
    let mut changed = bytes.to_vec(alloc)?;
    if let Some(old) = changed.get_mut(place) {
        *old = byte;
    }
    Ok(changed)
}

/// The summary of the work in an empty database.
pub const WORK_SUMMARY: &[u8] = b"run 1
c 0 cycles taken 15 known 15 unknown 0 lost 0
c 1 cycles taken 9 known 9 unknown 0 lost 0
c 2 cycles taken 9 known 9 unknown 0 lost 0
c 3 cycles taken 6 known 5 unknown 1 lost 0
c 3 dmiss taken 1 known 1 unknown 0 lost 0
t 0 folded 13 placed 2 evicted 0 spilt 0 direct 0
t 1 folded 7 placed 2 evicted 0 spilt 0 direct 0
t 2 folded 7 placed 2 evicted 0 spilt 0 direct 0
t 3 folded 4 placed 3 evicted 0 spilt 0 direct 0
total taken 40 known 39 unknown 1 lost 0
";

/// The counts of the work, by image and then by event and offset.
pub const WORK_COUNTS: &[u8] = b"k 0 /usr/bin/X cycles 1000 10
k 0 /usr/bin/X cycles 2000 3
k 0 /usr/bin/cc cycles 100 5
k 0 /usr/bin/cc dmiss 100 1
k 0 /usr/bin/sh cycles 40 3
k 0 /usr/shlib/libc.so cycles 400 12
k 0 /vmunix cycles 1000 5
u 0 cycles 120000000 1
";

/// The run of the work.
pub const WORK_RUN: &[u8] = b"run 1 parts 1 whole
c 0 cycles taken 15 known 15 unknown 0 lost 0
c 1 cycles taken 9 known 9 unknown 0 lost 0
c 2 cycles taken 9 known 9 unknown 0 lost 0
c 3 cycles taken 6 known 5 unknown 1 lost 0
c 3 dmiss taken 1 known 1 unknown 0 lost 0
";

/// The procedures of the images of the work.
pub const WORK_SYMBOLS: &[u8] =
    b"/usr/bin/X 1000 100 dispatch\n/usr/bin/cc 0 200 parse\n/usr/bin/sh 0 80 main\n/usr/shlib/libc.so 400 40 strcmp\n/vmunix 1000 100 idle\n";

/// The work by procedure.
pub const WORK_PROCEDURES: &[u8] = b"cycles epoch all total 39
          12  30.76  30.76 strcmp /usr/shlib/libc.so
          10  25.64  56.41 dispatch /usr/bin/X
           5  12.82  69.23 parse /usr/bin/cc
           5  12.82  82.05 idle /vmunix
           3   7.69  89.74 (no symbol) /usr/bin/X
           3   7.69  97.43 main /usr/bin/sh
           1   2.56 100.00 (unknown profile)
";

/// Replays an input into the database.
pub const REPLAY: &[&str] = &["replay", "db"];

/// Lists all counts of the database.
pub const CAT: &[&str] = &["cat", "db"];

/// Lists the runs of the database.
pub const RUNS: &[&str] = &["runs", "db"];

/// Lists all samples of one event by procedure.
pub const BY_PROCEDURE: &[&str] = &["prof", "db", "procedure", "all", "cycles", "text"];

/// The head that the three samples of one instruction leave.
pub const FOLD_HEAD: &[u8] =
    b"dcpi-head 1\ngeneration 1\nepoch 0\nruns 1\nimages 1\n/bin/app\nprofiles 1\n0 0 0 1\nunknowns 0\n";

/// Their profile: the count 3 at the offset 8.
pub const FOLD_PROFILE: &[u8] = b"\x01\x01\x02\x03";

/// Their segment: run 1, part 0, its last, of epoch 0, with one drain, which is the table of processor 0 at position 1
/// in epoch 0, its first hand, of three samples, in answer to 3, no buffer having been handed, with one entry, of
/// process 7 at the address 10008, known, cycles, 3 times; and one processor without a loss.
pub const FOLD_PART: &[u8] =
    b"\x01\x01\x00\x01\x00\x01\x01\x00\x00\x02\x01\x03\x03\x00\x00\x01\x07\x82\x80\x01\x01\x03\x01\x00";

/// All their files, by name.
pub const FOLD_FILES: [(&str, &[u8]); 4] = [
    ("head.1", FOLD_HEAD),
    ("p.0.0.0.1", FOLD_PROFILE),
    ("r.1", FOLD_PART),
    ("seal.1", b""),
];
