//! The command `prof`: listings by image and by procedure, as text and as CSV.
use crate::replays::{REPLAYED, TWO_PARTS, WORKED};
use crate::rows::{Row, gives_all};
use crate::traces::COMMA;
use std::test::Fail;

/// A listing of nothing.
pub const EMPTY: Row = Row {
    words: &["prof", "db", "image", "all", "cycles", "text"],
    input: b"",
    out: b"cycles epoch all total 0\n",
    ..REPLAYED
};

const ONE_EPOCH: Row = Row {
    words: &["prof", "db", "image", "1", "cycles", "text"],
    out: b"cycles epoch 1 total 1\n           1 100.00 100.00 A\n",
    ..EMPTY
};

const OTHER_EVENT: Row = Row {
    words: &["prof", "db", "image", "all", "imiss", "csv"],
    out: b"count,percent,cumulative,image\n",
    ..EMPTY
};

const NO_SYMBOL: Row = Row {
    words: &["prof", "db", "procedure", "0", "cycles", "csv"],
    input: b"/bin/app 0 8 f\n",
    out: b"count,percent,cumulative,procedure,image\n3,100.00,100.00,(no symbol),/bin/app\n",
    ..EMPTY
};

const BY_IMAGE: Row = Row {
    out: b"cycles epoch all total 39
          13  33.33  33.33 /usr/bin/X
          12  30.76  64.10 /usr/shlib/libc.so
           5  12.82  76.92 /usr/bin/cc
           5  12.82  89.74 /vmunix
           3   7.69  97.43 /usr/bin/sh
           1   2.56 100.00 (unknown profile)
",
    ..EMPTY
};

const BY_PROCEDURE: Row = Row {
    words: &["prof", "db", "procedure", "all", "cycles", "text"],
    input: b"/usr/bin/X 1000 100 dispatch\n/usr/bin/cc 0 200 parse\n/usr/bin/sh 0 80 main\n/usr/shlib/libc.so 400 40 strcmp\n/vmunix 1000 100 idle\n",
    out: b"cycles epoch all total 39
          12  30.76  30.76 strcmp /usr/shlib/libc.so
          10  25.64  56.41 dispatch /usr/bin/X
           5  12.82  69.23 parse /usr/bin/cc
           5  12.82  82.05 idle /vmunix
           3   7.69  89.74 (no symbol) /usr/bin/X
           3   7.69  97.43 main /usr/bin/sh
           1   2.56 100.00 (unknown profile)
",
    ..EMPTY
};

const COMMA_REPLAYED: Row = Row {
    input: COMMA,
    out: b"run 1\nc 0 cycles taken 1 known 1 unknown 0 lost 0\nt 0 folded 0 placed 1 evicted 0 spilt 0 direct 0\ntotal taken 1 known 1 unknown 0 lost 0\n",
    ..REPLAYED
};

const COMMA_LISTED: Row = Row {
    words: &["prof", "db", "image", "0", "cycles", "csv"],
    out: b"count,percent,cumulative,image\n1,100.00,100.00,\"a,b\"\n",
    ..EMPTY
};

const NO_SUCH_EPOCH: Row = Row {
    words: &["prof", "db", "image", "5", "cycles", "text"],
    status: 10,
    out: b"",
    err: b"dcpi: no epoch 5, last is 0\n",
    ..EMPTY
};

const OVERLAP: Row = Row {
    words: &["prof", "db", "procedure", "all", "cycles", "text"],
    input: b"a 0 8 f\na 4 8 g\n",
    status: 9,
    out: b"",
    err: b"dcpi: symbols line 2: Overlap\n",
    ..EMPTY
};

const CUT_LIST: Row = Row {
    input: b"a 0 8 f",
    err: b"dcpi: symbols line 1: Unfinished\n",
    ..OVERLAP
};

const ODD_START: Row = Row {
    input: b"a 2 8 f\n",
    err: b"dcpi: symbols line 1: Unaligned\n",
    ..OVERLAP
};

// The epoch is tested before the list is read.
const NO_EPOCH_AND_BAD_LIST: Row = Row {
    words: &["prof", "db", "procedure", "5", "cycles", "text"],
    input: b"a 0 8 f\na 4 8 g\n",
    ..NO_SUCH_EPOCH
};

// The list is read before the profiles.
const LIST_CANNOT_BE_READ: Row = Row {
    read_fails: &[1],
    status: 3,
    err: b"dcpi: read fault\n",
    ..OVERLAP
};

#[test]
fn empty_listing(rt: HostRuntime) -> Result<(), Fail> {
    gives_all(&rt, rt.alloc(), &[EMPTY])
}

#[test]
fn listings_of_epochs(rt: HostRuntime) -> Result<(), Fail> {
    gives_all(&rt, rt.alloc(), &[TWO_PARTS, ONE_EPOCH, OTHER_EVENT])
}

#[test]
fn listings_of_work(rt: HostRuntime) -> Result<(), Fail> {
    gives_all(&rt, rt.alloc(), &[WORKED, BY_IMAGE, BY_PROCEDURE])
}

#[test]
fn a_comma_in_a_name(rt: HostRuntime) -> Result<(), Fail> {
    gives_all(&rt, rt.alloc(), &[COMMA_REPLAYED, COMMA_LISTED])
}

#[test]
fn refused_listings(rt: HostRuntime) -> Result<(), Fail> {
    let rows = [
        REPLAYED,
        NO_SYMBOL,
        NO_SUCH_EPOCH,
        OVERLAP,
        CUT_LIST,
        ODD_START,
        NO_EPOCH_AND_BAD_LIST,
        LIST_CANNOT_BE_READ,
    ];
    gives_all(&rt, rt.alloc(), &rows)
}
