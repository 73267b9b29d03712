//! The store in memory: its calls, what a failed call leaves, and the names of files.

use crate::samples::{Call, moves, told};
use std::alloc::Global;
use std::test::Fail;
use store_io::{
    FileRef, Left, MemStore, StoreFail, crash_leaves_the_present, name_of,
    no_change_failed_without_fault, stays_without_fault,
};

/// All four calls of a store without faults, and what it answers.
pub const CALLS: [Call<'static>; 12] = [
    Call::Read("head.10"),
    Call::Write("head.9", "first"),
    Call::Write("head.10", ""),
    Call::Write("head.9", "second"),
    Call::Names,
    Call::Read("head.10"),
    Call::Read("head.9"),
    Call::Remove("head.10"),
    Call::Remove("head.10"),
    Call::Names,
    Call::Read("head.10"),
    Call::Read("head.9"),
];

pub const ANSWERS: &[u8] = b"absent||||head.10 head.9 ||second|||head.9 |absent|second|";

// two writes of one name, or a write and a removal, and what is there then
const WRITES: [Call<'static>; 4] = [
    Call::Write("p", "old"),
    Call::Write("p", "new"),
    Call::Names,
    Call::Read("p"),
];

const REMOVES: [Call<'static>; 4] = [
    Call::Write("p", "old"),
    Call::Remove("p"),
    Call::Names,
    Call::Read("p"),
];

const READS: [Call<'static>; 3] = [Call::Names, Call::Read("p"), Call::Names];

// a call that fails, what it leaves, the calls, and what they answer
const FAULTS: [(u64, &str, &[Call<'static>], &[u8]); 10] = [
    (13, "", &CALLS, ANSWERS),
    (2, "absent", &WRITES, b"|failed||absent|"),
    (2, "as before", &WRITES, b"|failed|p |old|"),
    (2, "n", &WRITES, b"|failed|p |n|"),
    (2, "absent", &REMOVES, b"|failed||absent|"),
    (2, "as before", &REMOVES, b"|failed|p |old|"),
    (2, "n", &REMOVES, b"|failed|p |old|"),
    (1, "absent", &READS, b"failed|absent||"),
    (2, "absent", &READS, b"|failed||"),
    (4, "absent", &READS, b"|absent||"),
];

/// A store of which one call fails, and leaves nothing, what stood there, or these bytes.
fn failing(alloc: Global, call: u64, left: &str) -> Result<MemStore, Fail> {
    let left = match left {
        "absent" => Left::Absent,
        "as before" => Left::AsBefore,
        _ => Left::Bytes(Vec::from_slice(alloc, left.as_bytes())?),
    };
    let mut fails = Vec::new(alloc);
    fails.push(StoreFail { call, left })?;
    Ok(MemStore::new(alloc, fails))
}

#[test]
fn a_failed_call_leaves_what_is_listed(rt: HostRuntime) -> Result<(), Fail> {
    let alloc = rt.alloc();
    for (call, left, calls, answers) in FAULTS {
        let mut store = failing(alloc, call, left)?;
        let told = told(alloc, &mut store, calls)?;
        assert_eq!(rt; told.as_slice(), answers, "{left} at call {call}");
    }
    Ok(())
}

#[test]
fn laws_can_be_called(rt: HostRuntime) {
    let store = MemStore::new(rt.alloc(), Vec::new(rt.alloc()));
    moves(&store);
    stays_without_fault(&store);
    no_change_failed_without_fault(&store);
    crash_leaves_the_present(&store);
}

// files and their names
const FILES: [(FileRef, &[u8]); 5] = [
    (FileRef::Head { g: 1 }, b"head.1"),
    (
        FileRef::Known {
            epoch: 0,
            image: 0,
            event: 0,
            g: 1,
        },
        b"p.0.0.0.1",
    ),
    (
        FileRef::Known {
            epoch: 1,
            image: 4095,
            event: 3,
            g: 65536,
        },
        b"p.1.4095.3.65536",
    ),
    (
        FileRef::Unknown {
            epoch: 1,
            event: 3,
            g: 65536,
        },
        b"u.1.3.65536",
    ),
    (FileRef::Segment { g: 2 }, b"r.2"),
];

#[test]
fn files_have_their_names(rt: HostRuntime) -> Result<(), Fail> {
    for (file, text) in FILES {
        assert_eq!(rt; name_of(rt.alloc(), &file)?.bytes(), text);
    }
    Ok(())
}
