//! Which files are removed and which stay, as tables.

use crate::stores::{Leaves, commit_some, has, names_of, put_all, said, store_failing, tidied};
use epoch_store::{DbFault, open_database};
use std::test::Fail;
use std::{env, fs, process};
use store_io::DirStore;
use store_tidy::{forms_are_of_files, tidy};

/// The files of one commit; those after two, and those that are left of them, first without the old head.
const FIRST: &str = "head.1 p.0.0.0.1 r.1 seal.1 ";

const AFTER_TWO: &str = "head.1 head.2 p.0.0.0.1 p.1.0.0.2 r.1 r.2 seal.1 seal.2 u.1.0.2 ";

const WITHOUT_HEAD: &str = "head.2 p.0.0.0.1 p.1.0.0.2 r.1 r.2 seal.1 seal.2 u.1.0.2 ";

const IN_USE: &str = "head.2 p.0.0.0.1 p.1.0.0.2 r.1 r.2 seal.2 u.1.0.2 ";

// after so many commits: how many files are removed, and which stay
const COMMITS: [(u32, u64, &str); 4] = [
    (0, 0, ""),
    (1, 0, FIRST),
    (2, 2, IN_USE),
    (
        3,
        6,
        "head.3 p.0.0.0.1 p.1.0.0.3 r.1 r.2 r.3 seal.3 u.1.0.3 ",
    ),
];

#[test]
fn old_generations_are_removed(rt: HostRuntime) -> Result<(), Fail> {
    let alloc = rt.alloc();
    for (commits, removed, names) in COMMITS {
        let mut store = store_failing(alloc, 0, Leaves::AsBefore)?;
        assert!(rt; commit_some(alloc, &mut store, commits)?);
        let before = said(alloc, &mut store)?;
        assert_eq!(rt; tidied(alloc, &mut store)?, removed);
        let left = names_of(alloc, &mut store)?;
        assert_eq!(rt; left.as_slice(), names.as_bytes());
        assert_eq!(rt; tidied(alloc, &mut store)?, 0);
        let left = names_of(alloc, &mut store)?;
        assert_eq!(rt; left.as_slice(), names.as_bytes());
        let after = said(alloc, &mut store)?;
        assert_eq!(rt; after.as_str(), before.as_str());
    }
    Ok(())
}

// a name that stands beside the files of two commits, and whether it is unused
const NAMES: [(&str, bool); 46] = [
    ("head.3", true),
    ("head.65536", true),
    ("r.3", true),
    ("r.65536", true),
    ("p.0.0.0.2", true),
    ("p.0.0.0.65536", true),
    ("p.1.0.0.1", true),
    ("p.0.0.1.1", true),
    ("p.0.1.0.1", true),
    ("p.4294967295.4095.3.65536", true),
    ("u.1.0.1", true),
    ("u.0.0.1", true),
    ("u.1.1.2", true),
    ("u.4294967295.3.65536", true),
    ("seal.0", false),
    ("seal.01", false),
    ("seal.65537", false),
    ("seal.3.3", false),
    ("seal.", false),
    ("seal", false),
    ("head.0", false),
    ("head.03", false),
    ("head.65537", false),
    ("head.1x", false),
    ("Head.3", false),
    ("r.0", false),
    ("r.03", false),
    ("r.65537", false),
    ("r.+3", false),
    ("r..3", false),
    ("r.3.", false),
    (".r.3", false),
    ("p.0.0.0.0", false),
    ("p.0.0.0.65537", false),
    ("p.0.0.4.1", false),
    ("p.0.4096.0.1", false),
    ("p.4294967296.0.0.1", false),
    ("p.0.0.1", false),
    ("p.0.0.0.0.1", false),
    ("p.00.0.0.1", false),
    ("u.0.0.0", false),
    ("u.0.4.1", false),
    ("u.0.1", false),
    ("u.0.0.0.1", false),
    ("s.3", false),
    ("notes.txt", false),
];

#[test]
fn unused_names_are_removed(rt: HostRuntime) -> Result<(), Fail> {
    let alloc = rt.alloc();
    for (name, unused) in NAMES {
        let mut store = store_failing(alloc, 0, Leaves::AsBefore)?;
        assert!(rt; commit_some(alloc, &mut store, 2)?);
        put_all(alloc, &mut store, &[name])?;
        let before = said(alloc, &mut store)?;
        let removed = if unused { 3 } else { 2 };
        assert_eq!(rt; tidied(alloc, &mut store)?, removed, "{name}");
        assert_eq!(rt; has(alloc, &mut store, name)?, !unused, "{name}");
        let after = said(alloc, &mut store)?;
        assert_eq!(rt; after.as_str(), before.as_str(), "{name}");
    }
    Ok(())
}

// files without a seal: how many are removed, and which stay
const UNSEALED: [(&[&str], u64, &str); 4] = [
    (&["p.0.0.1.1", "u.0.1.1"], 2, ""),
    (&["p.0.0.0.1", "u.0.0.1", "r.1", "head.1"], 4, ""),
    (&["head.0", "r.2", "seal.0"], 1, "head.0 seal.0 "),
    (&["a", "p.0.0.0"], 0, "a p.0.0.0 "),
];

#[test]
fn an_empty_database_uses_no_file(rt: HostRuntime) -> Result<(), Fail> {
    let alloc = rt.alloc();
    for (files, removed, names) in UNSEALED {
        let mut store = store_failing(alloc, 0, Leaves::AsBefore)?;
        put_all(alloc, &mut store, files)?;
        assert_eq!(rt; tidied(alloc, &mut store)?, removed);
        let left = names_of(alloc, &mut store)?;
        assert_eq!(rt; left.as_slice(), names.as_bytes());
    }
    Ok(())
}

// A write of the first or the second commit that fails, as the number of its call: the writes of the first come behind the
// listing of the names, those of the second behind another and the head. What the write leaves, how many files are
// removed, and which stay.
const CUT: [(u64, Leaves, u64, &str); 14] = [
    (2, Leaves::OneByte, 1, ""),
    (3, Leaves::Absent, 1, ""),
    (3, Leaves::OneByte, 2, ""),
    (4, Leaves::OneByte, 3, ""),
    (5, Leaves::AsBefore, 3, ""),
    (5, Leaves::OneByte, 0, FIRST),
    (8, Leaves::Absent, 0, FIRST),
    (8, Leaves::OneByte, 1, FIRST),
    (9, Leaves::Absent, 1, FIRST),
    (9, Leaves::OneByte, 2, FIRST),
    (10, Leaves::OneByte, 3, FIRST),
    (11, Leaves::OneByte, 4, FIRST),
    (12, Leaves::Absent, 4, FIRST),
    (12, Leaves::OneByte, 2, IN_USE),
];

#[test]
fn what_a_failed_commit_left_is_removed(rt: HostRuntime) -> Result<(), Fail> {
    let alloc = rt.alloc();
    for (call, leaves, removed, names) in CUT {
        let mut store = store_failing(alloc, call, leaves)?;
        assert!(rt; !commit_some(alloc, &mut store, 2)?);
        let before = said(alloc, &mut store)?;
        assert_eq!(rt; tidied(alloc, &mut store)?, removed, "call {call}");
        let left = names_of(alloc, &mut store)?;
        assert_eq!(rt; left.as_slice(), names.as_bytes(), "call {call}");
        let after = said(alloc, &mut store)?;
        assert_eq!(rt; after.as_str(), before.as_str(), "call {call}");
    }
    Ok(())
}

// The call of a tidying that fails, behind those of two commits: the listing of the names, then a removal of each of two
// unused files; what that leaves, the files afterwards, and how many are removed by another tidying.
const FAULTS: [(u64, Leaves, &str, u64); 7] = [
    (1, Leaves::Absent, AFTER_TWO, 2),
    (2, Leaves::Absent, WITHOUT_HEAD, 1),
    (2, Leaves::AsBefore, AFTER_TWO, 2),
    (2, Leaves::OneByte, AFTER_TWO, 2),
    (3, Leaves::Absent, IN_USE, 0),
    (3, Leaves::AsBefore, WITHOUT_HEAD, 1),
    (3, Leaves::OneByte, WITHOUT_HEAD, 1),
];

/// The calls of two commits and of the openings before them and before the tidying.
const CALLS_BEFORE: u64 = 14;

#[test]
fn a_removal_that_fails_is_answered(rt: HostRuntime) -> Result<(), Fail> {
    let alloc = rt.alloc();
    for (call, leaves, names, rest) in FAULTS {
        let mut store = store_failing(alloc, CALLS_BEFORE + call, leaves)?;
        assert!(rt; commit_some(alloc, &mut store, 2)?);
        let db = open_database(alloc, &mut store)?;
        let answer = tidy(alloc, &db, &mut store);
        assert_eq!(rt; answer, Err(DbFault::StoreFault), "call {call}");
        let left = names_of(alloc, &mut store)?;
        assert_eq!(rt; left.as_slice(), names.as_bytes(), "call {call}");
        assert_eq!(rt; tidy(alloc, &db, &mut store)?, rest, "call {call}");
        let left = names_of(alloc, &mut store)?;
        assert_eq!(rt; left.as_slice(), IN_USE.as_bytes(), "call {call}");
    }
    Ok(())
}

#[test]
fn a_folder_is_tidied(rt: HostRuntime) -> Result<(), Fail> {
    let alloc = rt.alloc();
    let id = process::id(rt.process());
    let above = env::temp_dir(&rt)?;
    let path = format!(in alloc; "{}/store_tidy.{id}", above.as_path().display())?;
    fs::create_dir(&rt, path.as_str())?;
    let mut store = DirStore::at(&rt, path.clone()?);
    assert!(rt; commit_some(alloc, &mut store, 2)?);
    put_all(alloc, &mut store, &["r.3", "notes.txt"])?;
    let before = said(alloc, &mut store)?;
    assert_eq!(rt; tidied(alloc, &mut store)?, 3);
    assert!(rt; has(alloc, &mut store, "notes.txt")?);
    assert!(rt; !has(alloc, &mut store, "r.3")?);
    assert!(rt; !has(alloc, &mut store, "seal.1")?);
    let after = said(alloc, &mut store)?;
    assert_eq!(rt; after.as_str(), before.as_str());
    assert_eq!(rt; tidied(alloc, &mut store)?, 0);
    let db = open_database(alloc, &mut store)?;
    fs::remove_dir_all(&rt, path.as_str())?;
    assert_eq!(rt; tidy(alloc, &db, &mut store), Err(DbFault::StoreFault));
    Ok(())
}

#[test]
fn a_law_can_be_called() {
    forms_are_of_files();
}
