//! The store over a folder: its calls, and what it answers where the system fails before and behind a change.

use crate::failing::{FailingFiles, FileCall};
use crate::memory::{ANSWERS, CALLS};
use crate::samples::{Call, moves, told};
use std::alloc::Global;
use std::io::ErrorKind;
use std::test::Fail;
use std::{env, fs, process};
use store_io::DirStore;

/// The path of a folder of this process alone.
fn path_of(rt: &HostRuntime, alloc: Global, test: &str) -> Result<String, Fail> {
    let id = process::id(rt.process());
    let above = env::temp_dir(rt)?;
    Ok(format!(in alloc; "{}/store_tests.{test}.{id}", above.as_path().display())?)
}

#[test]
fn an_empty_folder_goes_through(rt: HostRuntime) -> Result<(), Fail> {
    let alloc = rt.alloc();
    let path = path_of(&rt, alloc, "empty")?;
    fs::create_dir(&rt, path.as_str())?;
    let mut store = DirStore::at(&rt, path.clone()?);
    moves(&store);
    let answers = told(alloc, &mut store, &CALLS)?;
    assert_eq!(rt; answers.as_slice(), ANSWERS);
    fs::remove_dir_all(&rt, path.as_str())?;
    let gone = told(alloc, &mut store, &[Call::Names])?;
    assert_eq!(rt; gone.as_slice(), b"failed|".as_slice());
    Ok(())
}

const WRITE: Call<'static> = Call::Write("p", "new");

const REMOVE: Call<'static> = Call::Remove("p");

// A change of a name that holds `old`, the call of the system that fails in it for want of memory and otherwise, what is
// answered to each, and what stands there afterwards. Behind a change want of memory is a fault as any other.
const FAILURES: [(Call<'static>, FileCall, &[u8], &[u8]); 9] = [
    (WRITE, FileCall::RemoveAside, b"memory|old|", b"failed|old|"),
    (WRITE, FileCall::OpenAside, b"memory|old|", b"failed|old|"),
    (WRITE, FileCall::SyncAside, b"memory|old|", b"failed|old|"),
    (WRITE, FileCall::Rename, b"memory|old|", b"failed|old|"),
    (WRITE, FileCall::OpenFolder, b"failed|new|", b"failed|new|"),
    (WRITE, FileCall::SyncFolder, b"failed|new|", b"failed|new|"),
    (REMOVE, FileCall::Remove, b"memory|old|", b"failed|old|"),
    (
        REMOVE,
        FileCall::OpenFolder,
        b"failed|absent|",
        b"failed|absent|",
    ),
    (
        REMOVE,
        FileCall::SyncFolder,
        b"failed|absent|",
        b"failed|absent|",
    ),
];

/// What such a change answers, and what stands there afterwards.
fn after_a_failure(
    rt: &HostRuntime,
    path: &str,
    change: Call<'_>,
    call: FileCall,
    kind: ErrorKind,
) -> Result<Vec<u8>, Fail> {
    let alloc = rt.alloc();
    let mut sound = DirStore::at(rt, String::from_str(alloc, path)?);
    told(alloc, &mut sound, &[Call::Write("p", "old")])?;
    let failing = FailingFiles { rt, call, kind };
    let mut store = DirStore::at(&failing, String::from_str(alloc, path)?);
    let mut text = told(alloc, &mut store, &[change])?;
    text.extend_from_slice(&told(alloc, &mut sound, &[Call::Read("p")])?)?;
    Ok(text)
}

#[test]
fn want_of_memory_is_answered_only_before_a_change(rt: HostRuntime) -> Result<(), Fail> {
    let path = path_of(&rt, rt.alloc(), "failing")?;
    let path = path.as_str();
    fs::create_dir(&rt, path)?;
    for (change, call, memory, other) in FAILURES {
        let found = after_a_failure(&rt, path, change, call, ErrorKind::OutOfMemory)?;
        assert_eq!(rt; found.as_slice(), memory);
        let found = after_a_failure(&rt, path, change, call, ErrorKind::PermissionDenied)?;
        assert_eq!(rt; found.as_slice(), other);
    }
    fs::remove_dir_all(&rt, path)?;
    Ok(())
}

#[test]
fn a_folder_in_the_place_of_a_file_fails(rt: HostRuntime) -> Result<(), Fail> {
    let alloc = rt.alloc();
    let path = path_of(&rt, alloc, "places")?;
    fs::create_dir(&rt, path.as_str())?;
    let inner = format!(in alloc; "{path}/p")?;
    fs::create_dir(&rt, inner.as_str())?;
    let mut store = DirStore::at(&rt, path.clone()?);
    let found = told(
        alloc,
        &mut store,
        &[Call::Read("p"), Call::Read("q"), WRITE],
    )?;
    assert_eq!(rt; found.as_slice(), b"failed|absent|failed|".as_slice());
    fs::remove_dir_all(&rt, path.as_str())?;
    Ok(())
}
