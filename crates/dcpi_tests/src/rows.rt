//! One call of the top call over a store and streams in memory, and what it has to give; and calls one after the other over
//! one store.
use dcpi_top::dcpi_still;
use outside_io::{ListedFaults, MemSink, MemSource};
use std::alloc::Global;
use std::process::Abort;
use std::test::Fail;
use store_io::{Left, MemStore, Store, StoreFail};
use text_num::Name;

/// A call: its words, its input, the calls of the input and of the output that fail, and what it gives.
#[derive(Clone, Copy)]
pub struct Row<'a> {
    pub words: &'a [&'a str],
    pub input: &'a [u8],
    pub read_fails: &'a [u64],
    pub write_fails: &'a [u64],
    pub status: u8,
    pub out: &'a [u8],
    pub err: &'a [u8],
}

/// A file and its bytes; nothing where it must be absent.
pub type File<'a> = (&'a str, Option<&'a [u8]>);

/// Makes the call over a store and compares the status and the bytes of both outputs.
pub fn gives(
    rt: &impl Abort,
    alloc: Global,
    row: &Row<'_>,
    store: &mut MemStore,
) -> Result<(), Fail> {
    let out = prints(rt, alloc, row, store)?;
    assert_eq!(rt; out.as_slice(), row.out);
    Ok(())
}

/// Makes the call over a store, compares the status and the bytes of the error output, and gives those of the output.
pub fn prints(
    rt: &impl Abort,
    alloc: Global,
    row: &Row<'_>,
    store: &mut MemStore,
) -> Result<Vec<u8>, Fail> {
    let mut words = Vec::new(alloc);
    for word in row.words {
        words.push(String::from_str(alloc, word)?)?;
    }
    let mut source = MemSource::new(
        row.input.to_vec(alloc)?,
        ListedFaults::of(alloc, row.read_fails)?,
    );
    let mut out = MemSink::new(alloc, ListedFaults::of(alloc, row.write_fails)?);
    let mut err = MemSink::new(alloc, ListedFaults::none(alloc));
    let status = dcpi_still(alloc, &words, &mut source, store, &mut out, &mut err);
    assert_eq!(rt; err.bytes(), row.err);
    assert_eq!(rt; status, row.status);
    Ok(out.bytes().to_vec(alloc)?)
}

/// Makes each call over one store that fails at no call.
pub fn gives_all(rt: &impl Abort, alloc: Global, rows: &[Row<'_>]) -> Result<(), Fail> {
    let mut store = sound_store(alloc);
    for row in rows {
        gives(rt, alloc, row, &mut store)?;
    }
    Ok(())
}

/// An empty store that fails at no call.
pub fn sound_store(alloc: Global) -> MemStore {
    MemStore::new(alloc, Vec::new(alloc))
}

/// An empty store of which one call fails, from 1, and leaves nothing under its name, or the byte 1.
pub fn failing_store(alloc: Global, call: u64, leaves_byte: bool) -> Result<MemStore, Fail> {
    let left = if leaves_byte {
        Left::Bytes(b"\x01".to_vec(alloc)?)
    } else {
        Left::Absent
    };
    let mut fails = Vec::new(alloc);
    fails.push(StoreFail { call, left })?;
    Ok(MemStore::new(alloc, fails))
}

/// Puts files into a store.
pub fn put_files(
    rt: &impl Abort,
    alloc: Global,
    store: &mut MemStore,
    files: &[(&str, &[u8])],
) -> Result<(), Fail> {
    for (name, bytes) in files {
        store.write(alloc, &name_of(rt, alloc, name)?, bytes)?;
    }
    Ok(())
}

/// Compares files of a store.
pub fn holds(
    rt: &impl Abort,
    alloc: Global,
    store: &mut MemStore,
    files: &[File<'_>],
) -> Result<(), Fail> {
    for (name, bytes) in files {
        let found = store.read(alloc, &name_of(rt, alloc, name)?)?;
        assert_eq!(rt; found.as_deref(), *bytes);
    }
    Ok(())
}

/// The names of a store, each behind a blank.
pub fn names_of(alloc: Global, store: &mut MemStore) -> Result<Vec<u8>, Fail> {
    let mut text = Vec::new(alloc);
    for name in store.names(alloc)? {
        text.push(b' ')?;
        text.extend_from_slice(name.bytes())?;
    }
    Ok(text)
}

fn name_of(rt: &impl Abort, alloc: Global, name: &str) -> Result<Name, Fail> {
    match Name::of_bytes(alloc, name.as_bytes())? {
        Some(name) => Ok(name),
        None => panic!(rt; "no name"),
    }
}
