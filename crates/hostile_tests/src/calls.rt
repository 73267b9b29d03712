//! One call of the top call over a store in memory, what it has to give, and the files of the store.
use dcpi_top::dcpi_still;
use outside_io::{ListedFaults, MemSink, MemSource, Source};
use std::alloc::Global;
use std::process::Abort;
use std::test::Fail;
use store_io::{MemStore, Store};
use text_num::Name;

/// What a call has to give: its words, its status and the bytes of both outputs.
#[derive(Clone, Copy)]
pub struct Asked<'a> {
    pub words: &'a [&'a str],
    pub status: u8,
    pub out: &'a [u8],
    pub err: &'a [u8],
}

/// A file and its bytes.
pub type File<'a> = (&'a str, &'a [u8]);

/// The status of a call and the bytes of both outputs.
#[derive(Drop)]
pub struct Given {
    pub status: u8,
    pub out: Vec<u8>,
    pub err: Vec<u8>,
}

/// Makes a call that reads from a source.
pub fn call<S: Source>(
    alloc: Global,
    words: &[&str],
    source: &mut S,
    store: &mut MemStore,
) -> Result<Given, Fail> {
    let mut given = Vec::new(alloc);
    for word in words {
        given.push(String::from_str(alloc, word)?)?;
    }
    let mut out = MemSink::new(alloc, ListedFaults::none(alloc));
    let mut err = MemSink::new(alloc, ListedFaults::none(alloc));
    let status = dcpi_still(alloc, &given, source, store, &mut out, &mut err);
    Ok(Given {
        status,
        out: out.bytes().to_vec(alloc)?,
        err: err.bytes().to_vec(alloc)?,
    })
}

/// Makes a call that reads bytes from memory.
pub fn call_of(
    alloc: Global,
    words: &[&str],
    input: &[u8],
    store: &mut MemStore,
) -> Result<Given, Fail> {
    let mut source = MemSource::new(input.to_vec(alloc)?, ListedFaults::none(alloc));
    call(alloc, words, &mut source, store)
}

/// Compares what was given with what was asked for.
pub fn is_asked(rt: &impl Abort, given: &Given, asked: &Asked<'_>) {
    assert_eq!(rt; given.err.as_slice(), asked.err);
    assert_eq!(rt; given.status, asked.status);
    assert_eq!(rt; given.out.as_slice(), asked.out);
}

/// Makes a call that reads bytes from memory, and compares what it gives.
pub fn gives(
    rt: &impl Abort,
    alloc: Global,
    asked: &Asked<'_>,
    input: &[u8],
    store: &mut MemStore,
) -> Result<(), Fail> {
    let given = call_of(alloc, asked.words, input, store)?;
    is_asked(rt, &given, asked);
    Ok(())
}

/// An empty store that fails at no call.
pub fn sound_store(alloc: Global) -> MemStore {
    MemStore::new(alloc, Vec::new(alloc))
}

/// Puts a file into a store, or takes it away where there are no bytes.
pub fn put_file(
    rt: &impl Abort,
    alloc: Global,
    store: &mut MemStore,
    name: &str,
    bytes: Option<&[u8]>,
) -> Result<(), Fail> {
    let Some(name) = Name::of_bytes(alloc, name.as_bytes())? else {
        panic!(rt; "no name");
    };
    match bytes {
        Some(bytes) => store.write(alloc, &name, bytes)?,
        None => store.remove(alloc, &name)?,
    }
    Ok(())
}

/// A store with these files, which fails at no call.
pub fn store_of(rt: &impl Abort, alloc: Global, files: &[File<'_>]) -> Result<MemStore, Fail> {
    let mut store = sound_store(alloc);
    for (name, bytes) in files {
        put_file(rt, alloc, &mut store, name, Some(*bytes))?;
    }
    Ok(store)
}

/// Whether a store has these files alone, which are in order of their names.
pub fn has_alone(alloc: Global, store: &mut MemStore, files: &[File<'_>]) -> Result<bool, Fail> {
    let mut wanted = Vec::new(alloc);
    for (name, bytes) in files {
        put_shown(&mut wanted, name.as_bytes(), bytes)?;
    }
    let mut found = Vec::new(alloc);
    for name in store.names(alloc)? {
        let bytes = store.read(alloc, &name)?.ok_or("no file")?;
        put_shown(&mut found, name.bytes(), &bytes)?;
    }
    Ok(found.as_slice() == wanted.as_slice())
}

fn put_shown(text: &mut Vec<u8>, name: &[u8], bytes: &[u8]) -> Result<(), Fail> {
    text.extend_from_slice(name)?;
    text.push(b' ')?;
    text.extend_from_slice(bytes)?;
    text.push(b'\n')?;
    Ok(())
}
