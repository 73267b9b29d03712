//! One call of the top call with threads over a store and streams in memory, and what it has to give.
use dcpi_run_top::dcpi;
use outside_io::{Gate, ListedFaults, MemSink, MemSource};
use std::alloc::Global;
use std::sync::Wait;
use std::test::Fail;
use std::thread::Threads;
use store_io::MemStore;

/// What was written by a call, and its status.
#[derive(Drop)]
pub struct Given {
    pub status: u8,
    pub out: Vec<u8>,
    pub err: Vec<u8>,
}

/// Makes the call over a store.
pub fn call<R: Threads + Wait + Sync, G: Gate + Sync>(
    rt: &R,
    alloc: Global,
    words: &[&str],
    input: &[u8],
    store: &mut MemStore,
    gate: &G,
) -> Result<Given, Fail> {
    let mut given = Vec::new(alloc);
    for word in words {
        given.push(String::from_str(alloc, word)?)?;
    }
    let mut source = MemSource::new(input.to_vec(alloc)?, ListedFaults::none(alloc));
    let mut out = MemSink::new(alloc, ListedFaults::none(alloc));
    let mut err = MemSink::new(alloc, ListedFaults::none(alloc));
    let status = dcpi(
        rt,
        alloc,
        &given,
        &mut source,
        store,
        &mut out,
        &mut err,
        gate,
    );
    Ok(Given {
        status,
        out: out.bytes().to_vec(alloc)?,
        err: err.bytes().to_vec(alloc)?,
    })
}

/// An empty store that fails at no call.
pub fn sound_store(alloc: Global) -> MemStore {
    MemStore::new(alloc, Vec::new(alloc))
}

/// Whether a text has this line, or one that begins with these words.
pub fn has_line(text: &[u8], words: &[u8]) -> bool {
    text.split(|byte| *byte == b'\n')
        .any(|line| line.starts_with(words))
}
