//! Calls of a store as data, and what it answers to them as text.

use std::alloc::Global;
use std::test::Fail;
use store_io::{Store, StoreError};
use text_num::Name;

/// A call of a store.
#[derive(Clone, Copy)]
pub enum Call<'a> {
    /// Which names are there?
    Names,
    /// What stands under this name?
    Read(&'a str),
    /// Put this text under this name.
    Write(&'a str, &'a str),
    /// Take this name away.
    Remove(&'a str),
}

/// The name of this text.
pub fn name(alloc: Global, text: &str) -> Result<Name, Fail> {
    Ok(Name::of_bytes(alloc, text.as_bytes())?.ok_or("no name")?)
}

/// What a store answers to calls, each answer with a bar behind it: the names, each with a blank behind it, the bytes, or
/// `absent`; nothing for a change; `failed` or `memory` for an error.
pub fn told<D: Store>(alloc: Global, store: &mut D, calls: &[Call<'_>]) -> Result<Vec<u8>, Fail> {
    let mut text = Vec::new(alloc);
    for call in calls {
        let answer = answer_of(alloc, store, *call);
        match answer {
            Ok(bytes) => text.extend_from_slice(&bytes)?,
            Err(StoreError::Failed) => text.extend_from_slice(b"failed")?,
            Err(StoreError::Memory) => text.extend_from_slice(b"memory")?,
        }
        text.push(b'|')?;
    }
    Ok(text)
}

fn answer_of<D: Store>(
    alloc: Global,
    store: &mut D,
    call: Call<'_>,
) -> Result<Vec<u8>, StoreError> {
    match call {
        Call::Names => joined(alloc, store.names(alloc)?),
        Call::Read(text) => {
            let found = store.read(alloc, &name_or_fault(alloc, text)?)?;
            Ok(found.unwrap_or(Vec::from_slice(alloc, b"absent")?))
        }
        Call::Write(text, bytes) => {
            store.write(alloc, &name_or_fault(alloc, text)?, bytes.as_bytes())?;
            Ok(Vec::new(alloc))
        }
        Call::Remove(text) => {
            store.remove(alloc, &name_or_fault(alloc, text)?)?;
            Ok(Vec::new(alloc))
        }
    }
}

fn name_or_fault(alloc: Global, text: &str) -> Result<Name, StoreError> {
    Name::of_bytes(alloc, text.as_bytes())?.ok_or(StoreError::Failed)
}

fn joined(alloc: Global, names: Vec<Name>) -> Result<Vec<u8>, StoreError> {
    let mut text = Vec::new(alloc);
    for name in &names {
        text.extend_from_slice(name.bytes())?;
        text.push(b' ')?;
    }
    Ok(text)
}

/// The type may go to another thread.
pub fn moves<T: Send>(_: &T) {}
