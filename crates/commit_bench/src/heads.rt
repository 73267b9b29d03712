//! A store in memory with the head of a database of many images and rows.

use anyhow::{Context, Result};
use std::alloc::Global;
use store_io::{MemStore, Store};
use text_num::Name;

/// How many events there are.
const EVENTS: u32 = 4;

/// The last epoch of so many rows, by epoch, image and event.
fn last_of(images: u32, rows: u32) -> u64 {
    let in_epoch = u64::from(images.max(1)) * u64::from(EVENTS);
    u64::from(rows.saturating_sub(1)) / in_epoch
}

/// The text of the head of so many images and rows. There is one run, and the generation is the last epoch, at least 1.
pub(crate) fn head_text(alloc: Global, images: u32, rows: u32) -> Result<String> {
    let images = images.max(1);
    let last = last_of(images, rows);
    let generation = last.max(1);
    let mut text = format!(in alloc; "dcpi-head 1\ngeneration {generation}\nepoch {last}\n")?;
    text.push_str(format!(in alloc; "runs 1\nimages {images}\n")?.as_str())?;
    for image in 0..images {
        text.push_str(format!(in alloc; "/usr/shlib/lib{image}.so\n")?.as_str())?;
    }
    text.push_str(format!(in alloc; "profiles {rows}\n")?.as_str())?;
    for row in 0..rows {
        let (epoch, image, event) = place_of(row, images);
        text.push_str(format!(in alloc; "{epoch} {image} {event} 1\n")?.as_str())?;
    }
    text.push_str("unknowns 0\n")?;
    Ok(text)
}

/// A store with that head and its seal.
pub(crate) fn with_head(alloc: Global, images: u32, rows: u32) -> Result<MemStore> {
    let generation = last_of(images, rows).max(1);
    let text = head_text(alloc, images, rows)?;
    let head = format!(in alloc; "head.{generation}")?;
    let seal = format!(in alloc; "seal.{generation}")?;
    let mut store = MemStore::new(alloc, Vec::new(alloc));
    put(alloc, &mut store, head.as_str(), text.as_bytes())?;
    put(alloc, &mut store, seal.as_str(), b"")?;
    Ok(store)
}

/// The epoch, the image and the event of a row.
fn place_of(row: u32, images: u32) -> (u64, u64, u64) {
    let images = u64::from(images.max(1));
    let events = u64::from(EVENTS);
    let row = u64::from(row);
    (row / (images * events), row / events % images, row % events)
}

fn put(alloc: Global, store: &mut MemStore, name: &str, bytes: &[u8]) -> Result<()> {
    let name = Name::of_bytes(alloc, name.as_bytes())?.context("no name")?;
    store.write(alloc, &name, bytes)?;
    Ok(())
}
