//! Writing a segment as bytes: the entry, the drains, one drain and its entries.

ghost use Rattle.std.specs.Prelude.{◌≡◌, ◌-◌, ◌/◌, ◌^◌, ◌<◌, ◌≤◌, [], length, IfOk, OnOk, All, if◌then◌else◌};
ghost use Rattle.std.specs.List.{zip};
ghost use Rattle.var_bytes.specs.Forms.{Spells, Appends, repeat};
ghost use Rattle.database_model.specs.Ranges.{IsDrained, IsSegment};
ghost use Rattle.database_model.specs.SegmentForm.{flagged_entry, drain, segment};

use crate::writing_losses::put_processors;
use database_model::{Drain, RunSegment};
use sample_key::Entry;
use std::alloc::{AllocError, Global};
use var_bytes::put_numbers;

/// Writes a segment.
pub fn write_segment(alloc: Global, s: &RunSegment) -> Result<Vec<u8>, AllocError>
    requires { IsSegment s.now }
    ensures { IfOk result (λ bytes. Spells segment bytes.items s.now) }
{
    let mut out = Vec::new(alloc);
    let number = wide(s.run);
    let part = wide(s.part);
    let last = bit_of(s.last);
    let first_epoch = wide(s.first_epoch);
    let count = s.drains.len() as u64;
    put_numbers(&mut out, &[1, number, part, last, first_epoch, count])?;
    put_drains(&mut out, &s.drains)?;
    put_processors(&mut out, s.last, &s.losses)?;
    Ok(out)
}

fn put_drains(out: &mut Vec<u8>, drains: &[Drain]) -> Result<(), AllocError>
    requires { All IsDrained drains.now }
    ensures { OnOk result (Appends (repeat (λ before. drain) (length drains.now) [])
        out.old.items out.new.items drains.now) }
{
    for d in drains {
        put_drain(out, d)?;
    }
    Ok(())
}

fn put_drain(out: &mut Vec<u8>, d: &Drain) -> Result<(), AllocError>
    requires { IsDrained d.now }
    ensures { OnOk result (Appends drain out.old.items out.new.items d.now) }
{
    let at = wide(d.at);
    let epoch = wide(d.epoch);
    let batch = &d.batch;
    let note = batch.note;
    let cpu = wide(note.cpu);
    let cell = u64::from(note.cell);
    let count = batch.entries.len() as u64;
    put_numbers(
        out,
        &[
            at,
            epoch,
            cpu,
            cell,
            note.number,
            note.upto,
            note.answers,
            note.sent0,
            note.sent1,
            count,
        ],
    )?;
    put_entries(out, &batch.entries, &d.known)?;
    Ok(())
}

fn put_entries(out: &mut Vec<u8>, entries: &[Entry], known: &[bool]) -> Result<(), AllocError>
    requires { length known.now ≡ length entries.now }
    ensures { OnOk result (Appends (repeat (λ before. flagged_entry) (length entries.now) [])
        out.old.items out.new.items (zip entries.now known.now)) }
{
    for i in 0..entries.len() {
        put_entry(out, entries[i], known[i])?;
    }
    Ok(())
}

fn put_entry(out: &mut Vec<u8>, entry: Entry, is_known: bool) -> Result<(), AllocError>
    ensures { OnOk result (Appends flagged_entry out.old.items out.new.items (entry, is_known)) }
{
    let key = entry.key;
    let pid = wide(key.pid);
    let position = position_of(key.pc);
    let code = u64::from(key.event.code());
    let bit = bit_of(is_known);
    let count = wide(entry.count);
    put_numbers(out, &[pid, position, 2 * code + bit, count])?;
    Ok(())
}

// 1 for yes, 0 for no
fn bit_of(flag: bool) -> u64
    ensures { result ≡ (if flag then 1 else 0) }
{
    if flag { 1 } else { 0 }
}

// the number of the instruction at a program counter
fn position_of(pc: u64) -> u64
    ensures position { result ≡ pc / 4 }
    ensures fits { result ≤ 2 ^ 62 - 1 }
{
    pc / 4
}

// the same number, with its range
fn wide(n: u32) -> u64
    ensures same { result ≡ n }
    ensures fits { result < 2 ^ 32 }
{
    u64::from(n)
}
