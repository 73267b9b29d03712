//! Reading a segment from bytes: the entry, the drains, one drain, its header and its entries.

ghost use Rattle.std.specs.Prelude.{◌≡◌, ◌≤◌, ◌-◌, ◌^◌, ◌⊎◌, ℕ, List, [], length, Ok, Err, IfOk, MatchResult};
ghost use Rattle.var_bytes.specs.Forms.{Spells, IsBadAt, repeat};
ghost use Rattle.var_bytes.specs.Reading.{take_form};
ghost use Rattle.database_model.specs.Runs.{Segment};
ghost use Rattle.database_model.specs.Ranges.{IsSegment};
ghost use Rattle.database_model.specs.SegmentForm.{key_at, flagged_entry, drain, segment};
ghost use Rattle.var_bytes.specs.Answers.{Gives};
ghost use Rattle.run_record.specs.Reading.{entries_at, note_at, drain_at, segment_at};

use crate::reading_losses::{event_of, processors_of};
use database_model::{Drain, LAST_PART, LAST_POSITION, MOST_PROCESSORS, MOST_RECORDS, RunSegment};
use sample_key::{Batch, Entry, Event, Key, MOST_SAMPLES, Note};
use std::alloc::Global;
use var_bytes::{BadField, FormError as SegmentError, field};

/// Reads a segment from all of the bytes.
pub fn read_segment(alloc: Global, bytes: &[u8]) -> Result<RunSegment, SegmentError>
    // What is read is what the bytes tell.
    ensures found { IfOk result (λ s. Spells segment bytes.now s) }
    ensures ranges { IfOk result (λ s. IsSegment s) }
    // What the bytes tell is read, unless memory runs out.
    ensures only { (s : Segment) → Spells segment bytes.now s →
        (result ≡ Err SegmentError.Memory) ⊎ (result ≡ Ok s) }
    // A bad place is that of the first bad field.
    ensures bad { (at : ℕ) → result ≡ Err (SegmentError.Bad at) → IsBadAt segment bytes.now at }
    // The first bad field is answered, unless memory runs out.
    ensures refused { (at : ℕ) → IsBadAt segment bytes.now at →
        (result ≡ Err SegmentError.Memory) ⊎ (result ≡ Err (SegmentError.Bad at)) }
{
    whole_segment(alloc, bytes)
}

#[tactic(auto, unfolding(crate::specs::Reading::segment_at))]
fn whole_segment(alloc: Global, bytes: &[u8]) -> Result<RunSegment, SegmentError>
    ensures { Gives (λ s. s) result (segment_at bytes.now) }
{
    let (_format, at) = field(bytes, 0, 1, 1)?;
    let (number, at) = field(bytes, at, 1, (1 << 32) - 1)?;
    let (part, at) = field(bytes, at, 0, LAST_PART)?;
    let (last, at) = field(bytes, at, 0, 1)?;
    let (first_epoch, at) = field(bytes, at, 0, (1 << 32) - 1)?;
    let (count, at) = field(bytes, at, 0, u64::MAX)?;
    let (drains, at) = drains_of(alloc, bytes, at, count)?;
    let (losses, at) = processors_of(alloc, bytes, at, last == 1)?;
    if at != bytes.len() {
        return Err(SegmentError::Bad { at });
    }
    Ok(RunSegment {
        run: number as u32,
        part: part as u32,
        last: last == 1,
        first_epoch: first_epoch as u32,
        drains,
        losses,
    })
}

fn drains_of(
    alloc: Global,
    bytes: &[u8],
    at: usize,
    count: u64,
) -> Result<(Vec<Drain>, usize), SegmentError>
    requires { at ≤ length bytes.now }
    ensures within { IfOk result (λ x. x.1 ≤ length bytes.now) }
    ensures value { Gives (λ x. (x.0.items, x.1)) result
        (take_form (repeat (λ before. drain) count []) bytes.now at) }
{
    let mut drains = Vec::new(alloc);
    let mut at = at;
    for _ in 0..count {
        let (drain, after) = drain_of(alloc, bytes, at)?;
        drains.push(drain)?;
        at = after;
    }
    Ok((drains, at))
}

#[tactic(auto, unfolding(crate::specs::Reading::drain_at))]
fn drain_of(alloc: Global, bytes: &[u8], at: usize) -> Result<(Drain, usize), SegmentError>
    requires { at ≤ length bytes.now }
    ensures within { IfOk result (λ x. x.1 ≤ length bytes.now) }
    ensures value { Gives (λ x. (x.0, x.1)) result (drain_at bytes.now at) }
{
    let (position, at) = field(bytes, at, 0, MOST_RECORDS)?;
    let (epoch, at) = field(bytes, at, 0, (1 << 32) - 1)?;
    let (note, at) = note_of(bytes, at)?;
    let (count, at) = field(bytes, at, 0, MOST_SAMPLES)?;
    let (entries, known, at) = entries_of(alloc, bytes, at, count)?;
    let drain = Drain {
        at: position as u32,
        epoch: epoch as u32,
        batch: Batch { note, entries },
        known,
    };
    Ok((drain, at))
}

#[tactic(auto, unfolding(crate::specs::Reading::note_at))]
fn note_of(bytes: &[u8], at: usize) -> Result<(Note, usize), BadField>
    requires { at ≤ length bytes.now }
    ensures within { IfOk result (λ x. x.1 ≤ length bytes.now) }
    ensures value { MatchResult result
        (λ x. note_at bytes.now at ≡ Ok (x.0, x.1))
        (λ e. note_at bytes.now at ≡ Err e.at) }
{
    let (cpu, at) = field(bytes, at, 0, MOST_PROCESSORS - 1)?;
    let (cell, at) = field(bytes, at, 0, 2)?;
    let (number, at) = field(bytes, at, 1, u64::MAX)?;
    let (upto, at) = field(bytes, at, 0, MOST_SAMPLES)?;
    let (answers, at) = field(bytes, at, 0, u64::MAX)?;
    let (sent0, at) = field(bytes, at, 0, u64::MAX)?;
    let (sent1, at) = field(bytes, at, 0, u64::MAX)?;
    let note = Note {
        cpu: cpu as u32,
        cell: cell as u8,
        number,
        upto,
        answers,
        sent0,
        sent1,
    };
    Ok((note, at))
}

#[tactic(auto, unfolding(crate::specs::Reading::entries_at))]
fn entries_of(
    alloc: Global,
    bytes: &[u8],
    at: usize,
    count: u64,
) -> Result<(Vec<Entry>, Vec<bool>, usize), SegmentError>
    requires { at ≤ length bytes.now }
    ensures within { IfOk result (λ x. x.2 ≤ length bytes.now) }
    ensures value { Gives (λ x. (x.0.items, x.1.items, x.2)) result
        (entries_at count bytes.now at) }
{
    let mut entries = Vec::new(alloc);
    let mut known = Vec::new(alloc);
    let mut at = at;
    for _ in 0..count {
        let (entry, is_known, after) = entry_of(bytes, at)?;
        entries.push(entry)?;
        known.push(is_known)?;
        at = after;
    }
    Ok((entries, known, at))
}

#[tactic(auto, unfolding(database_model::specs::SegmentForm::flagged_entry))]
fn entry_of(bytes: &[u8], at: usize) -> Result<(Entry, bool, usize), BadField>
    requires { at ≤ length bytes.now }
    ensures within { IfOk result (λ x. x.2 ≤ length bytes.now) }
    ensures value { MatchResult result
        (λ x. take_form flagged_entry bytes.now at ≡ Ok ((x.0, x.1), x.2))
        (λ e. take_form flagged_entry bytes.now at ≡ Err e.at) }
{
    let (pid, at) = field(bytes, at, 0, (1 << 32) - 1)?;
    let (position, at) = field(bytes, at, 0, LAST_POSITION)?;
    let (kind, at) = field(bytes, at, 0, 7)?;
    let (count, at) = field(bytes, at, 1, 65_535)?;
    let key = key_of(pid, position, event_of(kind / 2));
    let entry = Entry {
        key,
        count: count as u32,
    };
    Ok((entry, kind % 2 == 1, at))
}

// the key of a process, the number of an instruction and an event
fn key_of(pid: u64, position: u64, event: Event) -> Key
    requires pid { pid ≤ 2 ^ 32 - 1 }
    requires position { position ≤ 2 ^ 62 - 1 }
    ensures { result ≡ key_at pid position event }
{
    Key {
        pid: pid as u32,
        pc: 4 * position,
        event,
    }
}
