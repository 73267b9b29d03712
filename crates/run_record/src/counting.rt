//! The tally of a run: the entry, the rows of a processor, one row and its three sums.

ghost use Rattle.std.specs.Prelude.{◌≡◌, ◌≤◌, ◌<◌, ◌+◌, ◌*◌, ◌^◌, ◌++◌, ◌∷◌, [], map, filter, length, sum_by, slice_index_or, IfOk, OnOk, All};
ghost use Rattle.std.specs.List.{zip};
ghost use Rattle.database_model.specs.Ranges.{IsDrained, IsRecorded, AreLosses};
ghost use Rattle.database_model.specs.Tally.{agrees, samples_of as samples_in_entry, drained_of, lost_of, row_of as tally_row, has_samples, processor_rows, tally_of};

use database_model::{Drain, RunRecord, TallyRow};
use sample_key::{Entry, Event, LAST_CPU, Loss};
use std::alloc::{AllocError, Global};

/// How many samples of each processor and event were attributed, unknown and lost: a row where their sum is above 0,
/// by processor, then event code.
pub fn tally(alloc: Global, r: &RunRecord) -> Result<Vec<TallyRow>, AllocError>
    requires { IsRecorded r.now }
    ensures { IfOk result (λ rows. rows.items ≡ tally_of r.now) }
{
    let mut rows = Vec::new(alloc);
    for cpu in 0..LAST_CPU + 1 {
        push_rows(&mut rows, r, cpu)?;
    }
    Ok(rows)
}

fn push_rows(rows: &mut Vec<TallyRow>, r: &RunRecord, cpu: u32) -> Result<(), AllocError>
    requires { IsRecorded r.now }
    ensures { OnOk result (rows.new.items ≡ rows.old.items ++ processor_rows r.now cpu) }
{
    for event in [Event::Cycles, Event::Imiss, Event::Dmiss, Event::Branchmp] {
        push_row(rows, row_of(r, cpu, event))?;
    }
    Ok(())
}

// one more row, where it counts any sample
fn push_row(rows: &mut Vec<TallyRow>, row: TallyRow) -> Result<(), AllocError>
    requires { row.attributed + row.unknown + row.lost < 2 ^ 128 }
    ensures { OnOk result (rows.new.items ≡ rows.old.items ++ filter has_samples (row ∷ [])) }
{
    if row.attributed + row.unknown + row.lost > 0 {
        rows.push(row)?;
        return Ok(());
    }
    Ok(())
}

fn row_of(r: &RunRecord, cpu: u32, event: Event) -> TallyRow
    requires { IsRecorded r.now }
    ensures row { result ≡ tally_row r.now cpu event }
    ensures small { result.attributed + result.unknown + result.lost < 2 ^ 128 }
{
    let attributed = drained_in_all(&r.drains, cpu, event, true);
    let unknown = drained_in_all(&r.drains, cpu, event, false);
    let lost = u128::from(lost_by(&r.losses, cpu, event));
    TallyRow {
        cpu,
        event,
        attributed,
        unknown,
        lost,
    }
}

// how many samples of a processor and event are in these drains with this flag
fn drained_in_all(drains: &[Drain], cpu: u32, event: Event, flag: bool) -> u128
    requires { All IsDrained drains.now }
    ensures sum { result ≡ sum_by (drained_of cpu event flag) drains.now }
    ensures small { result < 2 ^ 126 }
{
    let mut sum: u128 = 0;
    for d in drains {
        sum += u128::from(drained_by(d, cpu, event, flag));
    }
    sum
}

fn drained_by(d: &Drain, cpu: u32, event: Event, flag: bool) -> u64
    requires { IsDrained d.now }
    ensures sum { result ≡ drained_of cpu event flag d.now }
    ensures small { result ≤ 131070000000 }
{
    let batch = &d.batch;
    let note = batch.note;
    if note.cpu != cpu {
        return 0;
    }
    samples_in(&batch.entries, &d.known, event, flag)
}

fn samples_in(entries: &[Entry], known: &[bool], event: Event, flag: bool) -> u64
    requires flags { length known.now ≡ length entries.now }
    requires size { length entries.now ≤ 2000000 }
    ensures sum { result ≡ sum_by (samples_in_entry event flag) (zip entries.now known.now) }
    ensures small { result ≤ 131070000000 }
{
    let mut sum: u64 = 0;
    for i in 0..entries.len() {
        sum += samples_of(entries[i], known[i], event, flag);
    }
    sum
}

fn samples_of(entry: Entry, is_known: bool, event: Event, flag: bool) -> u64
    ensures value { result ≡ samples_in_entry event flag (entry, is_known) }
    ensures small { result ≤ 65535 }
{
    let key = entry.key;
    if key.event.code() == event.code() && is_as_asked(flag, is_known) {
        u64::from(entry.count)
    } else {
        0
    }
}

fn is_as_asked(flag: bool, is_known: bool) -> bool
    ensures { result ≡ agrees flag is_known }
{
    if flag { is_known } else { !is_known }
}

fn lost_by(lists: &[Vec<Loss>], cpu: u32, event: Event) -> u64
    ensures { result ≡ lost_of event (slice_index_or (map (λ v. v.items) lists.now) cpu []) }
{
    match lists.get(cpu as usize) {
        None => 0,
        Some(losses) => lost_in(losses, event),
    }
}

fn lost_in(losses: &[Loss], event: Event) -> u64
    ensures { result ≡ lost_of event losses.now }
{
    losses
        .iter()
        .filter(|loss| loss.event.code() == event.code())
        .count() as u64
}
