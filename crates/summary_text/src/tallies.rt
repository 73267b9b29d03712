//! The tally of a run, its lines, and their sums.
ghost use Rattle.std.specs.Prelude.{◌≡◌, ◌<◌, ◌≤◌, ◌^◌, ◌++◌, length, IfOk, OnOk, sum_by};
ghost use Rattle.database_model.specs.Ranges.{IsRecorded};
ghost use Rattle.database_model.specs.Tally.{tally_of};
ghost use Rattle.summary_text.specs.Bounds.{AllSmall, AreFew, AreSmall, IsSmallRow};
ghost use Rattle.summary_text.specs.Summaries.{tally_line, tally_lines, taken_in, total_line};

use crate::fields::{Fates, put_fates};
use run_record::{Drain, RunRecord, TallyRow, tally};
use sample_key::Entry;
use std::alloc::{AllocError, Global};
use text_num::put_dec;

/// The rows of a run's tally. They are small and few enough for their sums in 128 bits.
pub fn run_tally(alloc: Global, kept: &RunRecord) -> Result<Vec<TallyRow>, AllocError>
    requires { IsRecorded kept.now }
    ensures rows { IfOk result (λ rows. rows.items ≡ tally_of kept.now) }
    ensures few { IfOk result (λ rows. AreFew rows.items) }
{
    read_counts(&kept.drains);
    let rows = tally(alloc, kept)?;
    Ok(rows)
}

// Reads each count, so that the sums of a row are known to fit: no type says of a list that its counts are small.
fn read_counts(drains: &[Drain])
    ensures small { AllSmall drains.now }
    ensures few { length drains.now < 2 ^ 64 }
{
    for drain in drains {
        read_entries(&drain.batch.entries);
    }
}

fn read_entries(entries: &[Entry])
    ensures { AreSmall entries.now }
{
    for entry in entries {
        read_entry(*entry);
    }
}

fn read_entry(entry: Entry)
    ensures { entry.count ≤ 65535 }
{
    let _count = entry.count;
}

/// Appends a line `c CPU EVENT taken T known K unknown U lost L` for each row of a tally.
pub fn put_tally(out: &mut Vec<u8>, rows: &[TallyRow]) -> Result<(), AllocError>
    requires { AreFew rows.now }
    ensures { OnOk result (out.new.items ≡ out.old.items ++ tally_lines rows.now) }
{
    for row in rows {
        put_row(out, row)?;
    }
    Ok(())
}

fn put_row(out: &mut Vec<u8>, row: &TallyRow) -> Result<(), AllocError>
    requires { IsSmallRow row.now }
    ensures { OnOk result (out.new.items ≡ out.old.items ++ tally_line row.now) }
{
    out.extend_from_slice(b"c ")?;
    put_dec(out, u128::from(row.cpu))?;
    out.push(b' ')?;
    out.extend_from_slice(row.event.name())?;
    put_fates(out, fates_of(row))
}

fn fates_of(row: &TallyRow) -> Fates
    requires { IsSmallRow row.now }
    ensures taken { result.taken ≡ taken_in row.now }
    ensures known { result.known ≡ row.now.attributed }
    ensures unknown { result.unknown ≡ row.now.unknown }
    ensures lost { result.lost ≡ row.now.lost }
    ensures small { taken_in row.now < 2 ^ 120 }
{
    Fates {
        taken: row.attributed + row.unknown + row.lost,
        known: row.attributed,
        unknown: row.unknown,
        lost: row.lost,
    }
}

/// Appends the line of the sums.
pub(crate) fn put_total(out: &mut Vec<u8>, rows: &[TallyRow]) -> Result<(), AllocError>
    requires { AreFew rows.now }
    ensures { OnOk result (out.new.items ≡ out.old.items ++ total_line rows.now) }
{
    let sums = sums_of(rows);
    out.extend_from_slice(b"total")?;
    put_fates(out, sums)
}

fn sums_of(rows: &[TallyRow]) -> Fates
    requires { AreFew rows.now }
    ensures taken { result.taken ≡ sum_by taken_in rows.now }
    ensures known { result.known ≡ sum_by (λ row. row.attributed) rows.now }
    ensures unknown { result.unknown ≡ sum_by (λ row. row.unknown) rows.now }
    ensures lost { result.lost ≡ sum_by (λ row. row.lost) rows.now }
{
    let mut taken = 0;
    let mut known = 0;
    let mut unknown = 0;
    let mut lost = 0;
    for row in rows {
        let fates = fates_of(row);
        taken += fates.taken;
        known += fates.known;
        unknown += fates.unknown;
        lost += fates.lost;
    }
    Fates {
        taken,
        known,
        unknown,
        lost,
    }
}
