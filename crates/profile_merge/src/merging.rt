//! The rows of a profile with sums added: both rise by offset, and each is passed once.
ghost use Rattle.std.specs.Prelude.{◌≡◌, ◌++◌, ◌+◌, ◌%◌, ◌^◌, ◌<◌, ◌≤◌, ◌==◌, if◌then◌else◌, [], ◌∷◌, drop, length, IfOk, IfErr, OnOk};
ghost use Rattle.database_model.specs.Ranges.{AreRows};
ghost use Rattle.profile_merge.specs.Sums.{AreCounts};
ghost use Rattle.profile_merge.specs.Merging.{AllBelow, BeginsFrom, MergesRows, first_count, row_at, taken, IsFull};

use crate::owners::Owner;
use crate::sums::Sums;
use database_model::{MOST_ROW_COUNT, ProfileRow};
use database_state::DbFault;
use profile_file::Profile;
use std::alloc::{AllocError, Global};

/// A profile with sums added. `Full` names the first place whose count would be above 2^48.
pub fn merged(
    alloc: Global,
    owner: Owner,
    sums: &Sums,
    profile: &Profile,
) -> Result<Profile, DbFault>
    requires { AreCounts sums.now }
    ensures { MergesRows owner sums.now profile.now result }
{
    let rows = profile.rows();
    let mut out = Profile::with_capacity(alloc, rows.len())?;
    let mut at = 0;
    for (offset, count) in sums.counts() {
        at = copy_below(&mut out, rows, at, *offset)?;
        at = put_sum(owner, &mut out, rows, at, *offset, *count)?;
    }
    copy_rest(&mut out, rows, at)?;
    Ok(out)
}

// Appends the rows from `at` on that lie below an offset, and gives the index of the next one.
fn copy_below(
    out: &mut Profile,
    rows: &[ProfileRow],
    at: usize,
    offset: u64,
) -> Result<usize, AllocError>
    requires within { at ≤ length rows.now }
    requires rows { AreRows (out.old ++ drop at rows.now) }
    ensures whole { IfOk result (λ next.
        out.new ++ drop next rows.now ≡ out.old ++ drop at rows.now) }
    ensures within { IfOk result (λ next. next ≤ length rows.now) }
    ensures below { OnOk result (AllBelow offset out.old → AllBelow offset out.new) }
    ensures next { IfOk result (λ next. BeginsFrom offset (drop next rows.now)) }
{
    for i in at..rows.len() {
        if rows[i].offset >= offset {
            return Ok(i);
        }
        out.push(rows[i])?;
    }
    Ok(rows.len())
}

// Appends the row of an offset, with a sum added to what is held there, and gives the index of the next row.
fn put_sum(
    owner: Owner,
    out: &mut Profile,
    rows: &[ProfileRow],
    at: usize,
    offset: u64,
    count: u128,
) -> Result<usize, DbFault>
    requires within { at ≤ length rows.now }
    requires rows { AreRows (out.old ++ drop at rows.now) }
    requires next { BeginsFrom offset (drop at rows.now) }
    requires below { AllBelow offset out.old }
    requires aligned { offset % 4 ≡ 0 }
    requires some { 1 ≤ count }
    ensures out { OnOk result (out.new ≡ out.old
        ++ row_at offset (first_count offset (drop at rows.now) + count) ∷ []) }
    ensures within { IfOk result (λ next. next ≤ length rows.now) }
    ensures rest { IfOk result (λ next. drop next rows.now ≡ taken offset (drop at rows.now)) }
    ensures room { OnOk result (first_count offset (drop at rows.now) + count ≤ 2 ^ 48) }
    ensures full { IfErr result
        (IsFull owner offset (first_count offset (drop at rows.now)) count) }
{
    let held = held_at(rows, at, offset);
    if count > u128::from(MOST_ROW_COUNT - held) {
        return Err(DbFault::Full {
            what: owner.full_at(offset),
            held,
            added: count,
        });
    }
    out.push(ProfileRow {
        offset,
        count: held + count as u64,
    })?;
    Ok(past(at, held))
}

// What the row at an index holds, if it is that of an offset; else 0.
fn held_at(rows: &[ProfileRow], at: usize, offset: u64) -> u64
    requires rows { AreRows (drop at rows.now) }
    ensures held { result ≡ first_count offset (drop at rows.now) }
    ensures most { result ≤ 2 ^ 48 }
{
    match rows.get(at) {
        Some(row) => { if row.offset == offset { row.count } else { 0 } }
        None => 0,
    }
}

// The index behind a row that holds something.
fn past(at: usize, held: u64) -> usize
    requires { at + 1 < 2 ^ 64 }
    ensures { result ≡ (if held == 0 then at else at + 1) }
{
    if held == 0 { at } else { at + 1 }
}

// Appends the rows from `at` on.
fn copy_rest(out: &mut Profile, rows: &[ProfileRow], at: usize) -> Result<(), AllocError>
    requires within { at ≤ length rows.now }
    requires rows { AreRows (out.old ++ drop at rows.now) }
    ensures { OnOk result (out.new ≡ out.old ++ drop at rows.now) }
{
    for i in at..rows.len() {
        out.push(rows[i])?;
    }
    Ok(())
}
