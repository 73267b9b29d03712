//! What the changes of a store in memory say: what stands under a name, and which names are there.
ghost use Rattle.std.specs.Prelude.{◌≡◌, ◌≢◌, ◌&&◌, ◌||◌, not, ℕ, List, [], true, map, filter, is_some, false, IsSome, IfOk, OnOk, OnErr, None, Some};
ghost use Rattle.std.specs.declared.option.Option.{Option};
ghost use Rattle.std.specs.Option.{option_map, option_copied};
ghost use Rattle.std.specs.Str.{bytes_eq};
ghost use Rattle.text_num.specs.Names.{is_name};
ghost use Rattle.store_io.specs.Files.{Files, contents, no_files};
ghost use Rattle.store_io.specs.Listing.{is_listed, Lists, text_list, AreNames};
ghost use Rattle.store_io.specs.Changes.{after_step, after_steps, listed, left_bytes, decides, changes_files, bytes_left, takes_away, is_whole, are_whole, Adds, IsHeldAfter, MayBeTornAfter};

use crate::fails::{Left, StoreFail};
use crate::steps::{Outcome, Step};
use std::alloc::{AllocError, Global};
use std::collections::BTreeSet;
use text_num::Name;

/// What is listed first for this call.
pub fn listed(fails: &[StoreFail], call: u64) -> Option<&Left>
    ensures left { option_copied result ≡ listed fails.now call }
    ensures some { IsSome result → fails.now ≢ [] }
{
    for fail in fails {
        if fail.call == call {
            return Some(&fail.left);
        }
    }
    None
}

/// The bytes that the changes left under a name.
pub fn find<'a>(changes: &'a [Step], name: &[u8]) -> Option<&'a Vec<u8>>
    ensures { option_map (λ v. contents v.now) result ≡ after_steps changes.now no_files name.now }
{
    let mut left = changes.len();
    while left > 0 {
        left -= 1;
        let change = &changes[left];
        if decides(change, name) {
            return bytes_left(&change.outcome);
        }
    }
    None
}

/// Whether this change says what stands under the name.
fn decides(change: &Step, name: &[u8]) -> bool
    ensures { result ≡ decides change.now name.now }
{
    change.name.bytes() == name && changes_files(&change.outcome)
}

fn changes_files(outcome: &Outcome) -> bool
    ensures { result ≡ changes_files outcome.now }
{
    match outcome {
        Outcome::Written(_) => true,
        Outcome::HalfWritten(_) => true,
        Outcome::Removed => true,
        Outcome::HalfRemoved { gone } => *gone,
    }
}

/// What such a change left under its name.
fn bytes_left(outcome: &Outcome) -> Option<&Vec<u8>>
    ensures { option_map (λ v. contents v.now) result ≡ bytes_left outcome.now }
{
    match outcome {
        Outcome::Written(bytes) => Some(bytes),
        Outcome::HalfWritten(left) => left.as_ref(),
        Outcome::Removed => None,
        Outcome::HalfRemoved { .. } => None,
    }
}

/// A copy of the bytes, where there are any.
pub fn copy_of(alloc: Global, found: Option<&Vec<u8>>) -> Result<Option<Vec<u8>>, AllocError>
    ensures { IfOk result (λ copy. option_map contents copy ≡
        option_map (λ v. contents v.now) found.entry) }
{
    match found {
        None => Ok(None),
        Some(bytes) => Ok(Some(Vec::from_slice(alloc, bytes)?)),
    }
}

/// What a failed write leaves, where this stood before.
pub fn left_by_write(
    alloc: Global,
    left: &Left,
    before: Option<&Vec<u8>>,
) -> Result<Option<Vec<u8>>, AllocError>
    ensures { IfOk result (λ kept. option_map contents kept ≡
        left_bytes left.now (option_map (λ v. contents v.now) before.entry)) }
{
    match left {
        Left::Absent => Ok(None),
        Left::AsBefore => copy_of(alloc, before),
        Left::Bytes(bytes) => Ok(Some(Vec::from_slice(alloc, bytes)?)),
    }
}

/// How a failed write came out that left these bytes: after a crash the name may be torn all the same.
pub fn half_written(bytes: Option<Vec<u8>>) -> Outcome
    ensures held { IsHeldAfter (option_map contents bytes) result }
    ensures torn { MayBeTornAfter result }
    ensures failed { is_whole result ≡ false }
{
    Outcome::HalfWritten(bytes)
}

/// Whether a failed removal took the name away.
pub fn takes_away(left: &Left) -> bool
    ensures { result ≡ takes_away left.now }
{
    match left {
        Left::Absent => true,
        Left::AsBefore => false,
        Left::Bytes(_) => false,
    }
}

/// Adds a change of this name.
pub fn add(
    alloc: Global,
    changes: &mut Vec<Step>,
    name: &Name,
    outcome: Outcome,
) -> Result<(), AllocError>
    ensures added { OnOk result (Adds changes.old.items changes.new.items name.now outcome) }
    ensures refused { OnErr result (changes.new.items ≡ changes.old.items) }
    ensures whole { is_whole outcome ≡ true →
        are_whole changes.new.items ≡ are_whole changes.old.items }
{
    let name = name.copy(alloc)?;
    changes.push(Step { name, outcome })?;
    Ok(())
}

/// The names that are there.
pub fn present_names(alloc: Global, changes: &[Step]) -> Result<BTreeSet<Vec<u8>>, AllocError>
    ensures present { IfOk result (λ texts. Lists (Some (after_steps changes.now no_files))
        (text_list texts)) }
    ensures names { IfOk result (λ texts. filter is_name (text_list texts) ≡ text_list texts) }
{
    let mut texts = BTreeSet::new(alloc);
    for change in changes {
        follow(alloc, &mut texts, change)?;
    }
    Ok(texts)
}

/// Brings the names that are there up to date with a change.
fn follow(alloc: Global, texts: &mut BTreeSet<Vec<u8>>, change: &Step) -> Result<(), AllocError>
    ensures present { OnOk result ((files : Files) → Lists (Some files) (text_list texts.old) →
        Lists (Some (after_step change.now files)) (text_list texts.new)) }
    ensures names { OnOk result (AreNames (text_list texts.old) → AreNames (text_list texts.new)) }
{
    match &change.outcome {
        Outcome::Written(_) => put_text(alloc, texts, &change.name),
        Outcome::HalfWritten(Some(_)) => put_text(alloc, texts, &change.name),
        Outcome::HalfWritten(None) => Ok(take_text(texts, &change.name)),
        Outcome::Removed => Ok(take_text(texts, &change.name)),
        Outcome::HalfRemoved { gone: true } => Ok(take_text(texts, &change.name)),
        Outcome::HalfRemoved { gone: false } => Ok(()),
    }
}

fn put_text(alloc: Global, texts: &mut BTreeSet<Vec<u8>>, name: &Name) -> Result<(), AllocError>
    ensures listed { OnOk result ((n : List ℕ) →
        is_listed n (text_list texts.new) ≡
        (bytes_eq name.now n || is_listed n (text_list texts.old))) }
    ensures names { OnOk result (AreNames (text_list texts.old) → AreNames (text_list texts.new)) }
{
    texts.insert(Vec::from_slice(alloc, name.bytes())?)?;
    Ok(())
}

fn take_text(texts: &mut BTreeSet<Vec<u8>>, name: &Name)
    ensures listed { (n : List ℕ) →
        is_listed n (text_list texts.new) ≡
        (not (bytes_eq name.now n) && is_listed n (text_list texts.old)) }
    ensures names { AreNames (text_list texts.old) → AreNames (text_list texts.new) }
{
    let _rising = texts.len();
    texts.remove(name.bytes());
}
