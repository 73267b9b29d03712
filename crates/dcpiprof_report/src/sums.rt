//! The sums by label. `add_rows` adds what a profile counts: rows of one procedure that follow each other are added as one.
ghost use Rattle.std.specs.Prelude.{◌≡◌, ◌<◌, ◌≤◌, ◌+◌, ◌^◌, Bool, true, if◌then◌else◌, is_some, sum_by, IfOk, OnOk};
ghost use Rattle.std.specs.Option.{option_copied};
ghost use Rattle.report_text.specs.declared.labels.Label.{Label};
ghost use Rattle.report_text.specs.declared.labels.Label.TheVariants.{Unknown};
ghost use Rattle.report_text.specs.Labels.{is_listed};
ghost use Rattle.dcpiprof_report.specs.Counting.{counted_where, label_at, name_in, titled};
ghost use Rattle.dcpiprof_report.specs.Sums.{AreSums, Grows, KeepsTies, held, held_in_all};

use database_model::ProfileRow;
use report_text::Label;
use std::alloc::{AllocError, Global};
use std::collections::BTreeMap;
use symbol_ranges::Symbols;
use text_num::Name;

/// Rows of one procedure, or of none, that follow each other, and what they count.
#[derive(Clone, Copy)]
struct Run<'a> {
    name: Option<&'a Name>,
    count: u128,
}

/// Adds what the rows of a profile of an image count, each under the label of its offset.
pub(crate) fn add_rows(
    alloc: Global,
    sums: &mut BTreeMap<Label, u128>,
    symbols: Option<&Symbols>,
    image: &Name,
    rows: &[ProfileRow],
) -> Result<(), AllocError>
    requires { held_in_all sums.old.entries + sum_by (λ row. row.count) rows.now < 2 ^ 128 }
    ensures counts { OnOk result (Grows sums.old.entries sums.new.entries
        (λ test. counted_where test (label_at (option_copied symbols.entry) image.now) rows.now)) }
    ensures labels { OnOk result (AreSums (is_some symbols.entry) sums.old.entries
        → AreSums (is_some symbols.entry) sums.new.entries) }
{
    let mut run = Run {
        name: None,
        count: 0,
    };
    for row in rows {
        let name = name_at(symbols, image, row.offset);
        let before = go_on(alloc, sums, symbols, image, run, name)?;
        run = Run {
            name,
            count: before + u128::from(row.count),
        };
    }
    add_run(alloc, sums, symbols, image, run)
}

// What the run counts so far where it goes on with this name; else it is added, and the next one begins.
fn go_on(
    alloc: Global,
    sums: &mut BTreeMap<Label, u128>,
    symbols: Option<&Symbols>,
    image: &Name,
    run: Run<'_>,
    name: Option<&Name>,
) -> Result<u128, AllocError>
    requires { held_in_all sums.old.entries + run.count < 2 ^ 128 }
    ensures counts { IfOk result (λ before. (test : Label → Bool) → KeepsTies test →
        held test sums.new.entries + (if test (titled (option_copied symbols.entry) image.now
        (option_copied name.entry)) then before else 0)
        ≡ held test sums.old.entries + (if test (titled (option_copied symbols.entry) image.now
        (option_copied run.entry.name)) then run.entry.count else 0)) }
    ensures labels { OnOk result (AreSums (is_some symbols.entry) sums.old.entries
        → AreSums (is_some symbols.entry) sums.new.entries) }
{
    if is_same(run.name, name) {
        return Ok(run.count);
    }
    add_run(alloc, sums, symbols, image, run)?;
    Ok(0)
}

fn add_run(
    alloc: Global,
    sums: &mut BTreeMap<Label, u128>,
    symbols: Option<&Symbols>,
    image: &Name,
    run: Run<'_>,
) -> Result<(), AllocError>
    requires { held_in_all sums.old.entries + run.count < 2 ^ 128 }
    ensures counts { OnOk result (Grows sums.old.entries sums.new.entries
        (λ test. if test (titled (option_copied symbols.entry) image.now
        (option_copied run.entry.name)) then run.entry.count else 0)) }
    ensures labels { OnOk result (AreSums (is_some symbols.entry) sums.old.entries
        → AreSums (is_some symbols.entry) sums.new.entries) }
{
    if run.count == 0 {
        return Ok(());
    }
    let label = label_of(alloc, symbols, image, run.name)?;
    add(sums, label, run.count)
}

/// Adds what unknown samples count.
pub(crate) fn add_unknown(sums: &mut BTreeMap<Label, u128>, count: u128) -> Result<(), AllocError>
    requires { held_in_all sums.old.entries + count < 2 ^ 128 }
    ensures counts { OnOk result (Grows sums.old.entries sums.new.entries
        (λ test. if test Unknown then count else 0)) }
    ensures labels { OnOk result ((procedures : Bool) →
        AreSums procedures sums.old.entries → AreSums procedures sums.new.entries) }
{
    if count == 0 {
        return Ok(());
    }
    add(sums, Label::Unknown, count)
}

// Adds a count under a label.
fn add(sums: &mut BTreeMap<Label, u128>, label: Label, count: u128) -> Result<(), AllocError>
    requires room { held_in_all sums.old.entries + count < 2 ^ 128 }
    requires some { 0 < count }
    ensures counts { OnOk result (Grows sums.old.entries sums.new.entries
        (λ test. if test label then count else 0)) }
    ensures labels { OnOk result ((procedures : Bool) → is_listed procedures label ≡ true →
        AreSums procedures sums.old.entries → AreSums procedures sums.new.entries) }
{
    let before = sums.get(&label).copied().unwrap_or(0);
    sums.insert(label, before + count)?;
    Ok(())
}

fn label_of(
    alloc: Global,
    symbols: Option<&Symbols>,
    image: &Name,
    name: Option<&Name>,
) -> Result<Label, AllocError>
    ensures { IfOk result (λ label. label ≡ titled (option_copied symbols.entry) image.now
        (option_copied name.entry)) }
{
    let image = image.copy(alloc)?;
    if symbols.is_none() {
        return Ok(Label::Image(image));
    }
    match name {
        None => Ok(Label::NoSymbol { image }),
        Some(name) => {
            let name = name.copy(alloc)?;
            Ok(Label::Procedure { image, name })
        }
    }
}

fn name_at<'a>(symbols: Option<&'a Symbols>, image: &Name, offset: u64) -> Option<&'a Name>
    ensures { option_copied result ≡ name_in (option_copied symbols.entry) image.now offset }
{
    match symbols {
        None => None,
        Some(symbols) => symbols.name_at(image, offset),
    }
}

fn is_same(a: Option<&Name>, b: Option<&Name>) -> bool
    ensures { result ≡ true → option_copied a.entry ≡ option_copied b.entry }
{
    match (a, b) {
        (None, None) => true,
        (Some(a), Some(b)) => a.bytes() == b.bytes(),
        _ => false,
    }
}
