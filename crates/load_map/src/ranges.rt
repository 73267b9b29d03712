//! An ordered list of ranges without overlaps: `Ranges::place` finds an address by halving, `Ranges::put` and
//! `Ranges::cut` cut what a range covers. The ranges rise and stand apart at every moment.
ghost use Rattle.std.specs.Prelude.{◌≡◌, ℕ, ◌≤◌, ◌<◌, ◌+◌, ◌%◌, min, length, nat_le, List, [], ◌∷◌, ◌++◌, IfOk, OnOk, OnErr, IfSome, option_to_list};
ghost use Rattle.load_map.specs.Ranges.{IsRange, RangesFrom, place_at, place_in, with_range, without_range, IsExchanged, left_of, right_of, first_place, ended_by, is_free_to, with_some};

use std::alloc::{AllocError, Global};
use std::marker::Model;
use trace_model::Place;

/// A range of addresses to which an image is mapped.
#[derive(Clone, Copy, Debug, PartialEq, Eq)]
pub struct Range {
    /// The first address that it covers.
    pub base: u64,
    /// The first address behind it.
    pub end: u64,
    /// The image, by its index in `Trace::images`.
    pub image: u32,
    /// The address at which offset 0 of the image lies: `base`, or below it where the front of the mapping was cut.
    pub origin: u64,
}

/// The ranges of a process or of the kernel.
#[derive(Drop)]
pub struct Ranges {
    list: Vec<Range>,
}

impl Model for Ranges {
    ghost use Rattle.std.specs.Prelude.{List};
    ghost use Rattle.load_map.specs.declared.ranges.Range.{Range};
    ghost use Rattle.load_map.specs.Ranges.{RangesFrom};

    ghost Value = { List Range };

    ghost view = { λ r. r.list.items };

    ghost invariant = { λ r. RangesFrom 0 r.list.items };
}

impl Ranges {
    pub fn new(alloc: Global) -> Ranges
        ensures { result ≡ [] }
    {
        Ranges {
            list: Vec::new(alloc),
        }
    }

    /// A list of one range.
    pub fn of(alloc: Global, range: Range) -> Result<Ranges, AllocError>
        requires { IsRange range }
        ensures { IfOk result (λ ranges. ranges ≡ range ∷ []) }
    {
        let mut list = Vec::with_capacity(alloc, 1)?;
        list.push(range)?;
        Ok(Ranges { list })
    }

    pub fn as_slice(&self) -> &[Range]
        ensures value { result.now ≡ self.now }
        ensures rising { RangesFrom 0 self.now }
    {
        &self.list
    }

    /// Where an address lies.
    pub fn place(&self, pc: u64) -> Option<Place>
        ensures place { result ≡ place_in self.now pc }
        ensures aligned { pc % 4 ≡ 0 → IfSome result (λ found. found.offset % 4 ≡ 0) }
    {
        let first = count_ended(&self.list, pc);
        first_place(&self.list[first..], pc)
    }

    /// Cuts out what a range covers, and puts the range there. After a refusal all is as before.
    pub fn put(&mut self, alloc: Global, range: Range) -> Result<(), AllocError>
        requires { IsRange range }
        ensures put { OnOk result (self.new ≡ with_range range self.old) }
        ensures refused { OnErr result (self.new ≡ self.old) }
    {
        exchange(&mut self.list, alloc, range.base, range.end, Some(range))
    }

    /// Cuts out what lies from `base` up to `end`. After a refusal all is as before.
    pub fn cut(&mut self, alloc: Global, base: u64, end: u64) -> Result<(), AllocError>
        requires { base < end }
        ensures cut { OnOk result (self.new ≡ without_range base end self.old) }
        ensures refused { OnErr result (self.new ≡ self.old) }
    {
        exchange(&mut self.list, alloc, base, end, None)
    }
}

// How many ranges end at an address or before it: they stand first.
fn count_ended(ranges: &[Range], pc: u64) -> usize
    requires { RangesFrom 0 ranges.now }
    ensures count { result ≡ ended_by pc ranges.now }
    ensures bound { result ≤ length ranges.now }
{
    ranges.partition_point(|range| has_ended(range, pc))
}

fn has_ended(range: &Range, pc: u64) -> bool
    ensures { result ≡ nat_le range.now.end pc }
{
    range.end <= pc
}

// Where an address lies that is below the end of the first of these ranges.
fn first_place(ranges: &[Range], pc: u64) -> Option<Place>
    requires { RangesFrom 0 ranges.now }
    ensures place { result ≡ first_place ranges.now pc }
    ensures aligned { pc % 4 ≡ 0 → IfSome result (λ found. found.offset % 4 ≡ 0) }
{
    match ranges {
        [range, ..] if range.base <= pc => Some(Place {
            image: range.image,
            offset: pc - range.origin,
        }),
        [_, ..] => None,
        [] => None,
    }
}

// Takes away what lies from `base` up to `end`, and puts a range there, if there is one.
fn exchange(
    ranges: &mut Vec<Range>,
    alloc: Global,
    base: u64,
    end: u64,
    new: Option<Range>,
) -> Result<(), AllocError>
    requires rising { RangesFrom 0 ranges.old.items }
    requires order { base < end }
    ensures exchanged { OnOk result (IsExchanged base end new ranges.old.items ranges.new.items) }
    ensures refused { OnErr result (ranges.new.items ≡ ranges.old.items) }
{
    let first = count_ended(ranges, base);
    if is_free_to(&ranges[first..], end) {
        insert_some(ranges, first, new)
    } else {
        exchange_covered(ranges, alloc, base, end, new)
    }
}

// Whether the first of these ranges, if there is one, begins at an address or behind it.
fn is_free_to(ranges: &[Range], end: u64) -> bool
    ensures { result ≡ is_free_to end ranges.now }
{
    match ranges {
        [range, ..] => end <= range.base,
        [] => true,
    }
}

// Puts a range at an index, if there is one.
fn insert_some(ranges: &mut Vec<Range>, at: usize, new: Option<Range>) -> Result<(), AllocError>
    requires { at ≤ length ranges.old.items }
    ensures inserted { OnOk result (ranges.new.items ≡ with_some at new ranges.old.items) }
    ensures refused { OnErr result (ranges.new.items ≡ ranges.old.items) }
{
    if let Some(range) = new {
        ranges.insert(at, range)?;
    }
    Ok(())
}

// The same as `exchange` where something is taken away.
fn exchange_covered(
    ranges: &mut Vec<Range>,
    alloc: Global,
    base: u64,
    end: u64,
    new: Option<Range>,
) -> Result<(), AllocError>
    requires rising { RangesFrom 0 ranges.old.items }
    requires order { base < end }
    ensures exchanged { OnOk result (IsExchanged base end new ranges.old.items ranges.new.items) }
    ensures refused { OnErr result (ranges.new.items ≡ ranges.old.items) }
{
    let first = count_ended(ranges, base);
    let last = count_ended(ranges, end);
    let mut middle = Vec::with_capacity(alloc, 3)?;
    push_some(&mut middle, left_of(&ranges[first..], base))?;
    push_some(&mut middle, new)?;
    push_some(&mut middle, right_of(&ranges[last..], end))?;
    let behind = next_of(last, ranges.len());
    ranges.splice(first..behind, middle)?;
    Ok(())
}

fn push_some(out: &mut Vec<Range>, range: Option<Range>) -> Result<(), AllocError>
    ensures { OnOk result (out.new.items ≡ out.old.items ++ option_to_list range) }
{
    if let Some(range) = range {
        out.push(range)?;
    }
    Ok(())
}

// The part of the first of these ranges that lies before an address.
fn left_of(ranges: &[Range], base: u64) -> Option<Range>
    ensures { option_to_list result ≡ left_of base ranges.now }
{
    match ranges {
        [range, ..] if range.base < base => Some(Range {
            base: range.base,
            end: range.end.min(base),
            image: range.image,
            origin: range.origin,
        }),
        [_, ..] => None,
        [] => None,
    }
}

// The part of the first of these ranges that lies from an address on.
fn right_of(ranges: &[Range], end: u64) -> Option<Range>
    ensures { option_to_list result ≡ right_of end ranges.now }
{
    match ranges {
        [range, ..] => Some(Range {
            base: range.base.max(end),
            end: range.end,
            image: range.image,
            origin: range.origin,
        }),
        [] => None,
    }
}

fn next_of(index: usize, len: usize) -> usize
    requires { index ≤ len }
    ensures { result ≡ min (index + 1) len }
{
    if index < len { index + 1 } else { len }
}
