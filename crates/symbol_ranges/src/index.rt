//! The index of a symbol list: its numbers, in the order of their images by bytes and of their ranges. `first_meeting`
//! finds a range by halving.

ghost use Rattle.std.specs.Prelude.{◌≡◌, ◌≤◌, take, drop, length, find, true, false};
ghost use Rattle.std.specs.List.{AllByRecursion};
ghost use Rattle.std.specs.Option.{option_copied};
ghost use Rattle.symbol_ranges.specs.Lines.{meets};
ghost use Rattle.symbol_ranges.specs.Index.{is_before, symbol_at, shown, Rises, AreWithin};

use crate::symbols::Symbol;
use std::cmp::Ordering;

/// The first range of an image in the index that has an offset from `first` to `last`.
pub fn first_meeting<'a>(
    lines: &'a [Symbol],
    order: &[u32],
    image: &[u8],
    first: u64,
    last: u64,
) -> Option<&'a Symbol>
    requires within { AreWithin lines.now order.now }
    requires rising { Rises (shown lines.now order.now) }
    requires some { first ≤ last }
    ensures { option_copied result ≡ find (meets image.now first last) (shown lines.now order.now) }
{
    let at = count_before(lines, order, image, first);
    if at >= order.len() {
        return None;
    }
    let symbol = &lines[order[at] as usize];
    if meets(symbol, image, first, last) {
        return Some(symbol);
    }
    None
}

/// How many numbers of the index stand before an offset of an image.
pub fn count_before(lines: &[Symbol], order: &[u32], image: &[u8], offset: u64) -> usize
    requires within { AreWithin lines.now order.now }
    requires rising { Rises (shown lines.now order.now) }
    ensures within { result ≤ length order.now }
    ensures before { AllByRecursion
        (λ k. is_before image.now offset (symbol_at lines.now k) ≡ true) (take result order.now) }
    ensures behind { AllByRecursion
        (λ k. is_before image.now offset (symbol_at lines.now k) ≡ false) (drop result order.now) }
{
    order.partition_point(|number| number_is_before(lines, *number, image, offset))
}

fn number_is_before(lines: &[Symbol], number: u32, image: &[u8], offset: u64) -> bool
    ensures { result ≡ is_before image.now offset (symbol_at lines.now number) }
{
    match lines.get(number as usize) {
        Some(symbol) => is_before(symbol, image, offset),
        None => true,
    }
}

// Whether a range stands before an offset of an image.
fn is_before(symbol: &Symbol, image: &[u8], offset: u64) -> bool
    ensures { result ≡ is_before image.now offset symbol.now }
{
    match symbol.image.bytes().cmp(image) {
        Ordering::Less => true,
        Ordering::Equal => symbol.end <= offset,
        Ordering::Greater => false,
    }
}

// Whether a range is one of the image, and has an offset from `first` to `last`.
fn meets(symbol: &Symbol, image: &[u8], first: u64, last: u64) -> bool
    ensures { result ≡ meets image.now first last symbol.now }
{
    symbol.image.bytes() == image && symbol.start <= last && first < symbol.end
}
