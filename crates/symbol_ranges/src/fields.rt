//! The four fields of a line, as they stand, and the range that its two numbers give.

ghost use Rattle.std.specs.Prelude.{◌≡◌, ◌<◌, ◌+◌, ◌&&◌, ◌∷◌, if◌then◌else◌};
ghost use Rattle.std.specs.Option.{option_map};
ghost use Rattle.text_num.specs.Names.{is_name};
ghost use Rattle.symbol_ranges.specs.Lines.{are_spelled, are_titled, are_aligned, cut_at_spaces, four_of};
ghost use Rattle.symbol_ranges.specs.Reads.{texts_of, ReadsRange};

use crate::refusals::SymbolWhy;
use text_num::{cut_field, is_hex, is_name, read_hex};

/// The greatest end of a range.
pub const GREATEST_END: u64 = u64::MAX - 3;

/// The fields of a line, as they stand.
#[derive(Clone, Copy)]
pub struct Fields<'a> {
    pub image: &'a [u8],
    pub start: &'a [u8],
    pub length: &'a [u8],
    pub name: &'a [u8],
}

/// The range of a line: the first offset, and the first behind it.
#[derive(Clone, Copy)]
pub struct Range {
    pub start: u64,
    pub end: u64,
}

/// The fields of a line; nothing where they are not four.
pub fn fields_of(line: &[u8]) -> Option<Fields<'_>>
    ensures { option_map texts_of result ≡ four_of (cut_at_spaces line.now) }
{
    let (image, after_image) = cut_field(line, b' ');
    let Some(behind_image) = after_image else {
        return None;
    };
    let (start, after_start) = cut_field(behind_image, b' ');
    let Some(behind_start) = after_start else {
        return None;
    };
    let (length, after_length) = cut_field(behind_start, b' ');
    let Some(behind_length) = after_length else {
        return None;
    };
    let (name, after_name) = cut_field(behind_length, b' ');
    match after_name {
        None => Some(Fields {
            image,
            start,
            length,
            name,
        }),
        Some(_) => None,
    }
}

/// The range that the numbers of a line give; nothing where one is not canonical or out of its range.
pub fn range_of(fields: &Fields<'_>) -> Option<Range>
    ensures { ReadsRange (texts_of fields.now) result }
{
    let start = read_hex(fields.start)?;
    let length = read_hex(fields.length)?;
    if 1 <= length && start <= GREATEST_END && length <= GREATEST_END - start {
        Some(Range {
            start,
            end: start + length,
        })
    } else {
        None
    }
}

/// Why the numbers of a line give no range.
pub fn why_no_range(fields: &Fields<'_>) -> SymbolWhy
    ensures { result ≡ (if are_spelled (texts_of fields.now)
        then SymbolWhy.OutOfRange else SymbolWhy.BadNumber) }
{
    if is_hex(fields.start) && is_hex(fields.length) {
        SymbolWhy::OutOfRange
    } else {
        SymbolWhy::BadNumber
    }
}

/// Whether the start and the length are multiples of 4.
pub fn is_aligned(range: Range) -> bool
    requires { range.start < range.end }
    ensures { result ≡ are_aligned range.start range.end }
{
    range.start % 4 == 0 && (range.end - range.start) % 4 == 0
}

/// Whether the image and the procedure are names.
pub fn are_names(fields: &Fields<'_>) -> bool
    ensures { result ≡ are_titled (texts_of fields.now) }
{
    is_name(fields.image) && is_name(fields.name)
}
