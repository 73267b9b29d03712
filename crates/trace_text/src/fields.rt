//! The fields of a line: a line cut at its spaces, and number fields read in their ranges.

ghost use Rattle.std.specs.Prelude.{◌≡◌, ◌<◌, ◌≤◌, IsTrue, [], ◌∷◌, length, true, false, if◌then◌else◌};
ghost use Rattle.text_num.specs.Numbers.{value_of};
ghost use Rattle.trace_model.specs.Grammar.{cut_at_spaces};
ghost use Rattle.trace_model.specs.Said.{Decimal, Address, Mapping, PowerOfTwo, is_table_size};
ghost use Rattle.trace_model.specs.declared.limits.TheConstants.{MOST_BUCKETS};
ghost use Rattle.trace_text.specs.Forms.{CutsFour, read_field, ReadsAs, ReadsRange};

use text_num::{cut_field, read_dec, read_hex};
use trace_model::{GREATEST_END, TraceWhy};

/// Four fields, and the text behind the space that ends them.
#[derive(Clone, Copy)]
pub struct Four<'a> {
    pub a: &'a [u8],
    pub b: &'a [u8],
    pub c: &'a [u8],
    pub d: &'a [u8],
    pub rest: Option<&'a [u8]>,
}

/// The first four fields of a text; nothing where it has fewer.
pub fn cut_four(text: &[u8]) -> Option<Four<'_>>
    ensures { CutsFour text.now result }
{
    let (a, after_a) = cut_field(text, b' ');
    let (b, after_b) = cut_field(after_a?, b' ');
    let (c, after_c) = cut_field(after_b?, b' ');
    let (d, rest) = cut_field(after_c?, b' ');
    Some(Four { a, b, c, d, rest })
}

/// A decimal field in its range; nothing where it is not canonical or outside.
pub fn decimal(text: &[u8], least: u32, most: u32) -> Option<u32>
    ensures { ReadsAs (read_field (Decimal least most text.now)) (value_of 10 text.now) result }
{
    let n = read_dec(text)?;
    if u64::from(least) <= n && n <= u64::from(most) {
        Some(n as u32)
    } else {
        None
    }
}

/// A number of buckets; nothing where it is not canonical or no power of two from 1 to 4,096.
pub fn table_size(text: &[u8]) -> Option<u32>
    ensures { ReadsAs (read_field (PowerOfTwo text.now)) (value_of 10 text.now) result }
{
    let n = read_dec(text)?;
    if is_table_size(n) {
        Some(n as u32)
    } else {
        None
    }
}

// A power of two from 1 to 4,096.
fn is_table_size(n: u64) -> bool
    ensures test { result ≡ is_table_size n }
    ensures small { IsTrue result → n ≤ MOST_BUCKETS }
{
    [1, 2, 4, 8, 16, 32, 64, 128, 256, 512, 1024, 2048, 4096].contains(&n)
}

/// An address; nothing where it is not canonical or 2^64 or more.
pub fn address(text: &[u8]) -> Option<u64>
    ensures { ReadsAs (read_field (Address text.now)) (value_of 16 text.now) result }
{
    read_hex(text)
}

/// The base and the length of a mapping; nothing where one is not canonical, or the length is 0, or the end is above
/// 2^64 - 4.
pub fn range(base: &[u8], length: &[u8]) -> Option<(u64, u64)>
    ensures { ReadsRange base.now length.now result }
{
    let base = read_hex(base)?;
    let length = read_hex(length)?;
    if 1 <= length && base <= GREATEST_END && length <= GREATEST_END - base {
        Some((base, length))
    } else {
        None
    }
}

/// Why number fields were not read: one is outside its range where each is canonical.
pub fn why_not_read(is_spelled: bool) -> TraceWhy
    ensures { result ≡ (if is_spelled then TraceWhy.OutOfRange else TraceWhy.BadNumber) }
{
    if is_spelled {
        TraceWhy::OutOfRange
    } else {
        TraceWhy::BadNumber
    }
}
