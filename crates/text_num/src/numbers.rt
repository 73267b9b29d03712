//! Canonical numbers: read exactly where a text spells one, and appended in their one spelling.
ghost use Rattle.std.specs.Prelude.{◌≡◌, ◌<◌, ◌≤◌, drop, is_ok, false};
ghost use Rattle.std.specs.List.{list_all};
ghost use Rattle.std.specs.Fmt.{decimal, digit_glyph, digits};
ghost use Rattle.text_num.specs.Numbers.{appended, digit_value, is_digit, has_leading_zero};
ghost use Rattle.text_num.specs.Numbers.{is_canonical, number, number_after, HasSpelling, hundredths};

use itoa::Buffer;
use std::alloc::AllocError;

/// The digits of the longest hexadecimal below 2^64.
const MOST_HEX_DIGITS: usize = 16;

/// Of each number below 2^64 one text is the canonical decimal, and one the canonical hexadecimal.
pub fn one_spelling()
    ensures decimal { HasSpelling 10 }
    ensures hexadecimal { HasSpelling 16 }
{}

/// The number that a canonical decimal below 2^64 spells; nothing for every other text.
pub fn read_dec(text: &[u8]) -> Option<u64>
    ensures { result ≡ number 10 text.now }
{
    read_number(10, text)
}

/// The number that a canonical hexadecimal below 2^64 spells; nothing for every other text.
pub fn read_hex(text: &[u8]) -> Option<u64>
    ensures { result ≡ number 16 text.now }
{
    read_number(16, text)
}

/// Whether the text is a canonical decimal of any length.
pub fn is_dec(text: &[u8]) -> bool
    ensures { result ≡ is_canonical 10 text.now }
{
    is_spelling(10, text)
}

/// Whether the text is a canonical hexadecimal of any length.
pub fn is_hex(text: &[u8]) -> bool
    ensures { result ≡ is_canonical 16 text.now }
{
    is_spelling(16, text)
}

/// Appends the canonical decimal. Where no memory is found `out` is as before.
pub fn put_dec(out: &mut Vec<u8>, n: u128) -> Result<(), AllocError>
    ensures { out.new.items ≡ appended (is_ok result) out.old.items (decimal n) }
{
    let mut buffer = Buffer::new();
    out.extend_from_slice(buffer.format(n).as_bytes())
}

/// Appends the canonical hexadecimal. Where no memory is found `out` is as before.
pub fn put_hex(out: &mut Vec<u8>, n: u64) -> Result<(), AllocError>
    ensures { out.new.items ≡ appended (is_ok result) out.old.items (digits 16 false n) }
{
    let mut buffer = [0; MOST_HEX_DIGITS];
    let start = write_hex(n, &mut buffer);
    out.extend_from_slice(&buffer[start..])
}

// Writes the digits to the end of the buffer, the last one first, and answers where they begin.
fn write_hex(n: u64, buffer: &mut [u8; MOST_HEX_DIGITS]) -> usize
    ensures start { result ≤ 16 }
    ensures written { drop result buffer.new ≡ digits 16 false n }
{
    let mut left = n;
    let mut at = MOST_HEX_DIGITS;
    while left >= 16 {
        at -= 1;
        buffer[at] = hex_digit(left % 16);
        left /= 16;
    }
    at -= 1;
    buffer[at] = hex_digit(left);
    at
}

fn hex_digit(digit: u64) -> u8
    requires { digit < 16 }
    ensures { result ≡ digit_glyph false digit }
{
    if digit < 10 {
        b'0' + digit as u8
    } else {
        b'a' + (digit - 10) as u8
    }
}

/// Appends hundredths as whole units with two decimals: 1234 gives `12.34`. Where no memory is found `out` is as before.
pub fn put_hundredths(out: &mut Vec<u8>, n: u32) -> Result<(), AllocError>
    ensures { out.new.items ≡ appended (is_ok result) out.old.items (hundredths n) }
{
    let units = n / 100;
    let tenths = n / 10 % 10;
    let last = n % 10;
    let text = format!(in *out.allocator(); "{units}.{tenths}{last}")?;
    out.extend_from_slice(text.as_bytes())
}

// What a digit is worth, or 16.
#[inline(always)]
fn worth(c: u8) -> u64
    ensures { result ≡ digit_value c }
{
    if b'0' <= c && c <= b'9' {
        u64::from(c - b'0')
    } else if b'a' <= c && c <= b'f' {
        u64::from(c - b'a') + 10
    } else {
        16
    }
}

fn has_leading_zero(text: &[u8]) -> bool
    ensures { result ≡ has_leading_zero text.now }
{
    2 <= text.len() && text[0] == b'0'
}

fn are_digits(base: u64, text: &[u8]) -> bool
    ensures { result ≡ list_all (is_digit base) text.now }
{
    text.iter().all(|c| worth(*c) < base)
}

fn is_spelling(base: u64, text: &[u8]) -> bool
    ensures { result ≡ is_canonical base text.now }
{
    1 <= text.len() && !has_leading_zero(text) && are_digits(base, text)
}

#[inline(always)]
fn read_number(base: u64, text: &[u8]) -> Option<u64>
    requires low { 2 ≤ base }
    requires high { base ≤ 16 }
    ensures { result ≡ number base text.now }
{
    if text.is_empty() {
        return None;
    }
    if has_leading_zero(text) {
        return None;
    }
    read_digits(base, text)
}

// The number that digits write, where each byte is one and the number is below 2^64.
#[inline(always)]
fn read_digits(base: u64, text: &[u8]) -> Option<u64>
    requires low { 2 ≤ base }
    requires high { base ≤ 16 }
    ensures { result ≡ number_after base 0 text.now }
{
    let mut n: u64 = 0;
    for c in text {
        let digit = worth(*c);
        if digit >= base {
            return None;
        }
        n = n.checked_mul(base)?.checked_add(digit)?;
    }
    Some(n)
}
