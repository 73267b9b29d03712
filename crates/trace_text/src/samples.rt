//! The line of a sample, read in one pass: `read_plain_sample` takes each number as it scans its digits. It knows good
//! lines alone; where it answers nothing, the line is read field by field, which finds the reason of a refusal.

ghost use Rattle.std.specs.Prelude.{◌≡◌, ◌<◌, ◌≤◌, ◌==◌, ◌∷◌, [], false, IfSome, IsTrue, length, slice_index, take};
ghost use Rattle.text_num.specs.Numbers.{digit_value, has_leading_zero};
ghost use Rattle.trace_model.specs.Grammar.{cut_at_spaces};
ghost use Rattle.trace_text.specs.Sampling.{LeadsWith, ReadsSample, WritesFront};

use crate::body_lines::{SampleLine, SampleValues};
use sample_key::{Event, LAST_CPU};

/// How many digits of a number are read in one pass: those of the longest hexadecimal below 2^64.
const MOST_DIGITS: usize = 16;

// What each byte is worth as a digit, `0` to `9` and then `a` to `f`, or 16: a table, since digits and letters come in no
// order that a branch could foresee.
const WORTHS: [u8; 256] = [
    16, 16, 16, 16, 16, 16, 16, 16, 16, 16, 16, 16, 16, 16, 16, 16, 16, 16, 16, 16, 16, 16, 16, 16,
    16, 16, 16, 16, 16, 16, 16, 16, 16, 16, 16, 16, 16, 16, 16, 16, 16, 16, 16, 16, 16, 16, 16, 16,
    0, 1, 2, 3, 4, 5, 6, 7, 8, 9, 16, 16, 16, 16, 16, 16, 16, 16, 16, 16, 16, 16, 16, 16, 16, 16,
    16, 16, 16, 16, 16, 16, 16, 16, 16, 16, 16, 16, 16, 16, 16, 16, 16, 16, 16, 16, 16, 16, 16, 10,
    11, 12, 13, 14, 15, 16, 16, 16, 16, 16, 16, 16, 16, 16, 16, 16, 16, 16, 16, 16, 16, 16, 16, 16,
    16, 16, 16, 16, 16, 16, 16, 16, 16, 16, 16, 16, 16, 16, 16, 16, 16, 16, 16, 16, 16, 16, 16, 16,
    16, 16, 16, 16, 16, 16, 16, 16, 16, 16, 16, 16, 16, 16, 16, 16, 16, 16, 16, 16, 16, 16, 16, 16,
    16, 16, 16, 16, 16, 16, 16, 16, 16, 16, 16, 16, 16, 16, 16, 16, 16, 16, 16, 16, 16, 16, 16, 16,
    16, 16, 16, 16, 16, 16, 16, 16, 16, 16, 16, 16, 16, 16, 16, 16, 16, 16, 16, 16, 16, 16, 16, 16,
    16, 16, 16, 16, 16, 16, 16, 16, 16, 16, 16, 16, 16, 16, 16, 16, 16, 16, 16, 16, 16, 16, 16, 16,
    16, 16, 16, 16, 16, 16, 16, 16, 16, 16, 16, 16, 16, 16,
];

/// The values of a sample's line, where its numbers are canonical and in their ranges; nothing else of a line is read.
pub fn read_plain_sample(line: &[u8]) -> Option<SampleValues>
    ensures { IfSome result (λ sample. ReadsSample line.now sample) }
{
    let fields = behind_word(line)?;
    let (cpu, behind_cpu) = leading_number(10, fields)?;
    let (pid, behind_pid) = leading_number(10, behind_cpu)?;
    let (pc, name) = leading_number(16, behind_pid)?;
    let event = Event::of_name(name)?;
    if cpu <= u64::from(LAST_CPU) && pid <= u64::from(u32::MAX) {
        Some(SampleLine {
            cpu: cpu as u32,
            pid: pid as u32,
            pc,
            event,
        })
    } else {
        None
    }
}

// The fields behind the word of a sample.
#[inline(always)]
fn behind_word(line: &[u8]) -> Option<&[u8]>
    ensures { IfSome result (λ rest. cut_at_spaces line.now ≡ (115 ∷ []) ∷ cut_at_spaces rest.now) }
{
    if line.len() >= 2 && line[0] == b's' && line[1] == b' ' {
        Some(&line[2..])
    } else {
        None
    }
}

// The number that the first field spells canonically, by at most `MOST_DIGITS` digits, and the text behind its space.
#[inline(always)]
fn leading_number(base: u64, text: &[u8]) -> Option<(u64, &[u8])>
    requires low { 2 ≤ base }
    requires high { base ≤ 16 }
    ensures { IfSome result (λ lead. LeadsWith base text.now lead.0 lead.1.now) }
{
    let (n, count) = digits_in(base, &text[..text.len().min(MOST_DIGITS)]);
    if is_spelling_before_space(text, count) {
        Some((n, &text[count + 1..]))
    } else {
        None
    }
}

// Whether so many digits at the front are no needless spelling, and a space stands behind them.
#[inline(always)]
fn is_spelling_before_space(text: &[u8], count: usize) -> bool
    ensures some { IsTrue result → 0 < count }
    ensures within { IsTrue result → count < length text.now }
    ensures space { IsTrue result → slice_index text.now count ≡ 32 }
    ensures zero { IsTrue result → has_leading_zero (take count text.now) ≡ false }
{
    1 <= count && count < text.len() && text[count] == b' ' && (count == 1 || text[0] != b'0')
}

// The number that the digits at the front of a text write, and how many they are.
#[inline(always)]
fn digits_in(base: u64, text: &[u8]) -> (u64, usize)
    requires low { 2 ≤ base }
    requires high { base ≤ 16 }
    requires few { length text.now ≤ MOST_DIGITS }
    ensures { WritesFront base text.now result.0 result.1 }
{
    let mut n: u64 = 0;
    for (count, c) in text.iter().enumerate() {
        let digit = worth(*c);
        if digit >= base {
            return (n, count);
        }
        n = base * n + digit;
    }
    (n, text.len())
}

#[inline(always)]
fn worth(c: u8) -> u64
    ensures { result ≡ digit_value c }
{
    u64::from(WORTHS[c as usize])
}
