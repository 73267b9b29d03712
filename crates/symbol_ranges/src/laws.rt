//! What an input is: one symbol list, or refused at one line for one reason; and how long a list is at most.

ghost use Rattle.std.specs.Prelude.{ℕ, List, ◌≤◌, length};
ghost use Rattle.symbol_ranges.specs.Readings.{HasFewLines, HasOneList, HasOneRefusal, IsList, IsRefused};

use crate::symbols::{MOST_LINE_BYTES, MOST_LINES};

/// How many bytes a symbol list has at most, each line with its line feed.
pub const MOST_LIST_BYTES: u64 = MOST_LINES as u64 * (MOST_LINE_BYTES as u64 + 1);

/// An input that reads as a list reads as this one alone, and has no bad line; the first bad line of an input is one alone,
/// with its first reason.
pub fn one_reading()
    ensures not_both { (bytes : List ℕ) → IsList bytes → IsRefused bytes → ⊥ }
    ensures one_list { (bytes : List ℕ) → HasOneList bytes }
    ensures one_refusal { (bytes : List ℕ) → HasOneRefusal bytes }
{}

/// What reads as a list has at most 1,048,576 lines, each of at most 600 bytes, and so at most 630,194,176 bytes.
pub fn lists_are_short()
    ensures lines { (bytes : List ℕ) → IsList bytes → HasFewLines bytes }
    ensures bytes { (bytes : List ℕ) → IsList bytes → length bytes ≤ MOST_LIST_BYTES }
{}
