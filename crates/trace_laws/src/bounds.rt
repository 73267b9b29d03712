//! How long a trace is at most.

ghost use Rattle.std.specs.Prelude.{ℕ, List, ◌≤◌, length};
ghost use Rattle.trace_laws.specs.Bounds.{HasFewLines};
ghost use Rattle.trace_laws.specs.Readings.{IsTrace};

use sample_key::MOST_SAMPLES;
use trace_model::{MOST_LINE_BYTES, MOST_RECORDS, MOST_STEPS};

/// How many lines a trace has at most: its header, its samples and records, the end, and its steps.
pub const MOST_TRACE_LINES: u64 = 1 + MOST_SAMPLES + MOST_RECORDS as u64 + 1 + MOST_STEPS as u64;

/// How many bytes a trace has at most, each line with its line feed.
pub const MOST_TRACE_BYTES: u64 = MOST_TRACE_LINES * (MOST_LINE_BYTES as u64 + 1);

/// What reads as a trace has at most 6,065,538 lines, each of at most 400 bytes, and so at most 2,432,280,738 bytes.
pub fn traces_are_short()
    ensures lines { (bytes : List ℕ) → IsTrace bytes → HasFewLines bytes }
    ensures bytes { (bytes : List ℕ) → IsTrace bytes → length bytes ≤ MOST_TRACE_BYTES }
{}
