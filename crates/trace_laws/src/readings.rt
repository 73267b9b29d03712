//! What an input is: one trace, or refused at one line for one reason.

ghost use Rattle.std.specs.Prelude.{ℕ, List, ◌⊎◌};
ghost use Rattle.trace_laws.specs.Readings.{HasOneRefusal, HasOneTrace, IsRefused, IsTrace};

/// Of every input exactly one holds: it reads as a trace, and as one alone, or it has a first bad line with a first reason,
/// and one alone.
pub fn one_reading()
    ensures some { (bytes : List ℕ) → IsTrace bytes ⊎ IsRefused bytes }
    ensures not_both { (bytes : List ℕ) → IsTrace bytes → IsRefused bytes → ⊥ }
    ensures one_trace { (bytes : List ℕ) → HasOneTrace bytes }
    ensures one_refusal { (bytes : List ℕ) → HasOneRefusal bytes }
{}
