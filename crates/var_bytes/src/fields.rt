//! The fields of a format: numbers in ranges, one after the other.

ghost use Rattle.std.specs.Prelude.{◌≡◌, ◌<◌, ◌≤◌, ◌^◌, ◌++◌, ℕ, All, length, take, Ok, Err, IfOk, OnOk, OnErr, MatchResult};
ghost use Rattle.var_bytes.specs.Numbers.{spell};
ghost use Rattle.var_bytes.specs.Forms.{between, between_but};
ghost use Rattle.var_bytes.specs.Reading.{field_at};

use crate::numbers::{number, put_number};
use std::alloc::AllocError;
use thiserror::Error;

/// A field that is no canonical number, is cut off or missing, or is out of its range.
#[derive(Clone, Copy, Debug, PartialEq, Eq, Error)]
#[error("the field at byte {at} is bad")]
pub struct BadField {
    /// The index of the field's first byte.
    pub at: usize,
}

/// Reads the field that begins at an index: a number from `low` to `high`, and the index after it.
#[inline(always)]
#[tactic(auto, unfolding(crate::specs::Reading::field_at))]
pub fn field(bytes: &[u8], at: usize, low: u64, high: u64) -> Result<(u64, usize), BadField>
    requires { at ≤ length bytes.now }
    ensures within { IfOk result (λ x. x.1 ≤ length bytes.now) }
    ensures range { IfOk result (λ x. (low ≤ x.0) × (x.0 ≤ high)) }
    ensures value { MatchResult result
        (λ x. field_at (between low high) bytes.now at ≡ Ok x)
        (λ e. field_at (between low high) bytes.now at ≡ Err e.at) }
{
    let Some((n, len)) = number(&bytes[at..]) else {
        return Err(BadField { at });
    };
    if low <= n && n <= high {
        Ok((n, at + len))
    } else {
        Err(BadField { at })
    }
}

/// Reads the field that begins at an index: a number from `low` to `high` that is not the barred one, and the index
/// after it.
#[tactic(auto, unfolding(crate::specs::Reading::field_at))]
pub fn field_but(
    bytes: &[u8],
    at: usize,
    low: u64,
    high: u64,
    barred: Option<u64>,
) -> Result<(u64, usize), BadField>
    requires { at ≤ length bytes.now }
    ensures within { IfOk result (λ x. x.1 ≤ length bytes.now) }
    ensures range { IfOk result (λ x. (low ≤ x.0) × (x.0 ≤ high)) }
    ensures value { MatchResult result
        (λ x. field_at (between_but low high barred) bytes.now at ≡ Ok x)
        (λ e. field_at (between_but low high barred) bytes.now at ≡ Err e.at) }
{
    let (n, after) = field(bytes, at, low, high)?;
    if barred == Some(n) {
        return Err(BadField { at });
    }
    Ok((n, after))
}

/// Appends the spellings of these numbers, one after the other. After a refusal those of the first few of them stand
/// there.
pub fn put_numbers(out: &mut Vec<u8>, numbers: &[u64]) -> Result<(), AllocError>
    ensures ok { OnOk result (out.new.items ≡ out.old.items ++ spell numbers.now) }
    ensures err { OnErr result ((count : ℕ)
        × (out.new.items ≡ out.old.items ++ spell (take count numbers.now))) }
    ensures wide { All (λ n. n < 2 ^ 64) numbers.now }
{
    for n in numbers {
        put_number(out, *n)?;
    }
    Ok(())
}
