//! A number below 2^64 as 1 to 10 bytes.

ghost use Rattle.std.specs.Prelude.{◌≡◌, ◌+◌, ◌^◌, ◌<◌, ◌≤◌, ◌++◌, ℕ, List, length, take, is_ok, if◌then◌else◌, IfSome, IfOk, IfErr, OnOk, OnErr};
ghost use Rattle.var_bytes.specs.Numbers.{number_bytes};
ghost use Rattle.var_bytes.specs.Reading.{joined, wide_at, narrow, number_at};

use std::alloc::AllocError;
use thiserror::Error;

/// No front of the bytes is the canonical spelling of a number below 2^64.
#[derive(Clone, Copy, Debug, PartialEq, Eq, Error)]
#[error("the bytes begin with no canonical number")]
pub struct VarBad;

/// Appends the spelling of a number: seven bits a byte, the lowest first, and 128 added to each byte but the last.
/// After a refusal `out` is as before.
pub fn put_number(out: &mut Vec<u8>, n: u64) -> Result<(), AllocError>
    ensures { out.new.items
        ≡ (if is_ok result then out.old.items ++ number_bytes n else out.old.items) }
{
    let len = out.len();
    match push_groups(out, n) {
        Ok(()) => Ok(()),
        Err(refused) => {
            out.truncate(len);
            Err(refused)
        }
    }
}

fn push_groups(out: &mut Vec<u8>, n: u64) -> Result<(), AllocError>
    ensures ok { OnOk result (out.new.items ≡ out.old.items ++ number_bytes n) }
    ensures err { OnErr result ((some : List ℕ) × (out.new.items ≡ out.old.items ++ some)) }
{
    let mut rest = n;
    while rest >= 128 {
        out.push((128 + rest % 128) as u8)?;
        rest /= 128;
    }
    out.push(rest as u8)?;
    Ok(())
}

/// Reads the number that the bytes begin with: the number, and how many bytes it takes. Bytes may follow it.
pub fn take_number(bytes: &[u8]) -> Result<(u64, usize), VarBad>
    ensures found { IfOk result (λ x. (x.1 ≤ length bytes.now)
        × (take x.1 bytes.now ≡ number_bytes x.0)) }
    ensures bad { IfErr result (λ e. (n : ℕ) (more : List ℕ) → n < 2 ^ 64 →
        bytes.now ≡ number_bytes n ++ more → ⊥) }
{
    number(bytes).ok_or(VarBad)
}

#[inline(always)]
#[tactic(auto, unfolding(crate::specs::Reading::wide_at, crate::specs::Reading::number_at))]
pub(crate) fn number(bytes: &[u8]) -> Option<(u64, usize)>
    ensures value { result ≡ number_at bytes.now }
    ensures within { IfSome result (λ x. x.1 ≤ length bytes.now) }
{
    match bytes {
        [] => None,
        [byte, rest @ ..] => {
            if *byte < 128 {
                Some((u64::from(*byte), 1))
            } else {
                long_number(u64::from(*byte - 128), rest)
            }
        }
    }
}

// the number whose first group is `first`, before the other bytes
fn long_number(first: u64, bytes: &[u8]) -> Option<(u64, usize)>
    ensures value { result ≡ narrow (joined first 128 1 (wide_at bytes.now)) }
    ensures within { IfSome result (λ x. x.1 ≤ length bytes.now + 1) }
{
    let mut value = first;
    let mut scale: u64 = 128;
    let mut len: usize = 1;
    for byte in bytes {
        len += 1;
        if *byte < 128 {
            if *byte == 0 {
                return None;
            }
            let group = u64::from(*byte).checked_mul(scale)?;
            return Some((value.checked_add(group)?, len));
        }
        let group = u64::from(*byte - 128).checked_mul(scale)?;
        value = value.checked_add(group)?;
        // At the eleventh byte the weight has no room: no number is that long.
        scale = scale.checked_mul(128)?;
    }
    None
}
