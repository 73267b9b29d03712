//! A profile of made rows, written and read, and what its reading counted.
ghost use Rattle.std.specs.Prelude.{◌≡◌, length, IfOk};

use profile_file::{Profile, ProfileRow};
use std::alloc::{AllocError, Global};

/// A profile of `count` rows, with distances of one and two bytes and counts of one to three.
pub(crate) fn made(alloc: Global, count: u32) -> Result<Profile, AllocError>
    ensures { IfOk result (λ p. length p ≡ count) }
{
    let mut profile = Profile::new(alloc);
    let mut position: u64 = 0;
    for i in 0..count {
        let mixed = u64::from(i.wrapping_mul(2_654_435_761));
        position += 1 + mixed % 300;
        let row = ProfileRow {
            offset: 4 * position,
            count: 1 + mixed % 65_535,
        };
        profile.push(row)?;
    }
    Ok(profile)
}

/// The sum of the counts, modulo 2^64.
pub(crate) fn sum_of(rows: &[ProfileRow]) -> u64 {
    let mut sum: u64 = 0;
    for row in rows {
        sum = sum.wrapping_add(row.count);
    }
    sum
}
