//! The counts of one profile, added up by offset.
ghost use Rattle.std.specs.Prelude.{◌≡◌, ◌+◌, ◌%◌, ◌≤◌, ◌<◌, ◌^◌, [], ◌∷◌, IfOk, OnOk, OnErr};
ghost use Rattle.profile_merge.specs.Sums.{AreCounts, AddsCount};

use std::alloc::{AllocError, Global};
use std::collections::BTreeMap;
use std::marker::Model;

/// Counts by offset or program counter, each from 1 and below 2^128.
#[derive(Drop)]
pub struct Sums {
    counts: BTreeMap<u64, u128>,
}

impl Model for Sums {
    ghost use Rattle.std.specs.Prelude.{ℕ, List};

    ghost Value = { List (ℕ × ℕ) };

    ghost view = { λ s. s.counts.entries };
}

impl Sums {
    /// One count.
    pub fn of(alloc: Global, at: u64, count: u32) -> Result<Sums, AllocError>
        ensures { IfOk result (λ sums. sums ≡ (at, count) ∷ []) }
    {
        let mut counts = BTreeMap::new(alloc);
        counts.insert(at, u128::from(count))?;
        Ok(Sums { counts })
    }

    /// Adds a count at an offset. A sum of 2^128 has no room and is refused as want of memory: no run comes near it.
    pub fn add(&mut self, at: u64, count: u32) -> Result<(), AllocError>
        requires aligned { at % 4 ≡ 0 }
        requires some { 1 ≤ count }
        ensures adds { OnOk result (AddsCount self.old self.new at count) }
        ensures counts { AreCounts self.old → AreCounts self.new }
        ensures refused { OnErr result (self.new ≡ self.old) }
    {
        let before = self.counts.get(&at).copied().unwrap_or(0);
        match before.checked_add(u128::from(count)) {
            Some(sum) => {
                self.counts.insert(at, sum)?;
                Ok(())
            }
            None => Err(AllocError),
        }
    }

    /// The sums, by rising offset.
    pub fn counts(&self) -> &BTreeMap<u64, u128>
        ensures { result.now.entries ≡ self.now }
    {
        &self.counts
    }
}
