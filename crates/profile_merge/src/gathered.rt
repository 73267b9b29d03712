//! What was gathered since the last commit.

use crate::owners::Owner;
use crate::sums::Sums;
use sample_key::Entry;
use std::alloc::{AllocError, Global};
use std::collections::BTreeMap;
use std::marker::Model;
use trace_model::Place;

/// Counts by profile and offset, of all batches that were gathered. An image is given by its index in the trace.
#[derive(Drop)]
pub struct Gathered {
    sums: BTreeMap<Owner, Sums>,
}

impl Model for Gathered {
    ghost use Rattle.profile_merge.specs.Sums.{Collected, AreSums};

    ghost Value = { Collected };

    ghost view = { λ g. g.sums.entries };

    ghost invariant = { λ g. AreSums g.sums.entries };
}

impl Gathered {
    ghost use Rattle.std.specs.Prelude.{◌≡◌, ◌%◌, ◌≤◌, ℕ, List, [], IfSome, OnOk, OnErr};
    ghost use Rattle.trace_model.specs.declared.notices.Record.{Record as Notice};
    ghost use Rattle.std.specs.Option.{option_copied};
    ghost use Rattle.std.specs.Map.{lookup};
    ghost use Rattle.profile_merge.specs.Sums.{AddsEntry, AreCounts, AreSums, PutsCount, HasSame, same_owner};
    ghost use Rattle.profile_merge.specs.Gathering.{Gathers, ImagesAreIn, EpochsAreUpTo};

    /// Nothing gathered.
    pub fn new(alloc: Global) -> Gathered
        ensures nothing { (images : List (List ℕ)) (records : List Notice) →
            Gathers result images records [] }
        ensures images { (images : List (List ℕ)) → ImagesAreIn images result }
        ensures epochs { (last : ℕ) → EpochsAreUpTo last result }
    {
        Gathered {
            sums: BTreeMap::new(alloc),
        }
    }

    /// Adds an entry: at its place, or as unknown where it has none. After a refusal all sums are as before.
    pub(crate) fn add(
        &mut self,
        alloc: Global,
        epoch: u32,
        entry: &Entry,
        place: Option<Place>,
    ) -> Result<(), AllocError>
        requires aligned { IfSome place (λ found. found.offset % 4 ≡ 0) }
        ensures added { OnOk result (AddsEntry epoch place entry.now self.old self.new) }
        ensures refused { OnErr result (HasSame self.old self.new) }
    {
        match place {
            Some(place) => self.put(
                alloc,
                Owner::Known {
                    epoch,
                    image: place.image,
                    event: entry.key.event,
                },
                place.offset,
                entry.count,
            ),
            None => self.put(
                alloc,
                Owner::Unknown {
                    epoch,
                    event: entry.key.event,
                },
                entry.key.pc,
                entry.count,
            ),
        }
    }

    fn put(&mut self, alloc: Global, owner: Owner, at: u64, count: u32) -> Result<(), AllocError>
        requires aligned { at % 4 ≡ 0 }
        requires some { 1 ≤ count }
        ensures put { OnOk result (PutsCount self.old self.new owner at count) }
        ensures refused { OnErr result (HasSame self.old self.new) }
    {
        match self.sums.get_mut(&owner) {
            Some(held) => held.add(at, count),
            None => {
                let first = Sums::of(alloc, at, count)?;
                self.sums.insert(owner, first)?;
                Ok(())
            }
        }
    }

    /// The sums, by profile.
    pub(crate) fn sums(&self) -> &BTreeMap<Owner, Sums>
        ensures sums { result.now.entries ≡ self.now }
        ensures counts { AreSums self.now }
    {
        &self.sums
    }

    /// The sums of a profile; nothing exactly where nothing was gathered for it.
    pub(crate) fn counts(&self, owner: &Owner) -> Option<&Sums>
        ensures found { option_copied result ≡ lookup (same_owner owner.now) self.now }
        ensures counts { IfSome result (λ counts. AreCounts counts.now) }
    {
        self.sums.get(owner)
    }
}
