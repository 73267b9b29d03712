//! Gathering: the entries of a batch are added where the load map puts them.
ghost use Rattle.std.specs.Prelude.{◌≡◌, ◌++◌, ◌≤◌, ℕ, List, [], ◌∷◌, map, take, IfOk, OnOk, OnErr};
ghost use Rattle.load_map.specs.Maps.{StandsFor};
ghost use Rattle.trace_model.specs.Attribution.{place_at};
ghost use Rattle.trace_model.specs.Recording.{HasImage};
ghost use Rattle.trace_model.specs.declared.notices.Record.{Record as Notice};
ghost use Rattle.database_model.specs.Runs.{Drained};
ghost use Rattle.run_model.specs.Daemon.{is_known};
ghost use Rattle.profile_merge.specs.Gathering.{Gathers, ImagesAreIn, EpochsAreUpTo, drained, first_of};

use crate::gathered::Gathered;
use load_map::LoadMap;
use sample_key::Batch;
use std::alloc::{AllocError, Global};

/// Adds each entry of a batch to the counts of an epoch: at its image and offset where the mappings give it a place, else
/// at its program counter. The answer tells for each entry whether it has a place.
///
/// After a refusal of memory the entries before some index of this batch are added.
pub fn gather(
    alloc: Global,
    batch: &Batch,
    mappings: &LoadMap,
    epoch: u32,
    into: &mut Gathered,
) -> Result<Vec<bool>, AllocError>
    // Whichever records are in force.
    ensures known { IfOk result (λ known. (records : List Notice) (at : ℕ) →
        StandsFor mappings.now (take at records) →
        known.items ≡ map (is_known records at) batch.now.entries) }
    ensures gathered { OnOk result ((images : List (List ℕ)) (records : List Notice) (at : ℕ)
        (drains : List Drained) → StandsFor mappings.now (take at records) →
        Gathers into.old images records drains →
        Gathers into.new images records (drains ++ drained records at epoch batch.now ∷ [])) }
    ensures refused { OnErr result ((count : ℕ) × ((images : List (List ℕ)) (records : List Notice)
        (at : ℕ) (drains : List Drained) → StandsFor mappings.now (take at records) →
        Gathers into.old images records drains → Gathers into.new images records
        (drains ++ drained records at epoch (first_of count batch.now) ∷ []))) }
    ensures images { (images : List (List ℕ)) (records : List Notice) (at : ℕ) →
        StandsFor mappings.now (take at records) →
        ((pid pc : ℕ) → HasImage images (place_at records at pid pc)) →
        ImagesAreIn images into.old → ImagesAreIn images into.new }
    ensures epochs { (last : ℕ) → epoch ≤ last →
        EpochsAreUpTo last into.old → EpochsAreUpTo last into.new }
{
    let mut known = Vec::with_capacity(alloc, batch.entries.len())?;
    for entry in &batch.entries {
        let place = mappings.place(entry.key.pid, entry.key.pc);
        known.push(place.is_some())?;
        into.add(alloc, epoch, entry, place)?;
    }
    Ok(known)
}
