//! The profiles in the order of a commit, where images stand by their numbers.
ghost use Rattle.std.specs.Prelude.{◌≡◌, IfOk, slice_index_or};
ghost use Rattle.std.specs.List.Sorted.{IsStrictlySortedBy};
ghost use Rattle.std.specs.Map.{keys_of};
ghost use Rattle.profile_merge.specs.Numbering.{owner_cmp, renumbered};
ghost use Rattle.profile_merge.specs.Renewing.{ArePartsOf};

use crate::gathered::Gathered;
use crate::owners::Owner;
use std::alloc::{AllocError, Global};
use std::collections::BTreeMap;

/// The profiles by the numbers of their images, each with the one that was gathered.
#[tactic(auto, using(crate::proofs::PartsSoFar::one_part, crate::proofs::PartsSoFar::no_parts, crate::proofs::PartsSoFar::all_parts))]
pub fn parts_of(
    alloc: Global,
    gathered: &Gathered,
    numbers: &[u32],
) -> Result<BTreeMap<Owner, Owner>, AllocError>
    ensures parts { IfOk result (λ parts. ArePartsOf numbers.now gathered.now parts.entries) }
    ensures ordered { IfOk result (λ parts. IsStrictlySortedBy owner_cmp (keys_of parts.entries)) }
{
    let mut parts = BTreeMap::new(alloc);
    for (owner, _) in gathered.sums() {
        parts.insert(renumbered(*owner, numbers), *owner)?;
    }
    let _ = parts.len();
    Ok(parts)
}

// A profile with its image's number in place of its index.
fn renumbered(owner: Owner, numbers: &[u32]) -> Owner
    ensures { result ≡ renumbered numbers.now owner }
{
    match owner {
        Owner::Known {
            epoch,
            image,
            event,
        } => Owner::Known {
            epoch,
            image: number_in(numbers, image),
            event,
        },
        Owner::Unknown { .. } => owner,
    }
}

fn number_in(numbers: &[u32], image: u32) -> u32
    ensures { result ≡ slice_index_or numbers.now image 0 }
{
    match numbers.get(image as usize) {
        Some(number) => *number,
        None => 0,
    }
}
