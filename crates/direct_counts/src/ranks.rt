//! The names of images in their order: `ranked` gives each image the rank of its name, so that counting compares numbers.
ghost use Rattle.std.specs.Prelude.{◌≡◌, IfOk};
ghost use Rattle.std.specs.List.{Contains};
ghost use Rattle.std.specs.List.Sorted.{IsPermutation};
ghost use Rattle.trace_model.specs.Recording.{name_at};
ghost use Rattle.direct_counts.specs.Ranks.{AreRanks, AreSorted, IsRank};

use std::alloc::{AllocError, Global};
use text_num::Name;

/// Names in rising order, and the rank of each image's name among them, by the image's index.
#[derive(Drop)]
pub struct Ranking {
    pub names: Vec<Name>,
    pub ranks: Vec<usize>,
}

/// Ranks the images by name.
pub fn ranked(alloc: Global, images: &[Name]) -> Result<Ranking, AllocError>
    ensures { IfOk result (λ ranking. AreRanks images.now ranking.names.items ranking.ranks.items) }
{
    let names = sorted(alloc, images)?;
    let mut ranks = Vec::with_capacity(alloc, images.len())?;
    for image in images {
        ranks.push(rank_of(&names, image))?;
    }
    Ok(Ranking { names, ranks })
}

// The names, the smallest first.
fn sorted(alloc: Global, images: &[Name]) -> Result<Vec<Name>, AllocError>
    ensures sorted { IfOk result (λ names. AreSorted names.items) }
    ensures whole { IfOk result (λ names. IsPermutation images.now names.items) }
{
    let mut names = copied(alloc, images)?;
    names.sort_unstable();
    Ok(names)
}

fn copied(alloc: Global, images: &[Name]) -> Result<Vec<Name>, AllocError>
    ensures { IfOk result (λ names. names.items ≡ images.now) }
{
    let mut names = Vec::with_capacity(alloc, images.len())?;
    for image in images {
        names.push(image.copy(alloc)?)?;
    }
    Ok(names)
}

// How many names are smaller than this one.
fn rank_of(names: &[Name], image: &Name) -> usize
    requires sorted { AreSorted names.now }
    requires member { Contains names.now image.now }
    ensures rank { IsRank names.now result }
    ensures named { name_at names.now result ≡ image.now }
{
    names.partition_point(|name| name < image)
}
