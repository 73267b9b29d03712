//! `listed`: the table as two lists in the order of counts, sorted once.
ghost use Rattle.std.specs.Prelude.{◌≡◌, IfOk, OnOk};
ghost use Rattle.std.specs.List.Sorted.{IsPermutation};
ghost use Rattle.trace_model.specs.Counting.{Rises};
ghost use Rattle.trace_model.specs.Listed.{rows_of};
ghost use Rattle.direct_counts.specs.Lists.{AreApart, AreListable, AreSorted, ListsTable, MovesRow};
ghost use Rattle.direct_counts.specs.Sites.{AreRanked, IsRanked, rows_in};

use crate::sites::Site;
use std::alloc::{AllocError, Global};
use std::collections::HashMap;
use text_num::Name;
use trace_model::{Counts, KnownCount, UnknownCount};

/// The counts of a table as two lists, the known ones and the unknown ones.
pub fn listed(
    alloc: Global,
    names: &[Name],
    counts: &HashMap<Site, u64>,
) -> Result<Counts, AllocError>
    requires { AreListable names.now counts.now.entries }
    ensures { IfOk result (λ listed. ListsTable names.now counts.now.entries (rows_of listed)) }
{
    let rows = sorted(alloc, counts)?;
    split(alloc, names, &rows)
}

// The sites with their counts, in the order of sites.
fn sorted(alloc: Global, counts: &HashMap<Site, u64>) -> Result<Vec<(Site, u64)>, AllocError>
    ensures whole { IfOk result (λ rows. IsPermutation counts.now.entries rows.items) }
    ensures sorted { IfOk result (λ rows. AreSorted rows.items) }
    ensures apart { AreApart counts.now.entries }
{
    let mut rows = copied(alloc, counts)?;
    rows.sort_unstable();
    Ok(rows)
}

fn copied(alloc: Global, counts: &HashMap<Site, u64>) -> Result<Vec<(Site, u64)>, AllocError>
    ensures whole { IfOk result (λ rows. rows.items ≡ counts.now.entries) }
    ensures apart { AreApart counts.now.entries }
{
    let mut rows = Vec::with_capacity(alloc, counts.len())?;
    for (site, count) in counts {
        rows.push((*site, *count))?;
    }
    Ok(rows)
}

// The known counts and the unknown ones: those stand first.
fn split(alloc: Global, names: &[Name], rows: &[(Site, u64)]) -> Result<Counts, AllocError>
    requires ranked { AreRanked names.now rows.now }
    requires rising { Rises (rows_in names.now rows.now) }
    ensures { IfOk result (λ listed. rows_of listed ≡ rows_in names.now rows.now) }
{
    let mut known = Vec::new(alloc);
    let mut unknown = Vec::new(alloc);
    for row in rows {
        add(alloc, names, &mut known, &mut unknown, row)?;
    }
    Ok(Counts { known, unknown })
}

// A row to the end of its list.
fn add(
    alloc: Global,
    names: &[Name],
    known: &mut Vec<KnownCount>,
    unknown: &mut Vec<UnknownCount>,
    row: &(Site, u64),
) -> Result<(), AllocError>
    requires { IsRanked names.now row.now.0 }
    ensures { OnOk result (MovesRow names.now row.now known.old unknown.old known.new unknown.new) }
{
    let (site, count) = *row;
    match site {
        Site::Known {
            epoch,
            rank,
            event,
            offset,
        } => {
            let image = names[rank].copy(alloc)?;
            known.push(KnownCount {
                epoch,
                image,
                event,
                offset,
                count,
            })?;
            Ok(())
        }
        Site::Unknown { epoch, event, pc } => {
            unknown.push(UnknownCount {
                epoch,
                event,
                pc,
                count,
            })?;
            Ok(())
        }
    }
}
