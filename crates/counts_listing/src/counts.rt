//! What profiles count, as the two lists of a listing.
ghost use Rattle.std.specs.Prelude.{◌≡◌, ◌++◌, ◌≤◌, IfOk, OnOk, length, map};
ghost use Rattle.std.specs.List.{flat_map};
ghost use Rattle.database_model.specs.Ranges.{AreRows};
ghost use Rattle.trace_model.specs.Counting.{Rises, Spot, known_row, unknown_row};
ghost use Rattle.direct_counts.specs.Sites.{total_at};
ghost use Rattle.epoch_store.specs.Databases.{head_of};
ghost use Rattle.counts_listing.specs.Sections.{known_total, section_shown, section_rows, unknown_rows, unknown_total};

use crate::sections::{Section, event_of, sections_of};
use database_model::ProfileRow;
use epoch_store::Database;
use profile_file::Profile;
use sample_key::Event;
use std::alloc::{AllocError, Global};
use trace_model::{KnownCount, UnknownCount};

/// What the known profiles count, where these are the profiles of the known rows in their order.
pub(crate) fn known_counts(
    alloc: Global,
    db: &Database,
    profiles: &[Profile],
) -> Result<Vec<KnownCount>, AllocError>
    requires { length profiles.now ≡ length (head_of db.now).known }
    ensures rise { IfOk result (λ known. Rises (map known_row known.items)) }
    ensures totals { IfOk result (λ known. (spot : Spot) → total_at spot (map known_row known.items)
        ≡ known_total spot (head_of db.now).names (head_of db.now).known profiles.now) }
{
    let sections = sections_of(alloc, db, profiles)?;
    let known = in_order(alloc, &sections)?;
    Ok(known)
}

// What the sections count, one after the other.
fn in_order(alloc: Global, sections: &[Section<'_>]) -> Result<Vec<KnownCount>, AllocError>
    ensures { IfOk result (λ known. map known_row known.items
        ≡ flat_map section_rows (map section_shown sections.now)) }
{
    let mut known = Vec::new(alloc);
    for section in sections {
        add_known(alloc, &mut known, section)?;
    }
    Ok(known)
}

fn add_known(
    alloc: Global,
    known: &mut Vec<KnownCount>,
    section: &Section<'_>,
) -> Result<(), AllocError>
    ensures { OnOk result (map known_row known.new.items
        ≡ map known_row known.old.items ++ section_rows (section_shown section.now)) }
{
    known.reserve(section.rows.len())?;
    for row in section.rows {
        let image = section.image.copy(alloc)?;
        known.push(KnownCount {
            epoch: section.epoch,
            image,
            event: section.event,
            offset: row.offset,
            count: row.count,
        })?;
    }
    Ok(())
}

/// What the unknown profiles count, where these are the profiles of the unknown rows in their order.
pub(crate) fn unknown_counts(
    alloc: Global,
    db: &Database,
    profiles: &[Profile],
) -> Result<Vec<UnknownCount>, AllocError>
    requires { length profiles.now ≡ length (head_of db.now).unknown }
    ensures rise { IfOk result (λ unknown. Rises (map unknown_row unknown.items)) }
    ensures totals { IfOk result (λ unknown. (spot : Spot) →
        total_at spot (map unknown_row unknown.items)
        ≡ unknown_total spot (head_of db.now).unknown profiles.now) }
{
    let mut unknown = Vec::new(alloc);
    for (index, row) in db.unknown_rows().iter().enumerate() {
        let rows = profiles[index].rows();
        add_unknown(&mut unknown, row.epoch, event_of(row.event), rows)?;
    }
    Ok(unknown)
}

fn add_unknown(
    unknown: &mut Vec<UnknownCount>,
    epoch: u32,
    event: Event,
    rows: &[ProfileRow],
) -> Result<(), AllocError>
    ensures { OnOk result (map unknown_row unknown.new.items
        ≡ map unknown_row unknown.old.items ++ unknown_rows epoch event rows.now) }
{
    unknown.reserve(rows.len())?;
    for row in rows {
        unknown.push(UnknownCount {
            epoch,
            event,
            pc: row.offset,
            count: row.count,
        })?;
    }
    Ok(())
}
