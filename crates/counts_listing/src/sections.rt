//! The sections of the listing: the counts of a known profile stand together, and sections stand by epoch, image name and
//! event.
ghost use Rattle.std.specs.Prelude.{◌≡◌, ◌<◌, ◌≤◌, IfOk, OnOk, length, map};
ghost use Rattle.std.specs.Ordering.{eq_by_cmp};
ghost use Rattle.std.specs.List.{AllByRecursion, IsDistinct};
ghost use Rattle.std.specs.List.Sorted.{IsPermutation, IsStrictlySortedBy};
ghost use Rattle.sample_key.specs.Events.{code_of};
ghost use Rattle.database_model.specs.Ranges.{AreRows};
ghost use Rattle.epoch_store.specs.Databases.{head_of};
ghost use Rattle.counts_listing.specs.Sections.{event_at, section_at, section_cmp, section_shown, sections_at};

use database_model::ProfileRow;
use epoch_store::{Database, KnownRow};
use profile_file::Profile;
use sample_key::Event;
use std::alloc::{AllocError, Global};
use std::cmp::Ordering;
use text_num::Name;

/// What one profile counts, and where it stands in the listing.
#[derive(Clone, Copy)]
pub(crate) struct Section<'a> {
    pub epoch: u32,
    pub image: &'a Name,
    pub event: Event,
    pub rows: &'a [ProfileRow],
}

/// The sections of all known profiles, in the order of the listing; the profiles come in the order of the head.
pub(crate) fn sections_of<'a>(
    alloc: Global,
    db: &'a Database,
    profiles: &'a [Profile],
) -> Result<Vec<Section<'a>>, AllocError>
    requires { length profiles.now ≡ length (head_of db.now).known }
    ensures whole { IfOk result (λ sections. IsPermutation (sections_at (head_of db.now).names
        (head_of db.now).known profiles.now) (map section_shown sections.items)) }
    ensures sorted { IfOk result (λ sections. IsStrictlySortedBy section_cmp
        (map section_shown sections.items)) }
    ensures rows { IfOk result (λ sections. AllByRecursion (λ section. AreRows section.rows)
        (map section_shown sections.items)) }
{
    let mut sections = unsorted(alloc, db, profiles)?;
    sections.sort_unstable_by(order_of);
    Ok(sections)
}

// The sections in the order of the head.
fn unsorted<'a>(
    alloc: Global,
    db: &'a Database,
    profiles: &'a [Profile],
) -> Result<Vec<Section<'a>>, AllocError>
    requires { length profiles.now ≡ length (head_of db.now).known }
    ensures listed { IfOk result (λ sections. map section_shown sections.items
        ≡ sections_at (head_of db.now).names (head_of db.now).known profiles.now) }
    ensures rows { IfOk result (λ sections. AllByRecursion (λ section. AreRows section.rows)
        (map section_shown sections.items)) }
    ensures apart { IfOk result (λ sections. IsDistinct (eq_by_cmp section_cmp)
        (map section_shown sections.items)) }
{
    let names = db.catalog().names();
    let rows = db.known_rows();
    let mut sections = Vec::with_capacity(alloc, rows.len())?;
    for (index, row) in rows.iter().enumerate() {
        sections.push(section_of(names, row, &profiles[index]))?;
    }
    Ok(sections)
}

fn section_of<'a>(names: &'a [Name], row: &KnownRow, profile: &'a Profile) -> Section<'a>
    requires image { row.now.image < length names.now }
    requires event { row.now.event ≤ 3 }
    ensures section { section_shown result ≡ section_at names.now row.now profile.now }
    ensures rows { AreRows result.rows.now }
{
    Section {
        epoch: row.epoch,
        image: &names[row.image as usize],
        event: event_of(row.event),
        rows: profile.rows(),
    }
}

// By epoch, then by image name, then by event code.
fn order_of(a: &Section<'_>, b: &Section<'_>) -> Ordering
    ensures { result ≡ section_cmp (section_shown a.now) (section_shown b.now) }
{
    let names = a.image.bytes().cmp(b.image.bytes());
    let events = a.event.code().cmp(&b.event.code());
    a.epoch.cmp(&b.epoch).then(names.then(events))
}

/// The event of a code.
pub(crate) fn event_of(code: u8) -> Event
    requires { code ≤ 3 }
    ensures event { result ≡ event_at code }
    ensures coded { code_of result ≡ code }
{
    match Event::of_code(code) {
        Some(event) => event,
        None => unreachable!(),
    }
}
