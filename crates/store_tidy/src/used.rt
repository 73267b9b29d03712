//! The names of the files that a head uses, and those among the names of a store that it does not.
ghost use Rattle.std.specs.Prelude.{◌≡◌, [], ◌∷◌, ◌&&◌, not, map, filter, IfOk, OnOk};
ghost use Rattle.store_io.specs.Listing.{is_listed};
ghost use Rattle.store_io.specs.FileNames.{file_name};
ghost use Rattle.epoch_store.specs.Databases.{head_of};
ghost use Rattle.store_tidy.specs.FileForms.{is_file_name};
ghost use Rattle.store_tidy.specs.Sets.{HoldSame, Gains};
ghost use Rattle.store_tidy.specs.Unused.{segment_names, used_names, is_unused};

use crate::forms::is_file_name;
use database_state::Placed;
use epoch_store::{Database, seal_name};
use std::alloc::{AllocError, Global};
use std::collections::BTreeSet;
use store_io::{FileRef, name_of};
use text_num::Name;

/// Those of the names that are of a database's files and that its head does not use, in their order.
pub fn unused_among(alloc: Global, db: &Database, names: Vec<Name>) -> Result<Vec<Name>, AllocError>
    ensures { IfOk result (λ unused.
        unused.items ≡ filter (is_unused (head_of db.now)) names.items) }
{
    let used = used_names(alloc, db)?;
    let mut unused = Vec::new(alloc);
    for name in names {
        if is_unused(&name, &used) {
            unused.push(name)?;
        }
    }
    Ok(unused)
}

fn is_unused(name: &Name, used: &BTreeSet<Name>) -> bool
    ensures { result ≡ (is_file_name name.now && not (is_listed name.now used.now.keys)) }
{
    is_file_name(name.bytes()) && !used.contains(name)
}

/// The names of a head's seal, of itself, of its segments, and of the files of its rows.
fn used_names(alloc: Global, db: &Database) -> Result<BTreeSet<Name>, AllocError>
    ensures { IfOk result (λ used. HoldSame used.keys (used_names (head_of db.now))) }
{
    let g = db.generation();
    let mut used = BTreeSet::new(alloc);
    put_rows(alloc, &mut used, db.unknown_rows())?;
    put_rows(alloc, &mut used, db.known_rows())?;
    put_segments(alloc, &mut used, g)?;
    put_file(alloc, &mut used, FileRef::Head { g })?;
    used.insert(seal_name(alloc, g)?)?;
    Ok(used)
}

/// Puts in the names of the rows' files.
fn put_rows<R: Placed>(
    alloc: Global,
    used: &mut BTreeSet<Name>,
    rows: &[R],
) -> Result<(), AllocError>
    ensures { OnOk result
        (Gains (map (λ r. file_name (R.file r)) rows.now) used.old.keys used.new.keys) }
{
    for row in rows {
        put_file(alloc, used, row.file())?;
    }
    Ok(())
}

/// Puts in the names of the segments up to a generation.
fn put_segments(alloc: Global, used: &mut BTreeSet<Name>, generation: u32) -> Result<(), AllocError>
    ensures { OnOk result (Gains (segment_names generation) used.old.keys used.new.keys) }
{
    for before in 0..generation {
        put_file(alloc, used, FileRef::Segment { g: before + 1 })?;
    }
    Ok(())
}

fn put_file(alloc: Global, used: &mut BTreeSet<Name>, file: FileRef) -> Result<(), AllocError>
    ensures { OnOk result (Gains (file_name file ∷ []) used.old.keys used.new.keys) }
{
    used.insert(name_of(alloc, &file)?)?;
    Ok(())
}
