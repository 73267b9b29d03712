//! The files that a commit writes, with their names.
ghost use Rattle.std.specs.Prelude.{◌≡◌, ℕ, List, [], ◌∷◌, ◌++◌, ◌^◌, ◌<◌, true, codes, IfOk, OnOk, string_bytes};
ghost use Rattle.std.specs.List.{list_all};
ghost use Rattle.std.specs.Fmt.{decimal};
ghost use Rattle.text_num.specs.Names.{is_name};
ghost use Rattle.store_io.specs.FileNames.{file_name};
ghost use Rattle.var_bytes.specs.Forms.{Spells};
ghost use Rattle.database_model.specs.ProfileForm.{format1};
ghost use Rattle.database_model.specs.Ranges.{IsSegment};
ghost use Rattle.database_state.specs.Standing.{seal_file};
ghost use Rattle.epoch_store.specs.Puts.{Put};
ghost use Rattle.epoch_store.specs.Commits.{AreWritten, AreWritesOf};

use crate::writes::Write;
use database_state::{Change, Changed};
use head_file::{Head, write_head};
use profile_file::{Profile, write_profile};
use run_record::write_segment;
use std::alloc::{AllocError, Global};
use store_io::{FileRef, name_of};
use text_num::Name;

/// The writes of a commit before its seal: the changed profiles, the changed unknown profiles, the run's part and the
/// head, in this order.
pub fn writes_of(alloc: Global, next: &Head, change: &Change) -> Result<Vec<Write>, AllocError>
    requires { IsSegment change.now.segment }
    ensures writes { IfOk result (λ writes. AreWritesOf next.now change.now writes.items) }
    // The names are names by their types.
    ensures names { OnOk result (list_all is_name next.now.names ≡ true) }
{
    let g = next.generation;
    let mut writes = Vec::new(alloc);
    put_profiles(alloc, &mut writes, &change.known, g)?;
    put_profiles(alloc, &mut writes, &change.unknown, g)?;
    let part = write_segment(alloc, &change.segment)?;
    put_file(alloc, &mut writes, FileRef::Segment { g }, part)?;
    let text = write_head(alloc, next)?;
    put_file(alloc, &mut writes, FileRef::Head { g }, text)?;
    Ok(writes)
}

/// The writes of changed profiles of one kind.
fn put_profiles<U: Changed>(
    alloc: Global,
    writes: &mut Vec<Write>,
    updates: &[U],
    g: u32,
) -> Result<(), AllocError>
    ensures { OnOk result ((ws : List Put) × (writes.new.items ≡ writes.old.items ++ ws)
        × AreWritten (λ u. file_name (U.file g u)) U.rows updates.now ws) }
{
    for update in updates {
        put_profile(alloc, writes, update.file(g), update.profile())?;
    }
    Ok(())
}

fn put_profile(
    alloc: Global,
    writes: &mut Vec<Write>,
    file: FileRef,
    profile: &Profile,
) -> Result<(), AllocError>
    ensures { OnOk result ((bytes : List ℕ)
        × (writes.new.items
        ≡ writes.old.items ++ record { name = file_name file; bytes = bytes } ∷ [])
        × Spells format1 bytes profile.now) }
{
    let bytes = write_profile(alloc, profile)?;
    put_file(alloc, writes, file, bytes)?;
    Ok(())
}

fn put_file(
    alloc: Global,
    writes: &mut Vec<Write>,
    file: FileRef,
    bytes: Vec<u8>,
) -> Result<(), AllocError>
    ensures { OnOk result (writes.new.items
        ≡ writes.old.items ++ record { name = file_name file; bytes = bytes.items } ∷ []) }
{
    let name = name_of(alloc, &file)?;
    writes.push(Write { name, bytes })?;
    Ok(())
}

/// The name of the seal of a generation. The error is that there was no memory.
pub fn seal_name(alloc: Global, g: u32) -> Result<Name, AllocError>
    ensures { IfOk result (λ name. name ≡ seal_file g) }
{
    let text = seal_text(alloc, g)?;
    match Name::of_bytes(alloc, text.as_bytes())? {
        Some(name) => Ok(name),
        None => unreachable!(),
    }
}

fn seal_text(alloc: Global, g: u32) -> Result<String, AllocError>
    ensures text { IfOk result (λ text. string_bytes text ≡ seal_file g) }
    ensures name { is_name (seal_file g) ≡ true }
{
    format!(in alloc; "seal.{g}")
}
