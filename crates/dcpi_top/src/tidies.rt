//! The command `tidy`: the files that the database does not use are removed, and their number is the text. The database is
//! opened before the first removal, so under a bad head no file is removed.
ghost use Rattle.std.specs.Prelude.{◌≡◌, Some, IfOk};
ghost use Rattle.dcpi_top.specs.declared.commands.Command.TheVariants as commands;
ghost use Rattle.dcpi_top.specs.Causes.{GivesText};
ghost use Rattle.dcpi_top.specs.Moments.{LeavesAtAnyMoment};
ghost use Rattle.dcpi_top.specs.Refusals.{refused, status_in};
ghost use Rattle.dcpi_top.specs.Streams.{Stream, IsUntouched, seen};
ghost use Rattle.dcpi_top.specs.Tidies.{MayBeTidied, removed_text};

use crate::refusals::Refusal;
use epoch_store::{files_stand_for_one_database, open_database};
use std::alloc::{AllocError, Global};
use store_io::Store;
use store_tidy::tidy;
use text_num::put_dec;

/// Removes the files that the database does not use, and tells how many they were. The input is not read.
pub(crate) fn tidy_text<D: Store>(alloc: Global, store: &mut D) -> Result<Vec<u8>, Refusal>
    ensures gives { (input : Stream) → IsUntouched input →
        GivesText (λ text. text.items) commands.Tidy input
        (seen D.files D.faults store.old store.new) result }
    ensures part { MayBeTidied (seen D.files D.faults store.old store.new) }
    ensures leaves { (input : Stream) →
        LeavesAtAnyMoment D.files D.moment D.left_since (Some commands.Tidy) input
        store.old store.new (status_in (refused result)) }
    ensures origin { D.origin store.new ≡ D.origin store.old }
{
    files_stand_for_one_database();
    let db = open_database(alloc, store)?;
    let removed = tidy(alloc, &db, store)?;
    let text = removed_text(alloc, removed)?;
    Ok(text)
}

/// The line that tells how many files were removed.
fn removed_text(alloc: Global, removed: u64) -> Result<Vec<u8>, AllocError>
    ensures { IfOk result (λ text. text.items ≡ removed_text removed) }
{
    let mut text = Vec::from_slice(alloc, b"removed ")?;
    put_dec(&mut text, u128::from(removed))?;
    text.push(b'\n')?;
    Ok(text)
}
