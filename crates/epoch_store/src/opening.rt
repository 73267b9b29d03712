//! Opening a database: the head of the greatest sealed generation.
ghost use Rattle.std.specs.Prelude.{◌≡◌, None, Some, IfOk};
ghost use Rattle.store_io.specs.Crashes.{OnlyReads};
ghost use Rattle.store_io.specs.Files.{Files};
ghost use Rattle.epoch_store.specs.Faults.{HasDbCause};
ghost use Rattle.epoch_store.specs.Databases.{failed_of};
ghost use Rattle.database_state.specs.Heads.{IsHead};
ghost use Rattle.epoch_store.specs.Reading.{Opens, FindsHead};

use crate::database::Database;
use crate::reading::read_file;
use crate::seals::greatest_seal;
use database_state::DbFault;
use head_file::{Head, read_head};
use std::alloc::Global;
use store_io::{FileRef, Store};
use text_num::one_spelling;

/// Opens the database that a store's files stand for: what the head of the greatest sealed generation says, or the empty
/// one where no generation is sealed.
///
/// `Bad` names that head exactly where it is missing or not in its form.
pub fn open_database<D: Store>(alloc: Global, store: &mut D) -> Result<Database, DbFault>
    ensures head { (files : Files) → D.files store.old ≡ Some files → Opens files result }
    ensures fresh { IfOk result (λ db. failed_of db ≡ None) }
    ensures reads { OnlyReads (D.files store.old) (D.files store.new) (D.moment store.old)
        (D.moment store.new) (D.left_since store.old) (D.left_since store.new) }
    ensures cause { HasDbCause (D.faults store.old) (D.faults store.new) result }
    ensures origin { D.origin store.new ≡ D.origin store.old }
{
    one_spelling();
    let names = store.names(alloc)?;
    let g = greatest_seal(&names);
    if g == 0 {
        return Ok(Database::empty(alloc));
    }
    let head = sealed_head(alloc, store, g)?;
    Ok(Database::with_head(head))
}

/// The head of a sealed generation.
fn sealed_head<D: Store>(alloc: Global, store: &mut D, g: u32) -> Result<Head, DbFault>
    ensures head { (files : Files) → D.files store.old ≡ Some files → FindsHead files g result }
    ensures reads { OnlyReads (D.files store.old) (D.files store.new) (D.moment store.old)
        (D.moment store.new) (D.left_since store.old) (D.left_since store.new) }
    ensures cause { HasDbCause (D.faults store.old) (D.faults store.new) result }
    ensures origin { D.origin store.new ≡ D.origin store.old }
    ensures is_head { IfOk result (λ head. IsHead head × (head.generation ≡ g)) }
{
    let file = FileRef::Head { g };
    let bytes = read_file(alloc, store, file)?;
    match read_head(alloc, &bytes, g)? {
        Some(head) => Ok(head),
        None => Err(DbFault::Bad { file }),
    }
}
