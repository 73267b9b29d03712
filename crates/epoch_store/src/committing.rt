//! The commit: a change of a database, whole or not at all.
ghost use Rattle.std.specs.Prelude.{◌≡◌, ◌+◌, Some, true, IfOk, IfErr, OnOk, OnErr};
ghost use Rattle.store_io.specs.Files.{Files};
ghost use Rattle.store_io.specs.Outcomes.{AfterSome, Told};
ghost use Rattle.store_io.specs.Crashes.{LeftNow, Passes, LeavesOnly};
ghost use Rattle.database_state.specs.Generations.{OthersStay};
ghost use Rattle.database_state.specs.Database.{Database as Said};
ghost use Rattle.database_state.specs.Heads.{IsHead, is_in_range, row_count};
ghost use Rattle.database_state.specs.Updates.{Fits, updated, head_after, rows_added};
ghost use Rattle.database_state.specs.Standing.{CrashesSay, SaysWhereTold};
ghost use Rattle.epoch_store.specs.Faults.{HasWriteCause, HasCommitCause};
ghost use Rattle.epoch_store.specs.Databases.{head_of, failed_of};
ghost use Rattle.epoch_store.specs.Commits.{InCommit, AfterCommit, FilesChanged, HasRoom, FindsRoom, StaysAt, IsUntouched, KeepsFault, BeforeOrAfter};

use crate::contents::{seal_name, writes_of};
use crate::database::Database;
use crate::next::next_of;
use crate::writes::write_all;
use database_state::{Change, DbError, DbFault};
use head_file::Head;
use std::alloc::Global;
use store_io::Store;

/// Commits a change. The files of the next generation are written first, its seal last, so that a crash at any moment
/// leaves the database before the change or the one after it, whole.
///
/// `Full` comes exactly where the head would have more than 65,536 rows, before any call of the store. After an error
/// this value commits no more, and the database is to be opened again.
pub fn commit<D: Store>(
    alloc: Global,
    db: &mut Database,
    store: &mut D,
    change: &Change,
) -> Result<(), DbError>
    requires { Fits (head_of db.old).epoch (head_of db.old).runs (head_of db.old).names change.now }
    ensures head { OnOk result (head_of db.new ≡ head_after change.now (head_of db.old)) }
    // The files say what they said, with the change.
    ensures files { OnOk result (FilesChanged change.now (head_of db.old) (head_of db.new)
        (D.files store.old) (D.files store.new)) }
    // They are those of before with the writes of the change, in their order, and an empty seal.
    ensures writes { OnOk result
        (Told (AfterCommit (head_after change.now (head_of db.old)) change.now)
        (D.files store.old) (D.files store.new)) }
    // No name of another generation changes.
    ensures others { OnOk result (Told (OthersStay ((head_of db.old).generation + 1))
        (D.files store.old) (D.files store.new)) }
    // What the files said where the store told them, they say with the change where it tells them.
    ensures told { OnOk result ((said : Said) →
        SaysWhereTold (D.files store.old) (head_of db.old) said →
        SaysWhereTold (D.files store.new) (head_of db.new) (updated change.now said)) }
    ensures room { FindsRoom (row_count (head_of db.old)) (rows_added change.now (head_of db.old))
        result }
    ensures untouched { IsUntouched store.old store.new result }
    ensures answer { KeepsFault (failed_of db.old) (failed_of db.new) result }
    ensures refused { OnErr result (head_of db.new ≡ head_of db.old) }
    // Each crash meanwhile leaves what a crash left before, with the first of the writes and one of them maybe torn.
    ensures steps { Passes D.moment D.left_since store.old store.new
        (AfterSome (LeftNow D.moment D.left_since store.old)
        (InCommit (head_after change.now (head_of db.old)) change.now)) }
    // Where each crash at the start leaves the database, each crash since then leaves that database or the changed one.
    ensures any_moment { (said : Said) →
        CrashesSay (LeftNow D.moment D.left_since store.old) (head_of db.old) said →
        LeavesOnly D.moment D.left_since store.old store.new (BeforeOrAfter change.now said) }
    // And so do the present files, after an error too.
    ensures present { (said : Said) →
        CrashesSay (LeftNow D.moment D.left_since store.old) (head_of db.old) said →
        (f : Files) → D.files store.new ≡ Some f → BeforeOrAfter change.now said f }
    // And each crash after the end leaves the changed one.
    ensures after { OnOk result ((said : Said) →
        CrashesSay (LeftNow D.moment D.left_since store.old) (head_of db.old) said →
        CrashesSay (LeftNow D.moment D.left_since store.new) (head_of db.new)
        (updated change.now said)) }
    ensures cause { HasCommitCause (D.faults store.old) (D.faults store.new) result }
    ensures origin { D.origin store.new ≡ D.origin store.old }
{
    if let Some(fault) = db.failed {
        return Err(DbError::Stopped(fault));
    }
    match try_commit(alloc, &db.head, store, change) {
        Ok(next) => {
            db.head = next;
            Ok(())
        }
        Err(fault) => {
            db.failed = Some(fault);
            Err(DbError::Fault(fault))
        }
    }
}

/// Writes the files of the next generation and its seal, and gives the next head.
fn try_commit<D: Store>(
    alloc: Global,
    head: &Head,
    store: &mut D,
    change: &Change,
) -> Result<Head, DbFault>
    requires range { is_in_range head.now ≡ true }
    requires fits { Fits head.now.epoch head.now.runs head.now.names change.now }
    ensures head { IfOk result (λ next. (next ≡ head_after change.now head.now) × IsHead next) }
    ensures room { HasRoom (row_count head.now) (rows_added change.now head.now) result }
    ensures untouched { IfErr result (StaysAt store.old store.new) }
    ensures files { OnOk result (Told (AfterCommit (head_after change.now head.now) change.now)
        (D.files store.old) (D.files store.new)) }
    ensures crash { OnOk result ((c : Files) → LeftNow D.moment D.left_since store.new c →
        AfterSome (LeftNow D.moment D.left_since store.old)
        (AfterCommit (head_after change.now head.now) change.now) c) }
    ensures time { Passes D.moment D.left_since store.old store.new
        (AfterSome (LeftNow D.moment D.left_since store.old)
        (InCommit (head_after change.now head.now) change.now)) }
    ensures cause { HasWriteCause (D.faults store.old) (D.faults store.new) result }
    ensures origin { D.origin store.new ≡ D.origin store.old }
{
    let next = next_of(alloc, head, change)?;
    let writes = writes_of(alloc, &next, change)?;
    let seal = seal_name(alloc, next.generation)?;
    write_all(alloc, store, &writes)?;
    store.write(alloc, &seal, &[])?;
    Ok(next)
}
