//! The removal of the files that a database does not use.
ghost use Rattle.std.specs.Prelude.{◌≡◌, Some, IfOk, OnOk, OnErr};
ghost use Rattle.store_io.specs.Files.{Files};
ghost use Rattle.store_io.specs.Outcomes.{AfterSome, Told};
ghost use Rattle.store_io.specs.Crashes.{LeftNow, Passes, LeavesOnly};
ghost use Rattle.database_state.specs.Database.{Database as Said};
ghost use Rattle.database_state.specs.Standing.{CrashesSay, SaysWhereTold};
ghost use Rattle.epoch_store.specs.Databases.{head_of};
ghost use Rattle.store_tidy.specs.Faults.{HasTidyCause};
ghost use Rattle.store_tidy.specs.Removals.{Tidied, LeftUntidy};
ghost use Rattle.store_tidy.specs.Unused.{without_unused, LosesUnused, Says};

use crate::removing::remove_all;
use crate::used::unused_among;
use database_state::DbFault;
use epoch_store::Database;
use std::alloc::Global;
use store_io::Store;

/// Removes the files that the database does not use, in byte order of their names, and answers how many they were: each
/// `seal.G`, `head.G`, `p.E.I.V.G`, `u.E.V.G` and `r.G` but its own seal and head, its segments, and the files of its
/// rows. Other names stay. Whatever becomes of it, the files stand for what they stood for, after a crash too.
///
/// `StoreFault` comes only where the store's count of faults rose; the names before the one that failed are gone then.
/// `Bad` and `Full` never come.
pub fn tidy<D: Store>(alloc: Global, db: &Database, store: &mut D) -> Result<u64, DbFault>
    // The files that the head does not use are gone and no others, and so many they were.
    ensures files { IfOk result (λ n.
        Told (Tidied (head_of db.now) n) (D.files store.old) (D.files store.new)) }
    // After an error the first of them are gone, and the next one maybe.
    ensures part { OnErr result
        (Told (LeftUntidy (head_of db.now)) (D.files store.old) (D.files store.new)) }
    // What the files said where the store told them, they say.
    ensures told { (said : Said) → SaysWhereTold (D.files store.old) (head_of db.now) said →
        SaysWhereTold (D.files store.new) (head_of db.now) said }
    // Each crash meanwhile leaves what a crash left before, maybe without some of them.
    ensures steps { Passes D.moment D.left_since store.old store.new
        (AfterSome (LeftNow D.moment D.left_since store.old) (LosesUnused (head_of db.now))) }
    // Where each crash at the start leaves the database, so does each crash since then.
    ensures any_moment { (said : Said) →
        CrashesSay (LeftNow D.moment D.left_since store.old) (head_of db.now) said →
        LeavesOnly D.moment D.left_since store.old store.new (Says (head_of db.now) said) }
    // And so do the present files, after an error too.
    ensures present { (said : Said) →
        CrashesSay (LeftNow D.moment D.left_since store.old) (head_of db.now) said →
        (f : Files) → D.files store.new ≡ Some f → Says (head_of db.now) said f }
    // And each crash after the end.
    ensures after { (said : Said) →
        CrashesSay (LeftNow D.moment D.left_since store.old) (head_of db.now) said →
        CrashesSay (LeftNow D.moment D.left_since store.new) (head_of db.now) said }
    // Where a crash at the start leaves the present files alone, after `Ok` it leaves them without the unused ones.
    ensures settled { OnOk result ((f : Files) → D.files store.old ≡ Some f →
        ((c : Files) → LeftNow D.moment D.left_since store.old c → c ≡ f) →
        (c : Files) → LeftNow D.moment D.left_since store.new c →
        c ≡ without_unused (head_of db.now) f) }
    ensures cause { HasTidyCause (D.faults store.old) (D.faults store.new) result }
    ensures origin { D.origin store.new ≡ D.origin store.old }
{
    remove_unused(alloc, db, store)
}

fn remove_unused<D: Store>(alloc: Global, db: &Database, store: &mut D) -> Result<u64, DbFault>
    ensures files { IfOk result (λ n.
        Told (Tidied (head_of db.now) n) (D.files store.old) (D.files store.new)) }
    ensures part { OnErr result
        (Told (LeftUntidy (head_of db.now)) (D.files store.old) (D.files store.new)) }
    ensures settled { OnOk result ((f : Files) → D.files store.old ≡ Some f →
        ((c : Files) → LeftNow D.moment D.left_since store.old c → c ≡ f) →
        (c : Files) → LeftNow D.moment D.left_since store.new c →
        c ≡ without_unused (head_of db.now) f) }
    ensures time { Passes D.moment D.left_since store.old store.new
        (AfterSome (LeftNow D.moment D.left_since store.old) (LosesUnused (head_of db.now))) }
    ensures cause { HasTidyCause (D.faults store.old) (D.faults store.new) result }
    ensures origin { D.origin store.new ≡ D.origin store.old }
{
    let names = store.names(alloc)?;
    let unused = unused_among(alloc, db, names)?;
    remove_all(alloc, store, &unused)?;
    Ok(unused.len() as u64)
}
