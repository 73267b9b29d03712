//! Removals, one after the other.
ghost use Rattle.std.specs.Prelude.{◌≡◌, OnOk, OnErr};
ghost use Rattle.store_io.specs.Files.{Files};
ghost use Rattle.store_io.specs.Outcomes.{HasStoreCause, AfterSome, Told};
ghost use Rattle.store_io.specs.Crashes.{LeftNow, Passes};
ghost use Rattle.store_tidy.specs.Removals.{AllRemoved, FirstRemoved};

use std::alloc::Global;
use store_io::{Store, StoreError};
use text_num::Name;

/// Takes the names away in their order, up to the first that fails.
pub fn remove_all<D: Store>(alloc: Global, store: &mut D, names: &[Name]) -> Result<(), StoreError>
    ensures files { OnOk result
        (Told (AllRemoved names.now) (D.files store.old) (D.files store.new)) }
    ensures part { OnErr result
        (Told (FirstRemoved names.now) (D.files store.old) (D.files store.new)) }
    ensures crash { OnOk result ((c : Files) → LeftNow D.moment D.left_since store.new c →
        AfterSome (LeftNow D.moment D.left_since store.old) (AllRemoved names.now) c) }
    ensures time { Passes D.moment D.left_since store.old store.new
        (AfterSome (LeftNow D.moment D.left_since store.old) (FirstRemoved names.now)) }
    ensures cause { HasStoreCause (D.faults store.old) (D.faults store.new) result }
    ensures origin { D.origin store.new ≡ D.origin store.old }
{
    for name in names {
        store.remove(alloc, name)?;
    }
    Ok(())
}
