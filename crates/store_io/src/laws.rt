//! What holds of every store in memory.
ghost use Rattle.std.specs.Prelude.{◌≡◌, true, Some};
ghost use Rattle.store_io.specs.Files.{Files};
ghost use Rattle.store_io.specs.Memory.{no_change_failed};

use crate::memory::MemStore;
use crate::store::Store;

/// Where no call was listed, no call failed.
pub fn stays_without_fault(store: &MemStore)
    ensures { ⟦<MemStore as Store>⟧.origin store.now ≡ true →
        ⟦<MemStore as Store>⟧.faults store.now ≡ 0 }
{
    let _ = store;
}

/// Where no call failed, no write and no removal did.
pub fn no_change_failed_without_fault(store: &MemStore)
    ensures { ⟦<MemStore as Store>⟧.faults store.now ≡ 0 → no_change_failed store.now ≡ true }
{
    let _ = store;
}

/// Where no write and no removal has failed, a crash now leaves the present files alone. After a failure it may leave that
/// name otherwise, until it is written or removed with `Ok`.
pub fn crash_leaves_the_present(store: &MemStore)
    ensures { no_change_failed store.now ≡ true → (c : Files) →
        ⟦<MemStore as Store>⟧.left_since store.now (⟦<MemStore as Store>⟧.moment store.now) c →
        ⟦<MemStore as Store>⟧.files store.now ≡ Some c }
{
    let _ = store;
}
