//! The trait of named files, with what a crash at any moment may leave of them.
ghost use Rattle.std.specs.Prelude.{◌≡◌, ◌≤◌, ℕ, None, Some, IfOk};
ghost use Rattle.std.specs.declared.option.Option.{Option};
ghost use Rattle.store_io.specs.Files.{Files};
ghost use Rattle.store_io.specs.Listing.{IsInByteOrder, Lists, Finds};
ghost use Rattle.store_io.specs.Outcomes.{HasStoreCause, Torn, MaybeRemoved, Writes, Removes};
ghost use Rattle.store_io.specs.Crashes.{LeftNow, LeavesNoMore, LeavesWritten, LeavesRemoved, Passes, PassesChange, Tears};

use crate::errors::StoreError;
use std::alloc::Global;
use text_num::Name;

/// Named files. `files` is what stands under each name, where the store tells it; `faults` the calls that failed;
/// `moment` a clock that never falls, and `left_since` what a crash at some moment since may have left. `origin` is
/// plain data, of each store's own kind, that no call changes.
///
/// A write or a removal that answered `Ok` is on the disk: from then on each crash leaves what it asked for. During a
/// write, and after it `Failed`, a crash leaves the name absent, as before or with any bytes, whatever the present files
/// are; during a removal, and after it `Failed`, absent or as before. So it stays until the name is written or removed
/// with `Ok`. After `Memory` all is as before.
pub trait Store {
    type Origin;

    ghost origin: { Self → Self.Origin };

    ghost files: { Self → Option Files };

    ghost faults: { Self → ℕ };

    ghost moment: { Self → ℕ };

    ghost left_since: { Self → ℕ → Files → Type 0 };

    /// The names that are there, in byte order.
    fn names(&mut self, alloc: Global) -> Result<Vec<Name>, StoreError>
        ensures order { IfOk result (λ names. IsInByteOrder names.items) }
        ensures names { IfOk result (λ names. Lists (files self.old) names.items) }
        ensures files { files self.new ≡ files self.old }
        ensures crash { LeavesNoMore moment left_since self.old self.new }
        ensures time { Passes moment left_since self.old self.new
            (LeftNow moment left_since self.old) }
        ensures cause { HasStoreCause (faults self.old) (faults self.new) result }
        ensures origin { origin self.new ≡ origin self.old };

    /// The bytes under a name; nothing exactly where it is absent.
    fn read(&mut self, alloc: Global, name: &Name) -> Result<Option<Vec<u8>>, StoreError>
        ensures found { IfOk result (Finds (files self.old) name.now) }
        ensures files { files self.new ≡ files self.old }
        ensures crash { LeavesNoMore moment left_since self.old self.new }
        ensures time { Passes moment left_since self.old self.new
            (LeftNow moment left_since self.old) }
        ensures cause { HasStoreCause (faults self.old) (faults self.new) result }
        ensures origin { origin self.new ≡ origin self.old };

    /// Puts these bytes under a name, in place of what stood there.
    fn write(&mut self, alloc: Global, name: &Name, bytes: &[u8]) -> Result<(), StoreError>
        ensures files { Writes name.now bytes.now (files self.old) (files self.new) result }
        ensures crash { LeavesWritten moment left_since name.now bytes.now
            self.old self.new result }
        ensures time { PassesChange moment left_since (Torn name.now) self.old self.new }
        ensures torn { Tears moment left_since (Torn name.now) self.old self.new result }
        ensures cause { HasStoreCause (faults self.old) (faults self.new) result }
        ensures origin { origin self.new ≡ origin self.old };

    /// Takes a name away. One that is absent stays so.
    fn remove(&mut self, alloc: Global, name: &Name) -> Result<(), StoreError>
        ensures files { Removes name.now (files self.old) (files self.new) result }
        ensures crash { LeavesRemoved moment left_since name.now self.old self.new result }
        ensures time { PassesChange moment left_since (MaybeRemoved name.now) self.old self.new }
        ensures torn { Tears moment left_since (MaybeRemoved name.now) self.old self.new result }
        ensures cause { HasStoreCause (faults self.old) (faults self.new) result }
        ensures origin { origin self.new ≡ origin self.old };

    // Where the files are told, a crash now may leave them as they are.
    ghost present: { (s : Self) (f : Files) → files s ≡ Some f → left_since s (moment s) f };

    // What a crash now leaves is among what a crash since an earlier moment leaves.
    ghost lasting: { (s : Self) (t : ℕ) (c : Files) → t ≤ moment s → left_since s (moment s) c →
        left_since s t c };
}
