//! Writes that are to be made, one after the other.
ghost use Rattle.std.specs.Prelude.{◌≡◌, OnOk};
ghost use Rattle.store_io.specs.Files.{Files};
ghost use Rattle.store_io.specs.Outcomes.{HasStoreCause, AfterSome, Told};
ghost use Rattle.store_io.specs.Crashes.{LeftNow, Passes};
ghost use Rattle.epoch_store.specs.Puts.{PutAll, PutSome};

use std::alloc::Global;
use std::marker::Model;
use store_io::{Store, StoreError};
use text_num::Name;

/// A name and the bytes that it is to have.
#[derive(Drop)]
pub struct Write {
    /// The file's name.
    pub name: Name,
    /// Its bytes.
    pub bytes: Vec<u8>,
}

impl Model for Write {
    ghost use Rattle.epoch_store.specs.Puts.{Put};

    ghost Value = { Put };

    ghost view = { λ w. record { name = w.name; bytes = w.bytes.items } };
}

/// Makes the writes in their order, up to the first that fails.
pub fn write_all<D: Store>(alloc: Global, store: &mut D, writes: &[Write]) -> Result<(), StoreError>
    ensures files { OnOk result (Told (PutAll writes.now) (D.files store.old) (D.files store.new)) }
    ensures crash { OnOk result ((c : Files) → LeftNow D.moment D.left_since store.new c →
        AfterSome (LeftNow D.moment D.left_since store.old) (PutAll writes.now) c) }
    ensures time { Passes D.moment D.left_since store.old store.new
        (AfterSome (LeftNow D.moment D.left_since store.old) (PutSome writes.now)) }
    ensures cause { HasStoreCause (D.faults store.old) (D.faults store.new) result }
    ensures origin { D.origin store.new ≡ D.origin store.old }
{
    for write in writes {
        store.write(alloc, &write.name, &write.bytes)?;
    }
    Ok(())
}
