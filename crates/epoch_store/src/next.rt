//! The head after a commit: its rows, if there is room for them, and its images.
ghost use Rattle.std.specs.Prelude.{◌≡◌, ℕ, [], ◌∷◌, ◌++◌, true, IfOk, OnOk};
ghost use Rattle.image_catalog.specs.Images.{AreImages};
ghost use Rattle.database_state.specs.Heads.{is_in_range, row_count};
ghost use Rattle.database_state.specs.Updates.{Fits, head_after, rows_added};
ghost use Rattle.epoch_store.specs.Faults.{HasWriteCause};
ghost use Rattle.epoch_store.specs.Commits.{HasRoom};

use crate::rows::{known_after, unknown_after};
use database_state::{Change, DbFault, FullWhat, MOST_ROWS};
use head_file::Head;
use image_catalog::{Catalog, CatalogError};
use std::alloc::{AllocError, Global};
use text_num::Name;

/// The head after a change, if it has room for the rows that are added.
pub fn next_of(alloc: Global, head: &Head, change: &Change) -> Result<Head, DbFault>
    requires range { is_in_range head.now ≡ true }
    requires fits { Fits head.now.epoch head.now.runs head.now.names change.now }
    ensures next { IfOk result (λ next. next ≡ head_after change.now head.now) }
    ensures room { HasRoom (row_count head.now) (rows_added change.now head.now) result }
    ensures cause { (n : ℕ) → HasWriteCause n n result }
{
    let generation = head.generation + 1;
    let known = known_after(alloc, &head.known, &change.known, generation)?;
    let unknown = unknown_after(alloc, &head.unknown, &change.unknown, generation)?;
    let held = head.known.len() as u64 + head.unknown.len() as u64 + u64::from(head.generation);
    let rows = known.len() as u128 + unknown.len() as u128 + u128::from(generation);
    if rows > MOST_ROWS {
        return Err(DbFault::Full {
            what: FullWhat::Rows,
            held,
            added: rows - u128::from(held),
        });
    }
    let mut catalog = head.catalog.copy(alloc)?;
    add_names(alloc, &mut catalog, &change.names)?;
    Ok(Head {
        generation,
        epoch: change.epoch,
        runs: change.segment.run,
        catalog,
        known,
        unknown,
    })
}

/// Adds names that are apart from each other and from those that are held, and for which there is room.
fn add_names(alloc: Global, catalog: &mut Catalog, names: &[Name]) -> Result<(), AllocError>
    requires { AreImages (catalog.old ++ names.now) }
    ensures { OnOk result (catalog.new ≡ catalog.old ++ names.now) }
{
    for name in names {
        add_name(alloc, catalog, name)?;
    }
    Ok(())
}

fn add_name(alloc: Global, catalog: &mut Catalog, name: &Name) -> Result<(), AllocError>
    requires { AreImages (catalog.old ++ name.now ∷ []) }
    ensures { OnOk result (catalog.new ≡ catalog.old ++ name.now ∷ []) }
{
    match catalog.number_of(alloc, name) {
        Ok(_) => Ok(()),
        Err(CatalogError::Full) => unreachable!(),
        Err(CatalogError::Memory) => Err(AllocError),
    }
}
