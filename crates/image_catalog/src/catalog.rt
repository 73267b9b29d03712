//! The catalog: the names in the order of their numbers, and beside them an index by which a name is found by halving.
ghost use Rattle.std.specs.Prelude.{◌≡◌, ◌<◌, ◌≤◌, ◌↔◌, [], ◌++◌, length, slice_get, None, Some, IfOk, OnErr, IsErrOf};
ghost use Rattle.std.specs.Option.{option_copied};
ghost use Rattle.image_catalog.specs.Images.{place_of, with_name, AreImages};
ghost use Rattle.image_catalog.specs.declared.catalog.TheConstants.{MOST_IMAGES};

use crate::index::{count_before, number_at};
use std::alloc::{AllocError, AllocFailed, Global};
use std::marker::Model;
use text_num::Name;
use thiserror::Error;

/// How many images a catalog may hold.
pub const MOST_IMAGES: usize = 4096;

/// Why a name got no number.
#[derive(Clone, Copy, Debug, PartialEq, Eq, Error)]
pub enum CatalogError {
    /// The name is new, and as many are held as may be.
    #[error("too many images")]
    Full,
    /// Memory ran out.
    #[error("out of memory")]
    Memory,
}

impl From<AllocError> for CatalogError {
    ghost use Rattle.image_catalog.specs.declared.catalog.CatalogError.TheVariants.{Memory};

    ghost from_gives = { λ _ e. e ≡ Memory };

    fn from(_: AllocError) -> Self {
        CatalogError::Memory
    }
}

impl<T: Drop> From<AllocFailed<T>> for CatalogError {
    ghost use Rattle.image_catalog.specs.declared.catalog.CatalogError.TheVariants.{Memory};

    ghost from_gives = { λ _ e. e ≡ Memory };

    fn from(_: AllocFailed<T>) -> Self {
        CatalogError::Memory
    }
}

/// The images of a database. A name's number is its place, from 0; no name stands twice.
///
/// A name is found by halving, in as many comparisons as the count of names has binary digits; a new name moves a part of
/// the index by one place.
#[derive(Drop)]
pub struct Catalog {
    names: Vec<Name>,
    // The numbers, in the byte order of their names.
    order: Vec<u32>,
}

impl Model for Catalog {
    ghost use Rattle.std.specs.Prelude.{ℕ, List};
    ghost use Rattle.image_catalog.specs.Images.{IsCatalog};

    ghost Value = { List (List ℕ) };

    ghost view = { λ c. c.names.items };

    ghost invariant = { λ c. IsCatalog c.names.items c.order.items };
}

impl Catalog {
    /// A catalog with no names.
    pub fn new(alloc: Global) -> Catalog
        ensures { result ≡ [] }
    {
        Catalog {
            names: Vec::new(alloc),
            order: Vec::new(alloc),
        }
    }

    /// An equal catalog, in time linear in the bytes of the names.
    pub fn copy(&self, alloc: Global) -> Result<Catalog, AllocError>
        ensures { IfOk result (λ copy. copy ≡ self.now) }
    {
        let names = copies_of(alloc, &self.names)?;
        let order = Vec::from_slice(alloc, &self.order)?;
        Ok(Catalog { names, order })
    }

    /// The number of a name, which is added where it is new. `Full` where the catalog holds as many as it may, `Memory`
    /// where memory ran out; after an error the catalog is as before.
    pub fn number_of(&mut self, alloc: Global, name: &Name) -> Result<u32, CatalogError>
        ensures names { IfOk result (λ _. self.new ≡ with_name self.old name.now) }
        ensures number { IfOk result (λ number. place_of name.now self.new ≡ Some number) }
        ensures full { IsErrOf result CatalogError.Full ↔ ((place_of name.now self.old ≡ None) ×
            (length self.old ≡ MOST_IMAGES)) }
        ensures refused { OnErr result (self.new ≡ self.old) }
    {
        let at = count_before(&self.names, &self.order, name.bytes());
        if let Some(number) = number_at(&self.names, &self.order, at, name.bytes()) {
            return Ok(number);
        }
        let number = self.names.len();
        if number >= MOST_IMAGES {
            return Err(CatalogError::Full);
        }
        let name = name.copy(alloc)?;
        self.order.reserve(1)?;
        self.names.push(name)?;
        match self.order.insert(at, number as u32) {
            Ok(()) => Ok(number as u32),
            Err(_) => unreachable!(),
        }
    }

    /// The number of a name; nothing exactly where it is not held.
    pub fn find(&self, name: &Name) -> Option<u32>
        ensures { result ≡ place_of name.now self.now }
    {
        let at = count_before(&self.names, &self.order, name.bytes());
        number_at(&self.names, &self.order, at, name.bytes())
    }

    /// The name of a number; nothing exactly where the number is not given.
    pub fn name(&self, number: u32) -> Option<&Name>
        ensures { option_copied result ≡ slice_get self.now number }
    {
        self.names.get(number as usize)
    }

    /// The names, in the order of their numbers.
    pub fn names(&self) -> &[Name]
        ensures names { result.now ≡ self.now }
        ensures images { AreImages result.now }
    {
        self.names.as_slice()
    }
}

/// Equal names, in their order. It fails only for want of memory.
pub fn copies_of(alloc: Global, names: &[Name]) -> Result<Vec<Name>, AllocError>
    ensures { IfOk result (λ copies. copies.items ≡ names.now) }
{
    let mut copies = Vec::with_capacity(alloc, names.len())?;
    for name in names {
        copies.push(name.copy(alloc)?)?;
    }
    Ok(copies)
}
