//! The numbers of the images for which something was gathered: those held keep theirs, and the new ones follow.
ghost use Rattle.std.specs.Prelude.{◌≡◌, ◌+◌, ◌<◌, ◌≤◌, ◌++◌, ◌||◌, ℕ, [], ◌∷◌, false, length, slice_index_or, IfOk, IfErr, OnOk};
ghost use Rattle.image_catalog.specs.Images.{AreImages};
ghost use Rattle.profile_merge.specs.Sums.{AreSums};
ghost use Rattle.profile_merge.specs.Numbering.{IsImagesFault, fresh_of, new_names, number_at, numbers_of, is_image, is_used};

use crate::gathered::Gathered;
use crate::owners::Owner;
use database_state::{DbFault, FullWhat};
use image_catalog::{Catalog, MOST_IMAGES};
use std::alloc::{AllocError, Global};
use text_num::Name;

/// The new images, in the order of their numbers, and the number of each image of the trace for which something was gathered.
#[derive(Drop)]
pub struct Numbered {
    pub names: Vec<Name>,
    pub numbers: Vec<u32>,
}

/// Numbers the images that are used. `Full` where more than 4,096 are held then.
pub fn number_images(
    alloc: Global,
    used: &[bool],
    names: &[Name],
    held: &Catalog,
) -> Result<Numbered, DbFault>
    requires { length used.now ≡ length names.now }
    ensures images { AreImages held.now }
    ensures names { IfOk result (λ made.
        made.names.items ≡ fresh_of held.now used.now names.now) }
    ensures numbers { IfOk result (λ made.
        made.numbers.items ≡ numbers_of held.now (length held.now) used.now names.now) }
    ensures few { IfOk result (λ made. length held.now + length made.names.items ≤ 4096) }
    ensures full { IfErr result (IsImagesFault held.now (fresh_of held.now used.now names.now)) }
{
    let count = held.names().len();
    let mut fresh = Vec::new(alloc);
    let mut numbers = Vec::with_capacity(alloc, names.len())?;
    for i in 0..names.len() {
        let number = number_one(alloc, used[i], &names[i], held, count, &mut fresh)?;
        numbers.push(number)?;
    }
    Ok(Numbered {
        names: fresh,
        numbers,
    })
}

// The number of one image, whose name is added where it is used and new.
fn number_one(
    alloc: Global,
    used: bool,
    name: &Name,
    held: &Catalog,
    count: usize,
    fresh: &mut Vec<Name>,
) -> Result<u32, DbFault>
    requires count { count ≡ length held.now }
    requires few { length held.now + length fresh.old.items ≤ 4096 }
    ensures number { IfOk result (λ number.
        number ≡ number_at held.now (length held.now + length fresh.old.items) used name.now) }
    ensures fresh { OnOk result (fresh.new.items
        ≡ fresh.old.items ++ new_names held.now used name.now) }
    ensures few { OnOk result (length held.now + length fresh.new.items ≤ 4096) }
    ensures full { IfErr result (IsImagesFault held.now
        (fresh.old.items ++ new_names held.now used name.now)) }
{
    if !used {
        return Ok(0);
    }
    match held.find(name) {
        Some(number) => Ok(number),
        None => add_name(alloc, name, held, count, fresh),
    }
}

// The next number, for a name that is new.
fn add_name(
    alloc: Global,
    name: &Name,
    held: &Catalog,
    count: usize,
    fresh: &mut Vec<Name>,
) -> Result<u32, DbFault>
    requires count { count ≡ length held.now }
    requires few { length held.now + length fresh.old.items ≤ 4096 }
    ensures number { IfOk result (λ number. number ≡ length held.now + length fresh.old.items) }
    ensures fresh { OnOk result (fresh.new.items ≡ fresh.old.items ++ name.now ∷ []) }
    ensures few { OnOk result (length held.now + length fresh.new.items ≤ 4096) }
    ensures full { IfErr result (IsImagesFault held.now (fresh.old.items ++ name.now ∷ [])) }
{
    let _ = held;
    let number = count + fresh.len();
    if number >= MOST_IMAGES {
        return Err(DbFault::Full {
            what: FullWhat::Images,
            held: MOST_IMAGES as u64,
            added: 1,
        });
    }
    fresh.push(name.copy(alloc)?)?;
    Ok(number as u32)
}

/// A mark for each image of the trace: whether something was gathered for it.
#[tactic(auto, using(crate::proofs::Marks::one_marked, crate::proofs::Marks::none_marked, crate::proofs::Marks::all_marked))]
pub fn used_images(
    alloc: Global,
    gathered: &Gathered,
    images: usize,
) -> Result<Vec<bool>, AllocError>
    ensures counts { AreSums gathered.now }
    ensures len { IfOk result (λ used. length used.items ≡ images) }
    ensures marks { IfOk result (λ used. (index : ℕ) → index < images →
        slice_index_or used.items index false ≡ is_used gathered.now index) }
{
    let sums = gathered.sums();
    let mut used = vec![in alloc; false; images]?;
    for (owner, _) in sums {
        mark(&mut used, *owner);
    }
    Ok(used)
}

// Marks the image of a profile.
fn mark(used: &mut Vec<bool>, owner: Owner)
    ensures len { length used.new.items ≡ length used.old.items }
    ensures marks { (index : ℕ) → index < length used.old.items →
        slice_index_or used.new.items index false
        ≡ (slice_index_or used.old.items index false || is_image index owner) }
{
    match owner {
        Owner::Known { image, .. } => {
            if (image as usize) < used.len() {
                used[image as usize] = true;
            }
        }
        Owner::Unknown { .. } => {}
    }
}
