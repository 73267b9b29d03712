//! The names among some texts, in byte order.
ghost use Rattle.std.specs.Prelude.{◌≡◌, map, filter, IfOk};
ghost use Rattle.store_io.specs.Files.{contents};
ghost use Rattle.store_io.specs.Listing.{IsInByteOrder};
ghost use Rattle.text_num.specs.Names.{is_name};

use std::alloc::{AllocError, Global};
use std::collections::BTreeSet;
use text_num::Name;

/// The texts that are names, in byte order; others are passed over.
pub fn names_among(alloc: Global, texts: BTreeSet<Vec<u8>>) -> Result<Vec<Name>, AllocError>
    ensures order { IfOk result (λ names. IsInByteOrder names.items) }
    ensures names { IfOk result (λ names. names.items ≡ filter is_name (map contents texts.keys)) }
{
    let mut names = Vec::new(alloc);
    for text in texts {
        if let Some(name) = Name::of_bytes(alloc, &text)? {
            names.push(name)?;
        }
    }
    Ok(names)
}
