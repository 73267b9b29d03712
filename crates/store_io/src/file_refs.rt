//! The files of a database and their names.
ghost use Rattle.std.specs.Prelude.{◌≡◌, true, IfOk, string_bytes};
ghost use Rattle.text_num.specs.Names.{is_name};
ghost use Rattle.store_io.specs.FileNames.{file_name};

use std::alloc::{AllocError, Global};
use text_num::Name;

/// A file of a database: the head of a generation, the profile of an epoch, an image and an event code, the unknown
/// profile of an epoch and an event code, or the run segment of a generation. Each was written at generation `g`.
#[derive(Clone, Copy, Debug, PartialEq, Eq)]
pub enum FileRef {
    Head {
        g: u32,
    },
    Known {
        epoch: u32,
        image: u32,
        event: u8,
        g: u32,
    },
    Unknown {
        epoch: u32,
        event: u8,
        g: u32,
    },
    Segment {
        g: u32,
    },
}

/// The name of a file: `head.G`, `p.E.I.V.G`, `u.E.V.G` or `r.G`, in canonical decimals.
pub fn name_of(alloc: Global, file: &FileRef) -> Result<Name, AllocError>
    ensures { IfOk result (λ name. name ≡ file_name file.now) }
{
    let text = text_of(alloc, *file)?;
    match Name::of_bytes(alloc, text.as_bytes())? {
        Some(name) => Ok(name),
        None => unreachable!(),
    }
}

fn text_of(alloc: Global, file: FileRef) -> Result<String, AllocError>
    ensures text { IfOk result (λ text. string_bytes text ≡ file_name file) }
    ensures name { is_name (file_name file) ≡ true }
{
    match file {
        FileRef::Head { g } => format!(in alloc; "head.{g}"),
        FileRef::Known {
            epoch,
            image,
            event,
            g,
        } => format!(in alloc; "p.{epoch}.{image}.{event}.{g}"),
        FileRef::Unknown { epoch, event, g } => format!(in alloc; "u.{epoch}.{event}.{g}"),
        FileRef::Segment { g } => format!(in alloc; "r.{g}"),
    }
}
