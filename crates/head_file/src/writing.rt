//! Writing a head: its text, line by line.
ghost use Rattle.std.specs.Prelude.{◌≡◌, ◌++◌, ◌∷◌, [], true, length, IfOk, OnOk};
ghost use Rattle.std.specs.List.{flat_map, list_all};
ghost use Rattle.text_num.specs.Names.{is_name};
ghost use Rattle.image_catalog.specs.Images.{AreImages};
ghost use Rattle.std.specs.Fmt.{decimal};
ghost use Rattle.database_state.specs.Heads.{number_line, name_line, known_line, unknown_line, first_lines, head_text};

use crate::heads::Head;
use database_state::{KnownRow, UnknownRow};
use std::alloc::{AllocError, Global};
use text_num::{Name, put_dec};

///! Writing a head: its text, line by line.
#[tactic(auto, unfolding(database_state::specs::Heads::head_text))]
pub fn write_head(alloc: Global, head: &Head) -> Result<Vec<u8>, AllocError>
    ensures text { IfOk result (λ text. text.items ≡ head_text head.now) }
    // The names are names, and apart, by their types.
    ensures names { OnOk result (list_all is_name head.now.names ≡ true) }
    ensures images { OnOk result (AreImages head.now.names) }
{
    let mut out = put_first(alloc, head)?;
    put_names(&mut out, head.catalog.names())?;
    put_count(&mut out, b"profiles", head.known.len())?;
    put_known(&mut out, &head.known)?;
    put_count(&mut out, b"unknowns", head.unknown.len())?;
    put_unknown(&mut out, &head.unknown)?;
    Ok(out)
}

#[tactic(auto, unfolding(database_state::specs::Heads::first_lines))]
fn put_first(alloc: Global, head: &Head) -> Result<Vec<u8>, AllocError>
    ensures { IfOk result (λ out. out.items ≡ first_lines head.now) }
{
    let mut out = Vec::new(alloc);
    put_line(&mut out, b"dcpi-head", 1)?;
    put_line(&mut out, b"generation", head.generation)?;
    put_line(&mut out, b"epoch", head.epoch)?;
    put_line(&mut out, b"runs", head.runs)?;
    put_count(&mut out, b"images", head.catalog.names().len())?;
    Ok(out)
}

fn put_line(out: &mut Vec<u8>, word: &[u8], number: u32) -> Result<(), AllocError>
    ensures { OnOk result (out.new.items ≡ out.old.items ++ number_line word.now number) }
{
    put_count(out, word, number as usize)?;
    Ok(())
}

fn put_count(out: &mut Vec<u8>, word: &[u8], number: usize) -> Result<(), AllocError>
    ensures { OnOk result (out.new.items ≡ out.old.items ++ number_line word.now number) }
{
    out.extend_from_slice(word)?;
    out.push(b' ')?;
    put_number(out, number as u64, b'\n')?;
    Ok(())
}

fn put_number(out: &mut Vec<u8>, number: u64, end: u8) -> Result<(), AllocError>
    ensures { OnOk result (out.new.items ≡ out.old.items ++ (decimal number ++ end ∷ [])) }
{
    put_dec(out, u128::from(number))?;
    out.push(end)?;
    Ok(())
}

fn put_names(out: &mut Vec<u8>, names: &[Name]) -> Result<(), AllocError>
    ensures lines { OnOk result (out.new.items ≡ out.old.items ++ flat_map name_line names.now) }
    ensures names { OnOk result (list_all is_name names.now ≡ true) }
{
    for name in names {
        out.extend_from_slice(name.bytes())?;
        out.push(b'\n')?;
    }
    Ok(())
}

fn put_known(out: &mut Vec<u8>, rows: &[KnownRow]) -> Result<(), AllocError>
    ensures { OnOk result (out.new.items ≡ out.old.items ++ flat_map known_line rows.now) }
{
    for row in rows {
        put_known_row(out, *row)?;
    }
    Ok(())
}

fn put_known_row(out: &mut Vec<u8>, row: KnownRow) -> Result<(), AllocError>
    ensures { OnOk result (out.new.items ≡ out.old.items ++ known_line row) }
{
    put_number(out, u64::from(row.epoch), b' ')?;
    put_number(out, u64::from(row.image), b' ')?;
    put_number(out, u64::from(row.event), b' ')?;
    put_number(out, u64::from(row.g), b'\n')?;
    Ok(())
}

fn put_unknown(out: &mut Vec<u8>, rows: &[UnknownRow]) -> Result<(), AllocError>
    ensures { OnOk result (out.new.items ≡ out.old.items ++ flat_map unknown_line rows.now) }
{
    for row in rows {
        put_unknown_row(out, *row)?;
    }
    Ok(())
}

fn put_unknown_row(out: &mut Vec<u8>, row: UnknownRow) -> Result<(), AllocError>
    ensures { OnOk result (out.new.items ≡ out.old.items ++ unknown_line row) }
{
    put_number(out, u64::from(row.epoch), b' ')?;
    put_number(out, u64::from(row.event), b' ')?;
    put_number(out, u64::from(row.g), b'\n')?;
    Ok(())
}
