//! Reading a head: taking its text apart, and comparing it with the text of what was found.
ghost use Rattle.std.specs.Prelude.{◌≡◌, ◌≢◌, ◌<◌, ◌≤◌, ◌++◌, ◌∷◌, [], List, ℕ, true, length, MatchOption, IfOk, OnOk};
ghost use Rattle.std.specs.List.{list_all, flat_map, AllByRecursion};
ghost use Rattle.text_num.specs.Names.{is_name};
ghost use Rattle.image_catalog.specs.Images.{AreImages};
ghost use Rattle.database_state.specs.declared.rows.KnownRow.{KnownRow as Known};
ghost use Rattle.database_state.specs.declared.rows.UnknownRow.{UnknownRow as Unknown};
ghost use Rattle.head_file.specs.Words.{KnownFits, UnknownFits};
ghost use Rattle.database_state.specs.declared.limits.TheConstants.{MOST_ROWS};
ghost use Rattle.database_state.specs.Heads as heads;
ghost use Rattle.database_state.specs.Heads.{IsHead, head_text, name_line, known_line, unknown_line};

use crate::heads::Head;
use crate::ranges::is_in_range;
use crate::words::{next_line, next_number, next_word};
use crate::writing::write_head;
use database_state::{KnownRow, MOST_ROWS, UnknownRow};
use image_catalog::{Catalog, CatalogError};
use std::alloc::{AllocError, Global};
use text_num::Name;

/// The head of this generation that the bytes are the text of; nothing exactly where they are none's.
pub fn read_head(alloc: Global, bytes: &[u8], generation: u32) -> Result<Option<Head>, AllocError>
    ensures { IfOk result (λ found. MatchOption found
        ((h : heads.Head) → IsHead h → h.generation ≡ generation → bytes.now ≢ head_text h)
        (λ h. (bytes.now ≡ head_text h) × IsHead h × (h.generation ≡ generation))) }
{
    let head = taken_apart(alloc, bytes)?;
    if head.generation != generation || head.generation < 1 || head.runs < 1 {
        return Ok(None);
    }
    if !is_in_range(&head) {
        return Ok(None);
    }
    let text = write_head(alloc, &head)?;
    if text.as_slice() != bytes {
        return Ok(None);
    }
    Ok(Some(head))
}

/// What the words of a text say, if it is the text of a head.
fn taken_apart(alloc: Global, bytes: &[u8]) -> Result<Head, AllocError>
    ensures { IfOk result (λ found. (h : heads.Head) → IsHead h → bytes.now ≡ head_text h →
        found ≡ h) }
{
    let (_format, text) = next_line(bytes);
    let (generation, text) = next_line(text);
    let (epoch, text) = next_line(text);
    let (runs, text) = next_line(text);
    let (images, text) = next_line(text);
    let (catalog, text) = images_of(alloc, text, images)?;
    let (profiles, text) = next_line(text);
    let (known, text) = known_of(alloc, text, profiles)?;
    let (unknowns, text) = next_line(text);
    let unknown = unknown_of(alloc, text, unknowns)?;
    Ok(Head {
        generation,
        epoch,
        runs,
        catalog,
        known,
        unknown,
    })
}

fn images_of(alloc: Global, text: &[u8], count: u32) -> Result<(Catalog, &[u8]), AllocError>
    ensures { IfOk result (λ found. (names : List (List ℕ)) (rest : List ℕ) → AreImages names →
        list_all is_name names ≡ true → length names ≡ count →
        text.now ≡ flat_map name_line names ++ rest → (found.0 ≡ names) × (found.1.now ≡ rest)) }
{
    let mut catalog = Catalog::new(alloc);
    let mut rest = text;
    for _ in 0..u128::from(count).min(MOST_ROWS) {
        let (word, more) = next_word(rest);
        add_image(alloc, &mut catalog, word)?;
        rest = more;
    }
    Ok((catalog, rest))
}

/// Adds an image, where the word is a name and there is room.
fn add_image(alloc: Global, catalog: &mut Catalog, word: &[u8]) -> Result<(), AllocError>
    ensures { OnOk result (is_name word.now ≡ true → AreImages (catalog.old ++ word.now ∷ []) →
        catalog.new ≡ catalog.old ++ word.now ∷ []) }
{
    match Name::of_bytes(alloc, word)? {
        None => Ok(()),
        Some(name) => match catalog.number_of(alloc, &name) {
            Err(CatalogError::Memory) => Err(AllocError),
            Err(CatalogError::Full) => Ok(()),
            Ok(_) => Ok(()),
        },
    }
}

fn known_of(alloc: Global, text: &[u8], count: u32) -> Result<(Vec<KnownRow>, &[u8]), AllocError>
    ensures { IfOk result (λ found. (rows : List Known) (rest : List ℕ) →
        AllByRecursion KnownFits rows → length rows ≡ count → length rows ≤ MOST_ROWS →
        text.now ≡ flat_map known_line rows ++ rest →
        (found.0.items ≡ rows) × (found.1.now ≡ rest)) }
{
    let mut rows = Vec::new(alloc);
    let mut rest = text;
    for _ in 0..u128::from(count).min(MOST_ROWS) {
        let (row, more) = known_row(rest);
        rows.push(row)?;
        rest = more;
    }
    Ok((rows, rest))
}

fn known_row(text: &[u8]) -> (KnownRow, &[u8])
    ensures { (r : Known) (rest : List ℕ) → KnownFits r → text.now ≡ known_line r ++ rest →
        (result.0 ≡ r) × (result.1.now ≡ rest) }
{
    let (epoch, text) = next_number(text);
    let (image, text) = next_number(text);
    let (event, text) = next_number(text);
    let (g, text) = next_number(text);
    let event = u8::try_from(event).unwrap_or(0);
    (
        KnownRow {
            epoch,
            image,
            event,
            g,
        },
        text,
    )
}

fn unknown_of(alloc: Global, text: &[u8], count: u32) -> Result<Vec<UnknownRow>, AllocError>
    ensures { IfOk result (λ found. (rows : List Unknown) (rest : List ℕ) →
        AllByRecursion UnknownFits rows → length rows ≡ count → length rows ≤ MOST_ROWS →
        text.now ≡ flat_map unknown_line rows ++ rest → found.items ≡ rows) }
{
    let mut rows = Vec::new(alloc);
    let mut rest = text;
    for _ in 0..u128::from(count).min(MOST_ROWS) {
        let (row, more) = unknown_row(rest);
        rows.push(row)?;
        rest = more;
    }
    Ok(rows)
}

fn unknown_row(text: &[u8]) -> (UnknownRow, &[u8])
    ensures { (r : Unknown) (rest : List ℕ) → UnknownFits r → text.now ≡ unknown_line r ++ rest →
        (result.0 ≡ r) × (result.1.now ≡ rest) }
{
    let (epoch, text) = next_number(text);
    let (event, text) = next_number(text);
    let (g, text) = next_number(text);
    let event = u8::try_from(event).unwrap_or(0);
    (UnknownRow { epoch, event, g }, text)
}
