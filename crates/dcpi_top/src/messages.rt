//! The line on the error output that a refusal brings.
ghost use Rattle.std.specs.Prelude.{◌≡◌, ◌≤◌, ◌++◌, IfOk, OnOk, codes};
ghost use Rattle.std.specs.Fmt.{decimal};
ghost use Rattle.store_io.specs.FileNames.{file_name};
ghost use Rattle.dcpi_top.specs.Messages.{Tells, address_words, amount_words, coded_name, ended, epoch_words, first_words, full_place, full_words, last_words, line_of, place_words, word_of};
ghost use Rattle.dcpi_top.specs.Streams.{seen};

use crate::refusals::Refusal;
use database_state::FullWhat;
use outside_io::{Sink, put_all};
use sample_key::Event;
use std::alloc::{AllocError, Global};
use store_io::{FileRef, name_of};
use text_num::{put_dec, put_hex};
use trace_text::TraceWhy;

/// Writes the line of a refusal: its first words where there is no memory for the rest, and less only where a write
/// failed.
pub fn tell<E: Sink>(alloc: Global, err: &mut E, refusal: &Refusal)
    ensures told { Tells refusal.now (seen E.written E.faults err.old err.new) }
    ensures counts { E.faults err.old ≤ E.faults err.new }
{
    let _ = match line(alloc, refusal) {
        Ok(text) => put_all(err, &text),
        Err(_) => put_all(err, first_words(refusal)),
    };
}

/// The whole line.
fn line(alloc: Global, refusal: &Refusal) -> Result<Vec<u8>, AllocError>
    ensures { IfOk result (λ text. text.items ≡ line_of refusal.now) }
{
    let mut text = Vec::from_slice(alloc, first_words(refusal))?;
    put_last_words(alloc, &mut text, refusal)?;
    Ok(text)
}

/// Appends the line from its first number or name on.
fn put_last_words(alloc: Global, text: &mut Vec<u8>, refusal: &Refusal) -> Result<(), AllocError>
    ensures { OnOk result (text.new.items ≡ text.old.items ++ last_words refusal.now) }
{
    match *refusal {
        Refusal::Usage => Ok(()),
        Refusal::TraceBad { line, why } => put_place(text, line, word(why)),
        Refusal::ReadFault => Ok(()),
        Refusal::StoreFault => Ok(()),
        Refusal::WriteFault => Ok(()),
        Refusal::Memory => Ok(()),
        Refusal::DatabaseBad { file } => put_file(alloc, text, file),
        Refusal::Full { what, held, added } => put_full(text, what, held, added),
        Refusal::SymbolBad { line, why } => put_place(text, line, why.word()),
        Refusal::NoSuchEpoch { epoch, last } => put_epochs(text, epoch, last),
    }
}

/// Appends the number of a bad line and its reason.
fn put_place(text: &mut Vec<u8>, line: u64, reason: &[u8]) -> Result<(), AllocError>
    ensures { OnOk result (text.new.items ≡ text.old.items ++ place_words line reason.now) }
{
    put_dec(text, u128::from(line))?;
    text.extend_from_slice(b": ")?;
    text.extend_from_slice(reason)?;
    text.push(b'\n')?;
    Ok(())
}

/// Appends the name of a file that is bad.
fn put_file(alloc: Global, text: &mut Vec<u8>, file: FileRef) -> Result<(), AllocError>
    ensures { OnOk result
        (text.new.items ≡ text.old.items ++ (file_name file ++ ended (codes " is bad"))) }
{
    let name = name_of(alloc, &file)?;
    text.extend_from_slice(name.bytes())?;
    text.extend_from_slice(b" is bad\n")?;
    Ok(())
}

/// Appends a place that has no room, with what is held there and what was to be added.
fn put_full(text: &mut Vec<u8>, what: FullWhat, held: u64, added: u128) -> Result<(), AllocError>
    ensures { OnOk result
        (text.new.items ≡ text.old.items ++ (full_place what ++ amount_words held added)) }
{
    put_full_place(text, what)?;
    put_amounts(text, held, added)?;
    Ok(())
}

fn put_full_place(text: &mut Vec<u8>, what: FullWhat) -> Result<(), AllocError>
    ensures { OnOk result (text.new.items ≡ text.old.items ++ full_place what) }
{
    match what {
        FullWhat::Images => Ok(()),
        FullWhat::Known {
            epoch,
            image,
            event,
            offset,
        } => put_known_place(text, epoch, image, event, offset),
        FullWhat::Unknown { epoch, event, pc } => put_unknown_place(text, epoch, event, pc),
        FullWhat::Rows => Ok(()),
    }
}

fn put_known_place(
    text: &mut Vec<u8>,
    epoch: u32,
    image: u32,
    event: u8,
    offset: u64,
) -> Result<(), AllocError>
    ensures { OnOk result (text.new.items ≡ text.old.items ++ (decimal epoch
        ++ (codes " image " ++ (decimal image ++ address_words event offset)))) }
{
    put_dec(text, u128::from(epoch))?;
    text.extend_from_slice(b" image ")?;
    put_dec(text, u128::from(image))?;
    put_address(text, event, offset)?;
    Ok(())
}

fn put_unknown_place(text: &mut Vec<u8>, epoch: u32, event: u8, pc: u64) -> Result<(), AllocError>
    ensures { OnOk result
        (text.new.items ≡ text.old.items ++ (decimal epoch ++ address_words event pc)) }
{
    put_dec(text, u128::from(epoch))?;
    put_address(text, event, pc)?;
    Ok(())
}

/// Appends an event and an address, up to what is held there.
fn put_address(text: &mut Vec<u8>, event: u8, address: u64) -> Result<(), AllocError>
    ensures { OnOk result (text.new.items ≡ text.old.items ++ address_words event address) }
{
    text.push(b' ')?;
    text.extend_from_slice(coded_name(event))?;
    text.push(b' ')?;
    put_hex(text, address)?;
    text.extend_from_slice(b" held ")?;
    Ok(())
}

/// The name of the event of a code.
fn coded_name(code: u8) -> &'static [u8]
    ensures { result.now ≡ coded_name code }
{
    match Event::of_code(code) {
        Some(event) => event.name(),
        None => b"",
    }
}

/// Appends what is held and what was to be added.
fn put_amounts(text: &mut Vec<u8>, held: u64, added: u128) -> Result<(), AllocError>
    ensures { OnOk result (text.new.items ≡ text.old.items ++ amount_words held added) }
{
    put_dec(text, u128::from(held))?;
    text.extend_from_slice(b" added ")?;
    put_dec(text, added)?;
    text.push(b'\n')?;
    Ok(())
}

/// Appends the epoch that is not there, and the last one.
fn put_epochs(text: &mut Vec<u8>, epoch: u32, last: u32) -> Result<(), AllocError>
    ensures { OnOk result (text.new.items ≡ text.old.items ++ epoch_words epoch last) }
{
    put_dec(text, u128::from(epoch))?;
    text.extend_from_slice(b", last is ")?;
    put_dec(text, u128::from(last))?;
    text.push(b'\n')?;
    Ok(())
}

/// The line up to its first number or name.
fn first_words(refusal: &Refusal) -> &'static [u8]
    ensures { result.now ≡ first_words refusal.now }
{
    match *refusal {
        Refusal::Usage => b"dcpi: usage\n",
        Refusal::TraceBad { line: _, why: _ } => b"dcpi: trace line ",
        Refusal::ReadFault => b"dcpi: read fault\n",
        Refusal::StoreFault => b"dcpi: store fault\n",
        Refusal::WriteFault => b"dcpi: write fault\n",
        Refusal::Memory => b"dcpi: out of memory\n",
        Refusal::DatabaseBad { file: _ } => b"dcpi: database file ",
        Refusal::Full {
            what,
            held: _,
            added: _,
        } => full_words(what),
        Refusal::SymbolBad { line: _, why: _ } => b"dcpi: symbols line ",
        Refusal::NoSuchEpoch { epoch: _, last: _ } => b"dcpi: no epoch ",
    }
}

/// What has no room, up to the first number.
fn full_words(what: FullWhat) -> &'static [u8]
    ensures { result.now ≡ full_words what }
{
    match what {
        FullWhat::Images => b"dcpi: full: images held ",
        FullWhat::Known {
            epoch: _,
            image: _,
            event: _,
            offset: _,
        } => b"dcpi: full: known epoch ",
        FullWhat::Unknown {
            epoch: _,
            event: _,
            pc: _,
        } => b"dcpi: full: unknown epoch ",
        FullWhat::Rows => b"dcpi: full: rows held ",
    }
}

fn word(why: TraceWhy) -> &'static [u8]
    ensures { result.now ≡ word_of why }
{
    match why {
        TraceWhy::NotHeader => b"NotHeader",
        TraceWhy::BadWord => b"BadWord",
        TraceWhy::AfterEnd => b"AfterEnd",
        TraceWhy::BadNumber => b"BadNumber",
        TraceWhy::OutOfRange => b"OutOfRange",
        TraceWhy::Unaligned => b"Unaligned",
        TraceWhy::BadName => b"BadName",
        TraceWhy::NoSuchCpu => b"NoSuchCpu",
        TraceWhy::ScanTooLate => b"ScanTooLate",
        TraceWhy::TooManySamples => b"TooManySamples",
        TraceWhy::TooManyRecords => b"TooManyRecords",
        TraceWhy::NoEnd => b"NoEnd",
    }
}
