//! The symbol list itself: `Symbols::add_line` adds a line, `Symbols::name_at` finds a procedure. It is the list of its
//! lines in the order in which they were added; the ranges of one image have no offset in common at any moment.

ghost use Rattle.std.specs.Prelude.{◌≡◌, ◌<◌, ◌≤◌, [], ◌∷◌, ◌++◌, ◌&&◌, true, false, length, find, OnOk, OnErr, IfErr, IfOk};
ghost use Rattle.std.specs.Option.{option_copied};
ghost use Rattle.symbol_ranges.specs.Lines.{AreApart, are_titled, cut_at_spaces, meets, named, overlaps, verdict};
ghost use Rattle.symbol_ranges.specs.Reads.{texts_of, Adds, Meeting, IsJudgedRange, IsRefusal, Fits, symbol_in};
ghost use Rattle.symbol_ranges.specs.declared.symbols.TheConstants.{MOST_LINES};

use crate::fields::{Fields, Range, are_names, fields_of, is_aligned, range_of, why_no_range};
use crate::index::{count_before, first_meeting};
use crate::refusals::{SymbolLineError, SymbolWhy};
use std::alloc::{AllocError, Global};
use std::marker::Model;
use text_num::Name;

/// The most lines of a symbol list.
pub const MOST_LINES: usize = 1_048_576;

/// The most bytes of a line, without its line feed.
pub const MOST_LINE_BYTES: usize = 600;

/// What a line says: the offsets of an image from `start` up to, without, `end` are a procedure of this name.
#[derive(Drop)]
pub struct Symbol {
    /// The image.
    pub image: Name,
    /// The first offset.
    pub start: u64,
    /// The first offset behind it.
    pub end: u64,
    /// The procedure.
    pub name: Name,
}

/// A list of symbols.
#[derive(Drop)]
pub struct Symbols {
    // The lines in the order in which they were added.
    lines: Vec<Symbol>,
    // Their places, in the order of their images and ranges.
    order: Vec<u32>,
}

impl Model for Symbols {
    ghost use Rattle.std.specs.Prelude.{List};
    ghost use Rattle.symbol_ranges.specs.declared.symbols.Symbol.{Symbol};
    ghost use Rattle.symbol_ranges.specs.Index.{IsIndexed};

    ghost Value = { List Symbol };

    ghost view = { λ s. s.lines.items };

    ghost invariant = { λ s. IsIndexed s.lines.items s.order.items };
}

impl Symbols {
    /// A list without lines. It takes no memory.
    pub fn new(alloc: Global) -> Symbols
        ensures { result ≡ [] }
    {
        Symbols {
            lines: Vec::new(alloc),
            order: Vec::new(alloc),
        }
    }

    /// The procedure of an image whose range covers an offset; nothing exactly where none does.
    pub fn name_at(&self, image: &Name, offset: u64) -> Option<&Name>
        ensures name { option_copied result ≡ named self.now image.now offset }
        ensures apart { AreApart self.now }
    {
        match self.meeting(image.bytes(), offset, offset) {
            Some(symbol) => Some(&symbol.name),
            None => None,
        }
    }

    /// Adds a line, given without its line feed, behind the others; `Bad` with the first reason that applies to it after
    /// them. After a refusal the list is as before.
    pub fn add_line(&mut self, alloc: Global, line: &[u8]) -> Result<(), SymbolLineError>
        ensures added { OnOk result (Adds self.old line.now self.new) }
        ensures refused { IfErr result (IsRefusal (verdict self.old line.now)) }
        ensures few { OnOk result (length self.new ≤ MOST_LINES) }
        ensures kept { OnErr result (self.new ≡ self.old) }
    {
        if line.len() > MOST_LINE_BYTES {
            return Err(SymbolLineError::Bad {
                why: SymbolWhy::BadLine,
            });
        }
        let Some(fields) = fields_of(line) else {
            return Err(SymbolLineError::Bad {
                why: SymbolWhy::BadLine,
            });
        };
        let range = self.judge(&fields)?;
        self.push(alloc, &fields, range)?;
        Ok(())
    }

    // The range of a line of four fields, or the first reason that applies to it.
    fn judge(&self, fields: &Fields<'_>) -> Result<Range, SymbolWhy>
        ensures judged { IsJudgedRange self.now (texts_of fields.now) result }
        ensures fits { IfOk result (λ range.
            Fits self.now (symbol_in (texts_of fields.now) range)) }
    {
        let Some(range) = range_of(fields) else {
            return Err(why_no_range(fields));
        };
        if !is_aligned(range) {
            return Err(SymbolWhy::Unaligned);
        }
        if !are_names(fields) {
            return Err(SymbolWhy::BadName);
        }
        if self.overlaps(fields.image, range) {
            return Err(SymbolWhy::Overlap);
        }
        if self.lines.len() >= MOST_LINES {
            return Err(SymbolWhy::TooMany);
        }
        Ok(range)
    }

    // Whether a range of an image has an offset in common with a line.
    fn overlaps(&self, image: &[u8], range: Range) -> bool
        requires { range.start < range.end }
        ensures { result ≡ overlaps self.now image.now range.start range.end }
    {
        match self.meeting(image, range.start, range.end - 1) {
            Some(_) => true,
            None => false,
        }
    }

    // A line of an image that has an offset from `first` to `last`: the first one by its range.
    fn meeting(&self, image: &[u8], first: u64, last: u64) -> Option<&Symbol>
        requires { first ≤ last }
        ensures found { Meeting self.now image.now first last (option_copied result) }
        ensures apart { AreApart self.now }
    {
        first_meeting(&self.lines, &self.order, image, first, last)
    }

    // Adds what a good line says.
    fn push(&mut self, alloc: Global, fields: &Fields<'_>, range: Range) -> Result<(), AllocError>
        requires fits { Fits self.old (symbol_in (texts_of fields.now) range) }
        requires titled { are_titled (texts_of fields.now) ≡ true }
        ensures pushed { OnOk result
            (self.new ≡ self.old ++ symbol_in (texts_of fields.now) range ∷ []) }
        ensures few { OnOk result (length self.new ≤ MOST_LINES) }
        ensures kept { OnErr result (self.new ≡ self.old) }
    {
        let at = count_before(&self.lines, &self.order, fields.image, range.start);
        let symbol = symbol_of(alloc, fields, range)?;
        let number = self.lines.len();
        self.order.reserve(1)?;
        if self.lines.push(symbol).is_err() {
            return Err(AllocError);
        }
        match self.order.insert(at, number as u32) {
            Ok(()) => Ok(()),
            Err(_) => unreachable!(),
        }
    }
}

fn symbol_of(alloc: Global, fields: &Fields<'_>, range: Range) -> Result<Symbol, AllocError>
    requires { are_titled (texts_of fields.now) ≡ true }
    ensures { IfOk result (λ symbol. symbol ≡ symbol_in (texts_of fields.now) range) }
{
    let Some(image) = Name::of_bytes(alloc, fields.image)? else {
        unreachable!()
    };
    let Some(name) = Name::of_bytes(alloc, fields.name)? else {
        unreachable!()
    };
    Ok(Symbol {
        image,
        start: range.start,
        end: range.end,
        name,
    })
}
