//! Reads a symbol list: `read_symbols` takes line by line, to the end of the input or to the first bad line.

ghost use Rattle.std.specs.Prelude.{◌≡◌, ℕ, ◌+◌, ◌<◌, ◌≤◌, length, OnOk, IfOk, IfSome, [], if◌then◌else◌};
ghost use Rattle.std.specs.Io.KnownBytes.{IsAtEnd, prepend_known};
ghost use Rattle.symbol_ranges.specs.declared.symbols.TheConstants.{MOST_LINES};
ghost use Rattle.symbol_ranges.specs.Lines.{Reads};
ghost use Rattle.symbol_ranges.specs.Reading.{IsFirstBad, IsOfLineError, OnBad, Steps, Stops, TellsFaults};

use crate::refusals::{SymbolLineError, SymbolRefusal, SymbolWhy};
use crate::symbols::{MOST_LINE_BYTES, MOST_LINES, Symbols};
use line_reader::{Ending, LineReader};
use outside_io::Source;
use std::alloc::Global;

/// Reads a symbol list to its end, or to its first bad line. `Bad` comes exactly where the input is no list; at `Ok`
/// nothing of the input is left unread. An input that never ends is refused, whatever its bytes are: the line that `Bad`
/// names is at most the one behind the last that a list may have, and a line is read to 601 bytes at most.
pub fn read_symbols<S: Source>(alloc: Global, source: &mut S) -> Result<Symbols, SymbolRefusal>
    ensures reads { IfOk result (λ symbols.
        IfSome (S.left source.old) (λ bytes. Reads bytes symbols)) }
    ensures whole { OnOk result (IsAtEnd (S.left source.new)) }
    ensures bad { OnBad (IsFirstBad (S.left source.old)) result }
    ensures within { OnBad (λ line why. line ≤ MOST_LINES + 1) result }
    ensures faults { TellsFaults (S.faults source.old) (S.faults source.new) result }
{
    let mut symbols = Symbols::new(alloc);
    let mut reader = LineReader::new(alloc)?;
    let mut line = Vec::new(alloc);
    for number in 1..MOST_LINES as u64 + 2 {
        let more = step(alloc, source, &mut reader, &mut line, number, &mut symbols)?;
        match more {
            true => {}
            false => return Ok(symbols),
        }
    }
    unreachable!()
}

// Reads the next line and adds it; answers whether there was one.
fn step<S: Source>(
    alloc: Global,
    source: &mut S,
    reader: &mut LineReader,
    line: &mut Vec<u8>,
    number: u64,
    symbols: &mut Symbols,
) -> Result<bool, SymbolRefusal>
    requires number { number ≡ length symbols.old + 1 }
    requires few { length symbols.old ≤ MOST_LINES }
    ensures steps { IfOk result (λ more. Steps more
        (prepend_known reader.old (S.left source.old))
        (prepend_known reader.new (S.left source.new)) symbols.old symbols.new) }
    ensures few { OnOk result (length symbols.new ≤ MOST_LINES) }
    ensures stops { OnBad
        (Stops (prepend_known reader.old (S.left source.old)) symbols.old) result }
    ensures faults { TellsFaults (S.faults source.old) (S.faults source.new) result }
{
    let ending = reader.read_line(source, line, MOST_LINE_BYTES)?;
    match ending {
        Ending::Finished => match symbols.add_line(alloc, line) {
            Ok(()) => Ok(true),
            Err(error) => Err(refused(number, error)),
        },
        Ending::Unfinished => {
            if line.is_empty() {
                Ok(false)
            } else {
                Err(bad(number, SymbolWhy::Unfinished))
            }
        }
        Ending::TooLong => Err(bad(number, SymbolWhy::BadLine)),
    }
}

// The refusal of a line.
fn bad(number: u64, why: SymbolWhy) -> SymbolRefusal
    ensures { result ≡ SymbolRefusal.Bad number why }
{
    SymbolRefusal::Bad { line: number, why }
}

fn refused(number: u64, error: SymbolLineError) -> SymbolRefusal
    ensures { IsOfLineError number error result }
{
    match error {
        SymbolLineError::Bad { why } => bad(number, why),
        SymbolLineError::Memory => SymbolRefusal::Memory,
    }
}
