//! The input of a trace, line by line: `Input::next`.

ghost use Rattle.std.specs.Prelude.{◌≡◌, ℕ, ◌+◌, ◌^◌, ◌<◌, [], IfOk};
ghost use Rattle.std.specs.Io.KnownBytes.{prepend_known};
ghost use Rattle.line_reader.specs.Reading.{ReadsLine};
ghost use Rattle.trace_model.specs.declared.limits.TheConstants.{MOST_LINE_BYTES};
ghost use Rattle.trace_text.specs.Refusing.{TellsFaults, IsOfLineRefusal, IsLineFaultOnly};

use crate::refusals::{LineRefusal, TraceRefusal};
use line_reader::{Ending, LineReader};
use outside_io::Source;
use std::alloc::{AllocError, Global};
use trace_model::{MOST_LINE_BYTES, TraceWhy};

/// The input of a trace, line by line, with the number of the line that was read last, counted from 1.
#[derive(Drop)]
pub struct Input {
    /// What was read ahead of the line.
    pub reader: LineReader,
    /// The line that was read last, without its line feed.
    pub line: Vec<u8>,
    /// Its number, counted from 1; 0 before the first.
    pub number: u64,
}

impl Input {
    /// An input of which nothing was read.
    pub fn new(alloc: Global) -> Result<Input, AllocError>
        ensures { IfOk result (λ input. (input.reader ≡ []) × (input.number ≡ 0)) }
    {
        let reader = LineReader::new(alloc)?;
        Ok(Input {
            reader,
            line: Vec::new(alloc),
            number: 0,
        })
    }

    /// Reads the next line.
    pub fn next<S: Source>(&mut self, source: &mut S) -> Result<Ending, TraceRefusal>
        requires { self.old.number < 2 ^ 62 }
        ensures line { IfOk result (λ ending. ReadsLine MOST_LINE_BYTES ending self.new.line.items
            (prepend_known self.old.reader (S.left source.old))
            (prepend_known self.new.reader (S.left source.new))) }
        ensures number { IfOk result (λ _. self.new.number ≡ self.old.number + 1) }
        ensures only { IsLineFaultOnly result }
        ensures faults { TellsFaults (S.faults source.old) (S.faults source.new) result }
    {
        self.number += 1;
        let ending = self
            .reader
            .read_line(source, &mut self.line, MOST_LINE_BYTES)?;
        Ok(ending)
    }

    /// The refusal of the line that was read last.
    pub fn bad(&self, why: TraceWhy) -> TraceRefusal
        ensures { result ≡ TraceRefusal.Bad self.now.number why }
    {
        TraceRefusal::Bad {
            line: self.number,
            why,
        }
    }

    /// The same, for a line that was not taken.
    pub fn refused(&self, refusal: LineRefusal) -> TraceRefusal
        ensures { IsOfLineRefusal self.now.number refusal result }
    {
        match refusal {
            LineRefusal::Bad { why } => self.bad(why),
            LineRefusal::Memory => TraceRefusal::Memory,
        }
    }
}
