//! The lines of a trace while it is read.

ghost use Rattle.std.specs.Prelude.{◌≡◌, ℕ, [], ◌∷◌, ◌++◌, OnOk, IfOk, None, Some};
ghost use Rattle.trace_model.specs.Streams.{records_from};
ghost use Rattle.trace_cut.specs.Cutting.{lanes_in, streams_from};

use std::alloc::{AllocError, Global};
use std::marker::Model;
use told_list::Told;
use trace_cut::{Cutter, Streams};
use trace_model::Line;

/// The lines of a trace, as far as it was read. Contracts see the lines, and for how many processors they are cut, where
/// they are.
#[derive(Drop)]
pub struct Lines {
    kept: Kept,
}

// What is kept of them.
#[derive(Drop)]
pub(crate) enum Kept {
    // Each line.
    Whole(Vec<Line>),
    // No line; each was cut as it came.
    Cut(Cutter),
}

impl Model for Lines {
    ghost use Rattle.trace_lines.specs.Keeping.{LinesSoFar, cpus_of, lines_of};

    ghost Value = { LinesSoFar };

    ghost view = { λ lines. record { items = lines_of lines.kept; cpus = cpus_of lines.kept } };
}

impl Lines {
    /// No line yet; each is to be kept.
    pub fn whole(alloc: Global) -> Lines
        ensures { result ≡ record { items = []; cpus = None } }
    {
        Lines {
            kept: Kept::Whole(Vec::new(alloc)),
        }
    }

    /// No line yet; each is to be cut, for so many processors.
    pub fn cut(alloc: Global, cpus: u32) -> Result<Lines, AllocError>
        ensures { IfOk result (λ lines. lines ≡ record { items = []; cpus = Some cpus }) }
    {
        Ok(Lines {
            kept: Kept::Cut(Cutter::new(alloc, cpus)?),
        })
    }

    /// Takes the next line.
    pub fn push(&mut self, line: Line) -> Result<(), AllocError>
        ensures { OnOk result (self.new
            ≡ record { items = self.old.items ++ line ∷ []; cpus = self.old.cpus }) }
    {
        match &mut self.kept {
            Kept::Whole(lines) => lines.push(line)?,
            Kept::Cut(cutter) => cutter.take(&line)?,
        }
        Ok(())
    }

    /// The lines, which were kept.
    pub fn into_whole(self) -> Vec<Line>
        requires { self.cpus ≡ None }
        ensures { result.items ≡ self.items }
    {
        match self.kept {
            Kept::Whole(lines) => lines,
            Kept::Cut(_) => unreachable!(),
        }
    }

    /// The lines, for clauses alone, and their streams; they were cut for so many processors.
    pub fn into_streams(self) -> (Told<Line>, Streams)
        requires { (cpus : ℕ) × (self.cpus ≡ Some cpus) }
        ensures told { result.0.items ≡ self.items }
        ensures lanes { (cpus : ℕ) → self.cpus ≡ Some cpus →
            lanes_in result.1.lanes.items ≡ streams_from cpus self.items }
        ensures records { result.1.records.items ≡ records_from self.items }
    {
        match self.kept {
            Kept::Whole(_) => unreachable!(),
            Kept::Cut(cutter) => cutter.finish(),
        }
    }
}
