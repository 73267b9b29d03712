//! The command `plain`: the counts by place of a trace, taken from the trace alone.
ghost use Rattle.std.specs.Prelude.{IfOk, OnOk};
ghost use Rattle.std.specs.Io.KnownBytes.{IsAtEnd};
ghost use Rattle.trace_text.specs.Refusing.{IsFirstBadOf, TellsFaults};
ghost use Rattle.dcpi_top.specs.declared.commands.Command.TheVariants as commands;
ghost use Rattle.dcpi_top.specs.Causes.{GivesText};
ghost use Rattle.dcpi_top.specs.Plains.{IsPlainTextOf};
ghost use Rattle.dcpi_top.specs.Streams.{Disk, IsUntouched, seen};

use crate::refusals::Refusal;
use direct_counts::{counts_text, plain_counts};
use outside_io::Source;
use std::alloc::Global;
use trace_text::{TraceRefusal, read_trace};

/// The counts by place of the trace on the input, as text; the schedule of the trace is not used. A trace that is not in
/// the grammar is refused at its first bad line.
pub fn plain<S: Source>(alloc: Global, source: &mut S) -> Result<Vec<u8>, TraceRefusal>
    ensures text { IfOk result (λ text. IsPlainTextOf (S.left source.old) text.items) }
    ensures whole { OnOk result (IsAtEnd (S.left source.new)) }
    ensures bad { IsFirstBadOf (S.left source.old) result }
    ensures faults { TellsFaults (S.faults source.old) (S.faults source.new) result }
{
    let trace = read_trace(alloc, source)?;
    let counts = plain_counts(alloc, &trace)?;
    let text = counts_text(alloc, &counts)?;
    Ok(text)
}

/// The same as the text of a command.
pub(crate) fn plain_text<S: Source>(alloc: Global, source: &mut S) -> Result<Vec<u8>, Refusal>
    ensures { (disk : Disk) → IsUntouched disk → GivesText (λ text. text.items) commands.Plain
        (seen S.left S.faults source.old source.new) disk result }
{
    let text = plain(alloc, source)?;
    Ok(text)
}
