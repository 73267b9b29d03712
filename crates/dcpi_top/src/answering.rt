//! The top call: it serves a command and answers with a status.
ghost use Rattle.std.specs.Prelude.{◌≡◌, Some, map, string_bytes};
ghost use Rattle.dcpi_top.specs.Answers.{Answers, ServesCall};
ghost use Rattle.dcpi_top.specs.Causes.{GivesText, LeavesAlone};
ghost use Rattle.dcpi_top.specs.Commands.{MakesFew, command_of};
ghost use Rattle.dcpi_top.specs.Moments.{LeavesAtAnyMoment};
ghost use Rattle.dcpi_top.specs.Refusals.{refused, status_in};
ghost use Rattle.dcpi_top.specs.Streams.{seen};

use crate::commands::{Command, words_of};
use crate::laws::laws;
use crate::listings::{counts_of, image_text, procedure_text, runs_of};
use crate::makes::make_text;
use crate::messages::tell;
use crate::plains::plain_text;
use crate::refusals::Refusal;
use crate::replays::replay_text;
use crate::tidies::tidy_text;
use outside_io::{Sink, Source, put_all};
use std::alloc::Global;
use store_io::Store;

/// Serves the words behind the program's name and answers the status: 0 where the text was written, 1 where the words
/// have no form of a command, 2 where the trace is not in the grammar, 3 where a read failed, 4 where a call of the store
/// failed, 5 where a write failed, 6 where no memory was found, 7 where a file of the database is bad, 8 where the database
/// is full, 9 where the symbol list is not in the grammar, 10 where the epoch is above the last one. Where it is neither 0
/// nor 5 nothing is written to `out`, and where it is not 0 one line goes to `err`.
pub fn dcpi_still<S: Source, D: Store, W: Sink, E: Sink>(
    alloc: Global,
    words: &Vec<String>,
    source: &mut S,
    store: &mut D,
    out: &mut W,
    err: &mut E,
) -> u8
    ensures answers { Answers (record {
      words = map string_bytes words.now.items;
      input = seen S.left S.faults source.old source.new;
      disk = seen D.files D.faults store.old store.new;
      output = seen W.written W.faults out.old out.new;
      errors = seen E.written E.faults err.old err.new;
    }) result }
    ensures any_moment { LeavesAtAnyMoment D.files D.moment D.left_since
        (command_of (map string_bytes words.now.items))
        (seen S.left S.faults source.old source.new) store.old store.new result }
    ensures origin { D.origin store.new ≡ D.origin store.old }
{
    laws();
    match serve(alloc, words, source, store, out) {
        Ok(()) => 0,
        Err(refusal) => {
            tell(alloc, err, &refusal);
            refusal.status()
        }
    }
}

/// Writes the text of the command that the words name.
fn serve<S: Source, D: Store, W: Sink>(
    alloc: Global,
    words: &Vec<String>,
    source: &mut S,
    store: &mut D,
    out: &mut W,
) -> Result<(), Refusal>
    ensures serves { ServesCall (command_of (map string_bytes words.now.items))
        (seen S.left S.faults source.old source.new)
        (seen D.files D.faults store.old store.new)
        (seen W.written W.faults out.old out.new) (refused result) }
    ensures any_moment { LeavesAtAnyMoment D.files D.moment D.left_since
        (command_of (map string_bytes words.now.items))
        (seen S.left S.faults source.old source.new) store.old store.new
        (status_in (refused result)) }
    ensures origin { D.origin store.new ≡ D.origin store.old }
{
    let Some(command) = words_of(words) else {
        return Err(Refusal::Usage);
    };
    let text = text_for(alloc, command, source, store)?;
    put_all(out, &text)?;
    Ok(())
}

/// The text of a command.
fn text_for<S: Source, D: Store>(
    alloc: Global,
    command: Command,
    source: &mut S,
    store: &mut D,
) -> Result<Vec<u8>, Refusal>
    requires few { MakesFew command }
    ensures gives { GivesText (λ text. text.items) command
        (seen S.left S.faults source.old source.new)
        (seen D.files D.faults store.old store.new) result }
    ensures alone { LeavesAlone command (seen S.left S.faults source.old source.new)
        (seen D.files D.faults store.old store.new) }
    ensures any_moment { LeavesAtAnyMoment D.files D.moment D.left_since (Some command)
        (seen S.left S.faults source.old source.new) store.old store.new
        (status_in (refused result)) }
    ensures origin { D.origin store.new ≡ D.origin store.old }
{
    match command {
        Command::Plain => plain_text(alloc, source),
        Command::Replay => replay_text(alloc, source, store),
        Command::ProfImage { epochs, event, csv } => image_text(alloc, store, epochs, event, csv),
        Command::ProfProcedure { epochs, event, csv } => {
            procedure_text(alloc, source, store, epochs, event, csv)
        }
        Command::Cat => counts_of(alloc, store),
        Command::Runs => runs_of(alloc, store),
        Command::Tidy => tidy_text(alloc, store),
        Command::Make {
            seed,
            samples,
            trace,
        } => make_text(alloc, seed, samples, trace),
    }
}
