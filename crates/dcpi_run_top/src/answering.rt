//! The top call with threads.
ghost use Rattle.std.specs.Prelude.{◌≡◌, ◌↔◌, None, map, string_bytes};
ghost use Rattle.dcpi_top.specs.Commands.{command_of};
ghost use Rattle.dcpi_top.specs.Streams.{seen};
ghost use Rattle.dcpi_run_top.specs.Answering.{AnswersAll, AnswersRun};
ghost use Rattle.dcpi_run_top.specs.Paces.{pace_of};

use crate::paces::pace_of;
use crate::running::print_run;
use dcpi_top::laws::laws;
use dcpi_top::{dcpi_still, tell};
use outside_io::{Gate, Sink, Source};
use sample_key::Pace;
use std::alloc::Global;
use std::sync::Wait;
use std::thread::Threads;
use store_io::Store;

/// Serves the words behind the program's name and answers the status. `run DB --pace free` and `run DB --pace exact` run
/// the trace on the input into the database by a thread for each processor and write the summary of the run; the statuses
/// are those of a replay. `gate` is told where each thread is. Such a call may never return. All other words are served by
/// [`dcpi_still`].
pub fn dcpi<R: Threads + Wait + Sync, S: Source, D: Store, W: Sink, E: Sink, G: Gate + Sync>(
    rt: &R,
    alloc: Global,
    words: &Vec<String>,
    source: &mut S,
    store: &mut D,
    out: &mut W,
    err: &mut E,
    gate: &G,
) -> u8
    ensures answers { AnswersAll D.files D.faults D.moment D.left_since
        (pace_of (map string_bytes words.now.items)) (record {
          words = map string_bytes words.now.items;
          input = seen S.left S.faults source.old source.new;
          disk = seen D.files D.faults store.old store.new;
          output = seen W.written W.faults out.old out.new;
          errors = seen E.written E.faults err.old err.new;
        }) store.old store.new result }
    ensures usage { (result ≡ 1) ↔ ((pace_of (map string_bytes words.now.items) ≡ None)
        × (command_of (map string_bytes words.now.items) ≡ None)) }
    ensures origin { D.origin store.new ≡ D.origin store.old }
{
    match pace_of(words) {
        Some(pace) => serve_run(rt, alloc, words, pace, source, store, out, err, gate),
        None => dcpi_still(alloc, words, source, store, out, err),
    }
}

/// Serves the words that ask for a run at this pace.
fn serve_run<R: Threads + Wait + Sync, S: Source, D: Store, W: Sink, E: Sink, G: Gate + Sync>(
    rt: &R,
    alloc: Global,
    words: &Vec<String>,
    pace: Pace,
    source: &mut S,
    store: &mut D,
    out: &mut W,
    err: &mut E,
    gate: &G,
) -> u8
    ensures answers { AnswersRun D.files D.faults D.moment D.left_since pace (record {
      words = map string_bytes words.now.items;
      input = seen S.left S.faults source.old source.new;
      disk = seen D.files D.faults store.old store.new;
      output = seen W.written W.faults out.old out.new;
      errors = seen E.written E.faults err.old err.new;
    }) store.old store.new result }
    ensures origin { D.origin store.new ≡ D.origin store.old }
{
    laws();
    match print_run(rt, alloc, pace, source, store, out, gate) {
        Ok(()) => 0,
        Err(refusal) => {
            tell(alloc, err, &refusal);
            refusal.status()
        }
    }
}
