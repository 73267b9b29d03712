//! The text of a run: its line, and the lines of its tally.
ghost use Rattle.std.specs.Prelude.{◌≡◌, ◌++◌, OnOk};
ghost use Rattle.database_model.specs.Ranges.{IsRecorded};
ghost use Rattle.run_listing.specs.Steps.{shown};
ghost use Rattle.run_listing.specs.Texts.{ending, run_line};

use crate::joins::JoinedRun;
use std::alloc::{AllocError, Global};
use summary_text::{put_tally, run_tally};
use text_num::put_dec;

/// Appends the text of a run, if it is not run 0, which stands before the first.
pub(crate) fn put_run(alloc: Global, out: &mut Vec<u8>, run: &JoinedRun) -> Result<(), AllocError>
    requires { IsRecorded run.now.kept }
    ensures { OnOk result (out.new.items ≡ out.old.items ++ shown run.now) }
{
    if run.kept.run == 0 {
        return Ok(());
    }
    put_run_line(out, run)?;
    let rows = run_tally(alloc, &run.kept)?;
    put_tally(out, &rows)
}

fn put_run_line(out: &mut Vec<u8>, run: &JoinedRun) -> Result<(), AllocError>
    ensures { OnOk result (out.new.items ≡ out.old.items
        ++ run_line run.now.kept.run run.now.parts run.now.whole) }
{
    out.extend_from_slice(b"run ")?;
    put_dec(out, u128::from(run.kept.run))?;
    out.extend_from_slice(b" parts ")?;
    put_dec(out, u128::from(run.parts))?;
    out.push(b' ')?;
    out.extend_from_slice(ending_of(run.whole))?;
    out.push(b'\n')?;
    Ok(())
}

fn ending_of(whole: bool) -> &'static [u8]
    ensures { result.now ≡ ending whole }
{
    if whole { b"whole" } else { b"cut" }
}
