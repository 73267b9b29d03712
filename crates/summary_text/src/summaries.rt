//! The whole summary, and the lines of the drivers.
ghost use Rattle.std.specs.Prelude.{◌≡◌, ◌++◌, IfOk, OnOk};
ghost use Rattle.database_model.specs.Ranges.{IsRecorded};
ghost use Rattle.summary_text.specs.Summaries.{run_line, stats_line, stats_lines, summary_of};

use crate::fields::put_field;
use crate::tallies::{put_tally, put_total, run_tally};
use driver_model::Stats;
use run_record::RunRecord;
use std::alloc::{AllocError, Global};
use text_num::put_dec;

/// The summary of a run with this record and these statistics, by processor: a line `run R`; for each processor and event
/// that has samples a line `c CPU EVENT taken T known K unknown U lost L`; for each processor a line
/// `t CPU folded F placed P evicted E spilt S direct D`; and the sums of the lines `c`. All numbers are decimal.
pub fn summary_text(alloc: Global, kept: &RunRecord, stats: &[Stats]) -> Result<Vec<u8>, AllocError>
    requires { IsRecorded kept.now }
    ensures { IfOk result (λ text. text.items ≡ summary_of kept.now stats.now) }
{
    let rows = run_tally(alloc, kept)?;
    let mut out = Vec::new(alloc);
    put_run(&mut out, kept.run)?;
    put_tally(&mut out, &rows)?;
    put_drivers(&mut out, stats)?;
    put_total(&mut out, &rows)?;
    Ok(out)
}

fn put_run(out: &mut Vec<u8>, run: u32) -> Result<(), AllocError>
    ensures { OnOk result (out.new.items ≡ out.old.items ++ run_line run) }
{
    out.extend_from_slice(b"run ")?;
    put_dec(out, u128::from(run))?;
    out.push(b'\n')?;
    Ok(())
}

// A line for each driver, by processor.
fn put_drivers(out: &mut Vec<u8>, stats: &[Stats]) -> Result<(), AllocError>
    ensures { OnOk result (out.new.items ≡ out.old.items ++ stats_lines 0 stats.now) }
{
    for (cpu, of_cpu) in stats.iter().enumerate() {
        put_driver(out, cpu, of_cpu)?;
    }
    Ok(())
}

fn put_driver(out: &mut Vec<u8>, cpu: usize, stats: &Stats) -> Result<(), AllocError>
    ensures { OnOk result (out.new.items ≡ out.old.items ++ stats_line cpu stats.now) }
{
    out.extend_from_slice(b"t ")?;
    put_dec(out, cpu as u128)?;
    put_field(out, b"folded", u128::from(stats.folded))?;
    put_field(out, b"placed", u128::from(stats.placed))?;
    put_field(out, b"evicted", u128::from(stats.evicted))?;
    put_field(out, b"spilt", u128::from(stats.spilt))?;
    put_field(out, b"direct", u128::from(stats.direct))?;
    out.push(b'\n')?;
    Ok(())
}
