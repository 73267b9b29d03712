//! What a record asks of the daemon, and what the daemon asks of the drivers.

ghost use Rattle.std.specs.Prelude.{◌≡◌, ◌^◌, ◌≤◌, ◌<◌, if◌then◌else◌, length};
ghost use Rattle.trace_model.specs.Parts.{begins_epoch, ends_part};
ghost use Rattle.run_model.specs.Daemon.{flush_before, in_force, needs_flush};
ghost use Rattle.dcpid_core.specs.Flushes.{first_incomplete};

use crate::flushes::Flush;
use sample_key::Pace;
use trace_model::Record;

// The bell value that says that so many records are in force.
pub(crate) fn in_force(applied: u32) -> u64
    ensures { result ≡ in_force applied }
{
    2 * u64::from(applied)
}

// The bell value that asks besides for a flush.
pub(crate) fn flush_before(applied: u32) -> u64
    ensures { result ≡ flush_before applied }
{
    2 * u64::from(applied) + 1
}

// Whether a record waits for a flush before it is put in force.
pub(crate) fn needs_flush(pace: Pace, notice: &Record) -> bool
    ensures { result ≡ needs_flush pace notice.now }
{
    match pace {
        Pace::Exact => true,
        Pace::Free => match notice {
            Record::Scan { .. }
            | Record::Load { .. }
            | Record::Unload { .. }
            | Record::Exec { .. }
            | Record::Exit { .. }
            | Record::Kernel { .. }
            | Record::Merge => false,
            Record::Drain | Record::Epoch => true,
        },
    }
}

// Whether a record ends a part of the run.
pub(crate) fn ends_part(notice: &Record) -> bool
    ensures { result ≡ ends_part notice.now }
{
    match notice {
        Record::Scan { .. }
        | Record::Load { .. }
        | Record::Unload { .. }
        | Record::Exec { .. }
        | Record::Exit { .. }
        | Record::Kernel { .. }
        | Record::Drain => false,
        Record::Merge | Record::Epoch => true,
    }
}

// How many epochs a record begins.
pub(crate) fn epochs_begun(notice: &Record) -> u32
    ensures { result ≡ (if begins_epoch notice.now then 1 else 0) }
{
    match notice {
        Record::Scan { .. }
        | Record::Load { .. }
        | Record::Unload { .. }
        | Record::Exec { .. }
        | Record::Exit { .. }
        | Record::Kernel { .. }
        | Record::Drain
        | Record::Merge => 0,
        Record::Epoch => 1,
    }
}

// The first processor whose flush is not complete.
pub(crate) fn first_incomplete(value: u64, flushes: &[Flush]) -> Option<u32>
    requires { length flushes.now < 2 ^ 32 }
    ensures { result ≡ first_incomplete value 0 flushes.now }
{
    let mut cpu: u32 = 0;
    for flush in flushes {
        if !flush.is_complete(value) {
            return Some(cpu);
        }
        cpu += 1;
    }
    None
}
