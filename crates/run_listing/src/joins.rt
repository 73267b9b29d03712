//! A run whose parts are read one after the other: which part is its next one, and what it holds with one more.
ghost use Rattle.std.specs.Prelude.{◌≡◌, ◌≤◌, ◌+◌, ◌++◌, true, [], OnOk};
ghost use Rattle.database_model.specs.Ranges.{IsRecorded, IsSegment};
ghost use Rattle.run_listing.specs.Orders.{begins_next, goes_on};
ghost use Rattle.run_listing.specs.Steps.{appended, no_parts, reached_by, started};

use run_record::{RunRecord, RunSegment};
use std::alloc::{AllocError, Global};

/// A run as far as its parts were read.
#[derive(Drop)]
pub(crate) struct JoinedRun {
    /// The drains of the parts in their order, and the losses of the last of them.
    pub kept: RunRecord,
    /// How many parts there are.
    pub parts: u32,
    /// Whether the last of them is the run's last.
    pub whole: bool,
}

impl JoinedRun {
    /// What stands before the first run: a run 0 that is whole and has no parts.
    pub fn none(alloc: Global) -> JoinedRun
        ensures run { result ≡ no_parts }
        ensures recorded { IsRecorded result.kept }
    {
        JoinedRun {
            kept: RunRecord {
                run: 0,
                first_epoch: 0,
                drains: Vec::new(alloc),
                losses: Vec::new(alloc),
            },
            parts: 0,
            whole: true,
        }
    }

    /// A run of its first part.
    pub fn started(part: RunSegment) -> JoinedRun
        requires { IsSegment part }
        ensures run { result ≡ started part }
        ensures recorded { IsRecorded result.kept }
    {
        let RunSegment {
            run,
            part,
            last,
            first_epoch,
            drains,
            losses,
        } = part;
        JoinedRun {
            kept: RunRecord {
                run,
                first_epoch,
                drains,
                losses,
            },
            parts: part + 1,
            whole: last,
        }
    }

    /// Whether the part is the next one of this run.
    pub fn goes_on(&self, part: &RunSegment) -> bool
        ensures { result ≡ goes_on (reached_by self.now) part.now }
    {
        part.run == self.kept.run && part.part == self.parts && !self.whole
    }

    /// Whether the part is the first one of the next run.
    pub fn begins_next(&self, part: &RunSegment) -> bool
        ensures { result ≡ begins_next (reached_by self.now) part.now }
    {
        u64::from(part.run) == u64::from(self.kept.run) + 1 && part.part == 0
    }

    /// The run with one more part.
    pub fn append(&mut self, part: RunSegment) -> Result<(), AllocError>
        requires { IsSegment part }
        ensures { OnOk result (self.new ≡ appended self.old part) }
    {
        let mut part = part;
        self.kept.drains.append(&mut part.drains)?;
        self.kept.losses = part.losses;
        self.parts = part.part + 1;
        self.whole = part.last;
        Ok(())
    }
}
