//! The daemon: `poll` takes what waits in a cell, `advance` goes on by one step, and `finish` commits the rest.
//!
//! Contracts see it as a `Collection`: where it stands as the daemon of a run, what it took of each processor, the drains that are
//! not committed, the head of its database, and the fault that it keeps.
ghost use Rattle.std.specs.Prelude.{◌≡◌, ◌<◌, ◌≤◌, None, map, true, IfOk};
ghost use Rattle.trace_model.specs.Streams.{records_in};
ghost use Rattle.trace_model.specs.Traces.{recording_of};
ghost use Rattle.trace_outline.specs.Views.{viewed};
ghost use Rattle.epoch_store.specs.Databases.{failed_of, head_of};
ghost use Rattle.sample_key.specs.declared.limits.TheConstants.{LAST_CELL};
ghost use Rattle.dcpid_core.specs.Collection.{AreFitting, IsFitting, new_collection, rang_if, views};
ghost use Rattle.dcpid_core.specs.Polling.{CellPollsEvenly, Polls};
ghost use Rattle.dcpid_core.specs.Advancing.{Advances, advance_of};
ghost use Rattle.dcpid_core.specs.Finishing.{AreLossesOf, Finishes};

use crate::polled::Polled;
use crate::progress::{Progress, Task};
use database_state::DbFault;
use epoch_store::Database;
use lane_side::DaemonSide;
use run_model::Advanced;
use run_record::RunRecord;
use sample_key::{Loss, Pace};
use std::alloc::{AllocError, Global};
use std::marker::Model;
use store_io::Store;
use trace_model::{Record, Trace};
use trace_outline::TraceView;

/// The daemon of one run of a trace, with the database that the run goes into.
#[derive(Drop)]
pub struct Daemon<'a> {
    task: Task<'a>,
    progress: Progress,
}

impl<'a> Model for Daemon<'a> {
    ghost use Rattle.dcpid_core.specs.Collection.{Collection};

    ghost Value = { Collection };

    ghost use Rattle.dcpid_core.specs.Insides.{collection_of, IsSound, IsTask};

    ghost view = { λ d. collection_of d.task d.progress };

    ghost invariant = { λ d. IsTask d.task × IsSound d.task d.progress };
}

impl<'a> Daemon<'a> {
    /// A daemon before its first step, for a run of this trace, whose records these are, into this database, of which no commit
    /// has failed. It fails only for want of memory.
    pub fn new(
        alloc: Global,
        trace: &'a Trace,
        records: &'a [Record],
        pace: Pace,
        db: Database,
    ) -> Result<Daemon<'a>, AllocError>
        requires records { records.now ≡ records_in (recording_of trace.now) }
        requires works { failed_of db ≡ None }
        ensures { IfOk result (λ daemon.
            daemon ≡ new_collection (recording_of trace.now) pace (head_of db)) }
    {
        Daemon::of_view(alloc, &TraceView::Whole(trace), records, pace, db)
    }

    /// The same for a trace that is seen whole or in outline.
    pub fn of_view(
        alloc: Global,
        trace: &TraceView<'a>,
        records: &'a [Record],
        pace: Pace,
        db: Database,
    ) -> Result<Daemon<'a>, AllocError>
        requires records { records.now ≡ records_in (viewed trace.now) }
        requires works { failed_of db ≡ None }
        ensures { IfOk result (λ daemon.
            daemon ≡ new_collection (viewed trace.now) pace (head_of db)) }
    {
        let task = Task::of(trace, records, pace, &db);
        let progress = Progress::at_start(alloc, &task, db)?;
        Ok(Daemon { task, progress })
    }

    /// Polls a cell of a processor: 0 and 1 are the overflow buffers, 2 is the table. What waits there is taken, noted with its
    /// counts, and given back empty; where the daemon keeps a fault it is only taken and given back.
    pub fn poll<T: DaemonSide>(&mut self, alloc: Global, cpu: u32, cell: u8, side: &mut T) -> Polled
        requires cpu { cpu < self.old.trace.cpus }
        requires cell { cell ≤ LAST_CELL }
        requires fitting { IsFitting self.old cpu (T.fixed side.old) (T.far side.old) }
        requires evenly { CellPollsEvenly cell (T.fixed side.old) (T.seen side.old) }
        ensures polls { Polls cpu cell (T.fixed side.old) self.old (T.seen side.old)
            (T.far side.old) result self.new (T.seen side.new) (T.far side.new) }
        ensures fixed { T.fixed side.new ≡ T.fixed side.old }
    {
        match cell {
            0 => self.progress.poll_buffer(alloc, &self.task, cpu, 0, side),
            1 => self.progress.poll_buffer(alloc, &self.task, cpu, 1, side),
            _ => self.progress.poll_table(alloc, &self.task, cpu, side),
        }
    }

    /// Goes on by one step: puts the next record in force, asks for the flush that it waits for, or for the close where none is
    /// left, or waits for the first processor whose flush is not complete. At a record that ends a part, the part is committed.
    ///
    /// A fault does not show in the answer: the first one is kept, and from then on the daemon only moves on.
    pub fn advance<T: DaemonSide, D: Store>(
        &mut self,
        alloc: Global,
        sides: &mut [T],
        store: &mut D,
    ) -> Advanced
        requires fitting { AreFitting self.old (views T.seen T.far T.fixed sides.old) }
        ensures advances { Advances D.files D.faults D.moment D.left_since (advance_of self.old)
            self.old store.old result self.new store.new }
        ensures rings { views T.seen T.far T.fixed sides.new
            ≡ rang_if (advance_of self.old).ring (views T.seen T.far T.fixed sides.old) }
        ensures origin { D.origin store.new ≡ D.origin store.old }
    {
        self.progress.advance(alloc, &self.task, sides, store)
    }

    /// The fault that is kept: none exactly where there was none.
    pub fn failed(&self) -> Option<DbFault>
        ensures { result ≡ self.now.failure }
    {
        self.progress.failure
    }

    /// Ends a run that is finished: answers the fault that is kept, or commits the rest with the losses, one list for each
    /// processor, and answers the record of the whole run.
    pub fn finish<D: Store>(
        self,
        alloc: Global,
        store: &mut D,
        losses: Vec<Vec<Loss>>,
    ) -> Result<RunRecord, DbFault>
        requires finished { self.state.finished ≡ true }
        requires losses { AreLossesOf self.trace.cpus (map (λ v. v.items) losses.items) }
        ensures finishes { Finishes D.files D.faults D.moment D.left_since self.entry
            (map (λ v. v.items) losses.items) self.entry.failure store.old result store.new }
        ensures origin { D.origin store.new ≡ D.origin store.old }
    {
        let task = self.task;
        let progress = self.progress;
        progress.finish(alloc, &task, store, losses)
    }
}
