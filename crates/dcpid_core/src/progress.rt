//! Where a daemon stands, and its steps: polls first, then advances, then the end. Each step of an advance is one of the run's
//! definitions (`run_model`), with the books and the store beside it.
ghost use Rattle.std.specs.Prelude.{◌≡◌, ◌+◌, ◌^◌, ◌<◌, ◌≤◌, ◌++◌, ◌∷◌, ◌⊎◌, [], None, Some, true, false, if◌then◌else◌, is_none, ◌&&◌, length, map, slice_get, IfOk, IfErr, OnOk, OnErr};
ghost use Rattle.sample_key.specs.declared.limits.TheConstants.{MOST_SAMPLES};
ghost use Rattle.trace_model.specs.Parts.{begins_epoch, ends_part};
ghost use Rattle.trace_model.specs.Streams.{records_in};
ghost use Rattle.trace_model.specs.declared.limits.TheConstants.{MOST_PARTS, MOST_RECORDS};
ghost use Rattle.trace_outline.specs.Views.{viewed};
ghost use Rattle.driver_model.specs.Sides.{slot_of};
ghost use Rattle.lane_side.specs.Calls.{PollsEvenly};
ghost use Rattle.database_model.specs.Ranges.{EndsWith};
ghost use Rattle.epoch_store.specs.Databases.{failed_of, head_of};
ghost use Rattle.run_model.specs.declared.advances.Advanced.TheVariants.{Moved, Opened};
ghost use Rattle.run_model.specs.Books.{AsksInNeed};
ghost use Rattle.run_model.specs.Daemon.{begin, drain_of, flush_before, go_on, in_force, move, settle};
ghost use Rattle.dcpid_core.specs.Flushes.{IsCounter, first_incomplete};
ghost use Rattle.dcpid_core.specs.Collection.{AreFitting, IsFitting, new_collection, rang_if, views};
ghost use Rattle.dcpid_core.specs.Polling.{Answers, BufferHome, TableHome, Takes, TookBuffer, TookTable};
ghost use Rattle.dcpid_core.specs.Storing.{HasFailed, IsCommitted};
ghost use Rattle.dcpid_core.specs.Parts.{part_in};
ghost use Rattle.dcpid_core.specs.Advancing.{Advances, Outcome, advance_of};
ghost use Rattle.dcpid_core.specs.Finishing.{AreLossesOf, Finishes};
ghost use Rattle.dcpid_core.specs.Insides.{IsCurrent, IsSound, IsTask, collection_of, records_of, state_of};
ghost use Rattle.dcpid_core.specs.Booking.{HasFailedWith, IsReady, IsSettled, KeepsBooks, epoch_next};

use crate::flushes::Flush;
use crate::polled::Polled;
use crate::ringing::ring_all;
use crate::rules::{
    ends_part, epochs_begun, first_incomplete, flush_before, in_force, needs_flush,
};
use crate::storing::store_part;
use database_state::DbFault;
use epoch_store::Database;
use lane_side::{DaemonSide, PollOf};
use load_map::LoadMap;
use profile_merge::{Gathered, gather};
use run_model::Advanced;
use run_record::{Drain, RunRecord, RunSegment};
use sample_key::{Batch, Body, Loss, Note, Pace};
use std::alloc::{AllocError, Global};
use std::mem;
use store_io::Store;
use trace_model::Record;
use trace_outline::{TraceView, views_keep_limits};

// What a daemon is made for; it never changes.
#[derive(Drop)]
pub(crate) struct Task<'a> {
    // The trace, and its records in order.
    pub(crate) trace: TraceView<'a>,
    pub(crate) records: &'a [Record],
    // Whether every record waits for a flush.
    pub(crate) pace: Pace,
    // The number of the run, and the epoch in which it began.
    pub(crate) run: u32,
    pub(crate) first_epoch: u32,
}

impl<'a> Task<'a> {
    // The task of a run of this trace into this database.
    pub(crate) fn of(
        trace: &TraceView<'a>,
        records: &'a [Record],
        pace: Pace,
        db: &Database,
    ) -> Task<'a>
        requires { records.now ≡ records_in (viewed trace.now) }
        ensures is { IsTask result }
        ensures trace { result.trace ≡ trace.now }
        ensures pace { result.pace ≡ pace }
        ensures run { result.run ≡ (head_of db.now).runs + 1 }
        ensures first_epoch { result.first_epoch ≡ (head_of db.now).epoch }
    {
        views_keep_limits(trace);
        Task {
            trace: *trace,
            records,
            pace,
            run: db.runs() + 1,
            first_epoch: db.last_epoch(),
        }
    }
}

// Where a daemon stands.
#[derive(Drop)]
pub(crate) struct Progress {
    // The database, as of the last commit.
    pub(crate) db: Database,
    // The mappings of the records in force.
    pub(crate) map: LoadMap,
    // The counts of the drains since the last commit.
    pub(crate) gathered: Gathered,
    // How many records are in force.
    pub(crate) applied: u32,
    // Whether a flush is asked for before the next record, or the close.
    pub(crate) asking: bool,
    // The epoch.
    pub(crate) epoch: u32,
    // Whether the close was complete.
    pub(crate) finished: bool,
    // What was taken of each processor.
    pub(crate) flushes: Vec<Flush>,
    // The parts that were committed.
    pub(crate) part: u32,
    // The drains of these parts, and those since then.
    pub(crate) settled: Vec<Drain>,
    pub(crate) noted: Vec<Drain>,
    // The first fault.
    pub(crate) failure: Option<DbFault>,
}

impl Progress {
    // The start of a run.
    pub(crate) fn at_start(alloc: Global, task: &Task, db: Database) -> Result<Progress, AllocError>
        requires task { IsTask task.now }
        requires run { task.now.run ≡ (head_of db).runs + 1 }
        requires first_epoch { task.now.first_epoch ≡ (head_of db).epoch }
        requires works { failed_of db ≡ None }
        ensures start { IfOk result (λ progress. collection_of task.now progress
            ≡ new_collection (viewed task.now.trace) task.now.pace (head_of db)) }
        ensures sound { IfOk result (IsSound task.now) }
    {
        let cpus = task.trace.cpus() as usize;
        let flushes = vec![in alloc; Flush::none(); cpus]?;
        let epoch = db.last_epoch();
        Ok(Progress {
            db,
            map: LoadMap::new(alloc),
            gathered: Gathered::new(alloc),
            applied: 0,
            asking: false,
            epoch,
            finished: false,
            flushes,
            part: 0,
            settled: Vec::new(alloc),
            noted: Vec::new(alloc),
            failure: None,
        })
    }

    // Polls a buffer, which goes back empty.
    pub(crate) fn poll_buffer<T: DaemonSide>(
        &mut self,
        alloc: Global,
        task: &Task,
        cpu: u32,
        b: u8,
        side: &mut T,
    ) -> Polled
        requires number { b ≤ 1 }
        requires task { IsTask task.now }
        requires sound { IsSound task.now self.old }
        requires cpu { cpu < (viewed task.now.trace).cpus }
        requires fitting { IsFitting (collection_of task.now self.old) cpu (T.fixed side.old)
            (T.far side.old) }
        requires evenly { PollsEvenly (T.fixed side.old).even
            (slot_of (T.seen side.old) b).tries (T.seen side.old) }
        ensures polls { Answers
            (TookBuffer b (T.fixed side.old) (T.seen side.old) (T.far side.old)
            (T.seen side.new) (T.far side.new))
            (BufferHome b (T.seen side.old) (T.far side.old) (T.seen side.new) (T.far side.new))
            cpu b (collection_of task.now self.old) result (collection_of task.now self.new) }
        ensures sound { IsSound task.now self.new }
        ensures fixed { T.fixed side.new ≡ T.fixed side.old }
    {
        match side.poll_buffer(b) {
            PollOf::Home(word) => Polled::Home(word),
            PollOf::Parcel(parcel) => {
                let mut body = parcel.body;
                let polled = self.take(alloc, task, cpu, b, parcel.note, &body);
                body.clear();
                side.return_buffer(b, body);
                polled
            }
        }
    }

    // Polls the table, which goes back empty.
    pub(crate) fn poll_table<T: DaemonSide>(
        &mut self,
        alloc: Global,
        task: &Task,
        cpu: u32,
        side: &mut T,
    ) -> Polled
        requires task { IsTask task.now }
        requires sound { IsSound task.now self.old }
        requires cpu { cpu < (viewed task.now.trace).cpus }
        requires fitting { IsFitting (collection_of task.now self.old) cpu (T.fixed side.old)
            (T.far side.old) }
        requires evenly { PollsEvenly (T.fixed side.old).even (T.seen side.old).third.tries
            (T.seen side.old) }
        ensures polls { Answers
            (TookTable (T.fixed side.old) (T.seen side.old) (T.far side.old)
            (T.seen side.new) (T.far side.new))
            (TableHome (T.seen side.old) (T.far side.old) (T.seen side.new) (T.far side.new))
            cpu 2 (collection_of task.now self.old) result (collection_of task.now self.new) }
        ensures sound { IsSound task.now self.new }
        ensures fixed { T.fixed side.new ≡ T.fixed side.old }
    {
        match side.poll_table() {
            PollOf::Home(word) => Polled::Home(word),
            PollOf::Parcel(parcel) => {
                let mut body = parcel.body;
                let polled = self.take(alloc, task, cpu, 2, parcel.note, &body);
                body.clear();
                side.return_table(body);
                polled
            }
        }
    }

    // A batch of this cell was taken: it is counted, and noted unless a fault is kept.
    fn take<B: Body>(
        &mut self,
        alloc: Global,
        task: &Task,
        cpu: u32,
        cell: u8,
        note: Note,
        body: &B,
    ) -> Polled
        requires task { IsTask task.now }
        requires sound { IsSound task.now self.old }
        requires cpu { cpu < (viewed task.now.trace).cpus }
        requires entries { length (B.entries body.now) ≤ note.upto }
        ensures takes { Takes cpu cell (record { note = note; entries = B.entries body.now })
            (collection_of task.now self.old) result (collection_of task.now self.new) }
        ensures sound { IsSound task.now self.new }
        ensures counter { IsCounter note }
    {
        let value = flush_before(self.applied);
        self.flushes[cpu as usize].take(value, cell, &note);
        if self.failure.is_some() {
            return Polled::Passed;
        }
        match self.note(alloc, task, note, body) {
            Ok(()) => Polled::Drained,
            Err(_) => {
                self.failure = Some(DbFault::Memory);
                Polled::Passed
            }
        }
    }

    // The batch is copied, its counts are gathered, and the drain is noted.
    fn note<B: Body>(
        &mut self,
        alloc: Global,
        task: &Task,
        note: Note,
        body: &B,
    ) -> Result<(), AllocError>
        requires task { IsTask task.now }
        requires current { IsCurrent task.now self.old.applied self.old.epoch self.old }
        requires applied { self.old.applied ≤ length (records_of task.now) }
        requires entries { length (B.entries body.now) ≤ MOST_SAMPLES }
        ensures only { self.new
            ≡ record self.old { gathered = self.new.gathered; noted = self.new.noted } }
        ensures noted { OnOk result (self.new.noted.items ≡ self.old.noted.items
            ++ drain_of (records_of task.now) (state_of self.old)
            (record { note = note; entries = B.entries body.now }) ∷ []) }
        ensures refused { OnErr result (self.new.noted.items ≡ self.old.noted.items) }
        ensures current { OnOk result
            (IsCurrent task.now self.old.applied self.old.epoch self.new) }
    {
        let mut entries = Vec::new(alloc);
        body.copy_to(&mut entries)?;
        let batch = Batch { note, entries };
        let known = gather(alloc, &batch, &self.map, self.epoch, &mut self.gathered)?;
        self.noted.push(Drain {
            at: self.applied,
            epoch: self.epoch,
            batch,
            known,
        })?;
        Ok(())
    }

    // One advance.
    pub(crate) fn advance<T: DaemonSide, D: Store>(
        &mut self,
        alloc: Global,
        task: &Task,
        sides: &mut [T],
        store: &mut D,
    ) -> Advanced
        requires task { IsTask task.now }
        requires sound { IsSound task.now self.old }
        requires fitting { AreFitting (collection_of task.now self.old)
            (views T.seen T.far T.fixed sides.old) }
        ensures advances { Advances D.files D.faults D.moment D.left_since
            (advance_of (collection_of task.now self.old)) (collection_of task.now self.old)
            store.old result (collection_of task.now self.new) store.new }
        ensures rings { views T.seen T.far T.fixed sides.new
            ≡ rang_if (advance_of (collection_of task.now self.old)).ring
            (views T.seen T.far T.fixed sides.old) }
        ensures sound { IsSound task.now self.new }
        ensures origin { D.origin store.new ≡ D.origin store.old }
    {
        if self.asking {
            self.go_on(alloc, task, sides, store)
        } else {
            self.begin(alloc, task, sides, store)
        }
    }

    // A flush is asked for: the first processor whose flush is not complete is waited for.
    fn go_on<T: DaemonSide, D: Store>(
        &mut self,
        alloc: Global,
        task: &Task,
        sides: &mut [T],
        store: &mut D,
    ) -> Advanced
        requires task { IsTask task.now }
        requires sound { IsSound task.now self.old }
        requires fitting { AreFitting (collection_of task.now self.old)
            (views T.seen T.far T.fixed sides.old) }
        ensures advances { Advances D.files D.faults D.moment D.left_since
            (go_on (records_of task.now) (state_of self.old)
            (first_incomplete (flush_before self.old.applied) 0 self.old.flushes.items))
            (collection_of task.now self.old) store.old result (collection_of task.now self.new)
            store.new }
        ensures rings { views T.seen T.far T.fixed sides.new
            ≡ rang_if (go_on (records_of task.now) (state_of self.old)
            (first_incomplete (flush_before self.old.applied) 0 self.old.flushes.items)).ring
            (views T.seen T.far T.fixed sides.old) }
        ensures sound { IsSound task.now self.new }
        ensures origin { D.origin store.new ≡ D.origin store.old }
    {
        match first_incomplete(flush_before(self.applied), &self.flushes) {
            Some(cpu) => Advanced::Waiting { cpu },
            None => self.settle(alloc, task, sides, store),
        }
    }

    // What was asked for is complete: the next record is put in force, and where none is left the run is finished.
    fn settle<T: DaemonSide, D: Store>(
        &mut self,
        alloc: Global,
        task: &Task,
        sides: &mut [T],
        store: &mut D,
    ) -> Advanced
        requires task { IsTask task.now }
        requires sound { IsSound task.now self.old }
        requires fitting { AreFitting (collection_of task.now self.old)
            (views T.seen T.far T.fixed sides.old) }
        ensures advances { Advances D.files D.faults D.moment D.left_since
            (settle (state_of self.old) (slice_get (records_of task.now) self.old.applied))
            (collection_of task.now self.old) store.old result (collection_of task.now self.new)
            store.new }
        ensures rings { views T.seen T.far T.fixed sides.new
            ≡ rang_if (settle (state_of self.old)
            (slice_get (records_of task.now) self.old.applied)).ring
            (views T.seen T.far T.fixed sides.old) }
        ensures sound { IsSound task.now self.new }
        ensures origin { D.origin store.new ≡ D.origin store.old }
    {
        match task.records.get(self.applied as usize) {
            Some(notice) => self.go_to(alloc, task, notice, sides, store),
            None => {
                self.finished = true;
                Advanced::Finished
            }
        }
    }

    // Nothing is asked for: the next record is put in force, or asks for a flush, and where none is left the close is asked for.
    fn begin<T: DaemonSide, D: Store>(
        &mut self,
        alloc: Global,
        task: &Task,
        sides: &mut [T],
        store: &mut D,
    ) -> Advanced
        requires task { IsTask task.now }
        requires sound { IsSound task.now self.old }
        requires fitting { AreFitting (collection_of task.now self.old)
            (views T.seen T.far T.fixed sides.old) }
        ensures advances { Advances D.files D.faults D.moment D.left_since
            (begin task.now.pace (state_of self.old)
            (slice_get (records_of task.now) self.old.applied))
            (collection_of task.now self.old) store.old result (collection_of task.now self.new)
            store.new }
        ensures rings { views T.seen T.far T.fixed sides.new
            ≡ rang_if (begin task.now.pace (state_of self.old)
            (slice_get (records_of task.now) self.old.applied)).ring
            (views T.seen T.far T.fixed sides.old) }
        ensures sound { IsSound task.now self.new }
        ensures origin { D.origin store.new ≡ D.origin store.old }
    {
        match task.records.get(self.applied as usize) {
            Some(notice) => {
                if needs_flush(task.pace, notice) {
                    self.ask(task, sides)
                } else {
                    self.go_to(alloc, task, notice, sides, store)
                }
            }
            None => self.ask(task, sides),
        }
    }

    // A flush is asked for.
    fn ask<T: DaemonSide>(&mut self, task: &Task, sides: &mut [T]) -> Advanced
        requires task { IsTask task.now }
        requires sound { IsSound task.now self.old }
        requires need { AsksInNeed task.now.pace
            (slice_get (records_of task.now) self.old.applied) }
        requires fitting { AreFitting (collection_of task.now self.old)
            (views T.seen T.far T.fixed sides.old) }
        ensures answer { result ≡ Opened }
        ensures only { self.new ≡ record self.old { asking = true } }
        ensures rings { views T.seen T.far T.fixed sides.new
            ≡ rang_if (Some (flush_before self.old.applied))
            (views T.seen T.far T.fixed sides.old) }
        ensures sound { IsSound task.now self.new }
    {
        self.asking = true;
        ring_all(sides, flush_before(self.applied));
        Advanced::Opened
    }

    // This record is put in force, and the bells are rung.
    fn go_to<T: DaemonSide, D: Store>(
        &mut self,
        alloc: Global,
        task: &Task,
        notice: &Record,
        sides: &mut [T],
        store: &mut D,
    ) -> Advanced
        requires task { IsTask task.now }
        requires sound { IsSound task.now self.old }
        requires notice { slice_get (records_of task.now) self.old.applied ≡ Some notice.now }
        requires fitting { AreFitting (collection_of task.now self.old)
            (views T.seen T.far T.fixed sides.old) }
        ensures answer { result ≡ Moved }
        ensures outcome { Outcome D.files D.faults D.moment D.left_since
            (is_none self.old.failure && ends_part notice.now) (collection_of task.now self.old)
            (move (state_of self.old) notice.now) store.old (collection_of task.now self.new)
            store.new }
        ensures rings { views T.seen T.far T.fixed sides.new
            ≡ rang_if (Some (in_force (self.old.applied + 1)))
            (views T.seen T.far T.fixed sides.old) }
        ensures sound { IsSound task.now self.new }
        ensures origin { D.origin store.new ≡ D.origin store.old }
    {
        self.put_in_force(alloc, task, notice, store);
        ring_all(sides, in_force(self.applied));
        Advanced::Moved
    }

    // The daemon moves to this record; unless a fault is kept its books do so too, or a fault is kept from now on.
    fn put_in_force<D: Store>(&mut self, alloc: Global, task: &Task, notice: &Record, store: &mut D)
        requires task { IsTask task.now }
        requires sound { IsSound task.now self.old }
        requires notice { slice_get (records_of task.now) self.old.applied ≡ Some notice.now }
        ensures outcome { Outcome D.files D.faults D.moment D.left_since
            (is_none self.old.failure && ends_part notice.now) (collection_of task.now self.old)
            (move (state_of self.old) notice.now) store.old (collection_of task.now self.new)
            store.new }
        ensures applied { self.new.applied ≡ self.old.applied + 1 }
        ensures sound { IsSound task.now self.new }
        ensures origin { D.origin store.new ≡ D.origin store.old }
    {
        if self.failure.is_some() {
            self.step(notice);
            return;
        }
        match self.keep_books(alloc, task, notice, store) {
            Ok(()) => self.step(notice),
            Err(fault) => {
                self.failure = Some(fault);
                self.step(notice);
            }
        }
    }

    // One more record is in force.
    fn step(&mut self, notice: &Record)
        requires applied { self.old.applied < MOST_RECORDS }
        requires epoch { self.old.epoch ≤ MOST_RECORDS + self.old.applied }
        ensures { self.new ≡ record self.old {
          applied = self.old.applied + 1;
          asking = false;
          epoch = self.old.epoch + (if begins_epoch notice.now then 1 else 0);
        } }
    {
        self.epoch += epochs_begun(notice);
        self.applied += 1;
        self.asking = false;
    }

    // The load map has this record, and where it ends a part, the part is committed.
    fn keep_books<D: Store>(
        &mut self,
        alloc: Global,
        task: &Task,
        notice: &Record,
        store: &mut D,
    ) -> Result<(), DbFault>
        requires task { IsTask task.now }
        requires sound { IsSound task.now self.old }
        requires fine { self.old.failure ≡ None }
        requires notice { slice_get (records_of task.now) self.old.applied ≡ Some notice.now }
        ensures books { KeepsBooks D.files D.faults D.moment D.left_since (ends_part notice.now)
            (epoch_next self.old.epoch notice.now) (collection_of task.now self.old) store.old
            result (collection_of task.now self.new) store.new }
        ensures current { OnOk result (IsCurrent task.now (self.old.applied + 1)
            (epoch_next self.old.epoch notice.now) self.new) }
        ensures only { self.new ≡ record self.old {
          db = self.new.db;
          map = self.new.map;
          gathered = self.new.gathered;
          part = self.new.part;
          settled = self.new.settled;
          noted = self.new.noted;
        } }
        ensures origin { D.origin store.new ≡ D.origin store.old }
    {
        self.map.apply(notice)?;
        if ends_part(notice) {
            self.end_part(alloc, task, notice, store)
        } else {
            Ok(())
        }
    }

    // The part that this record ends is committed, in the epoch that the record leaves.
    fn end_part<D: Store>(
        &mut self,
        alloc: Global,
        task: &Task,
        notice: &Record,
        store: &mut D,
    ) -> Result<(), DbFault>
        requires task { IsTask task.now }
        requires ready { IsReady task.now (epoch_next self.old.epoch notice.now) self.old }
        requires epoch { self.old.epoch + 1 < 2 ^ 32 }
        requires part { self.old.part ≤ MOST_PARTS }
        ensures books { KeepsBooks D.files D.faults D.moment D.left_since true
            (epoch_next self.old.epoch notice.now) (collection_of task.now self.old) store.old
            result (collection_of task.now self.new) store.new }
        ensures settled { OnOk result (IsSettled task.now
            (epoch_next self.old.epoch notice.now) self.new) }
        ensures part { OnOk result (self.new.part ≡ self.old.part + 1) }
        ensures noted { OnOk result (self.new.noted.items ≡ []) }
        ensures only { self.new ≡ record self.old {
          db = self.new.db;
          gathered = self.new.gathered;
          part = self.new.part;
          settled = self.new.settled;
          noted = self.new.noted;
        } }
        ensures origin { D.origin store.new ≡ D.origin store.old }
    {
        let epoch = self.epoch + epochs_begun(notice);
        self.commit_part(alloc, task, store, epoch, false, Vec::new(alloc))?;
        Ok(())
    }

    // The part that was noted is committed, and its drains are settled. The losses come back.
    fn commit_part<D: Store>(
        &mut self,
        alloc: Global,
        task: &Task,
        store: &mut D,
        epoch: u32,
        last: bool,
        losses: Vec<Vec<Loss>>,
    ) -> Result<Vec<Vec<Loss>>, DbFault>
        requires task { IsTask task.now }
        requires ready { IsReady task.now epoch self.old }
        requires losses { EndsWith last (map (λ v. v.items) losses.items) }
        requires part { self.old.part ≤ MOST_PARTS }
        ensures committed { OnOk result (IsCommitted D.files D.faults D.moment D.left_since
            (part_in (collection_of task.now self.old) epoch last
            (map (λ v. v.items) losses.items)) (head_of self.new.db) store.old store.new) }
        ensures failed { IfErr result (HasFailedWith D.files D.faults D.moment D.left_since
            (part_in (collection_of task.now self.old) epoch last
            (map (λ v. v.items) losses.items)) store.old store.new) }
        ensures only { self.new ≡ record self.old {
          db = self.new.db;
          gathered = self.new.gathered;
          part = self.new.part;
          settled = self.new.settled;
          noted = self.new.noted;
        } }
        ensures part { OnOk result (self.new.part ≡ self.old.part + 1) }
        ensures noted { OnOk result (self.new.noted.items ≡ []) }
        ensures settled { OnOk result (self.new.settled.items
            ≡ self.old.settled.items ++ self.old.noted.items) }
        ensures losses { IfOk result (λ kept. map (λ v. v.items) kept.items
            ≡ map (λ v. v.items) losses.items) }
        ensures ready { OnOk result (IsSettled task.now epoch self.new) }
        ensures same_part { OnErr result (self.new.part ≡ self.old.part) }
        ensures same_head { OnErr result (head_of self.new.db ≡ head_of self.old.db) }
        ensures origin { D.origin store.new ≡ D.origin store.old }
    {
        self.settled.reserve(self.noted.len())?;
        let drains = mem::replace(&mut self.noted, Vec::new(alloc));
        let gathered = mem::replace(&mut self.gathered, Gathered::new(alloc));
        let segment = RunSegment {
            run: task.run,
            part: self.part,
            last,
            first_epoch: task.first_epoch,
            drains,
            losses,
        };
        let images = task.trace.images();
        let stored = store_part(
            alloc,
            &mut self.db,
            store,
            &gathered,
            images,
            epoch,
            segment,
        )?;
        self.part += 1;
        let mut drains = stored.drains;
        match self.settled.append(&mut drains) {
            Ok(()) => Ok(stored.losses),
            Err(_) => unreachable!(),
        }
    }

    // The end of a run: the fault that is kept, or the rest is committed.
    pub(crate) fn finish<D: Store>(
        self,
        alloc: Global,
        task: &Task,
        store: &mut D,
        losses: Vec<Vec<Loss>>,
    ) -> Result<RunRecord, DbFault>
        requires task { IsTask task.now }
        requires sound { IsSound task.now self }
        requires losses { AreLossesOf (viewed task.now.trace).cpus
            (map (λ v. v.items) losses.items) }
        ensures finishes { Finishes D.files D.faults D.moment D.left_since
            (collection_of task.now self) (map (λ v. v.items) losses.items) self.failure store.old
            result store.new }
        ensures origin { D.origin store.new ≡ D.origin store.old }
    {
        let mut progress = self;
        if let Some(fault) = progress.failure {
            return Err(fault);
        }
        let epoch = progress.epoch;
        let losses = progress.commit_part(alloc, task, store, epoch, true, losses)?;
        Ok(RunRecord {
            run: task.run,
            first_epoch: task.first_epoch,
            drains: progress.settled,
            losses,
        })
    }
}
