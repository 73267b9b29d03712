//! A part of a run goes into the database: its change is made and committed.
ghost use Rattle.std.specs.Prelude.{◌≡◌, None, List, IfOk, IfErr, OnOk, OnErr};
ghost use Rattle.std.specs.List.{IsDistinct};
ghost use Rattle.std.specs.Str.{bytes_eq};
ghost use Rattle.trace_model.specs.declared.notices.Record.{Record as Notice};
ghost use Rattle.epoch_store.specs.Databases.{failed_of, head_of};
ghost use Rattle.profile_merge.specs.Changing.{Follows};
ghost use Rattle.profile_merge.specs.Gathering.{EpochsAreUpTo, Gathers, ImagesAreIn};
ghost use Rattle.dcpid_core.specs.Storing.{IsCommitted, HasFailed};

use database_state::{DbError, DbFault};
use epoch_store::{Database, commit};
use profile_merge::{Gathered, change_of};
use run_record::RunSegment;
use std::alloc::Global;
use store_io::Store;
use text_num::Name;

/// Makes the change of what was gathered and commits it. The segment comes back.
pub(crate) fn store_part<D: Store>(
    alloc: Global,
    db: &mut Database,
    store: &mut D,
    gathered: &Gathered,
    images: &[Name],
    epoch: u32,
    segment: RunSegment,
) -> Result<RunSegment, DbFault>
    requires works { failed_of db.old ≡ None }
    requires distinct { IsDistinct bytes_eq images.now }
    requires images { ImagesAreIn images.now gathered.now }
    requires epochs { EpochsAreUpTo epoch gathered.now }
    requires follows { Follows (head_of db.old) epoch segment }
    ensures committed { OnOk result ((records : List Notice) →
        Gathers gathered.now images.now records segment.drains →
        IsCommitted D.files D.faults D.moment D.left_since
        (record {
          images = images.now;
          records = records;
          head = head_of db.old;
          epoch = epoch;
          segment = segment;
        })
        (head_of db.new) store.old store.new) }
    ensures failed { IfErr result (λ fault. (records : List Notice) →
        Gathers gathered.now images.now records segment.drains →
        HasFailed D.files D.faults D.moment D.left_since
        (record {
          images = images.now;
          records = records;
          head = head_of db.old;
          epoch = epoch;
          segment = segment;
        })
        fault store.old store.new) }
    ensures segment { IfOk result (λ kept. kept ≡ segment) }
    ensures works { OnOk result (failed_of db.new ≡ None) }
    ensures runs { OnOk result ((head_of db.new).runs ≡ segment.run) }
    ensures epoch { OnOk result ((head_of db.new).epoch ≡ epoch) }
    ensures refused { OnErr result (head_of db.new ≡ head_of db.old) }
    ensures origin { D.origin store.new ≡ D.origin store.old }
{
    let change = change_of(alloc, gathered, images, db, store, epoch, segment)?;
    match commit(alloc, db, store, &change) {
        Ok(()) => Ok(change.segment),
        Err(DbError::Fault(fault)) => Err(fault),
        Err(DbError::Stopped(fault)) => Err(fault),
    }
}
