//! What goes to a lane's thread and what comes back: the start cell, and the promise of the thread.
ghost use Rattle.std.specs.Prelude.{◌≡◌, false, []};

use crate::works::Work;
use std::snapshot::Snapshot;
use std::thread::Promise;
use turn_cell::{DaemonEnd, Kept, LaneEnd};

/// What the start cell of a thread carries: the work, once.
#[derive(Drop)]
pub struct Start {
    pub(crate) work: Option<Work>,
}

/// What names a start cell: its processor, and the work that it is for.
#[derive(Drop)]
pub struct StartKey {
    pub(crate) cpu: u32,
    pub(crate) work: Snapshot<Work>,
}

impl Kept for Start {
    ghost use Rattle.std.specs.Prelude.{◌≡◌, IsSomeAnd, None};

    type Key = StartKey;

    ghost keeps = { λ key parcel. IsSomeAnd parcel.value.work (λ work. work ≡ key.work.value) };

    ghost returns = { λ key last start. start.work ≡ None };
}

/// The promise of a lane's thread: its work comes back, lawful and with the close answered.
#[derive(Drop)]
pub struct ComesBack {
    pub(crate) of: Snapshot<Work>,
}

impl Promise<Work> for ComesBack {
    ghost use Rattle.lane_threads.specs.Working.{IsEnded};

    ghost kept_by = { λ promise work. IsEnded promise.of.value work };
}

/// A work that waits for its thread, with both ends of its start cell.
#[derive(Drop)]
pub struct Waiting {
    pub(crate) work: Work,
    pub(crate) lane: LaneEnd<Start>,
    pub(crate) daemon: DaemonEnd<Start>,
    pub(crate) ghost free: { lane.holds ≡ false },
    pub(crate) ghost first: { lane.handed ≡ [] },
    pub(crate) ghost idle: { daemon.holds ≡ false },
    pub(crate) ghost brings: { lane.key.work.value ≡ work },
    pub(crate) ghost same: { daemon.key ≡ lane.key },
}
