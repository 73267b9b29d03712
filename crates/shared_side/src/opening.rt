//! Both sides of a processor, made at once.
ghost use Rattle.std.specs.Prelude.{◌≡◌, ◌≤◌, None, true, false, length, IfOk, IsSome};
ghost use Rattle.sample_key.specs.declared.limits.TheConstants.{LAST_CPU, MOST_SAMPLES};
ghost use Rattle.assoc_table.specs.declared.limits.TheConstants.{MOST_BUCKETS};
ghost use Rattle.overflow_pair.specs.declared.limits.TheConstants.{MOST_BUFFER};
ghost use Rattle.driver_model.specs.Sides.{new_side};
ghost use Rattle.driver_model.specs.Handover.{new_far};

use crate::carried::CellKey;
use crate::passing::bare;
use crate::shared_daemon::SharedDaemon;
use crate::shared_lane::SharedLane;
use assoc_table::AssocTable;
use boxcar::tag::Tag;
use overflow_pair::Buffer;
use sample_key::{LAST_CELL, Marked};
use std::alloc::{AllocError, Global};
use std::snapshot::Snapshot;
use turn_cell::{Bell, RingEnd, TurnCell};

/// The two sides of a processor, at most 15, with at most 2,000,000 samples; the table has 1 to
/// 4,096 buckets, and a buffer holds 1 to 8,192 entries. Nothing was handed, rung or heard, and the
/// values are at home. All memory is taken here: `Err` where there is none.
pub fn shared(
    alloc: Global,
    cpu: u32,
    samples: &Vec<Marked>,
    buckets: usize,
    buffer: usize,
) -> Result<(SharedLane, SharedDaemon), AllocError>
    requires cpu { cpu ≤ LAST_CPU }
    requires few { length samples.now.items ≤ MOST_SAMPLES }
    requires buckets { (1 ≤ buckets) × (buckets ≤ MOST_BUCKETS) }
    requires buffer { (1 ≤ buffer) × (buffer ≤ MOST_BUFFER) }
    ensures seen { IfOk result (λ sides. (sides.0.seen ≡ new_side None buckets buffer)
        × (sides.1.seen ≡ new_side None buckets buffer)) }
    ensures far { IfOk result (λ sides.
        (sides.0.far ≡ new_far None) × (sides.1.far ≡ new_far None)) }
    ensures cpu { IfOk result (λ sides. sides.0.fixed.cpu ≡ cpu) }
    ensures samples { IfOk result (λ sides. sides.0.fixed.samples ≡ samples.now.items) }
    ensures even { IfOk result (λ sides. sides.0.fixed.even ≡ true) }
    ensures untold { IfOk result (λ sides. sides.0.fixed.told ≡ false) }
    ensures ends { IfOk result (λ sides. IsSome sides.0.fixed.ends) }
    ensures same { IfOk result (λ sides. sides.1.fixed ≡ sides.0.fixed) }
{
    let (ring, hear) = Bell::new(alloc)?;
    let (lane0, daemon0) = TurnCell::new(
        alloc,
        key(cpu, 0, samples, buffer, &ring),
        bare(Buffer::with_capacity(alloc, buffer)?),
    )?;
    let (lane1, daemon1) = TurnCell::new(
        alloc,
        key(cpu, 1, samples, buffer, &ring),
        bare(Buffer::with_capacity(alloc, buffer)?),
    )?;
    let (lane2, daemon2) = TurnCell::new(
        alloc,
        key(cpu, LAST_CELL, samples, buckets, &ring),
        bare(AssocTable::new(alloc, buckets)?),
    )?;
    let lane = SharedLane {
        first: lane0,
        second: lane1,
        third: lane2,
        bell: hear,
    };
    let daemon = SharedDaemon {
        first: daemon0,
        second: daemon1,
        third: daemon2,
        bell: ring,
        rung_at: Tag::empty(),
    };
    Ok((lane, daemon))
}

// The key of one cell.
fn key(cpu: u32, cell: u8, samples: &Vec<Marked>, made: usize, bell: &RingEnd) -> CellKey
    ensures numbers { (result.cpu ≡ cpu) × (result.cell ≡ cell) × (result.made ≡ made) }
    ensures samples { result.samples.value ≡ samples.now }
    ensures bell { result.bell ≡ bell.now.bell }
{
    CellKey {
        cpu,
        cell,
        samples: Snapshot::of(samples),
        made,
        bell: bell.mark(),
    }
}
