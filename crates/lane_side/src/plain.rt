//! The side for one thread: its fields, what they say to the traits (`plain_of`) and what they keep (`IsPlain`).

ghost use Rattle.std.specs.Prelude.{◌≡◌, ◌+◌, ◌*◌, ◌≤◌, Some, None, length, true, false, IfOk};
ghost use Rattle.driver_model.specs.Sides.{new_side, room_for};
ghost use Rattle.driver_model.specs.Handover.{new_far, none_given};
ghost use Rattle.assoc_table.specs.declared.limits.TheConstants.{MOST_BUCKETS};
ghost use Rattle.overflow_pair.specs.declared.limits.TheConstants.{MOST_BUFFER};
ghost use Rattle.lane_side.specs.Fixed.{plain_fixed};
ghost use Rattle.lane_side.specs.declared.plain.TheConstants.{MOST_REQUESTS};
ghost use Rattle.sample_key.specs.declared.limits.TheConstants.{LAST_CPU, MOST_SAMPLES};

use crate::call_log::CallLog;
use crate::cells::Cell;
use crate::endpoints::Endpoint;
use crate::history::History;
use assoc_table::AssocTable;
use overflow_pair::Buffer;
use sample_key::Marked;
use std::alloc::{AllocError, Global};
use std::marker::Model;
use std::snapshot::Snapshot;

/// How many requests a side is made for at most: one for each record of a trace, and the close.
pub const MOST_REQUESTS: usize = 65_537;

/// The cells and the bell of one driver, for one thread. It keeps every batch that was handed, and takes no memory after it
/// is made.
#[derive(Drop)]
pub struct PlainSide {
    pub(crate) cpu: u32,
    // The samples of the processor, which take no bytes here.
    pub(crate) samples: Snapshot<Vec<Marked>>,
    pub(crate) buckets: usize,
    pub(crate) buffer: usize,
    pub(crate) first: Cell<Buffer>,
    pub(crate) second: Cell<Buffer>,
    pub(crate) third: Cell<AssocTable>,
    // The value rung last.
    pub(crate) bell: u64,
    pub(crate) history: History,
    // What was called and read, which takes no bytes.
    pub(crate) log: CallLog,
}

impl Model for PlainSide {
    ghost use Rattle.lane_side.specs.Plain.{Plain};

    ghost Value = { Plain };

    ghost use Rattle.lane_side.specs.Plain.{plain_of, IsPlain};
    ghost use Rattle.lane_side.specs.Insides.{parts_of};

    ghost view = { λ s. plain_of (parts_of s) };

    ghost invariant = { λ s. IsPlain (parts_of s) };
}

impl Endpoint for PlainSide {
    ghost seen = { λ s. s.seen };

    ghost far = { λ s. s.far };

    ghost fixed = { λ s. s.fixed };
}

impl PlainSide {
    /// The side of a processor, at most 15, with at most 2,000,000 samples, for at most 65,537 requests; the table has 1 to
    /// 4,096 buckets, and a buffer holds 1 to 8,192 entries. There is room for a hand for each sample, two for each request
    /// and two more, and for an entry for each sample and one more. All memory is taken here: `Err` where there is none.
    pub fn new(
        alloc: Global,
        cpu: u32,
        samples: &Vec<Marked>,
        requests: usize,
        buckets: usize,
        buffer: usize,
    ) -> Result<PlainSide, AllocError>
        requires cpu { cpu ≤ LAST_CPU }
        requires few { length samples.now.items ≤ MOST_SAMPLES }
        requires requests { requests ≤ MOST_REQUESTS }
        requires buckets { (1 ≤ buckets) × (buckets ≤ MOST_BUCKETS) }
        requires buffer { (1 ≤ buffer) × (buffer ≤ MOST_BUFFER) }
        ensures seen { IfOk result (λ side.
            side.seen
            ≡ new_side (Some (room_for (length samples.now.items) requests)) buckets buffer) }
        ensures far { IfOk result (λ side. side.far ≡ new_far (Some none_given)) }
        ensures fixed { IfOk result (λ side.
            side.fixed ≡ plain_fixed cpu samples.now.items) }
    {
        let count = samples.len();
        let history = History::new(alloc, count + 2 * requests + 2, count + 1)?;
        let first = Cell::new(Buffer::with_capacity(alloc, buffer)?);
        let second = Cell::new(Buffer::with_capacity(alloc, buffer)?);
        let third = Cell::new(AssocTable::new(alloc, buckets)?);
        Ok(PlainSide {
            cpu,
            samples: Snapshot::of(samples),
            buckets,
            buffer,
            first,
            second,
            third,
            bell: 0,
            history,
            log: CallLog::new(),
        })
    }
}
