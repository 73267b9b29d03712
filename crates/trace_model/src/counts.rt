//! Counts by place, as two lists in rising order.

ghost use Rattle.trace_model.specs.Counting.{Rises, rises_once, rows_in_order};

use crate::count_lists::{KnownCount, UnknownCount};

/// Counts by place: the known ones by epoch, image name in bytes, event code and offset, and the unknown ones by epoch,
/// event code and program counter, each list in strictly rising order, and each count at least 1.
#[derive(Drop)]
pub struct Counts {
    /// The counts of places in images.
    pub known: Vec<KnownCount>,
    /// The counts of program counters with no known mapping.
    pub unknown: Vec<UnknownCount>,
    pub ghost rise: { Rises (rows_in_order known.items unknown.items) } by { rises_once _ },
}
