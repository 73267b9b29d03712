//! The end of both sides.
ghost use Rattle.std.specs.Prelude.{◌≡◌, ℕ, slice_index};
ghost use Rattle.driver_model.specs.Handover.{IsHandover, IsBell, rung_of};

use crate::shared_daemon::SharedDaemon;
use crate::shared_lane::SharedLane;
use turn_cell::close;

/// Ends both sides of one processor, as one call of `shared` made them: the words of the cells 0, 1
/// and 2. With these words what was handed and what was taken meet the handover, where each value
/// was given back so often. What was heard is 0 or was rung, and is at most the value rung last.
pub fn close_shared(lane: SharedLane, daemon: SharedDaemon) -> [u64; 3]
    requires { lane.fixed.ends ≡ daemon.fixed.ends }
    ensures first { (given : ℕ) × IsHandover lane.seen.first.handed daemon.far.first.taken given
        (slice_index result 0) lane.seen.first.holds daemon.far.first.holds }
    ensures second { (given : ℕ) × IsHandover lane.seen.second.handed daemon.far.second.taken given
        (slice_index result 1) lane.seen.second.holds daemon.far.second.holds }
    ensures third { (given : ℕ) × IsHandover lane.seen.third.handed daemon.far.third.taken given
        (slice_index result 2) lane.seen.third.holds daemon.far.third.holds }
    ensures bell { IsBell daemon.far.rungs (rung_of daemon.far.rungs) lane.seen.heard }
{
    let mut hear = lane.bell;
    let mut ring = daemon.bell;
    ring.meet(hear.note());
    let first = close(lane.first, daemon.first).word;
    let second = close(lane.second, daemon.second).word;
    let third = close(lane.third, daemon.third).word;
    [first, second, third]
}
