//! The handover as laws: over any side that tells its words, each cell is handed over as its word says, and its bell is
//! sound. A caller makes the call, and its proof cites the clause.

ghost use Rattle.lane_side.specs.Handing.{HandsOver, NewSidesHandOver, LaneCallsHandOver, DaemonCallsHandOver};

use crate::plain::PlainSide;

/// A new side hands over, and every call of the driver and of the daemon keeps it.
pub fn calls_hand_over()
    ensures new { NewSidesHandOver }
    ensures lane { LaneCallsHandOver }
    ensures daemon { DaemonCallsHandOver }
{}

/// A plain side hands over, between any two calls.
pub fn plain_sides_hand_over(side: &PlainSide)
    ensures { HandsOver side.now.seen side.now.far }
{
    let _cpu = side.cpu;
}
