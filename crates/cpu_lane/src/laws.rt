//! What holds of a lane on a side that was made for it, as a call without a body: a caller that wants it makes the call, and
//! its proof cites the clause.
ghost use Rattle.cpu_lane.specs.Runs.{RunningHasRoom};

use driver_laws::room_is_enough;

/// A lane that runs on a side made with room for its samples and requests always has room for a turn.
pub fn running_has_room()
    ensures { RunningHasRoom }
{
    room_is_enough();
}
