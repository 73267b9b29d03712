//! From closed cells to joined processors.
ghost use Rattle.run_closes.specs.Closes.{AllIsTaken, ClosesAreJoined, FrontsAreFirst, PollsAreTimely};

use run_joins::bell_is_known;

/// Where a driver answered the close and the daemon found that flush complete, all that was handed
/// was taken; so a processor whose cells were closed is joined. After a kept fault what was drained
/// before is still what was handed first.
pub fn closes_are_joined()
    ensures taken { AllIsTaken }
    ensures joined { ClosesAreJoined }
    ensures front { FrontsAreFirst }
{}

/// What a poll promises of a batch says that none of its samples was drained before it was due.
pub fn polls_are_timely()
    ensures { PollsAreTimely }
{
    bell_is_known();
}
