//! A law of segments in order: the function's contract is the law, and its body is empty.
ghost use Rattle.std.specs.Prelude.{◌≡◌, List, None, Some, map};
ghost use Rattle.std.specs.declared.option.Option.{Option};
ghost use Rattle.database_model.specs.Runs.{Segment};
ghost use Rattle.run_listing.specs.Orders.{first_bad};
ghost use Rattle.run_listing.specs.Runs.{AreRuns, readable};

/// Where no segment is bad or out of order, all are readable, the runs are 1, 2, 3 and so on, the parts of each are numbered
/// 0, 1, 2 and so on in their order, and none but the last of them is the run's last.
pub fn runs_stand_in_order()
    ensures readable { (segments : List (Option Segment)) → first_bad segments ≡ None →
        segments ≡ map Some (readable segments) }
    ensures runs { (segments : List (Option Segment)) → first_bad segments ≡ None →
        AreRuns (readable segments) }
{}
