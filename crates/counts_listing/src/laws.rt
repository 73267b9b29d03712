//! Laws of listings: each function's contract is a law, and its body is empty.
ghost use Rattle.std.specs.Prelude.{◌≡◌, List};
ghost use Rattle.trace_model.specs.Counting.{Row};
ghost use Rattle.database_state.specs.Database.{Database as Said};
ghost use Rattle.counts_listing.specs.Counting.{AreCountsIn};

/// A database has one list of counts: two lists that count what it holds are equal.
pub fn a_database_has_one_listing()
    ensures { (db : Said) (first second : List Row) →
        AreCountsIn db first → AreCountsIn db second → first ≡ second }
{}
