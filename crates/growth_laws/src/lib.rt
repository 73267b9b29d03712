//! What a run adds to a database: by place, what its drains count there, and at the exact pace what samples of the trace lie
//! there; and as a whole, what all its drains add. Each function's contract is a law, and its body is empty.
#![tactic(auto)]

ghost use Rattle.growth_laws.specs.Places.{AddsWhatIsDrained, PlainRecordsAddPlainly};
ghost use Rattle.growth_laws.specs.Whole.{RunsAddAllDrains};

/// What drains add at a place is how often they count it.
pub fn drains_add_what_they_count()
    ensures { AddsWhatIsDrained }
{}

/// A record that counts each place as often as samples of the trace lie there adds just that.
pub fn plain_records_add_plainly()
    ensures { PlainRecordsAddPlainly }
{}

/// After a whole run, part by part, the counts have grown by what all its drains add.
pub fn runs_add_all_drains()
    ensures { RunsAddAllDrains }
{}
