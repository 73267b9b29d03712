//! Laws of the daemon's counts: they agree with what was taken, and so its advance is the run's.

ghost use Rattle.dcpid_core.specs.Counting.{AdvancesAsTheRun, CountsAgree, SidesFitOn};

/// Where the counts agree with what the sides tell was taken, an advance of the daemon is one of the run's definitions.
pub fn advances_are_the_runs()
    ensures { AdvancesAsTheRun }
{}

/// The counts agree at the start, after each batch that is taken, and from one flush to the next.
pub fn counts_agree()
    ensures { CountsAgree }
{}

/// After an advance the sides fit the daemon still: they were rung with the values that it rang.
pub fn sides_fit_on()
    ensures { SidesFitOn }
{}
