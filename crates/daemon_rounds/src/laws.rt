//! The laws of the daemon of a run that its callers cite.
ghost use Rattle.daemon_rounds.specs.Beginning.{NewDaemonsKnow};

use dcpid_core::counts_agree;
use run_joins::{books_are_kept, daemons_collect};

/// A new daemon knows its new sides, and they are idle.
pub fn new_daemons_know()
    ensures { NewDaemonsKnow }
{
    books_are_kept();
    daemons_collect();
    counts_agree();
}
