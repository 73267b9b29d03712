//! `plain_counts`: the samples are counted in a table by numbers, an image by the rank of its name, and the table is
//! sorted once at the end.
ghost use Rattle.std.specs.Prelude.{IfOk};
ghost use Rattle.direct_counts.specs.Ranks.{AreRanks};
ghost use Rattle.direct_counts.specs.Walks.{CountsSamples, HaveOneListing, TalliesTrace};

use crate::lists::listed;
use crate::ranks::{Ranking, ranked};
use crate::sites::Site;
use crate::walks::Walk;
use std::alloc::{AllocError, Global};
use std::collections::HashMap;
use trace_model::{Counts, Trace};

/// Counts the samples of a trace by place: each adds one where it lies by the records that stand before it, in the epoch
/// that had begun by then, counted from 0.
pub fn plain_counts(alloc: Global, trace: &Trace) -> Result<Counts, AllocError>
    ensures { IfOk result (λ counts. CountsSamples trace.now counts) }
{
    let ranking = ranked(alloc, &trace.images)?;
    let counts = counted(alloc, trace, &ranking)?;
    listed(alloc, &ranking.names, &counts)
}

// The samples of a trace in a table.
fn counted(
    alloc: Global,
    trace: &Trace,
    ranking: &Ranking,
) -> Result<HashMap<Site, u64>, AllocError>
    requires { AreRanks trace.now.images.items ranking.now.names.items ranking.now.ranks.items }
    ensures { IfOk result (λ made. TalliesTrace ranking.now.names.items made.entries trace.now) }
{
    let mut walk = Walk::new(alloc, ranking);
    for line in &trace.lines {
        walk.take(line)?;
    }
    Ok(walk.into_counts())
}

/// Samples have one list of counts: two lists that count the same samples are equal.
pub fn one_listing()
    ensures { HaveOneListing }
{}
