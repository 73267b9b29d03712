//! A walk over the lines of a trace: `Walk::take` takes the next one, a sample into the table and a record into the
//! load map. The table tallies the samples so far.
ghost use Rattle.std.specs.Prelude.{◌≡◌, ◌+◌, ◌^◌, ◌<◌, unwrap_or, if◌then◌else◌, length, OnOk, IsTrue};
ghost use Rattle.std.specs.HashMap.{get};
ghost use Rattle.trace_model.specs.Parts.{begins_epoch};
ghost use Rattle.direct_counts.specs.Sites.{CountsOne, HasRank, site_at};

use crate::ranks::Ranking;
use crate::sites::Site;
use load_map::LoadMap;
use sample_key::Key;
use std::alloc::{AllocError, Global};
use std::collections::HashMap;
use std::hash::Hash;
use trace_model::{Line, Place, Record};

/// The mappings in force, the epoch, and the samples so far, counted by place.
#[derive(Drop)]
pub struct Walk<'a> {
    ranking: &'a Ranking,
    mappings: LoadMap,
    epoch: u32,
    counts: HashMap<Site, u64>,
}

impl<'a> Walk<'a> {
    ghost use Rattle.std.specs.Prelude.{◌≡◌, [], OnOk};
    ghost use Rattle.load_map.specs.Maps.{StandsFor};
    ghost use Rattle.direct_counts.specs.Walks.{CanTake, Takes};

    pub fn new(alloc: Global, ranking: &'a Ranking) -> Walk<'a>
        ensures ranking { result.ranking.now ≡ ranking.now }
        ensures mappings { StandsFor result.mappings [] }
        ensures epoch { result.epoch ≡ 0 }
        ensures counts { result.counts.entries ≡ [] }
    {
        Walk {
            ranking,
            mappings: LoadMap::new(alloc),
            epoch: 0,
            counts: HashMap::new(alloc),
        }
    }

    /// Takes the next line of the trace.
    pub fn take(&mut self, line: &Line) -> Result<(), AllocError>
        requires { CanTake self.old line.now }
        ensures { OnOk result (Takes self.old line.now self.new) }
    {
        match line {
            Line::Sample { key, .. } => {
                let place = self.mappings.place(key.pid, key.pc);
                let site = site_of(&self.ranking.ranks, self.epoch, key, place);
                count(&mut self.counts, site)
            }
            Line::Rec(entry) => {
                self.mappings.apply(entry)?;
                self.epoch = next_epoch(self.epoch, entry);
                Ok(())
            }
        }
    }

    pub fn into_counts(self) -> HashMap<Site, u64>
        ensures { result ≡ self.entry.counts }
    {
        self.counts
    }
}

fn site_of(ranks: &[usize], epoch: u32, key: &Key, place: Option<Place>) -> Site
    requires { HasRank ranks.now place }
    ensures { result ≡ site_at epoch ranks.now key.now place }
{
    match place {
        Some(place) => Site::Known {
            epoch,
            rank: ranks[place.image as usize],
            event: key.event,
            offset: place.offset,
        },
        None => Site::Unknown {
            epoch,
            event: key.event,
            pc: key.pc,
        },
    }
}

// Adds one to the count of a key.
fn count<K: Eq + Hash + Copy + Drop>(counts: &mut HashMap<K, u64>, key: K) -> Result<(), AllocError>
    requires { unwrap_or (get K.eq counts.old key) 0 + 1 < 2 ^ 64 }
    ensures { OnOk result (CountsOne K.eq counts.old counts.new key) }
{
    *counts.entry(key)?.or_insert(0) += 1;
    Ok(())
}

fn next_epoch(epoch: u32, entry: &Record) -> u32
    requires { IsTrue (begins_epoch entry.now) → epoch + 1 < 2 ^ 32 }
    ensures { result ≡ epoch + (if begins_epoch entry.now then 1 else 0) }
{
    if entry.begins_epoch() {
        epoch + 1
    } else {
        epoch
    }
}
