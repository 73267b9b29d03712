//! The table: buckets by the hash of a key, and one counter for all of them that says which way is replaced next.
ghost use Rattle.std.specs.Prelude.{◌≡◌, ℕ, ◌+◌, ◌<◌, ◌≤◌, ◌++◌, [], List, length, vec_len, vec_capacity, IfOk, OnOk, OnErr};
ghost use Rattle.sample_key.specs.Counted.{Counted};
ghost use Rattle.driver_model.specs.Table.{bucket_of, add, needs_room, empty_table, cleared, entries_in};

use crate::buckets::Bucket;
use crate::limits::MOST_BUCKETS;
use driver_model::Added;
use sample_key::{Body, Entry, Key};
use std::alloc::{AllocError, Global};
use std::marker::Model;

/// A table of 1 to `MOST_BUCKETS` buckets of four ways each. Contracts see its entries by bucket (`rows`) and the index
/// of the way that is replaced next in whatever bucket is full, 0 to 3 (`turn`).
#[derive(Drop)]
pub struct AssocTable {
    rows: Vec<Bucket>,
    victim: usize,
}

impl Model for AssocTable {
    ghost use Rattle.std.specs.Prelude.{◌<◌, ◌≤◌, length};
    ghost use Rattle.driver_model.specs.Table.{Table};
    ghost use Rattle.assoc_table.specs.declared.limits.TheConstants.{MOST_BUCKETS, WAYS};

    ghost Value = { Table };

    ghost view = { λ t. record { rows = t.rows.items; turn = t.victim } };

    ghost invariant = { λ t. (1 ≤ length t.rows.items) × (length t.rows.items ≤ MOST_BUCKETS) ×
        (t.victim < WAYS) };
}

impl AssocTable {
    /// An empty table of so many buckets, from 1 to `MOST_BUCKETS`, with the turn 0. It fails only for want of memory.
    pub fn new(alloc: Global, buckets: usize) -> Result<AssocTable, AllocError>
        requires some { 1 ≤ buckets }
        requires few { buckets ≤ MOST_BUCKETS }
        ensures { IfOk result (λ t. t ≡ empty_table buckets 0) }
    {
        let mut rows = Vec::with_capacity(alloc, buckets)?;
        for _ in 0..buckets {
            rows.push(Bucket::new())?;
        }
        Ok(AssocTable { rows, victim: 0 })
    }

    /// Whether adding the key would give an entry out: its entry is full, or it has none and its bucket is full.
    pub fn needs_room(&self, key: &Key) -> bool
        ensures { result ≡ needs_room self.now key.now }
    {
        let row = &self.rows[bucket(self.rows.len(), key)];
        row.needs_room(key, self.victim)
    }

    /// Adds a sample of the key: its entry's count rises or is given out at 65,535; or it takes a free way; or it takes
    /// the way whose turn it is, and that entry is given out.
    #[inline(always)]
    pub fn add(&mut self, key: Key) -> Added
        ensures table { self.new ≡ (add self.old key).table }
        ensures added { result ≡ (add self.old key).added }
    {
        let at = bucket(self.rows.len(), &key);
        let row = &mut self.rows[at];
        row.add(key, &mut self.victim)
    }

    /// Takes all entries away; the turn stays.
    pub fn clear(&mut self)
        ensures { self.new ≡ cleared self.old }
    {
        for row in self.rows.iter_mut() {
            row.clear();
        }
    }

    // Appends the entries; after a refusal some of them may be there.
    fn copy_rows(&self, out: &mut Vec<Entry>) -> Result<(), AllocError>
        ensures ok { OnOk result (out.new.items ≡ out.old.items ++ entries_in self.now) }
        ensures kept { (more : List Counted) × (out.new.items ≡ out.old.items ++ more) }
        ensures full { OnErr result (vec_capacity out.old < vec_len out.old + length
            (entries_in self.now)) }
        ensures capacity { vec_capacity out.old ≤ vec_capacity out.new }
    {
        for row in &self.rows {
            out.extend_from_slice(row.entries())?;
        }
        Ok(())
    }
}

// The bucket of a key among so many. The usual number is known beforehand, and a division by it costs little.
#[inline(always)]
fn bucket(buckets: usize, key: &Key) -> usize
    requires { 1 ≤ buckets }
    ensures place { result ≡ bucket_of buckets key.now }
    ensures within { result < buckets }
{
    let Key { pid, pc, event } = *key;
    let mixed = (pc / 4 + 7 * u64::from(pid) + u64::from(event.code())) as usize;
    match buckets {
        MOST_BUCKETS => mixed % MOST_BUCKETS,
        _ => mixed % buckets,
    }
}

impl Body for AssocTable {
    ghost entries = { entries_in };

    /// Appends the entries by bucket, and in a bucket by index.
    fn copy_to(&self, out: &mut Vec<Entry>) -> Result<(), AllocError> {
        let before = out.len();
        match self.copy_rows(out) {
            Ok(()) => Ok(()),
            Err(refused) => {
                out.truncate(before);
                Err(refused)
            }
        }
    }

    /// Takes all entries away; the turn stays.
    fn clear(&mut self)
        ensures entries { entries_in self.new ≡ [] }
        ensures cleared { self.new ≡ cleared self.old }
    {
        AssocTable::clear(self);
    }
}
