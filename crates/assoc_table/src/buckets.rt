//! One bucket of the table: its ways in use, the search for a key among them, and what adding a sample does to them.
ghost use Rattle.std.specs.Prelude.{◌≡◌, ◌<◌, ◌≤◌, [], length, is_some, IfSome};
ghost use Rattle.sample_key.specs.Bags.{same_key};
ghost use Rattle.driver_model.specs.Table.{way_of, row_add, given_out};

use crate::limits::WAYS;
use driver_model::Added;
use sample_key::{Entry, Event, Key, MOST_COUNT};
use std::marker::Model;

// A bucket: the first `len` of its ways are in use. It is seen as the list of their entries.
#[derive(Drop)]
pub(crate) struct Bucket {
    entries: [Entry; WAYS],
    len: usize,
}

impl Model for Bucket {
    ghost use Rattle.std.specs.Prelude.{◌≤◌, List, take};
    ghost use Rattle.sample_key.specs.Counted.{Counted};
    ghost use Rattle.assoc_table.specs.declared.limits.TheConstants.{WAYS};

    ghost Value = { List Counted };

    ghost view = { λ b. take b.len b.entries };

    ghost invariant = { λ b. b.len ≤ WAYS };
}

impl Bucket {
    // A bucket of which no way is in use.
    pub(crate) fn new() -> Bucket
        ensures { result ≡ [] }
    {
        let key = Key {
            pid: 0,
            pc: 0,
            event: Event::Cycles,
        };
        Bucket {
            entries: [Entry { key, count: 1 }; WAYS],
            len: 0,
        }
    }

    // The entries of the ways in use.
    pub(crate) fn entries(&self) -> &[Entry]
        ensures { result.now ≡ self.now }
    {
        &self.entries[..self.len]
    }

    // Takes all entries away.
    pub(crate) fn clear(&mut self)
        ensures { self.new ≡ [] }
    {
        self.len = 0;
    }

    // Whether adding the key would give an entry out.
    pub(crate) fn needs_room(&self, key: &Key, victim: usize) -> bool
        ensures { result ≡ is_some (given_out (row_add self.now key.now victim).added) }
    {
        match find_in(&self.entries[..self.len], key) {
            Some(i) => {
                let entry = &self.entries[i];
                entry.count >= MOST_COUNT
            }
            None => self.len >= WAYS,
        }
    }

    // Adds a sample of the key; `victim` is the way to replace next.
    #[inline(always)]
    pub(crate) fn add(&mut self, key: Key, victim: &mut usize) -> Added
        requires { victim.old < WAYS }
        ensures row { self.new ≡ (row_add self.old key victim.old).row }
        ensures added { result ≡ (row_add self.old key victim.old).added }
        ensures turn { victim.new ≡ (row_add self.old key victim.old).turn }
    {
        match find_in(&self.entries[..self.len], &key) {
            Some(i) => {
                let old = self.entries[i];
                if old.count < MOST_COUNT {
                    self.entries[i] = Entry {
                        key: old.key,
                        count: old.count + 1,
                    };
                    Added::Folded
                } else {
                    self.entries[i] = Entry {
                        key: old.key,
                        count: 1,
                    };
                    Added::Spilt(old)
                }
            }
            None => {
                let fresh = Entry { key, count: 1 };
                if self.len < WAYS {
                    self.entries[self.len] = fresh;
                    self.len += 1;
                    Added::Placed
                } else {
                    let way = *victim;
                    let old = self.entries[way];
                    self.entries[way] = fresh;
                    *victim = (way + 1) % WAYS;
                    Added::Evicted(old)
                }
            }
        }
    }
}

// Where the entries have the key. They are never more than the ways, which the minimum tells the compiler: so it writes the
// search out, way by way.
#[inline(always)]
fn find_in(entries: &[Entry], key: &Key) -> Option<usize>
    requires few { length entries.now ≤ WAYS }
    ensures found { result ≡ way_of entries.now key.now }
    ensures within { IfSome result (λ i. i < length entries.now) }
{
    find_among(&entries[..entries.len().min(WAYS)], key)
}

// The search of `find_in`.
#[inline(always)]
fn find_among(entries: &[Entry], key: &Key) -> Option<usize>
    ensures found { result ≡ way_of entries.now key.now }
    ensures within { IfSome result (λ i. i < length entries.now) }
{
    for (i, entry) in entries.iter().enumerate() {
        if is_same(key, &entry.key) {
            return Some(i);
        }
    }
    None
}

// Whether both are one key. The keys of a bucket mostly differ in the program counter, so that is looked at first.
#[inline(always)]
fn is_same(a: &Key, b: &Key) -> bool
    ensures { result ≡ same_key a.now b.now }
{
    a.pc == b.pc && a.same(b)
}
