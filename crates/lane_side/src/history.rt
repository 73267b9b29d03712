//! The batches that were handed, in room that was taken when it was made.

ghost use Rattle.std.specs.Prelude.{◌≡◌, ◌+◌, ◌≤◌, length, IfOk};
ghost use Rattle.lane_side.specs.HandedSoFar.{HandedSoFar, none_handed, one_more};

use sample_key::{Body, Entry, Note};
use std::alloc::{AllocError, Global};
use std::marker::Model;

// A batch: its note, and how many of the entries are its own.
#[derive(Drop)]
pub(crate) struct BatchHead {
    note: Note,
    count: usize,
}

// All batches that were handed, in room that was taken when it was made.
#[derive(Drop)]
pub(crate) struct History {
    heads: Vec<BatchHead>,
    entries: Vec<Entry>,
    // What may still be handed.
    hands: usize,
    left: usize,
}

impl Model for History {
    ghost use Rattle.std.specs.Prelude.{◌≡◌, ◌+◌, ◌≤◌, length, vec_capacity};
    ghost use Rattle.lane_side.specs.HandedSoFar.{HandedSoFar};

    ghost Value = { HandedSoFar };

    ghost use Rattle.lane_side.specs.Cuts.{cut, counts_of};

    ghost view = { λ h. record {
      sent = cut h.heads.items h.entries.items;
      room = record { hands = h.hands; entries = h.left };
    } };

    ghost invariant = { λ h.
        (counts_of h.heads.items ≡ length h.entries.items)
        × (length h.heads.items + h.hands ≤ vec_capacity h.heads)
        × (length h.entries.items + h.left ≤ vec_capacity h.entries) };
}

impl History {
    // Room for so many hands and entries.
    pub(crate) fn new(alloc: Global, hands: usize, left: usize) -> Result<History, AllocError>
        ensures { IfOk result (λ history.
            history ≡ none_handed (record { hands = hands; entries = left })) }
    {
        let heads = Vec::with_capacity(alloc, hands)?;
        let entries = Vec::with_capacity(alloc, left)?;
        Ok(History {
            heads,
            entries,
            hands,
            left,
        })
    }

    // One batch more.
    pub(crate) fn push<B: Body>(&mut self, note: Note, body: &B)
        requires hands { 1 ≤ self.old.room.hands }
        requires entries { length (B.entries body.now) ≤ self.old.room.entries }
        ensures { self.new
            ≡ one_more self.old (record { note = note; entries = B.entries body.now }) }
    {
        let before = self.entries.len();
        match body.copy_to(&mut self.entries) {
            Ok(()) => {}
            Err(_) => unreachable!(),
        }
        let count = self.entries.len() - before;
        match self.heads.push(BatchHead { note, count }) {
            Ok(()) => {}
            Err(_) => unreachable!(),
        }
        self.hands -= 1;
        self.left -= count;
    }
}
