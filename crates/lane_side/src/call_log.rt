//! What was called and read of a plain side. It takes no bytes: contracts alone see it.

ghost use Rattle.std.specs.Prelude.{◌≡◌};
ghost use Rattle.lane_side.specs.Tallies.{no_tallies};
ghost use Rattle.lane_side.specs.Tallied.{tallied};

use assoc_table::AssocTable;
use boxcar::tag::{Names, Tag};
use std::marker::Model;
use std::snapshot::Snapshot;

// One call, or what it did with the table.
#[derive(Drop)]
pub(crate) enum Call {
    // The bell was heard, with this value.
    Hear(u64),
    // A cell was looked at or polled, with this word.
    Try(u8, u64),
    // A value was handed or given back.
    Pass,
    // The bell was rung, with this value.
    Ring(u64),
    // The table that was just handed.
    Handed(Snapshot<AssocTable>),
    // The table that was just taken.
    Taken(Snapshot<AssocTable>),
}

// The numbers before a call, and the call.
#[derive(Drop)]
struct Noted {
    before: Tag,
    call: Call,
}

// How the numbers after a call are read off.
struct Tally;

impl Names<Noted> for Tally {
    ghost use Rattle.lane_side.specs.Tallies.{encode, decode};
    ghost use Rattle.lane_side.specs.Tallied.{tallied};

    ghost numbers = { λ n. encode (tallied (decode n.before.numbers) n.call) };
}

// What was called and read so far. It takes no bytes: contracts alone see it.
#[derive(Drop)]
pub(crate) struct CallLog {
    numbers: Tag,
}

impl Model for CallLog {
    ghost use Rattle.lane_side.specs.Tallies.{Tallies, decode};

    ghost Value = { Tallies };

    ghost view = { λ c. decode c.numbers.numbers };
}

impl CallLog {
    pub(crate) fn new() -> CallLog
        ensures { result ≡ no_tallies }
    {
        CallLog {
            numbers: Tag::empty(),
        }
    }

    pub(crate) fn note(&mut self, call: Call)
        ensures { self.new ≡ tallied self.old call }
    {
        let before = std::mem::replace(&mut self.numbers, Tag::empty());
        let noted = Noted { before, call };
        self.numbers = Tag::of::<Noted, Tally>(&noted);
    }
}
