//! A daemon's rounds over the side that it was given: each cell once, what is there is taken and
//! given back empty.
ghost use Rattle.std.specs.Prelude.{◌≡◌, ◌+◌, ◌<◌, true, false, IfSome};
ghost use Rattle.shared_side_tests.specs.Rounds.{IsPolledEvenly, IsVisited};

use lane_side::{DaemonSide, PollOf};
use sample_key::{Body, Entry, Note};
use std::alloc::Global;

/// What a daemon took so far.
#[derive(Drop)]
pub struct Taken {
    /// The entries of all batches.
    pub entries: Vec<Entry>,
    /// How many batches of the buffers 0 and 1 came.
    pub batches: [u64; 2],
    /// The note of the table that came last.
    pub table: Option<Note>,
    /// The words of the polls that found nothing.
    pub words: [u64; 3],
}

/// One round: a poll of each cell.
pub fn visit<D: DaemonSide>(side: &mut D, taken: &mut Taken)
    requires { IsPolledEvenly (D.seen side.old) (D.far side.old) }
    ensures visited { IsVisited 1 1 1 (D.seen side.old) (D.seen side.new)
        (D.far side.old) (D.far side.new) }
    ensures polled { IsPolledEvenly (D.seen side.new) (D.far side.new) }
    ensures later { (D.far side.new).rung_at < (D.seen side.new).first.tries }
    ensures fixed { D.fixed side.new ≡ D.fixed side.old }
{
    visit_first(side, taken);
    visit_second(side, taken);
    visit_table(side, taken);
}

fn visit_first<D: DaemonSide>(side: &mut D, taken: &mut Taken)
    requires { IsPolledEvenly (D.seen side.old) (D.far side.old) }
    ensures visited { IsVisited 1 0 0 (D.seen side.old) (D.seen side.new)
        (D.far side.old) (D.far side.new) }
    ensures fixed { D.fixed side.new ≡ D.fixed side.old }
{
    match side.poll_buffer(0) {
        PollOf::Home(word) => taken.words[0] = word,
        PollOf::Parcel(parcel) => {
            let mut buffer = parcel.body;
            taken.take_in(0, &buffer);
            buffer.clear();
            side.return_buffer(0, buffer);
        }
    }
}

fn visit_second<D: DaemonSide>(side: &mut D, taken: &mut Taken)
    requires free { (D.far side.old).second.holds ≡ false }
    requires evenly { ((D.seen side.old).second.tries < (D.seen side.old).first.tries)
        × ((D.seen side.old).third.tries ≡ (D.seen side.old).second.tries) }
    ensures visited { IsVisited 0 1 0 (D.seen side.old) (D.seen side.new)
        (D.far side.old) (D.far side.new) }
    ensures fixed { D.fixed side.new ≡ D.fixed side.old }
{
    match side.poll_buffer(1) {
        PollOf::Home(word) => taken.words[1] = word,
        PollOf::Parcel(parcel) => {
            let mut buffer = parcel.body;
            taken.take_in(1, &buffer);
            buffer.clear();
            side.return_buffer(1, buffer);
        }
    }
}

fn visit_table<D: DaemonSide>(side: &mut D, taken: &mut Taken)
    requires free { (D.far side.old).third.holds ≡ false }
    requires evenly { ((D.seen side.old).third.tries < (D.seen side.old).first.tries)
        × ((D.seen side.old).second.tries ≡ (D.seen side.old).first.tries) }
    ensures visited { IsVisited 0 0 1 (D.seen side.old) (D.seen side.new)
        (D.far side.old) (D.far side.new) }
    ensures fixed { D.fixed side.new ≡ D.fixed side.old }
{
    match side.poll_table() {
        PollOf::Home(word) => taken.words[2] = word,
        PollOf::Parcel(parcel) => {
            let mut table = parcel.body;
            taken.table = Some(parcel.note);
            taken.copy(&table);
            table.clear();
            side.return_table(table);
        }
    }
}

impl Taken {
    /// Nothing yet; each word is 1, which no poll that finds nothing reads.
    pub fn new(alloc: Global) -> Taken {
        Taken {
            entries: Vec::new(alloc),
            batches: [0, 0],
            table: None,
            words: [1, 1, 1],
        }
    }

    /// Whether the table that came last answers this value, and all buffers that it names came.
    pub fn answers(&self, value: u64) -> bool {
        match &self.table {
            Some(note) => {
                note.answers == value
                    && note.sent0 <= self.batches[0]
                    && note.sent1 <= self.batches[1]
            }
            None => false,
        }
    }

    fn take_in<B: Body>(&mut self, b: usize, body: &B)
        requires { b < 2 }
    {
        self.batches[b] = self.batches[b].saturating_add(1);
        self.copy(body);
    }

    // Entries that find no memory are missing in the sums.
    fn copy<B: Body>(&mut self, body: &B) {
        match body.copy_to(&mut self.entries) {
            Ok(()) => {}
            Err(_) => {}
        }
    }
}
