//! The daemon's side: its ends of the three cells, and the end of the bell that rings.
use crate::carried::Carried;
use crate::passing::{bare, poll_in};
use assoc_table::AssocTable;
use boxcar::tag::{Names, Tag};
use lane_side::{DaemonSide, Endpoint, Poll};
use overflow_pair::Buffer;
use std::marker::Model;
use turn_cell::{DaemonEnd, RingEnd};

/// The daemon's side of one processor. What contracts see of it (`seen`, `far`) is read off what
/// its ends know: the batches taken, the words read, the polls, and the values rung. Its cells are
/// to be polled evenly.
#[derive(Drop)]
pub struct SharedDaemon {
    pub(crate) first: DaemonEnd<Carried<Buffer>>,
    pub(crate) second: DaemonEnd<Carried<Buffer>>,
    pub(crate) third: DaemonEnd<Carried<AssocTable>>,
    pub(crate) bell: RingEnd,
    // The tries of buffer 0 at the ring made last, which take no bytes.
    pub(crate) rung_at: Tag,
}

impl Model for SharedDaemon {
    ghost use Rattle.shared_side.specs.Shown.{Shown, daemon_shown, IsDaemonSide};

    ghost Value = { Shown };

    ghost view = { λ s. daemon_shown s.first s.second s.third s.bell s.rung_at.numbers };

    ghost invariant = { λ s. IsDaemonSide s.first.key s.second.key s.third.key s.bell };
}

impl Endpoint for SharedDaemon {
    ghost seen = { λ s. s.seen };

    ghost far = { λ s. s.far };

    ghost fixed = { λ s. s.fixed };
}

// How the tries of a buffer's cell are read off its end.
struct Tries;

impl Names<DaemonEnd<Carried<Buffer>>> for Tries {
    ghost use Rattle.std.specs.Prelude.{◌∷◌, []};

    ghost numbers = { λ e. e.tries ∷ [] };
}

impl DaemonSide for SharedDaemon {
    fn ring(&mut self, value: u64) {
        self.rung_at = Tag::of::<DaemonEnd<Carried<Buffer>>, Tries>(&self.first);
        self.bell.ring(value);
    }

    fn poll_buffer(&mut self, b: u8) -> Poll<Buffer> {
        if b == 0 {
            poll_in(self.first.poll(), &mut self.bell)
        } else {
            poll_in(self.second.poll(), &mut self.bell)
        }
    }

    fn return_buffer(&mut self, b: u8, buffer: Buffer) {
        if b == 0 {
            self.first.give_back(bare(buffer));
        } else {
            self.second.give_back(bare(buffer));
        }
    }

    fn poll_table(&mut self) -> Poll<AssocTable> {
        poll_in(self.third.poll(), &mut self.bell)
    }

    fn return_table(&mut self, table: AssocTable) {
        self.third.give_back(bare(table));
    }
}
