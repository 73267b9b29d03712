//! The plain side as the daemon uses it.

use crate::call_log::Call;
use crate::plain::PlainSide;
use crate::sides::{DaemonSide, Poll};
use assoc_table::AssocTable;
use overflow_pair::Buffer;
use std::snapshot::Snapshot;
use turn_cell::PollOf;

impl DaemonSide for PlainSide {
    fn ring(&mut self, value: u64) {
        self.log.note(Call::Ring(value));
        self.bell = value;
    }

    fn poll_buffer(&mut self, b: u8) -> Poll<Buffer> {
        if b == 0 {
            let word = self.first.word();
            self.log.note(Call::Try(0, word));
            self.first.poll(word)
        } else {
            let word = self.second.word();
            self.log.note(Call::Try(1, word));
            self.second.poll(word)
        }
    }

    fn return_buffer(&mut self, b: u8, buffer: Buffer) {
        self.log.note(Call::Pass);
        if b == 0 {
            self.first.give_back(buffer);
        } else {
            self.second.give_back(buffer);
        }
    }

    fn poll_table(&mut self) -> Poll<AssocTable> {
        let word = self.third.word();
        self.log.note(Call::Try(2, word));
        match self.third.poll(word) {
            PollOf::Parcel(parcel) => {
                self.log.note(Call::Taken(Snapshot::of(&parcel.body)));
                PollOf::Parcel(parcel)
            }
            PollOf::Home(word) => PollOf::Home(word),
        }
    }

    fn return_table(&mut self, table: AssocTable) {
        self.log.note(Call::Pass);
        self.third.give_back(table);
    }
}
