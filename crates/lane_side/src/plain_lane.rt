//! The plain side as the driver uses it.

use crate::call_log::Call;
use crate::plain::PlainSide;
use crate::sides::LaneSide;
use assoc_table::AssocTable;
use overflow_pair::Buffer;
use sample_key::Parcel;
use std::snapshot::Snapshot;
use turn_cell::Look;

impl LaneSide for PlainSide {
    fn hear(&mut self) -> u64 {
        let value = self.bell;
        self.log.note(Call::Hear(value));
        value
    }

    fn look_buffer(&mut self, b: u8) -> Look<Buffer> {
        if b == 0 {
            let word = self.first.word();
            self.log.note(Call::Try(0, word));
            self.first.look(word)
        } else {
            let word = self.second.word();
            self.log.note(Call::Try(1, word));
            self.second.look(word)
        }
    }

    fn hand_buffer(&mut self, b: u8, parcel: Parcel<Buffer>) {
        self.history.push(parcel.note, &parcel.body);
        self.log.note(Call::Pass);
        if b == 0 {
            self.first.hand(parcel);
        } else {
            self.second.hand(parcel);
        }
    }

    fn look_table(&mut self) -> Look<AssocTable> {
        let word = self.third.word();
        self.log.note(Call::Try(2, word));
        self.third.look(word)
    }

    fn hand_table(&mut self, parcel: Parcel<AssocTable>) {
        self.history.push(parcel.note, &parcel.body);
        self.log.note(Call::Pass);
        self.log.note(Call::Handed(Snapshot::of(&parcel.body)));
        self.third.hand(parcel);
    }
}
