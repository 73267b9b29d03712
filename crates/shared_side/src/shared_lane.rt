//! The driver's side: its ends of the three cells, and the end of the bell that hears.
use crate::carried::Carried;
use crate::passing::{look_in, wrapped};
use assoc_table::AssocTable;
use lane_side::{Endpoint, LaneSide};
use overflow_pair::Buffer;
use sample_key::Parcel;
use std::marker::Model;
use turn_cell::{HearEnd, LaneEnd, Look};

/// The side of a processor's driver. What contracts see of it (`seen`) is read off what its ends
/// know: the batches handed, the words read, the looks, and what was heard. It tells neither the
/// daemon's half nor a room.
#[derive(Drop)]
pub struct SharedLane {
    pub(crate) first: LaneEnd<Carried<Buffer>>,
    pub(crate) second: LaneEnd<Carried<Buffer>>,
    pub(crate) third: LaneEnd<Carried<AssocTable>>,
    pub(crate) bell: HearEnd,
}

impl Model for SharedLane {
    ghost use Rattle.shared_side.specs.Shown.{Shown, lane_shown, AreKeys};

    ghost Value = { Shown };

    ghost view = { λ s. lane_shown s.first s.second s.third s.bell };

    ghost invariant = { λ s. AreKeys s.first.key s.second.key s.third.key s.bell.bell };
}

impl Endpoint for SharedLane {
    ghost seen = { λ s. s.seen };

    ghost far = { λ s. s.far };

    ghost fixed = { λ s. s.fixed };
}

impl LaneSide for SharedLane {
    fn hear(&mut self) -> u64 {
        self.bell.hear()
    }

    fn look_buffer(&mut self, b: u8) -> Look<Buffer> {
        if b == 0 {
            look_in(self.first.look())
        } else {
            look_in(self.second.look())
        }
    }

    fn hand_buffer(&mut self, b: u8, parcel: Parcel<Buffer>) {
        let heard = self.bell.note();
        if b == 0 {
            self.first.hand(wrapped(parcel, heard));
        } else {
            self.second.hand(wrapped(parcel, heard));
        }
    }

    fn look_table(&mut self) -> Look<AssocTable> {
        look_in(self.third.look())
    }

    fn hand_table(&mut self, parcel: Parcel<AssocTable>) {
        let last = self.bell.note();
        self.third.hand(wrapped(parcel, last));
    }
}
