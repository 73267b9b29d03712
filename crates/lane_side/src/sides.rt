//! The two traits: what a driver may do with its cells and bell, and what the daemon may.

ghost use Rattle.std.specs.Prelude.{◌≡◌, ℕ, ◌^◌, ◌≤◌, true, false};
ghost use Rattle.driver_model.specs.Table.{empty_table};
ghost use Rattle.driver_model.specs.Sides.{Side, slot_of, side_hear, side_hand_buffer, side_hand_table};
ghost use Rattle.driver_model.specs.Handover.{FarSide, far_slot_of, far_gave_buffer, far_gave_table, far_rang, rung_of, side_called};
ghost use Rattle.overflow_pair.specs.Contents.{empty_buffer};
ghost use Rattle.lane_side.specs.Fixed.{Fixed};
ghost use Rattle.lane_side.specs.Calls.{LooksAtBuffer, LooksAtTable, MayHandBuffer, MayHandTable, PollsEvenly, RingsEvenly, PollsBuffer, PollsTable, buffer_sent, table_sent};

use crate::endpoints::Endpoint;
use assoc_table::AssocTable;
use overflow_pair::Buffer;
use sample_key::Parcel;
use turn_cell::{Look, PollOf};

/// What a poll of a cell with values of this type found.
pub type Poll<B> = PollOf<Parcel<B>>;

/// The driver's side: it hears the bell, looks for values and hands them over. No call waits, takes a lock or takes memory.
pub trait LaneSide: Endpoint {
    /// The bell value. Where the side tells the values rung, it is the one rung last.
    fn hear(&mut self) -> u64
        ensures later { (Self.seen self.old).heard ≤ result }
        ensures bound { result ≤ 2 ^ 32 }
        ensures told { (Self.fixed self.old).told ≡ true →
            result ≡ rung_of (Self.far self.old).rungs }
        ensures seen { Self.seen self.new ≡ side_hear (Self.seen self.old) result }
        ensures far { Self.far self.new ≡ Self.far self.old }
        ensures fixed { Self.fixed self.new ≡ Self.fixed self.old };

    /// Looks for buffer b, which the driver does not hold: one load of its word.
    fn look_buffer(&mut self, b: u8) -> Look<Buffer>
        requires number { b ≤ 1 }
        requires free { (slot_of (Self.seen self.old) b).holds ≡ false }
        ensures looks { LooksAtBuffer b (Self.seen self.old) (Self.far self.old) result
            (Self.seen self.new) }
        ensures far { Self.far self.new ≡ Self.far self.old }
        ensures fixed { Self.fixed self.new ≡ Self.fixed self.old };

    /// Hands buffer b, which the driver holds, to the daemon.
    fn hand_buffer(&mut self, b: u8, parcel: Parcel<Buffer>)
        requires number { b ≤ 1 }
        requires may { MayHandBuffer b (Self.fixed self.old) (Self.seen self.old)
            parcel.note parcel.body }
        ensures seen { Self.seen self.new
            ≡ side_hand_buffer (Self.seen self.old) b (buffer_sent parcel) }
        ensures far { Self.far self.new ≡ Self.far self.old }
        ensures fixed { Self.fixed self.new ≡ Self.fixed self.old };

    /// Looks for the table, which the driver does not hold: one load of its word.
    fn look_table(&mut self) -> Look<AssocTable>
        requires { (Self.seen self.old).third.holds ≡ false }
        ensures looks { LooksAtTable (Self.seen self.old) (Self.far self.old) result
            (Self.seen self.new) }
        ensures far { Self.far self.new ≡ Self.far self.old }
        ensures fixed { Self.fixed self.new ≡ Self.fixed self.old };

    /// Hands the table, which the driver holds, to the daemon; its note answers the value heard last.
    fn hand_table(&mut self, parcel: Parcel<AssocTable>)
        requires { MayHandTable (Self.fixed self.old) (Self.seen self.old)
            parcel.note parcel.body }
        ensures seen { Self.seen self.new
            ≡ side_hand_table (Self.seen self.old) (table_sent parcel) parcel.body.turn }
        ensures far { Self.far self.new ≡ Self.far self.old }
        ensures fixed { Self.fixed self.new ≡ Self.fixed self.old };
}

/// The daemon's side: it rings the bell, polls for parcels and gives values back. No call waits, takes a lock or takes memory.
pub trait DaemonSide: Endpoint {
    /// Rings the bell with a value that is not below the one rung last.
    fn ring(&mut self, value: u64)
        requires later { rung_of (Self.far self.old).rungs ≤ value }
        requires bound { value ≤ 2 ^ 32 }
        requires evenly { RingsEvenly (Self.fixed self.old).even (Self.seen self.old)
            (Self.far self.old) }
        ensures seen { Self.seen self.new ≡ side_called (Self.seen self.old) }
        ensures far { Self.far self.new
            ≡ far_rang (Self.far self.old) value (Self.seen self.old).first.tries }
        ensures fixed { Self.fixed self.new ≡ Self.fixed self.old };

    /// Polls buffer b, which the daemon does not hold: one load of its word.
    fn poll_buffer(&mut self, b: u8) -> Poll<Buffer>
        requires number { b ≤ 1 }
        requires free { (far_slot_of (Self.far self.old) b).holds ≡ false }
        requires evenly { PollsEvenly (Self.fixed self.old).even
            (slot_of (Self.seen self.old) b).tries (Self.seen self.old) }
        ensures polls { PollsBuffer b (Self.fixed self.old) (Self.seen self.old) (Self.far self.old)
            result (Self.seen self.new) (Self.far self.new) }
        ensures fixed { Self.fixed self.new ≡ Self.fixed self.old };

    /// Gives buffer b, which the daemon holds, back empty.
    fn return_buffer(&mut self, b: u8, buffer: Buffer)
        requires number { b ≤ 1 }
        requires holds { (far_slot_of (Self.far self.old) b).holds ≡ true }
        requires empty { buffer ≡ empty_buffer (Self.seen self.old).buffer }
        ensures seen { Self.seen self.new ≡ side_called (Self.seen self.old) }
        ensures far { Self.far self.new ≡ far_gave_buffer (Self.far self.old) b }
        ensures fixed { Self.fixed self.new ≡ Self.fixed self.old };

    /// Polls the table, which the daemon does not hold: one load of its word.
    fn poll_table(&mut self) -> Poll<AssocTable>
        requires free { (Self.far self.old).third.holds ≡ false }
        requires evenly { PollsEvenly (Self.fixed self.old).even
            (Self.seen self.old).third.tries (Self.seen self.old) }
        ensures polls { PollsTable (Self.fixed self.old) (Self.seen self.old) (Self.far self.old)
            result (Self.seen self.new) (Self.far self.new) }
        ensures fixed { Self.fixed self.new ≡ Self.fixed self.old };

    /// Gives the table, which the daemon holds, back empty and with the turn that it had.
    fn return_table(&mut self, table: AssocTable)
        requires holds { (Self.far self.old).third.holds ≡ true }
        requires empty { table
            ≡ empty_table (Self.seen self.old).buckets (Self.far self.old).turn }
        ensures seen { Self.seen self.new ≡ side_called (Self.seen self.old) }
        ensures far { Self.far self.new ≡ far_gave_table (Self.far self.old) }
        ensures fixed { Self.fixed self.new ≡ Self.fixed self.old };
}
