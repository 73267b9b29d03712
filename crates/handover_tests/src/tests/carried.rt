//! Values that hold the ends of another cell, and notes of a bell.
ghost use Rattle.std.specs.Prelude.{◌≡◌, false, [], IfSome};

use super::crates::{Crate, Size, new_crate};
use std::test::Fail;
use turn_cell::{
    Bell, BellMark, HeardNote, Kept, LaneEnd, Look, Parcel, PollOf, RingEnd, TurnCell,
};

#[test]
fn an_end_and_a_note_go_through_another_cell(rt: HostRuntime) -> Result<(), Fail> {
    let (mut ring, mut hear) = Bell::new(rt.alloc())?;
    let (inner, mut inner_daemon) = TurnCell::new(rt.alloc(), Size { size: 4 }, new_crate(4))?;
    let terms = Terms {
        size: 4,
        bell: ring.mark(),
    };
    let empty = Errand {
        lane: None,
        heard: None,
    };
    let (mut lane, mut daemon) = TurnCell::new(rt.alloc(), terms, empty)?;
    ring.ring(6);
    assert!(rt; hear.hear() == 6);
    let Look::Back(_) = lane.look() else {
        panic!(rt; "the value is out");
    };
    let value = Errand {
        lane: Some(inner),
        heard: Some(hear.note()),
    };
    lane.hand(Parcel {
        number: 1,
        upto: 0,
        value,
    });
    ring.ring(8);
    let PollOf::Parcel(parcel) = daemon.poll() else {
        panic!(rt; "no parcel");
    };
    assert!(rt; carry_out(parcel.value, &mut ring));
    assert!(rt; matches!(&inner_daemon.poll(), PollOf::Parcel(p) if p.value.load == 4));
    Ok(())
}

// Meets the note and hands a full crate over by the end that came. False where one of them is
// missing.
fn carry_out(errand: Errand, ring: &mut RingEnd) -> bool
    requires lane { IfSome errand.lane (λ lane. (lane.holds ≡ false) × (lane.handed ≡ [])) }
    requires heard { IfSome errand.heard (λ note. note.bell ≡ ring.old.bell) }
{
    let Errand { lane, heard } = errand;
    let Some(note) = heard else {
        return false;
    };
    ring.meet(note);
    let Some(mut lane) = lane else {
        return false;
    };
    let Look::Back(mut value) = lane.look() else {
        return false;
    };
    value.load = value.size;
    value.sent = 1;
    lane.hand(Parcel {
        number: 1,
        upto: 1,
        value,
    });
    true
}

/// What one thread sends to another: an end of a cell, and what was heard of a bell.
#[derive(Drop)]
struct Errand {
    lane: Option<LaneEnd<Crate>>,
    heard: Option<HeardNote>,
}

/// The size of the crates that the end hands over, and the bell.
#[derive(Drop)]
struct Terms {
    size: u64,
    bell: BellMark,
}

impl Kept for Errand {
    ghost use Rattle.std.specs.Prelude.{◌≡◌, false, [], IfSome, None};

    type Key = Terms;

    ghost keeps = { λ k p.
        IfSome p.value.lane
        (λ lane. (lane.holds ≡ false) × (lane.handed ≡ []) × (lane.key.size ≡ k.size))
        × IfSome p.value.heard (λ note. note.bell ≡ k.bell) };

    ghost returns = { λ k last x. (x.lane ≡ None) × (x.heard ≡ None) };
}
