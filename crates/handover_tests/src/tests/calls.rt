//! The table of calls on one thread, with the answers that each row must give.
ghost use Rattle.std.specs.Prelude.{◌≡◌, true, false, [], IfOk};

use super::crates::{Crate, Size, new_crate, pass};
use std::alloc::{AllocError, Global};
use std::process::Abort;
use std::test::Fail;
use turn_cell::{Bell, Closed, DaemonEnd, LaneEnd, Look, Parcel, PollOf, TurnCell, close};

#[test]
fn calls_answer_as_in_the_table(rt: HostRuntime) -> Result<(), Fail> {
    let alloc = rt.alloc();
    assert_eq!(rt; poll_first(&rt, alloc)?, [Answer::Home(0)]);
    assert_eq!(rt;
        look_after_hand(&rt, alloc)?,
        [Answer::Back, Answer::Out(1)]
    );
    let home = Answer::Closed {
        has_value: false,
        word: 2,
    };
    assert_eq!(rt;
        there_and_back(&rt, alloc)?,
        [Answer::Back, Answer::Parcel, Answer::Back, home]
    );
    let on_its_way = Answer::Closed {
        has_value: true,
        word: 1,
    };
    assert_eq!(rt; close_after_hand(&rt, alloc)?, [on_its_way]);
    let held = Answer::Closed {
        has_value: false,
        word: 1,
    };
    assert_eq!(rt; close_after_poll(&rt, alloc)?, [held]);
    assert_eq!(rt;
        rings(alloc)?,
        [Answer::Heard(0), Answer::Heard(3), Answer::Heard(4)]
    );
    Ok(())
}

// What a call answered.
#[derive(Clone, Copy, Debug, PartialEq, Eq)]
enum Answer {
    Back,
    Out(u64),
    Parcel,
    Home(u64),
    Closed { has_value: bool, word: u64 },
    Heard(u64),
}

// new, poll
fn poll_first(rt: &impl Abort, alloc: Global) -> Result<[Answer; 1], AllocError> {
    let (_lane, mut daemon) = new_cell(alloc)?;
    let PollOf::Home(word) = daemon.poll() else {
        panic!(rt; "a parcel in a new cell");
    };
    Ok([Answer::Home(word)])
}

// new, look, hand, look
fn look_after_hand(rt: &impl Abort, alloc: Global) -> Result<[Answer; 2], AllocError> {
    let (mut lane, _daemon) = new_cell(alloc)?;
    let Look::Back(mut value) = lane.look() else {
        panic!(rt; "the value is out");
    };
    value.sent = 1;
    lane.hand(Parcel {
        number: 1,
        upto: 0,
        value,
    });
    let Look::Out(word) = lane.look() else {
        panic!(rt; "the value is back");
    };
    Ok([Answer::Back, Answer::Out(word)])
}

// new, look, hand, poll, give_back, look, and the word of the closed cell
fn there_and_back(rt: &impl Abort, alloc: Global) -> Result<[Answer; 4], AllocError> {
    let (mut lane, mut daemon) = new_cell(alloc)?;
    let Look::Back(mut value) = lane.look() else {
        panic!(rt; "the value is out");
    };
    value.load = 3;
    value.sent = 1;
    let parcel = Parcel {
        number: 1,
        upto: 9,
        value,
    };
    let Some(parcel) = pass(&mut lane, &mut daemon, parcel) else {
        panic!(rt; "no parcel");
    };
    assert!(rt; parcel.number == 1 && parcel.upto == 9 && parcel.value.load == 3);
    let mut value = parcel.value;
    value.load = 0;
    daemon.give_back(value);
    let Look::Back(value) = lane.look() else {
        panic!(rt; "the value is out again");
    };
    assert!(rt; value.load == 0 && value.sent == 1);
    let closed = close(lane, daemon);
    let last = Answer::Closed {
        has_value: closed.value.is_some(),
        word: closed.word,
    };
    Ok([Answer::Back, Answer::Parcel, Answer::Back, last])
}

// new, look, hand, close
fn close_after_hand(rt: &impl Abort, alloc: Global) -> Result<[Answer; 1], AllocError> {
    let (mut lane, daemon) = new_cell(alloc)?;
    let Look::Back(mut value) = lane.look() else {
        panic!(rt; "the value is out");
    };
    value.sent = 1;
    lane.hand(Parcel {
        number: 1,
        upto: 0,
        value,
    });
    let closed = close(lane, daemon);
    Ok([Answer::Closed {
        has_value: closed.value.is_some(),
        word: closed.word,
    }])
}

// new, look, hand, poll, close
fn close_after_poll(rt: &impl Abort, alloc: Global) -> Result<[Answer; 1], AllocError> {
    let (mut lane, mut daemon) = new_cell(alloc)?;
    let Look::Back(mut value) = lane.look() else {
        panic!(rt; "the value is out");
    };
    value.sent = 1;
    let parcel = Parcel {
        number: 1,
        upto: 0,
        value,
    };
    let Some(_parcel) = pass(&mut lane, &mut daemon, parcel) else {
        panic!(rt; "no parcel");
    };
    let closed = close_held(lane, daemon);
    Ok([Answer::Closed {
        has_value: closed.value.is_some(),
        word: closed.word,
    }])
}

// A daemon's end that holds the value has taken all that was handed.
fn close_held(lane: LaneEnd<Crate>, daemon: DaemonEnd<Crate>) -> Closed<Crate>
    requires { (lane.cell ≡ daemon.cell) × (daemon.holds ≡ true) }
    ensures { daemon.taken ≡ lane.handed }
{
    close(lane, daemon)
}

// hear, ring 3, hear, note, meet, ring 4, hear
fn rings(alloc: Global) -> Result<[Answer; 3], AllocError> {
    let (mut ring, mut hear) = Bell::new(alloc)?;
    let silent = hear.hear();
    ring.ring(3);
    let first = hear.hear();
    let note = hear.note();
    ring.meet(note);
    ring.ring(4);
    let second = hear.hear();
    Ok([
        Answer::Heard(silent),
        Answer::Heard(first),
        Answer::Heard(second),
    ])
}

// A cell whose crates have the size 4.
fn new_cell(alloc: Global) -> Result<(LaneEnd<Crate>, DaemonEnd<Crate>), AllocError>
    ensures cell { IfOk result (λ ends. ends.0.cell ≡ ends.1.cell) }
    ensures key { IfOk result (λ ends. (ends.0.key.size ≡ 4) × (ends.1.key.size ≡ 4)) }
    ensures lane { IfOk result (λ ends. (ends.0.handed ≡ []) × (ends.0.holds ≡ false)) }
    ensures daemon { IfOk result (λ ends. (ends.1.taken ≡ []) × (ends.1.holds ≡ false)) }
{
    TurnCell::new(alloc, Size { size: 4 }, new_crate(4))
}
