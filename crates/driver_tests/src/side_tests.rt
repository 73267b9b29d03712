//! A new plain side by its calls, and that the parts of a driver may go to other threads.
use assoc_table::AssocTable;
use cpu_lane::Lane;
use lane_side::{DaemonSide, LaneSide, Look, PlainSide, PollOf};
use overflow_pair::{Buffer, Pair};
use std::test::Fail;

// What a look found, as a number: 0 where the value is back.
fn looked<T: Drop>(look: Look<T>) -> u64 {
    match look {
        Look::Back(_) => 0,
        Look::Out(word) => word,
    }
}

// What a poll found, as a number: the word, or 1 where the value was taken.
fn polled<T: Drop>(poll: PollOf<T>) -> u64 {
    match poll {
        PollOf::Home(word) => word,
        PollOf::Parcel(_) => 1,
    }
}

#[test]
fn a_new_side_has_all_values_at_home(rt: HostRuntime) -> Result<(), Fail> {
    let samples = Vec::new(rt.alloc());
    let mut side = PlainSide::new(rt.alloc(), 15, &samples, 65_537, 1, 8_192)?;
    let before = side.hear();
    side.ring(4);
    let heard = [before, side.hear()];
    let polled = [polled(side.poll_buffer(1)), polled(side.poll_table())];
    let looked = [
        looked(side.look_buffer(0)),
        looked(side.look_buffer(1)),
        looked(side.look_table()),
    ];
    assert_eq!(rt; (heard, polled, looked), ([0, 4], [0, 0], [0, 0, 0]));
    Ok(())
}

fn is_send<T: Send>() {}

fn is_sync<T: Sync>() {}

#[test]
fn parts_may_go_to_threads(rt: HostRuntime) {
    is_send::<Lane>();
    is_sync::<Lane>();
    is_send::<AssocTable>();
    is_sync::<AssocTable>();
    is_send::<Buffer>();
    is_sync::<Buffer>();
    is_send::<Pair>();
    is_sync::<Pair>();
    assert_eq!(rt; 0, 0);
}
