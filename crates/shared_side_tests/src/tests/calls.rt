//! New sides by their calls on one thread, and what may go to another.
use super::rounds::{Taken, visit};
use lane_side::{DaemonSide, LaneSide, Look};
use shared_side::{SharedDaemon, SharedLane, close_shared, shared};
use std::test::Fail;

#[test]
fn new_sides_have_all_values_at_home(rt: HostRuntime) -> Result<(), Fail> {
    let samples = Vec::new(rt.alloc());
    let (mut lane, mut daemon) = shared(rt.alloc(), 15, &samples, 1, 8_192)?;
    sides_go(&lane, &daemon);
    let silent = lane.hear();
    let mut taken = Taken::new(rt.alloc());
    visit(&mut daemon, &mut taken);
    daemon.ring(4);
    let heard = [silent, lane.hear()];
    let looked = [
        looked(lane.look_buffer(0)),
        looked(lane.look_buffer(1)),
        looked(lane.look_table()),
    ];
    assert_eq!(rt;
        (heard, taken.words, looked),
        ([0, 4], [0, 0, 0], [0, 0, 0])
    );
    assert_eq!(rt; close_shared(lane, daemon), [0, 0, 0]);
    Ok(())
}

// What a look found, as a number: 0 where the value is back.
fn looked<T: Drop>(look: Look<T>) -> u64 {
    match look {
        Look::Back(_) => 0,
        Look::Out(word) => word,
    }
}

// Both sides may go to other threads.
fn sides_go(lane: &SharedLane, daemon: &SharedDaemon) {
    needs_send(lane);
    needs_send(daemon);
}

fn needs_send<T: Send>(_: &T) {}
