//! Threads that a gate holds: two lanes that wait for each other, and a lane whose buffers are drained between flushes.
use crate::calls::{call, sound_store};
use crate::gates::{Meeting, TurnByTurn};
use crate::traces::{ONE_BY_ONE, ONE_BY_ONE_SUMMARY, TWO_LANES};
use std::process::Abort;
use std::sync::Wait;
use std::sync::atomic::Ordering;
use std::test::Fail;
use std::thread::Threads;

// Both lanes come to the gate before either goes on, and no sample is lost.
fn lanes_meet<R: Threads + Wait + Abort + Sync>(
    rt: &R,
    alloc: std::alloc::Global,
    pace: &str,
) -> Result<(), Fail> {
    let gate = Meeting::new();
    let words = ["run", "db", "--pace", pace];
    let given = call(rt, alloc, &words, TWO_LANES, &mut sound_store(alloc), &gate)?;
    assert_eq!(rt; given.err.as_slice(), b"".as_slice());
    assert_eq!(rt; given.status, 0);
    assert_eq!(rt; gate.given_up.load(Ordering::SeqCst), 0);
    assert!(rt; gate.first.load(Ordering::SeqCst) > 0);
    assert!(rt; gate.second.load(Ordering::SeqCst) > 0);
    assert!(rt;
        given
            .out
            .ends_with(b"total taken 2 known 0 unknown 2 lost 0\n")
    );
    Ok(())
}

#[test]
fn lanes_meet_at_the_free_pace(rt: HostRuntime) -> Result<(), Fail> {
    lanes_meet(&rt, rt.alloc(), "free")
}

#[test]
fn lanes_meet_at_the_exact_pace(rt: HostRuntime) -> Result<(), Fail> {
    lanes_meet(&rt, rt.alloc(), "exact")
}

#[test]
fn polls_between_flushes_drain(rt: HostRuntime) -> Result<(), Fail> {
    let alloc = rt.alloc();
    let gate = TurnByTurn::new();
    let words = ["run", "db", "--pace", "free"];
    let given = call(
        &rt,
        alloc,
        &words,
        ONE_BY_ONE,
        &mut sound_store(alloc),
        &gate,
    )?;
    assert_eq!(rt; given.err.as_slice(), b"".as_slice());
    assert_eq!(rt; gate.given_up.load(Ordering::SeqCst), 0);
    assert_eq!(rt; given.status, 0);
    assert_eq!(rt; given.out.as_slice(), ONE_BY_ONE_SUMMARY);
    Ok(())
}
