//! Segments by their bytes, damaged segments, and a tally by hand.
ghost use Rattle.database_model.specs.Ranges.{IsSegment, IsRecorded};

use run_record::{
    RunRecord, RunSegment, SegmentError, TallyRow, read_segment, segment_begins_no_other,
    segment_spelled_once, segments_are_in_range, tally, write_segment,
};
use sample_key::Event;
use std::test::Fail;

// a segment of one drain, the batch of a table that answers 1 and has no entries, and one processor without losses
const FLUSHED: [u8; 18] = [
    0x01, 0x01, 0x00, 0x01, 0x00, 0x01, // run 1, part 0, the last, first epoch 0, one drain
    0x00, 0x00, 0x00, 0x02, 0x01, 0x00, 0x01, 0x00, 0x00, 0x00, // the drain
    0x01, 0x00, // the losses
];

// a segment with an entry of 300 in an image, and two losses of the second of two processors
const COUNTED: [u8; 34] = [
    0x01, 0x03, 0x02, 0x01, 0x05, 0x01, // run 3, its third part and the last, first epoch 5, one drain
    0x04, 0x06, 0x01, 0x00, 0x01, 0x09, 0x00, 0x01, 0x00, 0x01, // the drain, of one entry
    0x07, 0x80, 0x08, 0x03, 0xac, 0x02, // PID 7, PC 1000, imiss, attributed, 300
    0x02, 0x00, 0x02, // two processors, the first without losses
    0x04, 0x00, 0x01, 0x01, // index 4, cycles
    0x05, 0x02, 0x01, 0x83, 0x01, // index 5, dmiss
];

// two drains of two processors, and a loss of a third
const MIXED: [u8; 45] = [
    0x01, 0x01, 0x00, 0x01, 0x00, 0x02, // two drains
    0x00, 0x00, 0x00, 0x02, 0x01, 0x05, 0x01, 0x00, 0x00, 0x02, // processor 0, two entries
    0x07, 0x00, 0x01, 0x03, // cycles, attributed, 3
    0x07, 0x01, 0x00, 0x02, // cycles, unknown, 2
    0x00, 0x00, 0x02, 0x00, 0x01, 0x05, 0x00, 0x01, 0x00, 0x01, // processor 2, one entry
    0x08, 0x02, 0x06, 0x05, // branchmp, unknown, 5
    0x02, 0x00, 0x01, 0x00, 0x00, 0x01, 0x01, // two processors, a loss of the second: index 0, cycles
];

// what is read of each
const FLUSHED_TEXT: &str = "RunSegment { run: 1, part: 0, last: true, first_epoch: 0, drains: [\
    Drain { at: 0, epoch: 0, batch: Batch { note: Note { cpu: 0, cell: 2, number: 1, \
    upto: 0, answers: 1, sent0: 0, sent1: 0 }, entries: [] }, known: [] }], losses: [[]] }";

const COUNTED_TEXT: &str = "RunSegment { run: 3, part: 2, last: true, first_epoch: 5, drains: [\
    Drain { at: 4, epoch: 6, batch: Batch { note: Note { cpu: 1, cell: 0, number: 1, \
    upto: 9, answers: 0, sent0: 1, sent1: 0 }, entries: [\
    Entry { key: Key { pc: 4096, pid: 7, event: Imiss }, count: 300 }] }, known: [true] }], \
    losses: [[], [Loss { index: 4, event: Cycles, word0: 1, word1: 1 }, \
    Loss { index: 5, event: Dmiss, word0: 1, word1: 131 }]] }";

const MIXED_TEXT: &str = "RunSegment { run: 1, part: 0, last: true, first_epoch: 0, drains: [\
    Drain { at: 0, epoch: 0, batch: Batch { note: Note { cpu: 0, cell: 2, number: 1, \
    upto: 5, answers: 1, sent0: 0, sent1: 0 }, entries: [\
    Entry { key: Key { pc: 0, pid: 7, event: Cycles }, count: 3 }, \
    Entry { key: Key { pc: 4, pid: 7, event: Cycles }, count: 2 }] }, known: [true, false] }, \
    Drain { at: 0, epoch: 0, batch: Batch { note: Note { cpu: 2, cell: 0, number: 1, \
    upto: 5, answers: 0, sent0: 1, sent1: 0 }, entries: [\
    Entry { key: Key { pc: 8, pid: 8, event: Branchmp }, count: 5 }] }, known: [false] }], \
    losses: [[], [Loss { index: 0, event: Cycles, word0: 1, word1: 1 }]] }";

// a place of the counted segment, the byte that is put there, and where the first bad field then begins
const DAMAGES: [(usize, u8, usize); 15] = [
    (0, 2, 0),
    (1, 0, 1),
    (3, 2, 3),
    (8, 16, 8),
    (9, 3, 9),
    (10, 0, 10),
    (15, 2, 26),
    (19, 8, 19),
    (20, 0, 20),
    (22, 0, 22),
    (22, 17, 22),
    (24, 3, 34),
    (29, 4, 29),
    (30, 4, 30),
    (33, 0, 32),
];

fn needs_send<T: Send>(_value: &T) {}

fn needs_sync<T: Sync>(_value: &T) {}

#[test]
fn segments_both_ways(rt: HostRuntime) -> Result<(), Fail> {
    let alloc = rt.alloc();
    for (bytes, text) in [
        (FLUSHED.as_slice(), FLUSHED_TEXT),
        (COUNTED.as_slice(), COUNTED_TEXT),
        (MIXED.as_slice(), MIXED_TEXT),
    ] {
        let segment = read_segment(alloc, bytes)?;
        assert_eq!(rt; format!(in alloc; "{segment:?}")?.as_str(), text);
        assert_eq!(rt; write_segment(alloc, &segment)?.as_slice(), bytes);
    }
    Ok(())
}

#[test]
fn laws_and_threads(rt: HostRuntime) -> Result<(), Fail> {
    segment_spelled_once();
    segment_begins_no_other();
    segments_are_in_range();
    let segment = read_segment(rt.alloc(), &FLUSHED)?;
    needs_send(&segment);
    needs_sync(&segment);
    let kept = record_of(segment);
    needs_send(&kept);
    needs_sync(&kept);
    Ok(())
}

#[test]
fn damaged_segments(rt: HostRuntime) {
    for (place, byte, at) in DAMAGES {
        let mut bytes = COUNTED;
        if place < bytes.len() {
            bytes[place] = byte;
        }
        let answer = read_segment(rt.alloc(), &bytes).err();
        assert_eq!(rt;
            answer,
            Some(SegmentError::Bad { at }),
            "with {byte} at {place}"
        );
    }
    for len in 0..18 {
        let answer = read_segment(rt.alloc(), &FLUSHED[..len]).err();
        assert_eq!(rt; answer, Some(SegmentError::Bad { at: len }));
    }
}

fn record_of(segment: RunSegment) -> RunRecord
    requires { IsSegment segment }
    ensures { IsRecorded result }
{
    let RunSegment {
        run,
        part: _,
        last: _,
        first_epoch,
        drains,
        losses,
    } = segment;
    RunRecord {
        run,
        first_epoch,
        drains,
        losses,
    }
}

// what the mixed segment counts
const TALLY: [TallyRow; 3] = [
    TallyRow {
        cpu: 0,
        event: Event::Cycles,
        attributed: 3,
        unknown: 2,
        lost: 0,
    },
    TallyRow {
        cpu: 1,
        event: Event::Cycles,
        attributed: 0,
        unknown: 0,
        lost: 1,
    },
    TallyRow {
        cpu: 2,
        event: Event::Branchmp,
        attributed: 0,
        unknown: 5,
        lost: 0,
    },
];

#[test]
fn a_tally_by_hand(rt: HostRuntime) -> Result<(), Fail> {
    let kept = record_of(read_segment(rt.alloc(), &MIXED)?);
    let rows = tally(rt.alloc(), &kept)?;
    assert_eq!(rt; rows.as_slice(), TALLY.as_slice());
    Ok(())
}
