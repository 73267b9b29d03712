//! Segments by their bytes.

/// Run 1 of one processor that took no sample, in one part: an empty table batch.
pub(crate) const NOTHING_TAKEN: &[u8] = &[
    1, 1, 0, 1, 0, 1, // run 1, part 0, the last, first epoch 0, one drain
    0, 0, 0, 2, 1, 0, 1, 0, 0, 0, // a table batch of no entries
    1, 0, // one processor without losses
];

/// Run 1 in one part: three samples of one place in an image.
pub(crate) const FOLDED: &[u8] = &[
    1, 1, 0, 1, 0, 1, // one drain
    1, 0, 0, 2, 1, 3, 3, 0, 0, 1, // a table batch of one entry
    7, 0x82, 0x80, 1, 1, 3, // PID 7, PC 10008, cycles, attributed, 3
    1, 0,
];

/// The same as run 2.
pub(crate) const FOLDED_AGAIN: &[u8] = &[
    1, 2, 0, 1, 0, 1, 1, 0, 0, 2, 1, 3, 3, 0, 0, 1, 7, 0x82, 0x80, 1, 1, 3, 1, 0,
];

/// Run 1 in one part: two entries from the two buffers, four from the table, and a lost sample.
pub(crate) const BOTH_OUT: &[u8] = &[
    1, 1, 0, 1, 0, 3, // three drains
    0, 0, 0, 0, 1, 5, 0, 0, 0, 1, 7, 0x80, 8, 0, 1, // buffer 0: PC 1000
    0, 0, 0, 1, 1, 6, 0, 1, 0, 1, 7, 0x81, 8, 0, 1, // buffer 1: PC 1004
    0, 0, 0, 2, 1, 7, 1, 1, 1, 4, // the table: PCs 1010, 1014, 1008, 100c
    7, 0x84, 8, 0, 1, 7, 0x85, 8, 0, 1, 7, 0x82, 8, 0, 1, 7, 0x83, 8, 0, 1, 1, 1, 6, 0, 1, 1, // one processor with a loss: index 6, cycles, words 1 and 1
];

/// The first part of run 1, which ends its first epoch: one sample in an image.
pub(crate) const FIRST_EPOCH: &[u8] = &[
    1, 1, 0, 0, 0, 1, // part 0, not the last
    1, 0, 0, 2, 1, 1, 3, 0, 0, 1, 7, 0x80, 0x80, 1, 1, 1, // PC 10000, cycles, attributed, once
];

/// The last part of run 1, in its second epoch: the same sample again.
pub(crate) const SECOND_EPOCH: &[u8] = &[
    1, 1, 1, 1, 0, 1, // the last part
    2, 1, 0, 2, 2, 2, 5, 0, 0, 1, 7, 0x80, 0x80, 1, 1, 1, 1, 0,
];

/// Run 1 in one part: three processors, two events, known, unknown and lost samples.
pub(crate) const MIXED: &[u8] = &[
    1, 1, 0, 1, 0, 2, // two drains
    0, 0, 0, 2, 1, 5, 1, 0, 0, 2, // processor 0, two entries
    7, 0, 1, 3, // cycles, attributed, 3
    7, 1, 0, 2, // cycles, unknown, 2
    0, 0, 2, 0, 1, 5, 0, 1, 0, 1, // processor 2, one entry
    8, 2, 6, 5, // branchmp, unknown, 5
    2, 0, 1, 0, 0, 1, 1, // two processors, a loss of the second: index 0, cycles
];

/// Parts without drains: of run 1, parts 0, 1 and 2, none of them the last.
pub(crate) const RUN_1_PART_0: &[u8] = &[1, 1, 0, 0, 0, 0];

pub(crate) const RUN_1_PART_1: &[u8] = &[1, 1, 1, 0, 0, 0];

pub(crate) const RUN_1_PART_2: &[u8] = &[1, 1, 2, 0, 0, 0];

/// The whole run 1 in one part without drains.
pub(crate) const RUN_1_WHOLE: &[u8] = &[1, 1, 0, 1, 0, 0, 1, 0];

/// Of run 2, parts 0 and 1, and of run 3, part 0.
pub(crate) const RUN_2_PART_0: &[u8] = &[1, 2, 0, 0, 0, 0];

pub(crate) const RUN_2_PART_1: &[u8] = &[1, 2, 1, 0, 0, 0];

pub(crate) const RUN_3_PART_0: &[u8] = &[1, 3, 0, 0, 0, 0];

/// Bytes that are no segment: the format is not 1.
pub(crate) const NO_SEGMENT: &[u8] = &[2];

/// Stands for a file that is missing.
pub(crate) const MISSING: &[u8] = b"";
