//! The texts that the tests expect.

/// The summary where there is no sample.
pub const NO_SAMPLES: &[u8] =
    b"run 1\nt 0 folded 0 placed 0 evicted 0 spilt 0 direct 0\nt 1 folded 0 placed 0 evicted 0 spilt 0 direct 0\nt 2 folded 0 placed 0 evicted 0 spilt 0 direct 0\nt 3 folded 0 placed 0 evicted 0 spilt 0 direct 0\ntotal taken 0 known 0 unknown 0 lost 0\n";

/// The trace where there is no sample.
pub const NO_SAMPLES_TRACE: &[u8] =
    b"dcpi-trace 1 cpus 4 buckets 4096 buffer 8192\nkernel fffffc0000000000 400000 vmunix\nscan 1 120000000 40000 prog1\nscan 1 3ff80000000 100000 libc.so\nscan 2 120000000 40000 prog2\nscan 2 3ff80000000 100000 libc.so\nscan 3 120000000 40000 prog3\nscan 3 3ff80000000 100000 libc.so\nscan 4 120000000 40000 prog0\nscan 4 3ff80000000 100000 libc.so\nscan 5 120000000 40000 prog1\nscan 5 3ff80000000 100000 libc.so\nscan 6 120000000 40000 prog2\nscan 6 3ff80000000 100000 libc.so\nscan 7 120000000 40000 prog3\nscan 7 3ff80000000 100000 libc.so\nscan 8 120000000 40000 prog0\nscan 8 3ff80000000 100000 libc.so\nend\n";

/// What the last line of a summary begins with where there are 1,000 samples.
pub const A_THOUSAND: &[u8] = b"total taken 1000 known ";

/// The same where there are 2,000,000.
pub const TWO_MILLION: &[u8] = b"total taken 2000000 known ";

/// What the last line of a summary ends with where nothing is lost.
pub const NONE_LOST: &[u8] = b" lost 0";
