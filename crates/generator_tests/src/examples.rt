//! The lines that the tests expect.

/// What each made trace begins with.
pub const FIRST_LINES: &[u8] =
    b"dcpi-trace 1 cpus 4 buckets 4096 buffer 8192\nkernel fffffc0000000000 400000 vmunix\nscan 1 120000000 40000 prog1\nscan 1 3ff80000000 100000 libc.so\nscan 2 120000000 40000 prog2\nscan 2 3ff80000000 100000 libc.so\nscan 3 120000000 40000 prog3\nscan 3 3ff80000000 100000 libc.so\nscan 4 120000000 40000 prog0\nscan 4 3ff80000000 100000 libc.so\nscan 5 120000000 40000 prog1\nscan 5 3ff80000000 100000 libc.so\nscan 6 120000000 40000 prog2\nscan 6 3ff80000000 100000 libc.so\nscan 7 120000000 40000 prog3\nscan 7 3ff80000000 100000 libc.so\nscan 8 120000000 40000 prog0\nscan 8 3ff80000000 100000 libc.so\n";

/// What each made trace ends with.
pub const LAST_LINE: &[u8] = b"end\n";

/// The first six samples of seed 0: each kind of address.
pub const SIX_OF_ZERO: &[u8] =
    b"s 3 1 fffffc00000005d0 imiss\ns 3 1 3ff80000780 cycles\ns 3 3 3ff800000f4 cycles\ns 2 2 3ff8000066c cycles\ns 2 6 5000000a8 imiss\ns 3 2 3ff8000024c dmiss\n";

/// The first three samples of seed 1.
pub const THREE_OF_ONE: &[u8] =
    b"s 2 2 120000398 cycles\ns 3 3 3ff800004a4 cycles\ns 3 3 120000080 cycles\n";

/// The first three samples of the greatest seed.
pub const THREE_OF_GREATEST: &[u8] =
    b"s 0 8 3ff80000008 cycles\ns 3 6 3ff80000260 cycles\ns 3 3 fffffc0000000568 dmiss\n";

/// The lines of seed 7 from sample 10,000 on, where it has 10,001.
pub const TEN_THOUSANDTH_OF_SEVEN: &[u8] =
    b"s 1 6 1200000d0 imiss\ndrain\ns 3 4 500000050 dmiss\nend\n";

/// The lines of seed 7 from sample 100,000 on, where it has 100,000.
pub const LAST_OF_SEVEN: &[u8] = b"s 0 2 120000284 branchmp\ndrain\nmerge\nend\n";
