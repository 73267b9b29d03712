//! The traces of the tables.

/// Three samples of one instruction.
pub const FOLD: &[u8] =
    b"dcpi-trace 1 cpus 1\nload 7 10000 2000 /bin/app\ns 0 7 10008 cycles\ns 0 7 10008 cycles\ns 0 7 10008 cycles\nend\n";

/// No sample.
pub const NOTHING: &[u8] = b"dcpi-trace 1 cpus 1\nend\n";

/// Five instructions in a bucket of four.
pub const EVICTION: &[u8] =
    b"dcpi-trace 1 cpus 1 buckets 1 buffer 8192\ns 0 7 1000 cycles\ns 0 7 1004 cycles\ns 0 7 1008 cycles\ns 0 7 100c cycles\ns 0 7 1010 cycles\nend\n";

/// Seven instructions, a bucket of four, buffers of one entry, and nobody who drains them.
pub const BOTH_OUT: &[u8] =
    b"dcpi-trace 1 cpus 1 buckets 1 buffer 1\ns 0 7 1000 cycles\ns 0 7 1004 cycles\ns 0 7 1008 cycles\ns 0 7 100c cycles\ns 0 7 1010 cycles\ns 0 7 1014 cycles\ns 0 7 1018 cycles\nend\nl 0\nl 0\nl 0\nl 0\nl 0\nl 0\nl 0\n";

/// The same, where the second buffer is drained before the last turn.
pub const SECOND_LOOK: &[u8] =
    b"dcpi-trace 1 cpus 1 buckets 1 buffer 1\ns 0 7 1000 cycles\ns 0 7 1004 cycles\ns 0 7 1008 cycles\ns 0 7 100c cycles\ns 0 7 1010 cycles\ns 0 7 1014 cycles\ns 0 7 1018 cycles\nend\nl 0\nl 0\nl 0\nl 0\nl 0\nl 0\nd 0 1\nl 0\n";

/// The mapping of a sample is another one at its drain.
pub const MAP_CHANGED: &[u8] =
    b"dcpi-trace 1 cpus 1\nload 7 10000 1000 A\ns 0 7 10004 cycles\nunload 7 10000 1000\nload 7 10000 1000 B\nend\na\nl 0\na\na\n";

/// The last instruction of a mapping, and the one behind it.
pub const BOUNDARY: &[u8] =
    b"dcpi-trace 1 cpus 1\nload 7 10000 1000 A\ns 0 7 10ffc imiss\ns 0 7 11000 imiss\nend\n";

/// A process that was replaced, the kernel, and a process that nobody told of.
pub const STRANGER: &[u8] =
    b"dcpi-trace 1 cpus 1\nkernel fffffc0000230000 10000 vmunix\nload 7 120000000 1000 old\nexec 7 120000000 2000 new\ns 0 7 120000010 cycles\ns 0 7 fffffc0000230020 cycles\ns 0 9 120000010 cycles\nend\n";

/// A flush that is answered while samples go on.
pub const FLUSH: &[u8] =
    b"dcpi-trace 1 cpus 1\ns 0 7 1000 cycles\ns 0 7 1004 cycles\ns 0 7 1008 cycles\ndrain\nend\nl 0\na\nl 0\nl 0\nl 0\n";

/// Two epochs.
pub const TWO_EPOCHS: &[u8] =
    b"dcpi-trace 1 cpus 1\nload 7 10000 1000 A\ns 0 7 10000 cycles\nepoch\ns 0 7 10000 cycles\nend\n";

/// A sample that waits for its mapping.
pub const WAITS: &[u8] =
    b"dcpi-trace 1 cpus 1\nload 7 10000 2000 /bin/app\ns 0 7 10008 cycles\nend\nl 0\na\nl 0\n";

/// A program counter that is no multiple of 4.
pub const UNALIGNED: &[u8] = b"dcpi-trace 1 cpus 1\ns 0 7 1002 cycles\nend\n";

/// A trace that is cut.
pub const TRUNCATED: &[u8] = b"dcpi-trace 1 cpus 1\ns 0 7 10";

/// One sample at an offset of an image.
pub const ONE_MORE: &[u8] = b"dcpi-trace 1 cpus 1\nload 7 10000 1000 A\ns 0 7 10004 cycles\nend\n";

/// A flush that waits for a buffer.
pub const FLUSH_WAITS: &[u8] =
    b"dcpi-trace 1 cpus 1 buckets 1 buffer 8192\ns 0 7 1000 cycles\ns 0 7 1004 cycles\ns 0 7 1008 cycles\ns 0 7 100c cycles\ns 0 7 1010 cycles\ndrain\nend\nl 0\nl 0\nl 0\nl 0\nl 0\na\nl 0\nd 0 2\na\nd 0 0\na\n";

/// An image whose name has a comma.
pub const COMMA: &[u8] = b"dcpi-trace 1 cpus 1\nload 7 0 8 a,b\ns 0 7 4 cycles\nend\n";

/// The work of four processors.
pub const WORK: &[u8] = b"dcpi-trace 1 cpus 4
kernel fffffc0000230000 400000 /vmunix
scan 101 120000000 40000 /usr/bin/X
scan 101 3ff80000000 100000 /usr/shlib/libc.so
load 205 120000000 10000 /usr/bin/sh
load 205 3ff80000000 100000 /usr/shlib/libc.so
exec 309 120000000 20000 /usr/bin/cc
s 0 101 120001000 cycles
s 0 101 120001000 cycles
s 0 101 120001000 cycles
s 0 101 120001000 cycles
s 0 101 120001000 cycles
s 0 101 120001000 cycles
s 0 101 120001000 cycles
s 0 101 120001000 cycles
s 0 101 120001000 cycles
s 0 101 120001000 cycles
s 1 101 3ff80000400 cycles
s 1 101 3ff80000400 cycles
s 1 101 3ff80000400 cycles
s 1 101 3ff80000400 cycles
s 1 101 3ff80000400 cycles
s 1 101 3ff80000400 cycles
s 2 205 3ff80000400 cycles
s 2 205 3ff80000400 cycles
s 2 205 3ff80000400 cycles
s 2 205 3ff80000400 cycles
s 2 205 3ff80000400 cycles
s 2 205 3ff80000400 cycles
s 3 309 120000100 cycles
s 3 309 120000100 cycles
s 3 309 120000100 cycles
s 3 309 120000100 cycles
s 3 309 120000100 cycles
s 0 309 fffffc0000231000 cycles
s 0 309 fffffc0000231000 cycles
s 0 309 fffffc0000231000 cycles
s 0 309 fffffc0000231000 cycles
s 0 309 fffffc0000231000 cycles
s 1 205 120000040 cycles
s 1 205 120000040 cycles
s 1 205 120000040 cycles
s 2 101 120002000 cycles
s 2 101 120002000 cycles
s 2 101 120002000 cycles
s 3 400 120000000 cycles
s 3 309 120000100 dmiss
end
";

/// Its summary in an empty database.
pub const WORK_SUMMARY: &[u8] = b"run 1
c 0 cycles taken 15 known 15 unknown 0 lost 0
c 1 cycles taken 9 known 9 unknown 0 lost 0
c 2 cycles taken 9 known 9 unknown 0 lost 0
c 3 cycles taken 6 known 5 unknown 1 lost 0
c 3 dmiss taken 1 known 1 unknown 0 lost 0
t 0 folded 13 placed 2 evicted 0 spilt 0 direct 0
t 1 folded 7 placed 2 evicted 0 spilt 0 direct 0
t 2 folded 7 placed 2 evicted 0 spilt 0 direct 0
t 3 folded 4 placed 3 evicted 0 spilt 0 direct 0
total taken 40 known 39 unknown 1 lost 0
";

/// The summary of three samples of one instruction.
pub const FOLD_SUMMARY: &[u8] = b"run 1
c 0 cycles taken 3 known 3 unknown 0 lost 0
t 0 folded 2 placed 1 evicted 0 spilt 0 direct 0
total taken 3 known 3 unknown 0 lost 0
";
