//! The traces of the tables.

/// One sample of each of two processors.
pub const TWO_LANES: &[u8] = b"dcpi-trace 1 cpus 2\ns 0 7 1000 cycles\ns 1 7 1004 cycles\nend\n";

/// Three samples of one instruction.
pub const FOLD: &[u8] =
    b"dcpi-trace 1 cpus 1\nload 7 10000 2000 /bin/app\ns 0 7 10008 cycles\ns 0 7 10008 cycles\ns 0 7 10008 cycles\nend\n";

/// The mapping of a sample changes behind it.
pub const MAP_CHANGED: &[u8] =
    b"dcpi-trace 1 cpus 1\nload 7 10000 1000 A\ns 0 7 10004 cycles\nunload 7 10000 1000\nload 7 10000 1000 B\nend\na\nl 0\na\na\n";

/// The last instruction of a mapping, and the one behind it.
pub const BOUNDARY: &[u8] =
    b"dcpi-trace 1 cpus 1\nload 7 10000 1000 A\ns 0 7 10ffc imiss\ns 0 7 11000 imiss\nend\n";

/// A process that was replaced, the kernel, and a process that nobody told of.
pub const STRANGER: &[u8] =
    b"dcpi-trace 1 cpus 1\nkernel fffffc0000230000 10000 vmunix\nload 7 120000000 1000 old\nexec 7 120000000 2000 new\ns 0 7 120000010 cycles\ns 0 7 fffffc0000230020 cycles\ns 0 9 120000010 cycles\nend\n";

/// Two epochs.
pub const TWO_EPOCHS: &[u8] =
    b"dcpi-trace 1 cpus 1\nload 7 10000 1000 A\ns 0 7 10000 cycles\nepoch\ns 0 7 10000 cycles\nend\n";

/// The work of four processors.
pub const WORK: &[u8] = b"dcpi-trace 1 cpus 4
kernel fffffc0000230000 400000 /vmunix
scan 101 120000000 40000 /usr/bin/X
scan 101 3ff80000000 100000 /usr/shlib/libc.so
load 205 120000000 10000 /usr/bin/sh
load 205 3ff80000000 100000 /usr/shlib/libc.so
exec 309 120000000 20000 /usr/bin/cc
s 0 101 120001000 cycles
s 0 101 120001000 cycles
s 0 101 120001000 cycles
s 0 101 120001000 cycles
s 0 101 120001000 cycles
s 0 101 120001000 cycles
s 0 101 120001000 cycles
s 0 101 120001000 cycles
s 0 101 120001000 cycles
s 0 101 120001000 cycles
s 1 101 3ff80000400 cycles
s 1 101 3ff80000400 cycles
s 1 101 3ff80000400 cycles
s 1 101 3ff80000400 cycles
s 1 101 3ff80000400 cycles
s 1 101 3ff80000400 cycles
s 2 205 3ff80000400 cycles
s 2 205 3ff80000400 cycles
s 2 205 3ff80000400 cycles
s 2 205 3ff80000400 cycles
s 2 205 3ff80000400 cycles
s 2 205 3ff80000400 cycles
s 3 309 120000100 cycles
s 3 309 120000100 cycles
s 3 309 120000100 cycles
s 3 309 120000100 cycles
s 3 309 120000100 cycles
s 0 309 fffffc0000231000 cycles
s 0 309 fffffc0000231000 cycles
s 0 309 fffffc0000231000 cycles
s 0 309 fffffc0000231000 cycles
s 0 309 fffffc0000231000 cycles
s 1 205 120000040 cycles
s 1 205 120000040 cycles
s 1 205 120000040 cycles
s 2 101 120002000 cycles
s 2 101 120002000 cycles
s 2 101 120002000 cycles
s 3 400 120000000 cycles
s 3 309 120000100 dmiss
end
";

/// Forty instructions in a bucket of four and buffers of one entry, and then 35 mappings.
pub const ONE_BY_ONE: &[u8] = b"dcpi-trace 1 cpus 1 buckets 1 buffer 1
s 0 7 1000 cycles
s 0 7 1004 cycles
s 0 7 1008 cycles
s 0 7 100c cycles
s 0 7 1010 cycles
s 0 7 1014 cycles
s 0 7 1018 cycles
s 0 7 101c cycles
s 0 7 1020 cycles
s 0 7 1024 cycles
s 0 7 1028 cycles
s 0 7 102c cycles
s 0 7 1030 cycles
s 0 7 1034 cycles
s 0 7 1038 cycles
s 0 7 103c cycles
s 0 7 1040 cycles
s 0 7 1044 cycles
s 0 7 1048 cycles
s 0 7 104c cycles
s 0 7 1050 cycles
s 0 7 1054 cycles
s 0 7 1058 cycles
s 0 7 105c cycles
s 0 7 1060 cycles
s 0 7 1064 cycles
s 0 7 1068 cycles
s 0 7 106c cycles
s 0 7 1070 cycles
s 0 7 1074 cycles
s 0 7 1078 cycles
s 0 7 107c cycles
s 0 7 1080 cycles
s 0 7 1084 cycles
s 0 7 1088 cycles
s 0 7 108c cycles
s 0 7 1090 cycles
s 0 7 1094 cycles
s 0 7 1098 cycles
s 0 7 109c cycles
load 8 0 4 A
load 8 0 4 A
load 8 0 4 A
load 8 0 4 A
load 8 0 4 A
load 8 0 4 A
load 8 0 4 A
load 8 0 4 A
load 8 0 4 A
load 8 0 4 A
load 8 0 4 A
load 8 0 4 A
load 8 0 4 A
load 8 0 4 A
load 8 0 4 A
load 8 0 4 A
load 8 0 4 A
load 8 0 4 A
load 8 0 4 A
load 8 0 4 A
load 8 0 4 A
load 8 0 4 A
load 8 0 4 A
load 8 0 4 A
load 8 0 4 A
load 8 0 4 A
load 8 0 4 A
load 8 0 4 A
load 8 0 4 A
load 8 0 4 A
load 8 0 4 A
load 8 0 4 A
load 8 0 4 A
load 8 0 4 A
load 8 0 4 A
end
";

/// The summary of its run where each entry was drained before the next one was evicted.
pub const ONE_BY_ONE_SUMMARY: &[u8] = b"run 1
c 0 cycles taken 40 known 0 unknown 40 lost 0
t 0 folded 0 placed 4 evicted 36 spilt 0 direct 0
total taken 40 known 0 unknown 40 lost 0
";
