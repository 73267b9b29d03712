//! The traces that the tests read.

/// A header with the usual sizes, and a trace with no line.
pub const HEADER: &[u8] = b"dcpi-trace 1 cpus 1\n";

pub const EMPTY: &[u8] = b"dcpi-trace 1 cpus 1\nend\n";

/// A mapping, a sample at its last address, and one behind it.
pub const BOUNDARY: &[u8] =
    b"dcpi-trace 1 cpus 1\nload 7 10000 1000 A\ns 0 7 10ffc imiss\ns 0 7 11000 imiss\nend\n";

/// A mapping that is changed after a sample, and each form of a step.
pub const REMAPPED: &[u8] =
    b"dcpi-trace 1 cpus 1\nload 7 10000 1000 A\ns 0 7 10004 cycles\nunload 7 10000 1000\nload 7 10000 1000 B\nend\na\nl 0\nd 0 2\n";

/// Each form of a line, in the long form.
pub const EACH_FORM: &[u8] =
    b"dcpi-trace 1 cpus 2 buckets 64 buffer 8\nkernel fffffc0000230000 10000 vmunix\nscan 7 120000000 1000 /bin/old\ns 1 7 120000010 branchmp\nload 4294967295 0 4 A\nunload 4294967295 0 4\nexec 7 120000000 2000 /bin/old\nexit 7\ndrain\nmerge\nepoch\ns 0 0 fffffffffffffffc dmiss\nend\nl 1\nd 0 2\na\n";
