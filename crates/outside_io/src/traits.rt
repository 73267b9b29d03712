//! The traits of what is read and written, and their errors.
ghost use Rattle.std.specs.Prelude.{ℕ, ◌<◌, List, length, IfOk};
ghost use Rattle.std.specs.declared.option.Option.{Option};
ghost use Rattle.std.specs.Io.{ReadsAtMost, WritesAtMost};
ghost use Rattle.std.specs.Io.KnownBytes.{ReadConsumes, WriteAppends};
ghost use Rattle.outside_io.specs.Causes.{HasCause};

use thiserror::Error;

/// A read failed, and the source's count of faults rose.
#[derive(Clone, Copy, Debug, PartialEq, Eq, Error)]
#[error("a read failed")]
pub struct ReadFailed;

/// A write failed, and the sink's count of faults rose.
#[derive(Clone, Copy, Debug, PartialEq, Eq, Error)]
#[error("a write failed")]
pub struct WriteFailed;

/// What bytes are read from. `left` is the bytes that reads will still give, where the source
/// tells them, and `faults` the reads that failed, a count that stops at the greatest `u64`.
pub trait Source {
    ghost left: { Self → Option (List ℕ) };

    ghost faults: { Self → ℕ };

    /// Reads into the front of `buf`, which is not empty, and answers how many bytes it read,
    /// at most the length of `buf`; 0 is the end of the input.
    fn read(&mut self, buf: &mut [u8]) -> Result<usize, ReadFailed>
        requires { 0 < length buf.old }
        ensures bound { ReadsAtMost result buf.new }
        ensures bytes { ReadConsumes (left self.old) (left self.new) result buf.new }
        ensures cause { HasCause (faults self.old) (faults self.new) result };
}

/// What bytes are written to. `written` is the bytes that it was given, where the sink tells
/// them, and `faults` the writes that failed, a count that stops at the greatest `u64`.
pub trait Sink {
    ghost written: { Self → Option (List ℕ) };

    ghost faults: { Self → ℕ };

    /// Writes a front of `buf`, which is not empty, and answers its length, at least 1.
    fn write(&mut self, buf: &[u8]) -> Result<usize, WriteFailed>
        requires { 0 < length buf.now }
        ensures bound { WritesAtMost result buf.now }
        ensures some { IfOk result (λ n. 0 < n) }
        ensures bytes { WriteAppends (written self.old) (written self.new) result buf.now }
        ensures cause { HasCause (faults self.old) (faults self.new) result };
}
