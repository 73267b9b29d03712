//! std's readers and writers as a source and a sink: the edge where the real bytes come and go.
ghost use Rattle.std.specs.Prelude.{◌≡◌};

use crate::traits::{ReadFailed, Sink, Source, WriteFailed};
use std::io::{Read, Write};

/// std's reader as a source. It tells what the reader tells, which for a real stream is nothing.
#[derive(Drop)]
pub struct StdSource<R> {
    inner: R,
    faults: u64,
}

impl<R: Read> StdSource<R> {
    ghost use Rattle.outside_io.specs.Streams.{reader_of, read_faults};

    /// A source over this reader, with no fault.
    pub fn new(inner: R) -> StdSource<R>
        ensures reader { reader_of result ≡ inner }
        ensures faults { read_faults result ≡ 0 }
    {
        StdSource { inner, faults: 0 }
    }
}

impl<R: Read> Source for StdSource<R> {
    ghost use Rattle.outside_io.specs.Streams.{reader_of, read_faults};

    ghost left = { λ s. R.remaining (reader_of s) };

    ghost faults = { read_faults };

    fn read(&mut self, buf: &mut [u8]) -> Result<usize, ReadFailed> {
        match self.inner.read(buf) {
            Ok(count) => Ok(count),
            Err(_) => {
                self.faults = self.faults.saturating_add(1);
                Err(ReadFailed)
            }
        }
    }
}

/// std's writer as a sink. It tells what the writer tells, which for a real stream is nothing.
#[derive(Drop)]
pub struct StdSink<W> {
    inner: W,
    faults: u64,
}

impl<W: Write> StdSink<W> {
    ghost use Rattle.outside_io.specs.Streams.{writer_of, write_faults};

    /// A sink over this writer, with no fault.
    pub fn new(inner: W) -> StdSink<W>
        ensures writer { writer_of result ≡ inner }
        ensures faults { write_faults result ≡ 0 }
    {
        StdSink { inner, faults: 0 }
    }
}

impl<W: Write> Sink for StdSink<W> {
    ghost use Rattle.outside_io.specs.Streams.{writer_of, write_faults};

    ghost written = { λ s. W.contents (writer_of s) };

    ghost faults = { write_faults };

    /// A writer that took nothing failed, too.
    fn write(&mut self, buf: &[u8]) -> Result<usize, WriteFailed> {
        match self.inner.write(buf) {
            Ok(count) if count > 0 => Ok(count),
            _ => {
                self.faults = self.faults.saturating_add(1);
                Err(WriteFailed)
            }
        }
    }
}
