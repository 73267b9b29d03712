//! Sources that give their bytes in an unkind way. They tell contracts nothing of what is left.
ghost use Rattle.std.specs.Prelude.{None};

use outside_io::{ReadFailed, Source};

/// A source that gives one byte a read.
#[derive(Drop)]
pub struct ByteByByte {
    pub bytes: Vec<u8>,
    /// How many bytes were given.
    pub given: usize,
}

impl Source for ByteByByte {
    ghost left = { λ _. None };

    ghost faults = { λ _. 0 };

    fn read(&mut self, buf: &mut [u8]) -> Result<usize, ReadFailed> {
        match self.bytes.get(self.given) {
            Some(byte) => {
                buf[0] = *byte;
                self.given += 1;
                Ok(1)
            }
            None => Ok(0),
        }
    }
}

/// A source that gives some bytes, and then others over and over without end.
#[derive(Drop)]
pub struct Endless<'a> {
    rest: &'a [u8],
    again: &'a [u8],
}

impl<'a> Endless<'a> {
    /// First the start, then `again` without end, which is not empty.
    pub fn new(start: &'a [u8], again: &'a [u8]) -> Endless<'a> {
        Endless { rest: start, again }
    }
}

impl Source for Endless<'_> {
    ghost left = { λ _. None };

    ghost faults = { λ _. 0 };

    fn read(&mut self, buf: &mut [u8]) -> Result<usize, ReadFailed> {
        if self.rest.is_empty() {
            self.rest = self.again;
        }
        let count = self.rest.len().min(buf.len());
        let (given, rest) = self.rest.split_at(count);
        buf[..count].copy_from_slice(given);
        self.rest = rest;
        Ok(count)
    }
}
