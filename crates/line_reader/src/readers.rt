//! Reads lines through a buffer: `LineReader::read_line` takes pieces of the buffer up to a line feed, and fills it anew
//! where all was taken.

ghost use Rattle.std.specs.Prelude.{◌<◌, length};
ghost use Rattle.line_reader.specs.Pieces.{IsPiece};

use crate::faults::{Ending, LineFault};
use memchr::memchr;
use outside_io::{ReadFailed, Source};
use std::alloc::{AllocError, Global};
use std::marker::Model;

/// How many bytes are asked for at once.
const PIECE: usize = 65536;

/// Reads lines from a source through a buffer of 64 KiB. It is seen as the bytes that were read and not yet taken.
#[derive(Drop)]
pub struct LineReader {
    /// The buffer.
    bytes: Vec<u8>,
    /// Where the bytes begin that were not taken yet.
    at: usize,
    /// Where they end.
    end: usize,
}

impl Model for LineReader {
    ghost use Rattle.std.specs.Prelude.{List, ℕ, ◌≤◌, ◌<◌, length, slice_range};

    ghost Value = { List ℕ };

    ghost view = { λ r. slice_range r.bytes.items r.at r.end };

    ghost invariant = { λ r. (r.at ≤ r.end)
        × (r.end ≤ length r.bytes.items) × (0 < length r.bytes.items) };
}

impl LineReader {
    ghost use Rattle.std.specs.Prelude.{◌≡◌, ◌≢◌, ℕ, ◌+◌, ◌^◌, ◌<◌, ◌≤◌, ◌↔◌, List, [], ◌++◌, IsTrue, None, OnOk, IfOk, IfSome, drop, length};
    ghost use Rattle.std.specs.Io.KnownBytes.{Consumes, IsAtEnd, prepend_known};
    ghost use Rattle.outside_io.specs.Causes.{HasCause};
    ghost use Rattle.line_reader.specs.Reading.{ReadsLine, HasLineCause, NoneStandsWhole, StandsWhole, TakesPiece};

    /// A reader that has read nothing yet.
    pub fn new(alloc: Global) -> Result<LineReader, AllocError>
        ensures { IfOk result (λ reader. reader ≡ []) }
    {
        let bytes = vec![in alloc; 0u8; PIECE]?;
        Ok(LineReader {
            bytes,
            at: 0,
            end: 0,
        })
    }

    /// Reads the next line into `line`, without its line feed; of a line that is longer than `limit` the first
    /// `limit + 1` bytes.
    pub fn read_line<S: Source>(
        &mut self,
        source: &mut S,
        line: &mut Vec<u8>,
        limit: usize,
    ) -> Result<Ending, LineFault>
        requires { limit < 2 ^ 32 }
        ensures line { IfOk result (λ ending. ReadsLine limit ending line.new.items
            (prepend_known self.old (S.left source.old))
            (prepend_known self.new (S.left source.new))) }
        ensures cause { HasLineCause (S.faults source.old) (S.faults source.new) result }
    {
        line.clear();
        for _ in 0..limit + 1 {
            self.refill(source)?;
            if self.is_empty() {
                return Ok(Ending::Unfinished);
            }
            let ended = self.take_piece(line, limit + 1 - line.len())?;
            if ended {
                return Ok(Ending::Finished);
            }
            if line.len() > limit {
                return Ok(Ending::TooLong);
            }
        }
        unreachable!()
    }

    /// The next line, of at most `limit` bytes, where it stands in the buffer with its line feed; none exactly where none does.
    /// Nothing is taken yet.
    pub fn whole_line(&self, limit: usize) -> Option<&[u8]>
        requires { limit < 2 ^ 32 }
        ensures some { IfSome result (λ line. StandsWhole limit line.now self.now) }
        ensures none { result ≡ None → NoneStandsWhole limit self.now }
    {
        if self.is_empty() {
            return None;
        }
        let pending = &self.bytes[self.at..self.end];
        let (length, ended) = piece_of(pending, limit + 1);
        if ended {
            Some(&pending[..length])
        } else {
            None
        }
    }

    /// Passes over so many bytes that stand in the buffer.
    pub fn pass(&mut self, count: usize)
        requires { count ≤ length self.old }
        ensures { self.new ≡ drop count self.old }
    {
        self.at += count;
    }

    fn is_empty(&self) -> bool
        ensures { IsTrue result ↔ (self.now ≡ []) }
    {
        self.at == self.end
    }

    // Reads more where all was taken; nothing is left then only at the end of the input.
    fn refill<S: Source>(&mut self, source: &mut S) -> Result<(), ReadFailed>
        ensures bytes { OnOk result (Consumes (prepend_known self.old (S.left source.old))
            (prepend_known self.new (S.left source.new)) []) }
        ensures end { OnOk result (self.new ≡ [] → IsAtEnd (S.left source.new)) }
        ensures cause { HasCause (S.faults source.old) (S.faults source.new) result }
    {
        if !self.is_empty() {
            return Ok(());
        }
        self.fill(source)
    }

    fn fill<S: Source>(&mut self, source: &mut S) -> Result<(), ReadFailed>
        requires { self.old ≡ [] }
        ensures bytes { OnOk result (Consumes (S.left source.old) (S.left source.new) self.new) }
        ensures end { OnOk result (self.new ≡ [] → IsAtEnd (S.left source.new)) }
        ensures cause { HasCause (S.faults source.old) (S.faults source.new) result }
    {
        self.at = 0;
        self.end = 0;
        self.end = source.read(self.bytes.as_mut_slice())?;
        Ok(())
    }

    // Appends the next piece of the line, up to its line feed or of at most `room` bytes; answers whether the line ended.
    fn take_piece(&mut self, line: &mut Vec<u8>, room: usize) -> Result<bool, AllocError>
        requires some { self.old ≢ [] }
        requires room { 0 < room }
        ensures { IfOk result (λ ended. (piece : List ℕ) ×
            (line.new.items ≡ line.old.items ++ piece) ×
            TakesPiece ended room piece self.old self.new) }
    {
        let pending = &self.bytes[self.at..self.end];
        let (taken, ended) = piece_of(pending, room);
        line.extend_from_slice(&pending[..taken])?;
        if ended {
            self.at += taken + 1;
            Ok(true)
        } else {
            self.at += taken;
            Ok(false)
        }
    }
}

// How many bytes the next piece of the line has, and whether a line feed stands behind it.
fn piece_of(pending: &[u8], room: usize) -> (usize, bool)
    requires some { 0 < length pending.now }
    requires room { 0 < room }
    ensures { IsPiece result.1 room result.0 pending.now }
{
    let window = &pending[..room.min(pending.len())];
    match memchr(b'\n', window) {
        Some(found) => (found, true),
        None => (window.len(), false),
    }
}

#[cfg(test)]
mod tests {
    use super::*;
    use outside_io::{ListedFaults, MemSource};
    use std::test::Fail;

    fn source(alloc: Global, bytes: &[u8], fails: &[u64]) -> Result<MemSource, AllocError> {
        let fails = ListedFaults {
            calls: Vec::from_slice(alloc, fails)?,
        };
        Ok(MemSource::new(Vec::from_slice(alloc, bytes)?, fails))
    }

    #[test]
    fn reads_lines_and_pieces(rt: HostRuntime) -> Result<(), Fail> {
        let mut source = source(rt.alloc(), b"first\n\nfour\nlonger\nend", &[])?;
        let mut reader = LineReader::new(rt.alloc())?;
        let mut line = Vec::new(rt.alloc());
        for (text, ending) in [
            (b"first".as_slice(), Ending::Finished),
            (b"".as_slice(), Ending::Finished),
            (b"four".as_slice(), Ending::Finished),
            (b"longer".as_slice(), Ending::TooLong),
            (b"".as_slice(), Ending::Finished),
            (b"end".as_slice(), Ending::Unfinished),
            (b"".as_slice(), Ending::Unfinished),
        ] {
            assert!(rt; reader.read_line(&mut source, &mut line, 5)? == ending);
            assert!(rt; line.as_slice() == text);
        }
        Ok(())
    }

    #[test]
    fn passes_a_fault_on(rt: HostRuntime) -> Result<(), Fail> {
        let mut source = source(rt.alloc(), b"a\nb", &[2])?;
        let mut reader = LineReader::new(rt.alloc())?;
        let mut line = Vec::new(rt.alloc());
        assert!(rt; reader.read_line(&mut source, &mut line, 9)? == Ending::Finished);
        assert!(rt; reader.read_line(&mut source, &mut line, 9) == Err(LineFault::ReadFault));
        Ok(())
    }
}
