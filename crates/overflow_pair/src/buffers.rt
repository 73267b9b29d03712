//! One overflow buffer. It takes all its memory when it is made, and never holds more entries than its size.
ghost use Rattle.std.specs.Prelude.{◌≡◌, ◌<◌, ◌≤◌, ◌↔◌, [], length, IfOk, IsTrue};
ghost use Rattle.overflow_pair.specs.Contents.{empty_buffer, pushed};

use crate::limits::MOST_BUFFER;
use sample_key::{Body, Entry};
use std::alloc::{AllocError, Global};
use std::marker::Model;

/// A list of entries that takes no memory after it is made: at most its size, which is from 1 to `MOST_BUFFER`.
#[derive(Drop)]
pub struct Buffer {
    entries: Vec<Entry>,
    size: usize,
}

impl Model for Buffer {
    ghost use Rattle.std.specs.Prelude.{◌≤◌, vec_len, vec_capacity};
    ghost use Rattle.overflow_pair.specs.Contents.{Contents};
    ghost use Rattle.overflow_pair.specs.declared.limits.TheConstants.{MOST_BUFFER};

    ghost Value = { Contents };

    ghost view = { λ b. record { entries = b.entries.items; size = b.size } };

    ghost invariant = { λ b. (1 ≤ b.size) × (b.size ≤ MOST_BUFFER) × (vec_len b.entries ≤ b.size)
        × (b.size ≤ vec_capacity b.entries) };
}

impl Buffer {
    /// An empty buffer that holds n entries, from 1 to `MOST_BUFFER`. It fails only for want of memory.
    pub fn with_capacity(alloc: Global, n: usize) -> Result<Buffer, AllocError>
        requires some { 1 ≤ n }
        requires few { n ≤ MOST_BUFFER }
        ensures { IfOk result (λ b. b ≡ empty_buffer n) }
    {
        let entries = Vec::with_capacity(alloc, n)?;
        Ok(Buffer { entries, size: n })
    }

    /// Appends an entry to a buffer that is not full.
    #[inline(always)]
    pub fn push(&mut self, entry: Entry)
        requires { length self.old.entries < self.old.size }
        ensures { self.new ≡ pushed self.old entry }
    {
        match self.entries.push(entry) {
            Ok(()) => {}
            Err(_) => unreachable!(),
        }
    }

    /// Whether the buffer holds as many entries as it may.
    #[inline(always)]
    pub fn is_full(&self) -> bool
        ensures full { IsTrue result ↔ (length self.now.entries ≡ self.now.size) }
        ensures within { length self.now.entries ≤ self.now.size }
    {
        self.entries.len() >= self.size
    }

    /// Takes all entries away; the size stays.
    pub fn clear(&mut self)
        ensures { self.new ≡ empty_buffer self.old.size }
    {
        self.entries.clear();
    }
}

impl Body for Buffer {
    ghost entries = { λ b. b.entries };

    /// Appends the entries in the order in which they were pushed.
    fn copy_to(&self, out: &mut Vec<Entry>) -> Result<(), AllocError> {
        out.extend_from_slice(self.entries.as_slice())
    }

    /// Takes all entries away; the size stays.
    fn clear(&mut self)
        ensures entries { self.new.entries ≡ [] }
        ensures cleared { self.new ≡ empty_buffer self.old.size }
    {
        Buffer::clear(self);
    }
}
