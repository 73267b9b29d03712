//! A source and a sink in memory, for tests, which fail at the calls that are listed.
ghost use Rattle.std.specs.Prelude.{◌≡◌, ◌≢◌, ℕ, ◌<◌, ◌↔◌, List, [], length, IsTrue, IsErr, IfOk, OnErr, Contains};
ghost use Rattle.std.specs.Io.{ReadsAtMost, WritesAtMost};
ghost use Rattle.std.specs.Io.KnownBytes.{ReadConsumes, WriteAppends};
ghost use Rattle.outside_io.specs.Causes.{HasCause};

use crate::traits::{ReadFailed, Sink, Source, WriteFailed};
use std::alloc::{AllocError, Global};
use std::io::{Cursor, Read};
use std::marker::Model;
use std::vec::Vec;

/// The calls, counted from 1, that are to fail.
#[derive(Drop)]
pub struct ListedFaults {
    /// The calls, in any order.
    pub calls: Vec<u64>,
}

impl Model for ListedFaults {
    ghost use Rattle.outside_io.specs.Faults.{Listed};

    ghost Value = { Listed };

    ghost view = { λ f. record { calls = f.calls.items } };
}

impl ListedFaults {
    ghost use Rattle.std.specs.Prelude.{◌≡◌, [], IfOk};

    /// No call fails.
    pub fn none(alloc: Global) -> ListedFaults
        ensures { result.calls ≡ [] }
    {
        ListedFaults {
            calls: Vec::new(alloc),
        }
    }

    /// These calls fail.
    pub fn of(alloc: Global, calls: &[u64]) -> Result<ListedFaults, AllocError>
        ensures { IfOk result (λ fails. fails.calls ≡ calls.now) }
    {
        Ok(ListedFaults {
            calls: calls.to_vec(alloc)?,
        })
    }

    /// Whether this call is listed.
    fn fails_at(&self, call: u64) -> bool
        ensures { IsTrue result ↔ Contains self.now.calls call }
    {
        self.calls.contains(&call)
    }
}

/// A source that gives bytes from memory and fails exactly at the calls listed.
#[derive(Drop)]
pub struct MemSource {
    bytes: Cursor<Vec<u8>>,
    fails: ListedFaults,
    calls: u64,
    faults: u64,
}

impl MemSource {
    ghost use Rattle.outside_io.specs.Memory.{rest_of, source_fails, source_calls, source_faults};

    /// A source of these bytes, with no call made.
    pub fn new(bytes: Vec<u8>, fails: ListedFaults) -> MemSource
        ensures content { rest_of result ≡ bytes.items }
        ensures fails { source_fails result ≡ fails.calls }
        ensures calls { source_calls result ≡ 0 }
        ensures faults { source_faults result ≡ 0 }
    {
        MemSource {
            bytes: Cursor::new(bytes),
            fails,
            calls: 0,
            faults: 0,
        }
    }
}

impl Source for MemSource {
    ghost use Rattle.outside_io.specs.Memory.{left_in, source_fails, source_calls, source_faults};
    ghost use Rattle.outside_io.specs.Memory.{next_call};

    ghost left = { left_in };

    ghost faults = { source_faults };

    fn read(&mut self, buf: &mut [u8]) -> Result<usize, ReadFailed>
        requires { 0 < length buf.old }
        ensures bound { ReadsAtMost result buf.new }
        ensures bytes { ReadConsumes (left_in self.old) (left_in self.new) result buf.new }
        ensures cause { HasCause (source_faults self.old) (source_faults self.new) result }
        ensures listed { IsErr result ↔ Contains (source_fails self.old) (source_calls self.new) }
        ensures calls { source_calls self.new ≡ next_call (source_calls self.old) }
        ensures fails { source_fails self.new ≡ source_fails self.old }
    {
        self.calls = self.calls.saturating_add(1);
        if self.fails.fails_at(self.calls) {
            self.faults = self.faults.saturating_add(1);
            return Err(ReadFailed);
        }
        match self.bytes.read(buf) {
            Ok(count) => Ok(count),
            Err(_) => unreachable!(),
        }
    }
}

/// A sink that keeps its bytes in memory and fails exactly at the calls listed, and where the
/// memory to grow is refused, which counts as a fault too.
#[derive(Drop)]
pub struct MemSink {
    written: Vec<u8>,
    fails: ListedFaults,
    calls: u64,
    faults: u64,
}

impl MemSink {
    ghost use Rattle.outside_io.specs.Memory.{bytes_of, sink_fails, sink_calls, sink_faults};

    /// A sink that holds nothing, with no call made.
    pub fn new(alloc: Global, fails: ListedFaults) -> MemSink
        ensures content { bytes_of result ≡ [] }
        ensures fails { sink_fails result ≡ fails.calls }
        ensures calls { sink_calls result ≡ 0 }
        ensures faults { sink_faults result ≡ 0 }
    {
        MemSink {
            written: Vec::new(alloc),
            fails,
            calls: 0,
            faults: 0,
        }
    }

    /// What was written.
    pub fn bytes(&self) -> &[u8]
        ensures { result.now ≡ bytes_of self.now }
    {
        self.written.as_slice()
    }

    /// Counts a fault.
    fn fail(&mut self) -> Result<usize, WriteFailed>
        ensures failed { IsErr result }
        ensures content { bytes_of self.new ≡ bytes_of self.old }
        ensures fails { sink_fails self.new ≡ sink_fails self.old }
        ensures calls { sink_calls self.new ≡ sink_calls self.old }
        ensures cause { HasCause (sink_faults self.old) (sink_faults self.new) result }
    {
        self.faults = self.faults.saturating_add(1);
        Err(WriteFailed)
    }
}

impl Sink for MemSink {
    ghost use Rattle.outside_io.specs.Memory.{written_in, sink_fails, sink_calls, sink_faults};
    ghost use Rattle.outside_io.specs.Memory.{next_call, MayFail};

    ghost written = { written_in };

    ghost faults = { sink_faults };

    fn write(&mut self, buf: &[u8]) -> Result<usize, WriteFailed>
        requires { 0 < length buf.now }
        ensures bound { WritesAtMost result buf.now }
        ensures some { IfOk result (λ n. 0 < n) }
        ensures bytes { WriteAppends (written_in self.old) (written_in self.new) result buf.now }
        ensures cause { HasCause (sink_faults self.old) (sink_faults self.new) result }
        ensures listed { Contains (sink_fails self.old) (sink_calls self.new) → IsErr result }
        ensures refused { OnErr result (MayFail self.old (sink_calls self.new) (length buf.now)) }
        ensures calls { sink_calls self.new ≡ next_call (sink_calls self.old) }
        ensures fails { sink_fails self.new ≡ sink_fails self.old }
    {
        self.calls = self.calls.saturating_add(1);
        if self.fails.fails_at(self.calls) {
            return self.fail();
        }
        match self.written.extend_from_slice(buf) {
            Ok(()) => Ok(buf.len()),
            Err(_) => self.fail(),
        }
    }
}
