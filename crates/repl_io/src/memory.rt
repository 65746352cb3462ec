// A source and a sink in memory, with lists of the calls that fail.
ghost use Rattle.std.specs.Prelude.{◌≡◌, ◌<◌, ◌≤◌, ◌-◌, ◌↔◌, min, take, drop, ◌++◌, [], length, IfOk, IsErr, OnOk, OnErr, Some, Contains};
ghost use Rattle.std.specs.Io.KnownBytes.{ReadConsumes, WriteAppends};
ghost use Rattle.global_defs.specs.Counts.{HasCause, counted_on};

use super::stream::{Failed, NoMemory, Sink, Source};
use std::alloc::Global;
use std::marker::Model;

/// Copies the front of one slice to another, as much as both have.
fn copy_prefix(from: &[u8], into: &mut [u8]) -> usize
    ensures count { result ≡ min (length from.now) (length into.old) }
    ensures copied { from.now ≡ take result into.new ++ drop result from.now }
    ensures room_stays { length into.new ≡ length into.old }
{
    let n = from.len().min(into.len());
    into[..n].copy_from_slice(&from[..n]);
    n
}

/// The numbers of the calls that fail, how many calls there were, and how many of them failed.
#[derive(Drop)]
struct Calls {
    failing: Vec<u64>,
    made: u64,
    faults: u64,
}

impl Calls {
    /// Before the first call.
    fn new(failing: Vec<u64>) -> Self
        ensures list { result.failing ≡ failing }
        ensures none_made { result.made ≡ 0 }
        ensures no_fault { result.faults ≡ 0 }
    {
        Calls {
            failing,
            made: 0,
            faults: 0,
        }
    }

    /// Counts a call, and fails it where it's listed.
    fn begin(&mut self) -> Result<(), Failed>
        ensures listed { IsErr result ↔ Contains self.old.failing.items self.old.made }
        ensures counted { OnErr result (self.new.faults ≡ counted_on self.old.faults) }
        ensures not_counted { OnOk result (self.new.faults ≡ self.old.faults) }
        ensures called { self.new.made ≡ counted_on self.old.made }
        ensures list_stays { self.new.failing ≡ self.old.failing }
    {
        let call = self.made;
        self.made = call.saturating_add(1);
        if self.failing.contains(&call) {
            return Err(self.fail());
        }
        Ok(())
    }

    /// Counts a fault.
    fn fail(&mut self) -> Failed
        ensures { self.new ≡ record self.old { faults = counted_on self.old.faults } }
    {
        self.faults = self.faults.saturating_add(1);
        Failed
    }
}

/// Bytes in memory to be read. The calls whose numbers, from 0, stand in a list fail, and no other
/// call does.
#[derive(Drop)]
pub struct MemSource {
    bytes: Vec<u8>,
    at: usize,
    calls: Calls,
}

impl Model for MemSource {
    ghost use Rattle.std.specs.Prelude.{◌≤◌, drop, vec_len};
    ghost use Rattle.repl_io.specs.Memory.{Reading};

    ghost Value = { Reading };

    ghost view = { λ s. record {
      left = drop s.at s.bytes.items;
      failing = s.calls.failing.items;
      calls = s.calls.made;
      faults = s.calls.faults;
    } };

    ghost invariant = { λ s. s.at ≤ vec_len s.bytes };
}

impl MemSource {
    /// A source of these bytes, with the numbers of the calls that are to fail.
    pub fn new(bytes: Vec<u8>, failing: Vec<u64>) -> Self
        ensures { result ≡ record { left = bytes.items; failing = failing.items; calls = 0; faults = 0 } }
    {
        MemSource {
            bytes,
            at: 0,
            calls: Calls::new(failing),
        }
    }

    /// How many reads have failed.
    pub fn faults(&self) -> u64
        ensures { result ≡ self.now.faults }
    {
        self.calls.faults
    }
}

impl Source for MemSource {
    ghost left = { λ s. Some s.left };

    ghost faults = { λ s. s.faults };

    fn read(&mut self, buf: &mut [u8]) -> Result<usize, Failed>
        requires { 0 < length buf.old }
        ensures bound { IfOk result (λ n. n ≤ length buf.new) }
        ensures bytes { ReadConsumes (Some self.old.left) (Some self.new.left) result buf.new }
        ensures cause { HasCause self.old.faults self.new.faults result }
        ensures filled { IfOk result (λ n. n ≡ min (length self.old.left) (length buf.old)) }
        ensures listed { IsErr result ↔ Contains self.old.failing self.old.calls }
        ensures counted { OnErr result (self.new.faults ≡ counted_on self.old.faults) }
        ensures not_counted { OnOk result (self.new.faults ≡ self.old.faults) }
        ensures called { self.new.calls ≡ counted_on self.old.calls }
        ensures list_stays { self.new.failing ≡ self.old.failing }
    {
        self.calls.begin()?;
        let n = copy_prefix(&self.bytes[self.at..], buf);
        self.at += n;
        Ok(n)
    }
}

/// Bytes in memory that were written. The calls whose numbers, from 0, stand in a list fail, and a
/// call with no room left does. No other call fails.
///
/// One call takes a given number of bytes at most, and all calls together take as many as the sink
/// was given room for.
#[derive(Drop)]
pub struct MemSink {
    bytes: Vec<u8>,
    most: usize,
    room: usize,
    calls: Calls,
}

impl Model for MemSink {
    ghost use Rattle.std.specs.Prelude.{◌<◌, ◌≤◌, vec_len};
    ghost use Rattle.std.specs.Vec.{vec_capacity};
    ghost use Rattle.repl_io.specs.Memory.{Writing};

    ghost Value = { Writing };

    ghost view = { λ s. record {
      taken = s.bytes.items;
      failing = s.calls.failing.items;
      most = s.most;
      room = s.room;
      calls = s.calls.made;
      faults = s.calls.faults;
    } };

    ghost invariant = { λ s. (0 < s.most) × (vec_len s.bytes ≤ s.room) × (s.room ≤ vec_capacity s.bytes) };
}

impl MemSink {
    /// An empty sink, with the numbers of the calls that are to fail, the greatest number of bytes
    /// that one call takes, and the number of bytes that all calls together take.
    pub fn new(alloc: Global, failing: Vec<u64>, most: usize, room: usize) -> Result<Self, NoMemory>
        requires { 0 < most }
        ensures { IfOk result (λ sink. sink ≡ record {
          taken = [];
          failing = failing.items;
          most = most;
          room = room;
          calls = 0;
          faults = 0;
        }) }
    {
        Ok(MemSink {
            bytes: Vec::with_capacity(alloc, room)?,
            most,
            room,
            calls: Calls::new(failing),
        })
    }

    /// The bytes that were written.
    pub fn bytes(&self) -> &[u8]
        ensures { result.now ≡ self.now.taken }
    {
        &self.bytes
    }

    /// How many writes have failed.
    pub fn faults(&self) -> u64
        ensures { result ≡ self.now.faults }
    {
        self.calls.faults
    }
}

impl Sink for MemSink {
    ghost written = { λ s. Some s.taken };

    ghost faults = { λ s. s.faults };

    fn write(&mut self, bytes: &[u8]) -> Result<usize, Failed>
        requires { 0 < length bytes.now }
        ensures some { IfOk result (λ n. 0 < n) }
        ensures bound { IfOk result (λ n. n ≤ length bytes.now) }
        ensures bytes { WriteAppends (Some self.old.taken) (Some self.new.taken) result bytes.now }
        ensures cause { HasCause self.old.faults self.new.faults result }
        ensures amount { IfOk result (λ n. n ≡ min (length bytes.now) (min self.old.most (self.old.room - length self.old.taken))) }
        ensures listed { Contains self.old.failing self.old.calls → IsErr result }
        ensures full { self.old.room ≡ length self.old.taken → IsErr result }
        ensures only_listed { IsErr result → length self.old.taken < self.old.room → Contains self.old.failing self.old.calls }
        ensures counted { OnErr result (self.new.faults ≡ counted_on self.old.faults) }
        ensures not_counted { OnOk result (self.new.faults ≡ self.old.faults) }
        ensures called { self.new.calls ≡ counted_on self.old.calls }
        ensures list_stays { self.new.failing ≡ self.old.failing }
        ensures most_stays { self.new.most ≡ self.old.most }
        ensures room_stays { self.new.room ≡ self.old.room }
    {
        self.calls.begin()?;
        let n = bytes.len().min(self.most).min(self.room - self.bytes.len());
        if n == 0 || self.bytes.extend_from_slice(&bytes[..n]).is_err() {
            return Err(self.calls.fail());
        }
        Ok(n)
    }
}
