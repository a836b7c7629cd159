ghost use Rattle.std.specs.Prelude.{◌≡◌, ◌<◌, ◌≤◌, ◌-◌, ◌++◌, ◌↔◌, ◌⊎◌, [], Some, IfOk, IfSome, IfNone, IsNone, IsErr, IsTrue, OnErr, Contains, length, take, drop, max, min};
ghost use Rattle.dt_source.specs.Faults.{counted};

use crate::counts::failed;
use crate::traits::{Failed, Sink, Source};
use std::alloc::{AllocError, Global};
use std::marker::Model;

/// Whether the number is in the list.
fn is_listed(list: &[u64], number: u64) -> bool
    ensures { IsTrue result ↔ Contains list.now number }
{
    list.contains(&number)
}

/// Copies the bytes, `most` at most, into the front of the buffer and says how many.
fn give(bytes: &[u8], most: usize, buf: &mut [u8]) -> usize
    ensures count { result ≡ min most (min (length buf.old) (length bytes.now)) }
    ensures given { buf.new ≡ take result bytes.now ++ drop result buf.old }
{
    let count = most.min(buf.len().min(bytes.len()));
    buf[..count].copy_from_slice(&bytes[..count]);
    count
}

/// Bytes in memory. A call gives at most `piece` of them, and at least one. `fail` lists the calls
/// that fail, by their numbers from 0.
#[derive(Debug, Drop)]
pub struct MemSource {
    bytes: Vec<u8>,
    at: usize,
    piece: usize,
    fail: Vec<u64>,
    calls: u64,
    faults: u64,
}

impl Model for MemSource {
    ghost use Rattle.std.specs.Prelude.{◌≤◌, drop, vec_len};
    ghost use Rattle.dt_source.specs.Memory.{SourceValue};

    ghost Value = { SourceValue };

    ghost view = { λ s. record {
      rest = drop s.at s.bytes.items;
      piece = s.piece;
      fail = s.fail.items;
      calls = s.calls;
      faults = s.faults;
    } };

    ghost invariant = { λ s. s.at ≤ vec_len s.bytes };
}

impl MemSource {
    /// A source of these bytes, from the first on, that was not called yet. `piece` is how many
    /// bytes a call gives at most, and 0 means 1. `fail` has the numbers of the calls that fail, in
    /// any order.
    pub fn new(bytes: Vec<u8>, piece: usize, fail: Vec<u64>) -> MemSource
        ensures { result ≡ record {
          rest = bytes.items;
          piece = piece;
          fail = fail.items;
          calls = 0;
          faults = 0;
        } }
    {
        MemSource {
            bytes,
            at: 0,
            piece,
            fail,
            calls: 0,
            faults: 0,
        }
    }
}

impl Source for MemSource {
    ghost left = { λ s. Some s.rest };

    ghost faults = { λ s. s.faults };

    fn read(&mut self, buf: &mut [u8]) -> Result<usize, Failed>
        requires { 0 < length buf.old }
        ensures fails { IsErr result ↔ Contains self.old.fail self.old.calls }
        ensures count { IfOk result (λ n.
            n ≡ min (max self.old.piece 1) (min (length buf.old) (length self.old.rest))) }
        ensures given { IfOk result (λ n. buf.new ≡ take n self.old.rest ++ drop n buf.old) }
        ensures after { IfOk result (λ n. self.new
            ≡ record self.old { rest = drop n self.old.rest; calls = counted self.old.calls }) }
        ensures after_failure { OnErr result (self.new
            ≡ record self.old { calls = counted self.old.calls; faults = counted self.old.faults }) }
        ensures never_falls { self.old.faults ≤ self.new.faults }
    {
        let fails = is_listed(&self.fail, self.calls);
        self.calls = self.calls.saturating_add(1);
        if fails {
            return Err(failed(&mut self.faults));
        }
        let given = give(&self.bytes[self.at..], self.piece.max(1), buf);
        self.at += given;
        Ok(given)
    }
}

/// Bytes in memory. No call fails.
#[derive(Debug, Drop)]
pub struct CalmSource {
    bytes: Vec<u8>,
    at: usize,
}

impl Model for CalmSource {
    ghost use Rattle.std.specs.Prelude.{◌≤◌, List, ℕ, drop, vec_len};

    ghost Value = { List ℕ };

    ghost view = { λ s. drop s.at s.bytes.items };

    ghost invariant = { λ s. s.at ≤ vec_len s.bytes };
}

impl CalmSource {
    /// A source of these bytes, from the first on. A call gives as many as the buffer has room for.
    pub fn new(bytes: Vec<u8>) -> CalmSource
        ensures { result ≡ bytes.items }
    {
        CalmSource { bytes, at: 0 }
    }
}

impl Source for CalmSource {
    ghost left = { λ rest. Some rest };

    ghost faults = { λ _. 0 };

    fn read(&mut self, buf: &mut [u8]) -> Result<usize, Failed>
        requires { 0 < length buf.old }
        ensures count { result ≡ Ok (min (length buf.old) (length self.old)) }
        ensures given { IfOk result (λ n. buf.new ≡ take n self.old ++ drop n buf.old) }
        ensures after { IfOk result (λ n. self.new ≡ drop n self.old) }
    {
        let room = buf.len();
        let count = give(&self.bytes[self.at..], room, buf);
        self.at += count;
        Ok(count)
    }
}

/// Bytes that were written to memory. A sink takes as many as it still has room for; a call to a
/// full one fails, and so do those in `fail`, which are numbered from 0.
#[derive(Debug, Drop)]
pub struct MemSink {
    bytes: Vec<u8>,
    room: usize,
    fail: Vec<u64>,
    calls: u64,
    faults: u64,
}

impl Model for MemSink {
    ghost use Rattle.std.specs.Prelude.{◌≤◌, vec_len, vec_capacity};
    ghost use Rattle.dt_source.specs.Memory.{SinkValue};

    ghost Value = { SinkValue };

    ghost view = { λ s. record {
      bytes = s.bytes.items;
      room = s.room;
      fail = s.fail.items;
      calls = s.calls;
      faults = s.faults;
    } };

    ghost invariant = { λ s. (vec_len s.bytes ≤ s.room) × (s.room ≤ vec_capacity s.bytes) };
}

impl MemSink {
    /// A sink with nothing written, which has its room reserved.
    pub fn new(alloc: Global, room: usize, fail: Vec<u64>) -> Result<MemSink, AllocError>
        ensures { IfOk result (λ sink. sink ≡ record {
          bytes = [];
          room = room;
          fail = fail.items;
          calls = 0;
          faults = 0;
        }) }
    {
        let bytes = Vec::with_capacity(alloc, room)?;
        Ok(MemSink {
            bytes,
            room,
            fail,
            calls: 0,
            faults: 0,
        })
    }

    /// What was written.
    pub fn bytes(&self) -> &[u8]
        ensures { result.now ≡ self.now.bytes }
    {
        self.bytes.as_slice()
    }

    /// Puts the front of the piece at the end, as much as there is room for, and says how much.
    fn put(&mut self, piece: &[u8]) -> Option<usize>
        ensures full { IsNone result ↔ (self.old.room ≤ length self.old.bytes) }
        ensures count { IfSome result (λ n.
            n ≡ min (length piece.now) (self.old.room - length self.old.bytes)) }
        ensures put { IfSome result (λ n.
            self.new ≡ record self.old { bytes = self.old.bytes ++ take n piece.now }) }
        ensures none { IfNone result (self.new ≡ self.old) }
    {
        let room = self.room - self.bytes.len();
        if room == 0 {
            return None;
        }
        let count = piece.len().min(room);
        self.bytes.extend_from_slice(&piece[..count]).ok()?;
        Some(count)
    }
}

impl Sink for MemSink {
    ghost written = { λ s. Some s.bytes };

    ghost faults = { λ s. s.faults };

    fn write(&mut self, piece: &[u8]) -> Result<usize, Failed>
        ensures fails { IsErr result
            ↔ (Contains self.old.fail self.old.calls ⊎ (self.old.room ≤ length self.old.bytes)) }
        ensures count { IfOk result (λ n.
            n ≡ min (length piece.now) (self.old.room - length self.old.bytes)) }
        ensures after { IfOk result (λ n. self.new ≡ record self.old {
          bytes = self.old.bytes ++ take n piece.now;
          calls = counted self.old.calls;
        }) }
        ensures after_failure { OnErr result (self.new
            ≡ record self.old { calls = counted self.old.calls; faults = counted self.old.faults }) }
        ensures never_falls { self.old.faults ≤ self.new.faults }
    {
        let fails = is_listed(&self.fail, self.calls);
        self.calls = self.calls.saturating_add(1);
        if fails {
            return Err(failed(&mut self.faults));
        }
        match self.put(piece) {
            Some(count) => Ok(count),
            None => Err(failed(&mut self.faults)),
        }
    }
}
