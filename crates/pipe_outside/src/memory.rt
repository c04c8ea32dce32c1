// A source and a sink in memory, which tell their bytes and fail at the calls that they are told to fail at.
ghost use Rattle.std.specs.Prelude.{◌≡◌, ◌≤◌, ◌++◌, ℕ, [], min, length, take, drop, IfOk};
ghost use Rattle.std.specs.Io.{ReadsAtMost};
ghost use Rattle.std.specs.Io.KnownBytes.{ReadConsumes, WriteAppends};
ghost use Rattle.pipe_outside.specs.Outside.{HasCause, WritesSome};

use crate::{Failed, Sink, Source};
use pipe_base::NoMemory;
use std::alloc::Global;
use std::marker::Model;

// The calls that fail, how many were made, and how many failed.
#[derive(Drop)]
struct Calls {
    failing: Vec<u32>,
    made: u64,
    faults: u64,
}

impl Model for Calls {
    ghost use Rattle.pipe_outside.specs.Calls.{CallCount};

    ghost Value = { CallCount };

    ghost view = { λ c. record { failing = c.failing.items; made = c.made; faults = c.faults } };
}

impl Calls {
    ghost use Rattle.pipe_outside.specs.Calls.{CallCount, no_calls, is_failing, called, failed};

    fn new(alloc: Global, failing: &[u32]) -> Result<Calls, NoMemory>
        ensures { IfOk result (λ calls. calls ≡ no_calls failing.now) }
    {
        Ok(Calls {
            failing: Vec::from_slice(alloc, failing)?,
            made: 0,
            faults: 0,
        })
    }

    // Numbers a call, and says whether it is to fail.
    fn is_failing(&mut self) -> bool
        ensures value { result ≡ is_failing self.old }
        ensures after { self.new ≡ called self.old }
    {
        let at = self.made;
        self.made = self.made.saturating_add(1);
        self.failing.iter().any(|n| u64::from(*n) == at)
    }

    fn fail(&mut self)
        ensures after { self.new ≡ failed self.old }
        ensures later { self.old.faults ≤ self.new.faults }
    {
        self.faults = self.faults.saturating_add(1);
    }
}

/// A source of these bytes.
#[derive(Drop)]
pub struct MemorySource {
    bytes: Vec<u8>,
    at: usize,
    calls: Calls,
}

impl Model for MemorySource {
    ghost use Rattle.std.specs.Prelude.{drop, length, ◌≤◌};
    ghost use Rattle.pipe_outside.specs.Calls.{Reading};

    ghost Value = { Reading };

    ghost view = { λ s. record { left = drop s.at s.bytes.items; calls = s.calls } };

    ghost invariant = { λ s. s.at ≤ length s.bytes.items };
}

impl MemorySource {
    ghost use Rattle.pipe_outside.specs.Calls.{Reading, no_calls};

    /// Takes a copy of the bytes. The calls with these numbers, counted from 0, fail.
    pub fn new(alloc: Global, bytes: &[u8], failing: &[u32]) -> Result<MemorySource, NoMemory>
        ensures left { IfOk result (λ source. source.left ≡ bytes.now) }
        ensures calls { IfOk result (λ source. source.calls ≡ no_calls failing.now) }
    {
        Ok(MemorySource {
            bytes: Vec::from_slice(alloc, bytes)?,
            at: 0,
            calls: Calls::new(alloc, failing)?,
        })
    }
}

// Copies as much as fits from `at` on, moves `at` behind it, and says how much it was.
pub(crate) fn give(bytes: &[u8], at: &mut usize, buf: &mut [u8]) -> usize
    requires { at.old ≤ length bytes.now }
    ensures within { at.new ≤ length bytes.now }
    ensures count { result ≡ min (length (drop at.old bytes.now)) (length buf.old) }
    ensures given { drop at.old bytes.now ≡ take result buf.new ++ drop at.new bytes.now }
    ensures left { drop at.new bytes.now ≡ drop result (drop at.old bytes.now) }
{
    let (_, left) = bytes.split_at(*at);
    let count = left.len().min(buf.len());
    let (given, _) = left.split_at(count);
    buf[..count].copy_from_slice(given);
    *at += count;
    count
}

impl Source for MemorySource {
    ghost use Rattle.std.specs.Prelude.{Some};
    ghost use Rattle.pipe_outside.specs.Calls.{Reading, IsReadOf};

    ghost left = { λ s. Some s.left };

    ghost faults = { λ s. s.calls.faults };

    fn read(&mut self, buf: &mut [u8]) -> Result<usize, Failed>
        ensures bound { ReadsAtMost result buf.new }
        ensures bytes { ReadConsumes (Some self.old.left) (Some self.new.left) result buf.new }
        ensures cause { HasCause self.old.calls.faults self.new.calls.faults result }
        ensures exact { IsReadOf self.old (length buf.old) result self.new }
    {
        if self.calls.is_failing() {
            self.calls.fail();
            return Err(Failed);
        }
        Ok(give(&self.bytes, &mut self.at, buf))
    }
}

/// A sink with room for so many bytes, which takes so many of them per call.
#[derive(Drop)]
pub struct MemorySink {
    bytes: Vec<u8>,
    room: usize,
    most: usize,
    calls: Calls,
}

impl Model for MemorySink {
    ghost use Rattle.std.specs.Prelude.{length, ◌≤◌, ◌<◌};
    ghost use Rattle.std.specs.Vec.{vec_capacity};
    ghost use Rattle.pipe_outside.specs.Calls.{Writing, IsRoomy};

    ghost Value = { Writing };

    ghost view = { λ s. record { bytes = s.bytes.items; room = s.room; most = s.most; calls = s.calls } };

    ghost invariant = { λ s. IsRoomy (length s.bytes.items) s.room (vec_capacity s.bytes) s.most };
}

impl MemorySink {
    ghost use Rattle.std.specs.Prelude.{◌<◌};
    ghost use Rattle.pipe_outside.specs.Calls.{Writing, no_calls};

    /// Takes all its room at once. The calls with these numbers, counted from 0, fail.
    pub fn new(
        alloc: Global,
        room: usize,
        most: usize,
        failing: &[u32],
    ) -> Result<MemorySink, NoMemory>
        requires { 0 < most }
        ensures { IfOk result (λ sink. sink ≡ record { bytes = []; room = room; most = most; calls = no_calls failing.now }) }
    {
        Ok(MemorySink {
            bytes: Vec::with_capacity(alloc, room)?,
            room,
            most,
            calls: Calls::new(alloc, failing)?,
        })
    }

    /// What was written.
    pub fn bytes(&self) -> &[u8]
        ensures { result.now ≡ self.now.bytes }
    {
        self.bytes.as_slice()
    }
}

impl Sink for MemorySink {
    ghost use Rattle.std.specs.Prelude.{Some};
    ghost use Rattle.pipe_outside.specs.Calls.{Writing, IsWriteOf};

    ghost written = { λ s. Some s.bytes };

    ghost faults = { λ s. s.calls.faults };

    fn write(&mut self, bytes: &[u8]) -> Result<usize, Failed>
        ensures some { WritesSome bytes.now result }
        ensures bytes { WriteAppends (Some self.old.bytes) (Some self.new.bytes) result bytes.now }
        ensures cause { HasCause self.old.calls.faults self.new.calls.faults result }
        ensures exact { IsWriteOf self.old bytes.now result self.new }
    {
        let failing = self.calls.is_failing();
        let free = self.room - self.bytes.len();
        let count = bytes.len().min(self.most).min(free);
        if failing
            || (count == 0 && !bytes.is_empty())
            || self.bytes.extend_from_slice(&bytes[..count]).is_err()
        {
            self.calls.fail();
            return Err(Failed);
        }
        Ok(count)
    }
}
