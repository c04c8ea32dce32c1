// A source and a sink that never fail.
ghost use Rattle.std.specs.Prelude.{◌≡◌, length, IfOk, IsOk};
ghost use Rattle.std.specs.Io.{ReadsAtMost};
ghost use Rattle.std.specs.Io.KnownBytes.{ReadConsumes, WriteAppends};
ghost use Rattle.pipe_outside.specs.Outside.{HasCause, WritesSome};

use crate::memory::give;
use crate::{Failed, Sink, Source};
use pipe_base::NoMemory;
use std::alloc::Global;
use std::marker::Model;

/// A source of these bytes that never fails.
#[derive(Drop)]
pub struct SteadySource {
    bytes: Vec<u8>,
    at: usize,
}

impl Model for SteadySource {
    ghost use Rattle.std.specs.Prelude.{List, ℕ, drop, length, ◌≤◌};

    ghost Value = { List ℕ };

    ghost view = { λ s. drop s.at s.bytes.items };

    ghost invariant = { λ s. s.at ≤ length s.bytes.items };
}

impl SteadySource {
    /// Takes a copy of the bytes.
    pub fn new(alloc: Global, bytes: &[u8]) -> Result<SteadySource, NoMemory>
        ensures { IfOk result (λ source. source ≡ bytes.now) }
    {
        Ok(SteadySource {
            bytes: Vec::from_slice(alloc, bytes)?,
            at: 0,
        })
    }
}

impl Source for SteadySource {
    ghost use Rattle.std.specs.Prelude.{Some, ◌≡◌, min, drop, length, IsOkAnd};

    ghost left = { λ s. Some s };

    ghost faults = { λ s. 0 };

    fn read(&mut self, buf: &mut [u8]) -> Result<usize, Failed>
        ensures bound { ReadsAtMost result buf.new }
        ensures bytes { ReadConsumes (Some self.old) (Some self.new) result buf.new }
        ensures cause { HasCause 0 0 result }
        ensures exact { IsOkAnd result (λ n. (n ≡ min (length self.old) (length buf.old))
            × (self.new ≡ drop n self.old)) }
    {
        Ok(give(&self.bytes, &mut self.at, buf))
    }
}

/// A sink that takes every byte, keeps none and tells nothing.
#[derive(Drop)]
pub struct SteadySink {}

impl SteadySink {
    pub fn new() -> SteadySink {
        SteadySink {}
    }
}

impl Sink for SteadySink {
    ghost use Rattle.std.specs.Prelude.{None};

    ghost written = { λ s. None };

    ghost faults = { λ s. 0 };

    fn write(&mut self, bytes: &[u8]) -> Result<usize, Failed>
        ensures some { WritesSome bytes.now result }
        ensures bytes { WriteAppends None None result bytes.now }
        ensures cause { HasCause 0 0 result }
        ensures all { result ≡ Ok (length bytes.now) }
    {
        Ok(bytes.len())
    }
}
