//! A sink over memory.
ghost use Rattle.std.specs.Prelude.{◌≡◌, ◌≤◌, ◌<◌, ◌⊎◌, [], Some, IsErr, IfOk, Contains};
ghost use Rattle.std.specs.Io.KnownBytes.{WriteAppends};
ghost use Rattle.stream_port.specs.Causes.{HasCause, Rose, next_count};
ghost use Rattle.stream_port.specs.Streams.{TakesSome};

use crate::ports::{Sink, SinkFault};
use std::alloc::Global;
use std::marker::Model;

/// A sink over memory. It takes at most so many bytes a call, and its calls with the numbers in a
/// list fail, counted from 1. A call that finds no memory fails too, and `starved` counts it.
#[derive(Drop)]
pub struct MemorySink {
    taken: Vec<u8>,
    most: usize,
    fails: Vec<u64>,
    calls: u64,
    faults: u64,
    starved: u64,
}

impl Model for MemorySink {
    ghost use Rattle.std.specs.Prelude.{◌≤◌};
    ghost use Rattle.stream_port.specs.Streams.{SinkParts};

    ghost Value = { SinkParts };

    ghost view = { λ s. record {
      taken = s.taken.items;
      most = s.most;
      fails = s.fails.items;
      calls = s.calls;
      faults = s.faults;
      starved = s.starved;
    } };

    ghost invariant = { λ s. 1 ≤ s.most };
}

impl MemorySink {
    ghost use Rattle.stream_port.specs.Streams.{SinkParts};

    /// A sink that has taken nothing yet and takes at most `most` bytes a call.
    pub fn new(alloc: Global, most: usize, fails: Vec<u64>) -> MemorySink
        requires { 1 ≤ most }
        ensures { result ≡ record { taken = []; most = most; fails = fails.items; calls = 0; faults = 0; starved = 0 } }
    {
        MemorySink {
            taken: Vec::new(alloc),
            most,
            fails,
            calls: 0,
            faults: 0,
            starved: 0,
        }
    }

    /// The bytes taken so far.
    pub fn taken(&self) -> &[u8]
        ensures { result.now ≡ self.now.taken }
    {
        self.taken.as_slice()
    }

    /// How many calls failed because memory ran out. It stays at 2^64 - 1.
    pub fn starved(&self) -> u64
        ensures { result ≡ self.now.starved }
    {
        self.starved
    }
}

impl Sink for MemorySink {
    ghost taken = { λ s. Some s.taken };

    ghost faults = { λ s. s.faults };

    fn write(&mut self, bytes: &[u8]) -> Result<usize, SinkFault>
        ensures bound { TakesSome result bytes.now }
        ensures bytes { WriteAppends (Some self.old.taken) (Some self.new.taken) result bytes.now }
        ensures cause { HasCause self.old.faults self.new.faults result }
        // A call fails exactly where the list has its number or memory runs out.
        ensures listed { Contains self.old.fails (next_count self.old.calls) → IsErr result }
        ensures failed { IsErr result → Contains self.old.fails (next_count self.old.calls) ⊎
            Rose self.old.starved self.new.starved }
        ensures most { IfOk result (λ n. n ≤ self.old.most) }
        ensures counted { self.new.calls ≡ next_count self.old.calls }
        ensures fails { (self.new.fails ≡ self.old.fails) × (self.new.most ≡ self.old.most) }
    {
        self.calls = self.calls.saturating_add(1);
        if self.fails.contains(&self.calls) {
            self.faults = self.faults.saturating_add(1);
            return Err(SinkFault);
        }
        let count = bytes.len().min(self.most);
        if self.taken.extend_from_slice(&bytes[..count]).is_err() {
            self.starved = self.starved.saturating_add(1);
            self.faults = self.faults.saturating_add(1);
            return Err(SinkFault);
        }
        Ok(count)
    }
}
