//! A source over memory.
ghost use Rattle.std.specs.Prelude.{◌≡◌, ◌≤◌, ◌<◌, ◌↔◌, [], Some, length, take, IsErr, IfOk, Contains};
ghost use Rattle.std.specs.Io.{ReadsAtMost};
ghost use Rattle.std.specs.Io.KnownBytes.{ReadConsumes};
ghost use Rattle.stream_port.specs.Causes.{HasCause, next_count};

use crate::ports::{Source, SourceFault};
use std::marker::Model;

// Puts a prefix of `rest`, of at most `most` bytes, at the front of `into`.
fn fill(into: &mut [u8], rest: &[u8], most: usize) -> usize
    requires { 1 ≤ most }
    ensures bound { result ≤ length into.new }
    ensures within { result ≤ length rest.now }
    ensures most { result ≤ most }
    ensures bytes { take result into.new ≡ take result rest.now }
    ensures end { result ≡ 0 → 0 < length into.new → rest.now ≡ [] }
{
    let count = into.len().min(most).min(rest.len());
    into[..count].copy_from_slice(&rest[..count]);
    count
}

/// A source over memory. It gives at most so many bytes a call, and its calls with the numbers in
/// a list fail, counted from 1.
#[derive(Drop)]
pub struct MemorySource {
    bytes: Vec<u8>,
    at: usize,
    most: usize,
    fails: Vec<u64>,
    calls: u64,
    faults: u64,
}

impl Model for MemorySource {
    ghost use Rattle.std.specs.Prelude.{◌≤◌, length, drop};
    ghost use Rattle.stream_port.specs.Streams.{SourceParts};

    ghost Value = { SourceParts };

    ghost view = { λ s. record {
      left = drop s.at s.bytes.items;
      most = s.most;
      fails = s.fails.items;
      calls = s.calls;
      faults = s.faults;
    } };

    ghost invariant = { λ s. (s.at ≤ length s.bytes.items) × (1 ≤ s.most) };
}

impl MemorySource {
    ghost use Rattle.stream_port.specs.Streams.{SourceParts};

    /// A source of these bytes, at most `most` of them a call.
    pub fn new(bytes: Vec<u8>, most: usize, fails: Vec<u64>) -> MemorySource
        requires { 1 ≤ most }
        ensures { result ≡ record { left = bytes.items; most = most; fails = fails.items; calls = 0; faults = 0 } }
    {
        MemorySource {
            bytes,
            at: 0,
            most,
            fails,
            calls: 0,
            faults: 0,
        }
    }
}

impl Source for MemorySource {
    ghost left = { λ s. Some s.left };

    ghost faults = { λ s. s.faults };

    fn read(&mut self, into: &mut [u8]) -> Result<usize, SourceFault>
        ensures bound { ReadsAtMost result into.new }
        ensures bytes { ReadConsumes (Some self.old.left) (Some self.new.left) result into.new }
        ensures cause { HasCause self.old.faults self.new.faults result }
        // A call fails exactly where the list has its number.
        ensures listed { IsErr result ↔ Contains self.old.fails (next_count self.old.calls) }
        ensures most { IfOk result (λ n. n ≤ self.old.most) }
        ensures counted { self.new.calls ≡ next_count self.old.calls }
        ensures fails { (self.new.fails ≡ self.old.fails) × (self.new.most ≡ self.old.most) }
    {
        self.calls = self.calls.saturating_add(1);
        if self.fails.contains(&self.calls) {
            self.faults = self.faults.saturating_add(1);
            return Err(SourceFault);
        }
        let count = fill(into, &self.bytes[self.at..], self.most);
        self.at += count;
        Ok(count)
    }
}
