//! A source in memory, for tests and for callers that have the bytes.
//!
//! It gives its bytes in chunks, and fails at listed calls. So tests can cut a reader short in every way without a real
//! device. Contracts see the bytes left, and never the reading position. Easy to get wrong: a failing call counts as a call
//! too, and takes no byte.
ghost use Rattle.std.specs.Prelude.{◌≡◌, ◌↔◌, ◌<◌, ◌≤◌, ◌+◌, ◌++◌, min, length, take, drop, IfOk, IsErr, Contains, Some};
ghost use Rattle.std.specs.{Io.ReadsAtMost, Io.KnownBytes.ReadConsumes};
ghost use Rattle.nmgc_io.specs.{Streams.HasCause, Text.next};

use crate::{Failed, Source};
use std::marker::Model;

/// A source that gives the bytes of a vector in chunks, and fails at listed calls.
#[derive(Drop)]
pub struct MemorySource {
    bytes: Vec<u8>,
    at: usize,
    chunk: usize,
    failing: Vec<u64>,
    calls: u64,
    faults: u64,
}

impl Model for MemorySource {
    ghost use Rattle.std.specs.Prelude.{◌≤◌, drop, vec_len};
    ghost use Rattle.nmgc_io.specs.Memory.{Supply};

    ghost Value = { Supply };

    ghost view = { λ s. record {
      bytes = drop s.at s.bytes.items;
      chunk = s.chunk;
      failing = s.failing.items;
      calls = s.calls;
      faults = s.faults;
    } };

    ghost invariant = { λ s. (s.at ≤ vec_len s.bytes) × (1 ≤ s.chunk) };
}

impl MemorySource {
    /// Makes a source that gives `bytes` in order, at most `chunk` a call. Requires a `chunk` of at least 1. A call fails
    /// exactly if its number, from 1, is in `failing`. The call number stops at 2^64 - 1, and so does the number of failed
    /// calls, which is the count of faults. Takes no memory.
    pub fn new(bytes: Vec<u8>, chunk: usize, failing: Vec<u64>) -> Self
        requires { 1 ≤ chunk }
        ensures { result ≡ record { bytes = bytes.items; chunk = chunk; failing = failing.items; calls = 0; faults = 0 } }
    {
        MemorySource {
            bytes,
            at: 0,
            chunk,
            failing,
            calls: 0,
            faults: 0,
        }
    }
}

impl Source for MemorySource {
    ghost use Rattle.nmgc_io.specs.Memory.{Reads};

    ghost left = { λ s. Some s.bytes };

    ghost faults = { λ s. s.faults };

    // Does as the trait says. A call gives the least of `chunk`, the bytes left and the length of `buf`. Fails as `new` says.
    fn read(&mut self, buf: &mut [u8]) -> Result<usize, Failed>
        requires { 0 < length buf.old }
        ensures bound { ReadsAtMost result buf.new }
        ensures bytes { ReadConsumes (Some self.old.bytes) (Some self.new.bytes) result buf.new }
        ensures cause { HasCause self.old.faults self.new.faults result }

        ensures count { IfOk result (λ n. n ≡ min (min (length self.old.bytes) self.old.chunk) (length buf.old)) }
        ensures fails { IsErr result ↔ Contains self.old.failing (next self.old.calls) }
        ensures call { Reads self.old self.new result }
    {
        self.calls = self.calls.saturating_add(1);
        if self.failing.contains(&self.calls) {
            self.faults = self.faults.saturating_add(1);
            return Err(Failed);
        }
        let count = copy_front(&self.bytes, self.at, self.chunk, buf);
        self.at += count;
        Ok(count)
    }
}

// Copies the bytes from position `at` on, in order, to the front of `buf`. Returns the number of bytes copied: the least of
// `chunk`, the length of `buf`, and the number of bytes from `at` on. Requires an `at` within `bytes` or at its end.
fn copy_front(bytes: &[u8], at: usize, chunk: usize, buf: &mut [u8]) -> usize
    requires { at ≤ length bytes.now }
    ensures count { result ≡ min (min (length (drop at bytes.now)) chunk) (length buf.old) }
    ensures given { drop at bytes.now ≡ take result buf.new ++ drop (at + result) bytes.now }
{
    let left = &bytes[at..];
    let count = left.len().min(chunk).min(buf.len());
    buf[..count].copy_from_slice(&left[..count]);
    count
}
