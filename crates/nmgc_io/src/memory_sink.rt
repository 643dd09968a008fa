//! A sink in memory, for tests and for callers that want the bytes.
//!
//! It takes bytes in chunks while there is room. All its room is reserved when it is made. So a write takes no memory, and
//! fails only at a listed call or without room. Contracts see the bytes taken and the room left. Easy to get wrong: a call
//! fails if no room is left, but not if the room is only less than the piece.
ghost use Rattle.std.specs.Prelude.{◌≡◌, ◌⊎◌, ◌↔◌, ◌+◌, ◌<◌, ◌≤◌, ◌++◌, [], min, length, vec_len, vec_capacity, IfOk, IsErr, Contains, Some};
ghost use Rattle.std.specs.Io.KnownBytes.{WriteAppends};
ghost use Rattle.nmgc_io.specs.{Streams.HasCause, Text.next};

use crate::{Failed, Sink};
use nmgc_lists::NoMemory;
use std::alloc::Global;
use std::marker::Model;

/// A sink that takes bytes in chunks while there is room, and fails at listed calls.
#[derive(Drop)]
pub struct MemorySink {
    bytes: Vec<u8>,
    chunk: usize,
    failing: Vec<u64>,
    room: usize,
    calls: u64,
    faults: u64,
}

impl Model for MemorySink {
    ghost use Rattle.std.specs.Prelude.{◌≤◌, ◌-◌, vec_len, vec_capacity};
    ghost use Rattle.nmgc_io.specs.Memory.{Store};

    ghost Value = { Store };

    ghost view = { λ s. record {
      bytes = s.bytes.items;
      chunk = s.chunk;
      failing = s.failing.items;
      room = s.room - vec_len s.bytes;
      calls = s.calls;
      faults = s.faults;
    } };

    ghost invariant = { λ s. (vec_len s.bytes ≤ s.room) × (s.room ≤ vec_capacity s.bytes) × (1 ≤ s.chunk) };
}

impl MemorySink {
    /// Makes a sink that takes at most `chunk` bytes a call and `room` bytes in all. Requires a `chunk` of at least 1. A call
    /// fails exactly if its number, from 1, is in `failing` or no room is left. The call number stops at 2^64 - 1, and so
    /// does the number of failed calls, which is the count of faults. `NoMemory` means no memory for `room` bytes.
    pub fn new(
        alloc: Global,
        chunk: usize,
        failing: Vec<u64>,
        room: usize,
    ) -> Result<Self, NoMemory>
        requires { 1 ≤ chunk }
        ensures { IfOk result (λ sink. sink ≡ record { bytes = []; chunk = chunk; failing = failing.items; room = room; calls = 0; faults = 0 }) }
    {
        let bytes = Vec::with_capacity(alloc, room)?;
        Ok(MemorySink {
            bytes,
            chunk,
            failing,
            room,
            calls: 0,
            faults: 0,
        })
    }

    /// Returns the bytes that the sink has taken, in order. Takes no memory.
    pub fn bytes(&self) -> &[u8]
        ensures { result.now ≡ self.now.bytes }
    {
        self.bytes.as_slice()
    }
}

impl Sink for MemorySink {
    ghost use Rattle.nmgc_io.specs.Memory.{Writes};

    ghost taken = { λ s. Some s.bytes };

    ghost faults = { λ s. s.faults };

    // Does as the trait says. A call takes the least of `chunk`, the room and the length of `piece`. It fails as `new` says.
    fn write(&mut self, piece: &[u8]) -> Result<usize, Failed>
        requires { 0 < length piece.now }
        ensures some { IfOk result (λ n. 0 < n) }
        ensures bound { IfOk result (λ n. n ≤ length piece.now) }
        ensures bytes { WriteAppends (Some self.old.bytes) (Some self.new.bytes) result piece.now }
        ensures cause { HasCause self.old.faults self.new.faults result }

        ensures count { IfOk result (λ n. n ≡ min (min (length piece.now) self.old.chunk) self.old.room) }
        ensures fails { IsErr result ↔ (Contains self.old.failing (next self.old.calls) ⊎ (self.old.room ≡ 0)) }
        ensures call { Writes self.old self.new result }
    {
        self.calls = self.calls.saturating_add(1);
        if self.failing.contains(&self.calls) || self.bytes.len() == self.room {
            self.faults = self.faults.saturating_add(1);
            return Err(Failed);
        }
        let count = piece
            .len()
            .min(self.chunk)
            .min(self.room - self.bytes.len());
        append_reserved(&mut self.bytes, &piece[..count]);
        Ok(count)
    }
}

// Appends `piece` to `bytes`. Requires that the capacity of `bytes` already suffices. The capacity doesn't fall.
fn append_reserved(bytes: &mut Vec<u8>, piece: &[u8])
    requires { vec_len bytes.old + length piece.now ≤ vec_capacity bytes.old }
    ensures items { bytes.new.items ≡ bytes.old.items ++ piece.now }
    ensures capacity { vec_capacity bytes.old ≤ vec_capacity bytes.new }
{
    bytes.extend_from_slice(piece).unwrap();
}
