//! The destination of bytes, whatever is behind it.
//!
//! `taken` are the bytes taken so far, if the sink knows them. `faults` is a count of failures, as in `Source`. A call takes
//! at least one byte or fails, so a loop over a sink ends. If the stream below takes nothing, the sink has to return `Failed`
//! and count it. Easy to get wrong: a call may take only a front of the piece, and the caller has to offer the rest again.
ghost use Rattle.std.specs.Prelude.{ℕ, List, Option, ◌<◌, ◌≤◌, length, IfOk};
ghost use Rattle.std.specs.Io.KnownBytes.{WriteAppends};
ghost use Rattle.nmgc_io.specs.Streams.{HasCause};

use crate::Failed;

/// The destination of bytes.
pub trait Sink {
    /// The bytes taken so far, if the sink knows them.
    ghost taken: { Self → Option (List ℕ) };

    /// The number of its failures.
    ghost faults: { Self → ℕ };

    /// Takes bytes in order from the front of `piece`, and returns their number, at least 1. Requires a `piece` that isn't
    /// empty. A call fails only if the count of faults rose. After `Failed` the bytes taken are the same. Takes no memory.
    fn write(&mut self, piece: &[u8]) -> Result<usize, Failed>
        requires { 0 < length piece.now }
        ensures some { IfOk result (λ n. 0 < n) }
        ensures bound { IfOk result (λ n. n ≤ length piece.now) }
        ensures bytes { WriteAppends (taken self.old) (taken self.new) result piece.now }
        ensures cause { HasCause (faults self.old) (faults self.new) result };
}
