//! The origin of bytes, whatever is behind it.
//!
//! Contracts see two things of a source. `left` are the bytes still to come, if the source knows them: a source in memory
//! does, standard input can't. `faults` is a count that never falls, and a call may fail only if it rose. So no layer above
//! can report 'the source failed' by itself: it has to show that the count rose. The count has 64 bits, and at its greatest
//! value it counts as risen. Easy to get wrong: a short read isn't the end. Only a read of no bytes is the end.
ghost use Rattle.std.specs.{Prelude.ℕ, Prelude.List, Prelude.Option, Prelude.◌<◌, Prelude.length, Io.ReadsAtMost, Io.KnownBytes.ReadConsumes};
ghost use Rattle.nmgc_io.specs.Streams.{HasCause};

use crate::Failed;

/// The origin of bytes.
pub trait Source {
    /// The bytes still to come, if the source knows them.
    ghost left: { Self → Option (List ℕ) };

    /// The number of its failures.
    ghost faults: { Self → ℕ };

    /// Puts the next bytes in order at the front of `buf`, and returns their number: 0 only if none are left. Requires room
    /// in `buf`. A call fails only if the count of faults rose. After `Failed` the bytes to come are the same. Takes no memory.
    fn read(&mut self, buf: &mut [u8]) -> Result<usize, Failed>
        requires { 0 < length buf.old }
        ensures bound { ReadsAtMost result buf.new }
        ensures bytes { ReadConsumes (left self.old) (left self.new) result buf.new }
        ensures cause { HasCause (faults self.old) (faults self.new) result };
}
