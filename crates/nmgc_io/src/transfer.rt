//! Reading all bytes of a source, and writing all bytes to a sink.
//!
//! Each of the two is a loop in which each pass moves at least one byte, so it ends. `read_all` never requests more than one
//! byte past the limit. So no byte further on is taken from the source, and the excess is known as soon as that byte has
//! come. The number of bytes is compared with the limit before the vector grows. So lack of memory can't hide an excess that
//! has come; if memory runs out earlier, the result is `NoMemory`. Easy to get wrong: a short read or a short write isn't the
//! end, and a fault after some bytes leaves those bytes taken.
ghost use Rattle.std.specs.Prelude.{◌≡◌, ◌≢◌, ◌+◌, ◌<◌, ◌≤◌, ◌^◌, length, vec_len, IfOk, IfErr, OnOk, OnErr, IsErrOf};
ghost use Rattle.std.specs.Io.KnownBytes.{Consumes, Appends, IsAtEnd};
ghost use Rattle.nmgc_io.specs.{Text.Rose, Text.Takes, Text.TakesUpTo, Text.AppendsFront, declared.ends.ReadEnd.TheVariants.TooLong};

use crate::{ReadEnd, Sink, Source, WriteEnd};
use std::alloc::Global;

// The number of bytes requested at a time: the capacity of a pipe, and few enough to stay in the cache.
const PIECE: usize = 65_536;

/// Reads `source` to its end, and returns all bytes that were left, at most `limit`. Requires a `limit` below 2^32. `TooLong`
/// means that exactly `limit + 1` bytes were taken, `ReadFault` that the source failed, and `NoMemory` that there was no
/// memory for the bytes or for a buffer. In all cases except `TooLong`, at most `limit` bytes were taken.
pub fn read_all<S: Source>(alloc: Global, source: &mut S, limit: usize) -> Result<Vec<u8>, ReadEnd>
    requires { limit < 2 ^ 32 }
    ensures bytes { IfOk result (λ bytes. Consumes (S.left source.old) (S.left source.new) bytes.items) }
    ensures within { IfOk result (λ bytes. vec_len bytes ≤ limit) }
    ensures end { OnOk result (IsAtEnd (S.left source.new)) }

    ensures too_long { IsErrOf result ReadEnd.TooLong → Takes (S.left source.old) (S.left source.new) (limit + 1) }
    ensures not_too_long { result ≢ Err ReadEnd.TooLong → TakesUpTo (S.left source.old) (S.left source.new) limit }

    ensures later { S.faults source.old ≤ S.faults source.new }
    ensures fault { IsErrOf result ReadEnd.ReadFault → Rose (S.faults source.old) (S.faults source.new) }
{
    let mut buffer = zeros(alloc, PIECE)?;
    let piece = buffer.as_mut_slice();
    let mut bytes = Vec::new(alloc);
    loop {
        let room = piece.len().min(limit + 1 - bytes.len());
        let Ok(count) = source.read(&mut piece[..room]) else {
            return Err(ReadEnd::ReadFault);
        };
        if count == 0 {
            return Ok(bytes);
        }
        if bytes.len() + count > limit {
            return Err(ReadEnd::TooLong);
        }
        if bytes.extend_from_slice(&piece[..count]).is_err() {
            return Err(ReadEnd::NoMemory);
        }
    }
}

// Returns a new buffer of `size` zeros. The clauses promise only the size. The only error is `NoMemory`.
fn zeros(alloc: Global, size: usize) -> Result<Vec<u8>, ReadEnd>
    ensures size { IfOk result (λ zeros. vec_len zeros ≡ size) }
    ensures cause { IfErr result (λ end. end ≡ ReadEnd.NoMemory) }
{
    let mut zeros = Vec::new(alloc);
    if zeros.resize(size, 0).is_err() {
        return Err(ReadEnd::NoMemory);
    }
    Ok(zeros)
}

/// Writes all of `bytes` to `sink`, in order. `WriteFault` means that the sink failed, after it took a front of the bytes,
/// perhaps none, but not all. Takes no memory.
pub fn write_all<K: Sink>(sink: &mut K, bytes: &[u8]) -> Result<(), WriteEnd>
    ensures ok { OnOk result (Appends (K.taken sink.old) (K.taken sink.new) bytes.now) }
    ensures err { OnErr result (AppendsFront (K.taken sink.old) (K.taken sink.new) bytes.now) }
    ensures later { K.faults sink.old ≤ K.faults sink.new }
    ensures fault { OnErr result (Rose (K.faults sink.old) (K.faults sink.new)) }
{
    let mut done = 0;
    while done < bytes.len() {
        let Ok(count) = sink.write(&bytes[done..]) else {
            return Err(WriteEnd::WriteFault);
        };
        done += count;
    }
    Ok(())
}
