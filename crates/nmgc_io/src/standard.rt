//! Streams of the standard library as a source and a sink, standard input and output among them.
//!
//! `ReadSource` and `WriteSink` are generic over std's `Read` and `Write`, and pass on exactly the stream's bytes. Contracts
//! see the bytes that a stream has left or holds, if it knows them: a stream in memory does, a pipe or a terminal doesn't. So
//! properties of bytes are proved for streams that know them, and the same code runs over standard input and output. While
//! bytes are left, a fault is never reported as the end, and a short write is never reported as a whole one. It is trusted
//! that the real streams keep the contracts of `Read` and `Write`. Easy to get wrong: a write that takes nothing is no error
//! to the system, but a loop over it would never end. Here it counts as a fault.
ghost use Rattle.std.specs.{Prelude.◌≡◌, Prelude.◌<◌, Prelude.◌≤◌, Prelude.length, Prelude.IfOk, Io.ReadsAtMost, Io.KnownBytes.ReadConsumes, Io.KnownBytes.WriteAppends};
ghost use Rattle.nmgc_io.specs.Streams.{HasCause, CountsErr};

use crate::{Failed, Sink, Source};
use std::io::{Read, Stdin, Stdout, Write};
use std::marker::Model;

/// A stream that is read as a source. Contracts see the stream and the number of its failures.
#[derive(Drop)]
pub struct ReadSource<R> {
    stream: R,
    faults: u64,
}

/// Standard input as a source.
pub type StdSource = ReadSource<Stdin>;

impl<R> Model for ReadSource<R> {
    ghost use Rattle.nmgc_io.specs.Streams.{Counted};

    ghost Value = { Counted R };

    ghost view = { λ s. record { stream = s.stream; faults = s.faults } };
}

impl<R> ReadSource<R> {
    /// Makes a source that reads from `stream`, with no failure counted. The source gives the stream's bytes, and reports the
    /// end only if none are left. So a fault never looks like the end. Failed reads are counted. Takes no memory.
    pub fn new(stream: R) -> Self
        ensures { result ≡ record { stream = stream; faults = 0 } }
    {
        ReadSource { stream, faults: 0 }
    }
}

impl<R: Read> Source for ReadSource<R> {
    ghost left = { λ s. R.remaining s.stream };

    ghost faults = { λ s. s.faults };

    fn read(&mut self, buf: &mut [u8]) -> Result<usize, Failed>
        requires { 0 < length buf.old }
        ensures bound { ReadsAtMost result buf.new }
        ensures bytes { ReadConsumes (R.remaining self.old.stream) (R.remaining self.new.stream) result buf.new }
        ensures cause { HasCause self.old.faults self.new.faults result }
        ensures faults { CountsErr self.old.faults self.new.faults result }
    {
        let Ok(count) = self.stream.read(buf) else {
            self.faults = self.faults.saturating_add(1);
            return Err(Failed);
        };
        Ok(count)
    }
}

/// A stream that is written as a sink. Contracts see the stream and the number of its failures.
#[derive(Drop)]
pub struct WriteSink<W> {
    stream: W,
    faults: u64,
}

/// Standard output as a sink.
pub type StdSink = WriteSink<Stdout>;

impl<W> Model for WriteSink<W> {
    ghost use Rattle.nmgc_io.specs.Streams.{Counted};

    ghost Value = { Counted W };

    ghost view = { λ s. record { stream = s.stream; faults = s.faults } };
}

impl<W> WriteSink<W> {
    /// Makes a sink that writes to `stream`, with no failure counted. The sink passes bytes on to the stream, and reports a
    /// short write as short. A write that takes nothing is a failure. Each failure is counted. Takes no memory.
    pub fn new(stream: W) -> Self
        ensures { result ≡ record { stream = stream; faults = 0 } }
    {
        WriteSink { stream, faults: 0 }
    }
}

impl<W: Write> Sink for WriteSink<W> {
    ghost taken = { λ s. W.contents s.stream };

    ghost faults = { λ s. s.faults };

    fn write(&mut self, piece: &[u8]) -> Result<usize, Failed>
        requires { 0 < length piece.now }
        ensures some { IfOk result (λ n. 0 < n) }
        ensures bound { IfOk result (λ n. n ≤ length piece.now) }
        ensures bytes { WriteAppends (W.contents self.old.stream) (W.contents self.new.stream) result piece.now }
        ensures cause { HasCause self.old.faults self.new.faults result }
        ensures faults { CountsErr self.old.faults self.new.faults result }
    {
        match self.stream.write(piece) {
            Ok(count) if count > 0 => Ok(count),
            _ => {
                self.faults = self.faults.saturating_add(1);
                Err(Failed)
            }
        }
    }
}
