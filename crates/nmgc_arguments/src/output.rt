//! The text of a program's output, and its writing to a sink.
//!
//! An output is complete before its sink is used, so a sink that fails changes only the status. Easy to get wrong: the text
//! that reports a lack of memory may take none. So a constant text is kept apart from a text that was made.
ghost use Rattle.std.specs.Prelude.{◌≡◌};
ghost use Rattle.nmgc_io.specs.Text.{Rose};
ghost use Rattle.nmgc_arguments.specs.Output.{IsWritten, text_bytes};

use nmgc_io::{Sink, write_all};

/// A text that is constant, or that was made. Only a made text takes memory.
#[derive(Drop)]
pub enum Text {
    Fixed(&'static [u8]),
    Made(Vec<u8>),
}

impl Text {
    /// Returns the bytes of the text. Takes no memory.
    pub fn bytes(&self) -> &[u8]
        ensures { result.now ≡ text_bytes self.now }
    {
        match self {
            Text::Fixed(bytes) => bytes,
            Text::Made(bytes) => bytes.as_slice(),
        }
    }
}

/// Writes a text to the sink and returns `status`. If the sink fails, a prefix of the text was written, and the call returns
/// `fault`. Takes no memory.
pub fn write_output<K: Sink, S: Copy>(sink: &mut K, status: S, fault: S, text: &[u8]) -> S
    ensures { IsWritten fault (K.taken sink.old) (K.taken sink.new) (Rose (K.faults sink.old) (K.faults sink.new)) status text.now result }
{
    match write_all(sink, text) {
        Ok(()) => status,
        Err(_) => fault,
    }
}
