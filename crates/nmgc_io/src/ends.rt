//! How a call of a source or a sink, or a whole transfer, may end.
//!
//! A source or a sink has one fault, `Failed`. The collector's program does the same for every cause of it, so the cause
//! isn't passed up. Lack of memory isn't a fault of the source: `read_all` reports it as another end.
use thiserror::Error;

/// The one fault of a source or a sink.
#[derive(Clone, Copy, Debug, PartialEq, Eq)]
pub struct Failed;

/// Why `read_all` didn't read to the end.
#[derive(Clone, Copy, Debug, PartialEq, Eq, Error)]
pub enum ReadEnd {
    /// The source failed, and its count of faults rose.
    #[error("the source failed")]
    ReadFault,
    /// There are more bytes than the limit allows.
    #[error("there are too many bytes")]
    TooLong,
    /// There was no memory for the bytes.
    #[error("no memory")]
    NoMemory,
}

/// Why `write_all` didn't write all bytes.
#[derive(Clone, Copy, Debug, PartialEq, Eq, Error)]
pub enum WriteEnd {
    /// The sink failed, and its count of faults rose.
    #[error("the sink failed")]
    WriteFault,
}
