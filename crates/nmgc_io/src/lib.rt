//! Bytes in and out: sources, sinks, numbers as text, and texts cut into parts.
//!
//! The program reads a script or an image from a `Source` and writes its output to a `Sink`. Besides these, only its
//! arguments come from outside. The contracts of these two traits name the bytes that a source has left and that a sink has
//! taken. So the crates above prove 'the bytes read spell this script' and 'the bytes written are this report'. Sources and
//! sinks count their faults, and a fault is reported to a caller only if the count rose. So no layer can report a fault that
//! didn't happen.
//!
//! - `source`, `sink`: the two traits; `ends`: how a call may end.
//! - `memory_source`, `memory_sink`: a source and a sink in memory, which fail at calls of the caller's choice.
//! - `standard`: a source and a sink over any stream of the standard library, such as standard input and output.
//! - `transfer`: `read_all` and `write_all`.
//! - `numbers`: decimal text of numbers, written and read. `cutting`: bytes cut at a separator.
//! - `tokens`: a text cut into lines, and a line into tokens. `spaces`: the spaces of a short line.
//!
//! Every crate that reads or writes scripts, journals or images depends on this crate. This crate needs `nmgc_lists` only for
//! `NoMemory`.
#![tactic(auto)]

mod cutting;
pub mod ends;
pub mod memory_sink;
pub mod memory_source;
pub mod numbers;
pub mod sink;
pub mod source;
mod spaces;
pub mod standard;
mod tokens;
pub mod transfer;

pub use cutting::{cut, cut_within};
pub use ends::{Failed, ReadEnd, WriteEnd};
pub use memory_sink::MemorySink;
pub use memory_source::MemorySource;
pub use numbers::{push_number, read_number};
pub use sink::Sink;
pub use source::Source;
pub use standard::{ReadSource, StdSink, StdSource, WriteSink};
pub use tokens::{cut_tokens, cut_tokens_within, is_blank_or_comment, split_line};
pub use transfer::{read_all, write_all};
