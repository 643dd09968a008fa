//! What the programs `nmgc` and `nmgc_fin` share: the arguments of a command line, and the writing of an output.
//!
//! - `arguments`: `arguments_of` passes on all arguments after the program's name. Their origin is a trait, `CommandLine`:
//!   contracts can't know standard arguments (`Arguments`), but they can know the arguments of a test's command line.
//! - `output`: a text, and `write_output`, which writes it to a sink and returns the status.
//!
//! It depends on `nmgc_io` for the sink, and on `nmgc_lists` only for `NoMemory`.
#![tactic(auto)]

pub mod arguments;
pub mod output;

pub use arguments::{Arguments, CommandLine, arguments_of};
pub use output::{Text, write_output};
