//! Prompts and help, for a person at a terminal.
//!
//! They go to a sink of their own, so the output stays the session's text. If that sink fails, the session goes on.
use crate::options::Options;
use nmgc_io::{Sink, write_all};

/// Writes a prompt, if a person is at a terminal.
pub fn prompt<E: Sink>(prompts: &mut E, options: Options) {
    if options.has_prompts {
        let _ = write_all(prompts, b"> ");
    }
}

/// Writes the lines that a session understands.
pub fn help<E: Sink>(prompts: &mut E) {
    let _ = write_all(prompts, HELP);
}

// The lines that a session understands.
const HELP: &[u8] =
    b"First the head, as in a script: nmgc 3, then heap SEGMENTS WORDS NURSERY SLICE QUOTA TRIGGER,
thread 0, thread 1 and so on, and then begin. For example: heap 64 64 64 8 16 1
Then any of:
  M COMMAND    mutator M gets a command, such as: 0 num r1 7
  round        the mutators do their commands, and their replies come
  end          the session ends; so does the end of the input
Commands: docs/FORMATS.md#commands
";
