//! Scripts: their data, their spelling, and how they are read and printed.
//!
//! A script gives the sizes of a heap and a program of commands for each mutator. Its text is cut into lines and the lines
//! into tokens. The first line that has a fault is reported by its number and cause. `specs/Spelling.antt` says which bytes
//! spell a script. `specs/Spelling.antt` says which fault a line has and which fault is reported.
//! `a_text_spells_at_most_one_script` has the laws of both. A new command needs a `Verb` in `VERBS` with its `name`, and an
//! arm of `guess_verb`, so that it is found at once. A line in `read_command` (`commands`) reads it, and a line in
//! `push_form` (`printing`) prints it. In `specs/` it needs a line of `command_words` (`Spelling`), of `verb_name` (`Parts`) and
//! of `operands_at` (`Reading`), and in `proofs/` its cases. If old versions lack it, `IsSince` and `has_verb` name it too. The compiler reports a forgotten arm, except in `guess_verb`,
//! and the prover a verb that `VERBS` lacks. The run, the report and the program depend on this crate, and no run begins
//! before `parse` has returned.
#![tactic(auto)]

mod bench;
mod commands;
mod config;
mod fault;
mod line;
mod parsing;
mod printing;
pub mod script;
mod sections;
mod shapes;
mod text;
mod tokens;
mod verbs;
mod version;

pub use bench::{MAX_BATCHES, generate};
pub use fault::{Cause, LineFault, ScriptFault};
pub use line::command_of_line;
pub use parsing::{a_text_spells_at_most_one_script, is_too_long, parse};
pub use printing::print;
pub use script::{Config, Script, upgrade};
