//! The meaning of a trace of a runtime's barrier, and the verdict on it.
//!
//! - Format 1: `line` is the meaning of a line, `progress` the state of a trace, `verdict` the result. The marking machine
//!   (`nmgc_core`) does the lines one by one, marker included.
//! - Format 2: `meaning` is the meaning of a line, and `report` the result for a trace. `checker` finds it line by line, with
//!   `counts` of the lines. `borrowing`: lines with values that no register holds, and `immediates`: commands with numbers or nil as operands. The barrier is watched (`nmgc_barrier_checker`). `sentence` spells the reason of a refusal.
//! - Format 3: `nmgc_field_reader` judges its lines, and `field_sentence` spells its reports.
//! - `reading`: a trace of any format, read line by line.
//! - `program`: all arguments, the output and the `status`; only files, streams and the command line are left to the program.
//!
//! The judge of each format is proved over lists of lines: a refused line is the first that can't happen, and the lines
//! before it can. `tokens` and `commands` read a line's tokens, and each line is read as it is spelled (`specs/Said.antt`;
//! `docs/GUIDE.md` has the forms). If a reader shows contracts its bytes, the judged lines are the lines of its text.
#![tactic(auto)]

mod borrowing;
mod checker;
mod commands;
mod counts;
mod field_sentence;
mod immediates;
mod line;
mod meaning;
mod program;
mod progress;
mod reading;
mod report;
mod sentence;
mod status;
mod tokens;
mod verdict;

pub use checker::Answer;
pub use counts::Counts;
pub use line::{Line, line_of};
pub use meaning::{Meaning, meaning_of};
pub use program::{Arguments, Traces, is_live, nmgc_trace};
pub use reading::{Outcome, TraceFault, outcome_of};
pub use report::{Refusal, Report};
pub use status::Status;
pub use verdict::Verdict;
