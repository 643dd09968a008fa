//! The program `nmgc` as a library: the top call, over any command line, source and sink.
//!
//! `nmgc` does the task that the arguments ask for, or reports why it can't. For example, it reads a script, runs it and
//! writes the report's text. Its contract is the theorem of the repository: the bytes read, the replies, the bytes written,
//! and the cause of each refusal. `program` takes the arguments from a command line, calls `nmgc`, and returns the number of
//! the status. Runs are the collector's (`nmgc_cycle`).
//!
//! - `task`: the tasks that the arguments of the command line ask for.
//! - `top`: the top call. `answer`, `output`, `message`: the answer, and its output.
//! - `run`, `bench`, `upgrading`, `imaging`, `retaining`, `marks`: one subcommand each.
//! - `laws`: the consequences of an answer that was written.
//! - `status`, `entry`: statuses with their numbers, and the whole program except for its streams.
#![tactic(auto)]

pub mod answer;
mod bench;
pub mod entry;
mod imaging;
pub mod laws;
pub mod marks;
mod message;
pub mod output;
mod retaining;
pub mod run;
pub mod status;
pub mod task;
pub mod top;
mod upgrading;

pub use entry::program;
pub use message::cause_text;
pub use nmgc_arguments::{Arguments, CommandLine, arguments_of};
pub use status::{Ended, Status};
pub use task::{Task, task_of};
pub use top::nmgc;
