//! Live sessions: a run whose commands come line by line, and whose report is written as it goes.
//!
//! A session drives the collector of `nmgc_cycle` with commands from a source that may never end, such as a pipe or a person.
//! It keeps no row, and no command that was answered. So it takes memory for the heap and for one round, however long it is.
//!
//! - `options`: the forms of a session, and the arguments that ask for them.
//! - `session`: the session. `head`: its head. `lines`: the lines of a source.
//! - `refusal`: why a session is given up. `prompts`: prompts and help for a person.
//! - `writer`: the text of a report, made as its run goes on.
#![tactic(auto)]

mod head;
pub mod lines;
mod options;
mod prompts;
mod refusal;
mod session;
mod writer;

pub use options::{Options, options_of};
pub use session::live;
pub use writer::{ReportText, ReportWriter};
