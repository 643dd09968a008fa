//! The judge of traces of format 3, line by line.
//!
//! - `names`: the objects of names. `tokens`: the meaning of a token. `line`: the event of a line.
//! - `checker`: the state of a trace as its lines come. `report`: the result for a trace. `counts`: the counts of its lines.
//! - `unknown`: the name that a refusal is about, if the heap doesn't have it.
//!
//! A refused line is the first that can't happen, and the lines before it can (`specs/FieldTraces`). In a whole trace each cycle
//! is exact (`specs/FieldWhole`).
#![tactic(auto)]

pub mod checker;
pub mod counts;
mod line;
pub mod names;
pub mod report;
mod tokens;
mod unknown;

pub use checker::FieldChecker;
pub use counts::FieldCounts;
pub use names::FieldNames;
pub use report::{FieldAnswer, FieldRefusal, FieldReport};
