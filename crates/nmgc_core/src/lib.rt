//! Marking from a snapshot, event by event: the marking machine as code.
//!
//! `nmgc_snapshot_laws` defines the machine, and proves the snapshot theorem for every run of it, whatever does the events.
//! Here one thread runs it over the reference heap, for the checker of format 1 and the tests, not for the collector.
//! `Core::step` does an event exactly if it can happen. `Core::run` does a list of events, with the theorem as its clause.
#![tactic(auto)]

mod answers;
mod closing;
pub mod core_machine;
mod lists;
mod owed;
mod roots;
mod scan;

pub use core_machine::Core;
pub use nmgc_snapshot_laws::{Entry, Event};
