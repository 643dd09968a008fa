//! The marking machine: marking from a snapshot, event by event, with the theorem that its marks are exact.
//!
//! A cycle of the collector marks all that was reachable when it began, while mutators go on writing. The marking machine is
//! this marking alone: a world, a copy of it from the beginning, the marks, a queue, and the names that the mutators owe. An
//! event is a command of a mutator, a push of an owed name, a position read by the collector, a pushed name taken by the
//! collector, or the end. Events come in any order, and an event that can't happen changes nothing. Threads that do only such
//! events do them in some order, so a law of every list of events is a law of every run of the threads. The queue is scanned
//! oldest first in traces, and newest first by the collector's marker. The laws hold for both.
//!
//! The snapshot theorem (`laws`): until the closing, only names that are live in the snapshot are marked. The closing
//! completes the marks to exactly the live names, and then to exactly the kept names. Until the closing the world is the
//! replay of the commands that happened, so marking disturbs no mutator. `Facts` is the invariant. The machine as code is in
//! `nmgc_core`, and the head of its `core_machine` explains the argument at length.
#![tactic(auto)]

pub mod event;
pub mod laws;

pub use event::{Entry, Event};
