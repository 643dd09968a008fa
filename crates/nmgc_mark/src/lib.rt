//! The marker: it finds and marks the objects reachable from the snapshot's roots, beside running mutators.
//!
//! A cycle begins at a stop: the targets of registers, finaliser queues and slots of g are marked and queued (`marker`). In
//! each round the marker scans objects from the queue's front (`scan`), while the mutators write (`work`). The queue is a
//! stack: objects join it at the front. If a mutator takes a reference out of the marker's sight, the target is remembered,
//! and `Marker::add` marks it at the next stop. At the end, with the mutators stopped, the rest is scanned (`finish`). Only
//! blocks in use at the snapshot are marked, each once.
//!
//! The promise is that marks and queue are always those of the marking machine: in a round by the collector's view, and at a
//! stop by the machine's state (`specs/Tie.antt`). So the snapshot theorem says which objects are marked in the end.
//!
//! Easy to get wrong: a pointer may lead to a new object. No block begins there, so the pointer is passed over. And a thunk's
//! free variables are scanned only if the marker found its result unset.
#![tactic(auto)]

mod finish;
pub mod laws;
pub mod marker;
mod scan;
mod work;

pub use marker::{Marker, MarkerMemory, Work};
