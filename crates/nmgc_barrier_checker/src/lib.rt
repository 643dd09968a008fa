//! A checker of a runtime's barrier: which steps of the runtime the lax rule allows, and why it refuses other steps.
//!
//! A collector that marks from a snapshot while mutators run loses nothing if its barrier remembers the names that are due
//! (`nmgc_barrier_laws`). These are the targets of the snapshot's fields that commands remove, the values read out of weak
//! pointers, and the names that a finalised weak pointer kept. The snapshot, the heap and the commands alone decide that. So
//! a runtime's barrier is checked without its marker, by the steps of the mutators and the remembered names.
//!
//! - `event`: the events, and the reasons. `watch`: the state of a runtime, event by event, over any number of cycles.
//! - `cycle`: one cycle. `closing`: its end. `cycle_result`: its result, compared with the names that the runtime marked or
//!   freed. `sorted_names`: names that are found by a binary search. `hand`: values that go past all objects.
//! - `accounts`: the debts of each mutator. `name_set`: names, each once. `rows`: several commands in one line, such as copies and fills.
//! - `due`: the names that a command makes due (`nmgc_graph::opened` has opened and finalised names).
//! - `laws`: each event can happen or has a reason against it, never both; and a cycle that closes without debts is exact.
//!
//! `specs/Watching` defines the possible events, and `Watch::step` takes exactly these. `nmgc_trace_checker` uses this crate.
#![tactic(auto)]

mod accounts;
mod closing;
pub mod cycle;
pub mod cycle_result;
pub mod due;
pub mod event;
pub mod hand;
pub mod laws;
mod name_set;
pub mod rows;
pub mod sorted_names;
pub mod watch;

pub use cycle::Cycle;
pub use cycle_result::CycleResult;
pub use due::Field;
pub use event::{Event, Why};
pub use hand::Hand;
pub use rows::{Copying, Filling, Task};
pub use sorted_names::SortedNames;
pub use watch::{Running, Watch};
