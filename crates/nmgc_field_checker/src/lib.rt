//! A checker of the barrier of a runtime whose registers aren't known: which steps of the runtime the rule for fields allows,
//! and why it refuses other steps.
//!
//! The heap is objects with fields, and roots are known as they are read (`nmgc_barrier_laws`, `specs/FieldCycle`). Due names
//! depend on the fields, on the mutator that stores, and on whether its roots were read. Objects have numbers, in the order in
//! which they were made; the caller knows them by names of its own.
//!
//! - `event`: the events, and the reasons. `watch`: the state of a runtime, event by event, over any number of cycles.
//! - `cycle`: one cycle. `accounts`: its debts. `stores`: the objects that it stored. `fields`: the objects that a line stores and removes.
//! - `result`: the result of a cycle, compared with the objects that the runtime marked or freed.
//! - `heap`: objects and their fields. `object_set`: objects, each once. `search`: the objects that others lead to.
//! - `numbers`: the mutators that are there, or are still to be scanned. `laws`: the theorems of the watch.
#![tactic(auto)]

mod accounts;
pub mod cycle;
pub mod event;
mod fields;
pub mod heap;
pub mod laws;
mod numbers;
mod object_set;
pub mod result;
mod search;
mod stores;
pub mod watch;

pub use event::{Actor, FieldDebt, FieldEvent, FieldStore, FieldWhy};
pub use watch::FieldWatch;
