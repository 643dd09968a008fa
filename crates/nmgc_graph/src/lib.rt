//! The reference heap as code: a heap that is never collected. Its state is a world, which commands change.
//!
//! Every reply of the collector is judged by this model, which has no heap words, no blocks and no marks. A world is a map
//! from names to nodes that only grows, with the registers and the finaliser queue of each mutator. `nmgc_world_spec` has its
//! types and its specification. The marking machine, the checker of traces and the tests use this crate; no run uses it.
//!
//! `Marks` is a set of names. This crate exports lists and `NoMemory` of `nmgc_lists` again, and limits of `nmgc_limits`.
#![tactic(auto)]

pub mod change;
mod closing;
pub mod marks;
pub mod opened;
mod reach;
mod readers;
mod reply;
mod search;
mod validity;
mod waiting;
pub mod world;

pub use marks::Marks;
pub use nmgc_limits::{MAKERS, REGISTERS, SHARED_MAKER, SHARED_SLOTS};
pub use nmgc_lists::{List, ListMemory, NoMemory, Queue, Room, VecList};
pub use nmgc_world_spec::{
    Change, Command, Kind, MutatorState, Name, Node, Operand, Parts, Reply, Value,
};
pub use world::World;
