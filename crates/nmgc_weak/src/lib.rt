//! Weak pointers at a stop: their list, their deaths when a cycle closes, and their finalisers.
//!
//! Each weak pointer that is alive and has a block is in a list, with its address, in order of names (`weaks`). The list is
//! stored in a row for each maker (`row`). At each stop new weak pointers join the list, and finalised weak pointers leave
//! it. At a closing, `Weaks::resolve` finds the snapshot's weak pointers that keep their values and finalisers, since their
//! keys are live, and those that die. The finalisers of the dying join their makers' queues (`queues`).
//!
//! The promise is that the closing is the marking machine's (`specs/Resolve.antt`). Exactly the objects that the cycle keeps
//! are marked, the deaths are exactly the dead weak pointers, and words and list represent the closed world. `laws` says this
//! of the queues, and of the list after a round. A crate above ties the closing to a run's (`nmgc_collector_laws`).
//!
//! Only `reserve` takes memory, so a closing can't fail.
#![tactic(auto)]

pub mod laws;
mod queues;
mod resolve;
mod row;
pub mod weaks;

pub use queues::queue_finalisers;
pub use weaks::{Death, OldWeak, Weaks};
