//! Growing lists with one error for lack of memory: `NoMemory`.
//!
//! These are the small types that all crates share. `List`, `VecList` and `Queue` are lists to contracts. A `Room` has items
//! and room for more, so that adding an item in a round can't fail. `specs/laws` is the one home of lemmas on lists, options
//! and truths that several crates need.
#![tactic(auto)]

mod cells;
mod fixed_vec;
pub mod list;
pub mod memory;
pub mod queue;
pub mod room;
pub mod vec_list;

pub use list::{List, ListMemory};
pub use memory::NoMemory;
pub use queue::Queue;
pub use room::Room;
pub use vec_list::VecList;
