//! The specification of the reference heap, which is never collected: values, names, nodes, commands, effects and replies.
//!
//! A world is a map from names to nodes that only grows, with the registers and the finaliser queue of each mutator. All
//! promises about a run use these terms. `specs/` defines the world, its step, its histories, reachability in it, and the
//! names kept after an interval of commands. Code and clauses use the same types. Their functions do little: they count the
//! words that a command makes, check its registers, and read a field of a node. `nmgc_graph` is the world as code.
#![tactic(auto)]

pub mod change;
pub mod command;
pub mod mutator_state;
pub mod node;
mod validity;
pub mod value;

pub use change::Change;
pub use command::{Command, Operand, Reply};
pub use mutator_state::MutatorState;
pub use node::{Kind, Node, Parts};
pub use value::{Name, Value};
