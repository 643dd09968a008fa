//! Commands as they lie in a program: 16 bytes each. `operands` has the operands of one command, `packed` the command.
//! `makers` has a function for each command, such as `PackedCommand::get(R2, R1, 0)`, by the types of `registers`.
//!
//! A script is the largest part of a run's memory, and its programs are read once, from front to back. So the number of bytes
//! of a command matters. A `nmgc_world_spec::Command` takes twenty-four, since its list of operands takes sixteen. Here a few
//! operands lie in the command itself, and longer lists in memory of their own. Contracts see a packed command as the command
//! that it represents, and a program as a list of commands: their meaning is in `nmgc_world_spec` alone. `Command` is for
//! definitions, and for code with one command at a time: the reference heap, the marking machine, the checker.
#![tactic(auto)]

pub mod makers;
pub mod operands;
pub mod packed;
pub mod registers;

pub use operands::{FEW_OPERANDS, FixedOperands, ManyOperands, Operands};
pub use packed::{Form, PackedCommand};
pub use registers::{Number, Register};
