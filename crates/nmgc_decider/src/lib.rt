//! Programs by deciders: a program is written as one function from a reply to the next command.
//!
//! A `Decider` looks at a reply and decides on the next command. `Decided` makes a program of it: it keeps the waiting command,
//! and counts the commands that are left. So a decider has no law to prove and no command to store.
//!
//! - `decider`: the trait `Decider`, and `Decided`, the program of a decider.
//! - `frames`: slots of an array, for programs with more live references than registers.
//! - `objects`: typed views of constructors.
//! - `figures`: a line with the figures of a run, for its end.
//! - `heap`: the sizes of a heap with a given number of segments.
//! - `progress`: a gate that prints a line on the way.
//! - `random`: a stream of numbers that a seed determines.
//! - `shares`: a mutator's part of a count.
//!
//! Easy to get wrong: a decider counts no commands itself. At its last command `Decided` ends, even if the decider would go on.
#![tactic(auto)]

pub mod decider;
pub mod figures;
pub mod frames;
pub mod heap;
pub mod objects;
pub mod progress;
pub mod random;
pub mod shares;

pub use decider::{Decided, Decider};
pub use frames::Frame;
pub use heap::heap_of;
pub use nmgc_cycle::MOST_COMMANDS;
pub use objects::{Obj, Shape};
pub use progress::Progress;
pub use random::Random;
pub use shares::share;
