//! A cache on the heap that all mutators share: a load of reads, writes and scans that checks itself.
//!
//! The index has a weak pointer for each key, from which its value is read. Rings hold the values strongly, a bounded number of
//! them: a new value takes the place of an old one. A value that no ring holds any more dies with its weak pointer at some cycle. The
//! maker of that weak pointer gets its finaliser, and counts an eviction.
//!
//! Index and rings are arrays in the slots of the shared array. An index field is changed by `cas` alone, and so is the
//! count of a ring, by which each value gets its place there. A key is written by one mutator, its owner, and read by all. The owner has a plain map of its keys' versions, so it has to read the version that it
//! wrote last. Everybody else has to read versions that never go back.
//!
//! Clauses say that its commands fit and that the run may begin, and so the run is lawful (`Collector::run_programs`). That the
//! programs do these operations, count rightly and see a wrong value is only tested.
//!
//! - `sizes`: the numbers of keys and entries, and the place of a key. `stamp`: a key and its version as one number.
//! - `load`: the operations, by a seed. `known`: the plain map, and the checks.
//! - `tables`: the arrays, made by mutator 0, and found by all other mutators. `cache`: the decider.
//! - `turns`: the turns of values at rings, and a check of their sums.
//! - `run`: the whole run, and its counts. `text`: its lines. `top`: the program.
//!
//! Easy to get wrong: a register holds a value too. The last value that a mutator read or made lives until the register is
//! overwritten, so a decider clears both registers before its last cycle.
#![tactic(auto)]

pub mod cache;
pub mod known;
pub mod load;
pub mod run;
pub mod sizes;
pub mod stamp;
pub mod tables;
mod text;
pub mod top;
pub mod turns;

pub use cache::{Cache, Tally};
pub use known::Known;
pub use load::{Load, Operation};
pub use run::{Totals, totals_of};
pub use sizes::Sizes;
pub use stamp::Stamp;
pub use top::program;
pub use turns::Turns;
