//! Two loads that other runtimes have too: lists that are replaced, and a table that all mutators share.
//!
//! `examples/beside` has the same loads in Go, OCaml and Haskell. In the first, each mutator keeps lists of 1,024 cells, replaces
//! each list twice, and reads those that are left. In the second, all mutators read and write one table of 64,000 fields. The
//! program compares the sum of the numbers that it read, or each entry that it read, with the right one.
//!
//! Clauses say that their commands fit, that the run may begin, and that it is a run of programs with such deciders, whatever
//! their tasks (`run`). That they are the deciders of the task, do its work, count rightly and see a wrong value is only tested.
//!
//! - `arrays`: arrays in registers, as one long array. `lists`, `table`: the two deciders.
//! - `load`: the decider of either load, its counts, and those that are right.
//! - `run`: the whole run. `text`: its lines. `top`: the program.
//!
//! Easy to get wrong: the table takes far more segments than its entries. An entry that was replaced lies in its segment until a
//! cycle that began afterwards has swept it.
#![tactic(auto)]

mod arrays;
pub mod lists;
pub mod load;
pub mod run;
pub mod table;
mod text;
pub mod top;

pub use lists::Lists;
pub use load::{Counts, Kind, Load, Task};
pub use table::Table;
pub use top::program;
