//! Binary trees on the heap: the load of the benchmarks game, as programs that decide.
//!
//! A first tree is made, counted and dropped. A second one is kept to the end. Meanwhile many small trees of each even depth are
//! made, counted and dropped. A tree is counted by the replies alone: the walk goes down as long as a child is a name, so it
//! doesn't know the depth. Several mutators share the small trees; mutator 0 alone has the first and the second one.
//!
//! Clauses say that its commands fit and that the run may begin, and so the run is lawful (`Collector::run_programs`). That the
//! programs make these trees, count rightly and see a wrong reply is only tested.
//!
//! - `plan`: the trees of a mutator, by the greatest depth; the counts that are right, and the commands that it takes.
//! - `node`: the nodes, as pairs.
//! - `build`: the commands that make one tree. `walk`: those that count one.
//! - `trees`: the decider, which makes and counts the trees of its plan in turn.
//! - `run`: the whole run, and its counts. `text`: its lines. `top`: the program.
//!
//! Easy to get wrong: the registers are the only stack. A node's depth determines its register, so depths are few.
#![tactic(auto)]

pub mod build;
pub mod node;
pub mod plan;
pub mod run;
mod text;
pub mod top;
pub mod trees;
pub mod walk;

pub use build::Build;
pub use node::Node;
pub use plan::{LEAST_DEPTH, MOST_DEPTH, Plan};
pub use run::{Counts, counted};
pub use top::program;
pub use trees::Trees;
pub use walk::Walk;
