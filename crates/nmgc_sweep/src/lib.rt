//! The sweeper: after a cycle is closed, it frees the blocks that the cycle doesn't keep.
//!
//! When a cycle begins, the filled segments wait to be swept. After the closing, the sweeper sweeps the waiting segments of
//! least number, a quota at a time, in two halves, beside the mutators or at a stop (`sweeper`). Just before, it lists the
//! names in these segments and the names of the blocks that the sweep frees (`listing`). The sweeper reads the names from an
//! array with the name of each object in a segment, by address (`name_table`). In a round the words belong to the mutators,
//! and reading all names at a stop takes time that grows with the heap. The array is written when objects move into segments,
//! so a sweep beside the mutators needs no stop that reads all names. The lists are put in order after the run, so no mutator
//! waits for that.
//!
//! The promise is the cycle's census. `had` lists the names in the segments that were filled when the cycle began, and
//! `freed` the names among them that the cycle doesn't keep. The promise is stated for the cycle and the allocation state
//! (`specs/Work.antt`). `laws` leads from the cycle's beginning to its end, and by `specs/laws` the array has the names.
//!
//! Easy to get wrong: a waiting segment isn't full if it was retired before a full cycle, so each block is read. And a block
//! is kept only if it has this cycle's mark, not an earlier one: Note [Why two epochs are enough] in `nmgc_segment`.
#![tactic(auto)]

pub mod laws;
mod listing;
pub mod name_table;
pub mod sweeper;

pub use name_table::NameTable;
pub use sweeper::{Census, SweepWork, Sweeper};
