//! Several markers on a stopped heap.
//!
//! Nothing writes to a heap at a stop, so several threads can mark its objects at once. Each marker claims objects by a
//! compare-exchange on a table of this crate, a word for each block, and scans the objects that it claimed. No marker waits
//! for another: if its claim on an object is refused, the marker that has the object scans it. So all lists together are
//! exactly the objects except g that strong fields reach from the roots and the slots of g, each once, whatever the schedule.
//!
//! - `bounds`, `view`, `plays`: the table's size, the knowledge of a seat, and the table's rule, with four kinds of step.
//! - `table`, `claim`: the table, and claims on it.
//! - `still`: words that nothing writes, for threads that read them.
//! - `marker`, `crew`: one marker, and all of them side by side.
//! - `claims`, `merge`, `order`: the call that marks a heap, and all names as one list, in order.
//! - `laws`: the heap at a stop of a run can be marked like this, and the one marker of a cycle (`nmgc_mark`) marks the same.
//!
//! Easy to get wrong: a marker that found a block claimed knows only that some marker has it. Only once the seats of all
//! markers are joined is it known that the block's object was scanned.
#![tactic(auto)]

pub mod bounds;
mod claim;
pub mod claims;
pub mod crew;
pub mod laws;
pub mod marker;
pub mod merge;
mod order;
mod plays;
pub mod still;
pub mod table;
pub mod view;

pub use bounds::Bounds;
pub use claims::{Claims, mark_all};
pub use crew::MOST_MARKERS;
pub use merge::names_of;
pub use still::StillWords;
pub use table::{ClaimSeat, ClaimTable};
