//! Why marking loses nothing with a barrier that remembers less than the barrier of the marking machine.
//!
//! A barrier may leave out all names that the snapshot doesn't need. The names that it has to remember are due (`specs/Due`).
//! They depend on the snapshot, the world and the command alone, so a barrier can be watched without any marker
//! (`specs/Cycle`, with `debt`s). The theorems are in `laws`: a marker with such a barrier is exact (`specs/Lax`), and so is
//! every marker beside a watched barrier (`specs/Barrier`). If a runtime reads each mutator's registers later, at a scan of
//! its own, the names that a mutator stores before its scan (`specs/Stored`) are due too (`specs/Hybrid`).
//!
//! Easy to get wrong: a mark doesn't pay a debt. A trace doesn't say when the real marker read what, and a barrier that
//! relies on marks loses objects under another schedule.
#![tactic(auto)]

pub mod debt;
pub mod laws;

pub use debt::Debt;
