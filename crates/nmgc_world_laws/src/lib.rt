//! The laws of the reference heap: what commands and closings may change, and which names can be reached after them.
//!
//! The laws are about worlds and histories, not heap words. Nothing here runs. `specs/` defines held names, the shape of a
//! node and the limits of a script. `laws` has the laws, and `specs/laws` their lemmas, which other crates' lemmas cite: a
//! lemma can't call a function. The laws need `nmgc_world_spec` and no other crate about worlds. So each of those crates
//! cites the same copy.
//!
//! The argument that matters most is in `specs/Reachable.antt`: why nothing reachable is freed.
#![tactic(auto)]

pub mod laws;
