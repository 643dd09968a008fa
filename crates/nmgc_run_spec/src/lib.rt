//! The definition of a lawful run.
//!
//! The program is judged by these definitions. A run has no threads and no words: a round is one order of its commands, and a
//! cycle is judged by its snapshot. Nothing here runs.
//!
//! `specs/`, from the bottom up:
//! - `Run`: a run and its report: states, a mutator's part of a round, rounds, the closing of a cycle, and stops.
//!   `nmgc_stop_spec` below defines which objects are promoted and which objects a cycle frees (`Cycle`).
//! - `Lawful`: the heap at the end of a run, the lawful report, which is the subject of the headline theorem, and the cause
//!   of a full heap. The other files have terms for contracts, laws and proofs; no clause of the program reaches them.
//!
//! `nmgc_run_laws` has the laws of every run, and `nmgc_collector_laws` the invariant of a running collector.
//!
//! Easy to get wrong: at a stop, a cycle that is marking may be closed or go on, within bounds. So a run isn't determined by
//! the orders of its rounds. It is data that the proofs pass on (`Run`).
#![tactic(auto)]
