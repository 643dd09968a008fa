//! Laws that hold for every run, about the definitions of `nmgc_run_spec` and not about any code.
//!
//! `specs/` has the statements: `Sound`, the invariant of every state; `Course`, on the cycle in progress; `Limits`,
//! `Places`, `Headers` and `Statements`. `laws` has them as functions, and `specs/laws` the lemmas. Nothing here runs.
#![tactic(auto)]

pub mod laws;
