//! Tests of live sessions over memory, and of observers of runs.
#![tactic(auto)]

#[cfg(test)]
mod of_live;
