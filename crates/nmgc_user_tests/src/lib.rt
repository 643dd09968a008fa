//! Tests of programs that decide: of the binary trees, of the cache, of two loads, and of the crate on which both stand.
#![tactic(auto)]

#[cfg(test)]
mod of_cache;
#[cfg(test)]
mod of_decider;
#[cfg(test)]
mod of_loads;
#[cfg(test)]
mod of_parking;
#[cfg(test)]
mod of_trees;
#[cfg(test)]
mod words;
