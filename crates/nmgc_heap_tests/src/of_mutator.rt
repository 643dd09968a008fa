//! Tests of nmgc_mutator.
mod laws;
mod marking_tests;
mod sending_tests;
mod tests;
