//! Tests of nmgc_graph. The answers of commands are in `examples/rows/commands.rows`.
mod command_tests;
mod reach_tests;
