//! Tests of whole runs, of the images of their heaps, and of the paths that keep objects in them.
#![tactic(auto)]

#[cfg(test)]
mod of_cli;
#[cfg(test)]
mod of_cycle;
#[cfg(test)]
mod of_gates;
#[cfg(test)]
mod of_programs;
#[cfg(test)]
mod of_retain;
#[cfg(test)]
mod of_sessions;
#[cfg(test)]
mod worked;
