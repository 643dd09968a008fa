//! The program `nmgc_fin`: it passes its command line and standard streams to `nmgc_fin::program`.
//!
//! It reads the report of `nmgc run` and handles a job for each of its dead weak pointers. Nothing is decided here. The tests
//! of the workers are here too, so that only the program's crate depends on a crate that may wait. It is trusted that the
//! command line, standard input and standard output are as their adapters assume.
#![tactic(auto)]

use nmgc_arguments::Arguments;
use nmgc_fin::program;
use nmgc_io::{StdSink, StdSource};
use std::process::ExitCode;

fn main(rt: HostRuntime) -> ExitCode {
    let mut source = StdSource::new(rt.stdin());
    let mut sink = StdSink::new(rt.stdout());
    let line = Arguments::new(&rt);
    ExitCode::from(program(rt.alloc(), &rt, &line, &mut source, &mut sink))
}

#[cfg(test)]
mod tests;
