//! The program `nmgc_loads`: it passes its command line and standard output to `nmgc_loads::program`.
//!
//! Nothing is decided here. It is trusted that the command line and standard output are as their adapters assume.
#![tactic(auto)]

use nmgc_arguments::Arguments;
use nmgc_io::StdSink;
use nmgc_loads::program;
use std::process::ExitCode;

fn main(rt: HostRuntime) -> ExitCode {
    let mut sink = StdSink::new(rt.stdout());
    let line = Arguments::new(&rt);
    ExitCode::from(program(rt.alloc(), &rt, &rt.stderr(), &line, &mut sink))
}
