//! The program `nmgc`: it hands its command line and standard streams to `nmgc_cli::program`, or to a live session.
//!
//! It decides only between the two, by the arguments. One trusted assumption: the adapters describe command line, standard
//! streams and their bytes correctly.
#![tactic(auto)]

use nmgc_arguments::arguments_of;
use nmgc_cli::{Arguments, Status, program};
use nmgc_io::{StdSink, StdSource, WriteSink};
use nmgc_live::{Options, live, options_of};
use std::process::ExitCode;

// Returns the form of the session that the command line asks for, or `None` if it asks for none. Returns the status
// `NoMemory` if there is no memory for the arguments.
fn session_asked(rt: &HostRuntime) -> Result<Option<Options>, Status> {
    let line = Arguments::new(rt);
    match arguments_of(rt.alloc(), &line) {
        Ok(arguments) => Ok(options_of(&arguments)),
        Err(_) => Err(Status::NoMemory),
    }
}

fn main(rt: HostRuntime) -> ExitCode {
    let mut source = StdSource::new(rt.stdin());
    let mut sink = StdSink::new(rt.stdout());
    let asked = match session_asked(&rt) {
        Ok(asked) => asked,
        Err(status) => return ExitCode::from(status.number()),
    };
    if let Some(options) = asked {
        let mut prompts = WriteSink::new(rt.stderr());
        let status = live(
            rt.alloc(),
            &rt,
            options,
            &mut source,
            &mut sink,
            &mut prompts,
        );
        return ExitCode::from(status.number());
    }
    let line = Arguments::new(&rt);
    ExitCode::from(program(rt.alloc(), &rt, &line, &mut source, &mut sink))
}
