//! The program `nmgc_trace`: it hands its command line, its files and its standard streams to `nmgc_trace_checker::nmgc_trace`.
//!
//! Each argument names a file with a trace. `-` is standard input, and so is `--live`, for a runtime that writes its trace into
//! a pipe while it runs. `docs/GUIDE.md` has the forms, and explains how a runtime can write a trace. `docs/FORMATS.md` has the
//! output and the statuses. The tests of `nmgc_trace_checker` are here too, since no other crate uses it.
//!
//! Nothing is decided here. It is trusted that the command line, files and standard streams are as their adapters assume.
#![tactic(auto)]

ghost use Rattle.std.specs.Prelude.{None};

use nmgc_io::{StdSink, WriteSink};
use nmgc_trace_checker::{Arguments, TraceFault, Traces, is_live, nmgc_trace};
use std::fs::File;
use std::io::{BufReader, ErrorKind, Read, Stdin};
use std::process::ExitCode;
use std::{env, fs, io};

// The file of a trace, or standard input.
#[derive(Drop)]
enum Input {
    Named(File),
    Standard(Stdin),
}

impl Read for Input {
    fn read(&mut self, buf: &mut [u8]) -> io::Result<usize> {
        match self {
            Input::Named(file) => file.read(buf),
            Input::Standard(input) => input.read(buf),
        }
    }
}

// The files of the system, and standard input. Contracts know no bytes of them.
#[derive(Drop)]
struct SystemTraces<'a> {
    rt: &'a HostRuntime,
}

impl<'a> Traces for SystemTraces<'a> {
    type Reader = BufReader<Input>;

    ghost bytes = { λ _ _. None };

    fn open(&self, name: &str) -> Result<BufReader<Input>, TraceFault> {
        let input = if name == "-" || is_live(name) {
            Input::Standard(self.rt.stdin())
        } else {
            Input::Named(fs::open(self.rt, name)?)
        };
        Ok(BufReader::new(self.rt.alloc(), input)?)
    }
}

// Returns the arguments of this process after the program's name, or why there are none.
fn arguments(rt: &HostRuntime) -> Arguments {
    match env::args(rt) {
        Ok(words) => match words.skip(1).collect(rt.alloc()) {
            Ok(words) => Arguments::Given(words),
            Err(_) => Arguments::NoMemory,
        },
        Err(error) => match error.kind() {
            ErrorKind::OutOfMemory => Arguments::NoMemory,
            _ => Arguments::NotText,
        },
    }
}

fn main(rt: HostRuntime) -> ExitCode {
    let mut output = StdSink::new(rt.stdout());
    let mut errors = WriteSink::new(rt.stderr());
    let traces = SystemTraces { rt: &rt };
    let words = arguments(&rt);
    let status = nmgc_trace(rt.alloc(), &words, &traces, &mut output, &mut errors);
    ExitCode::from(status.exit_code())
}

#[cfg(test)]
mod tests;
