//! Streams and outputs that fail, over traces and sinks in memory. The stored run and `examples/rows` test the output.
ghost use Rattle.std.specs.Prelude.{None};

use nmgc_io::MemorySink;
use nmgc_trace_checker::{Arguments, Status, TraceFault, Traces, nmgc_trace};
use std::alloc::Global;
use std::collections::VecDeque;
use std::io::{self, BufReader, ErrorKind, Read, Write};
use std::test::Fail;

// A stream that ends after its bytes were read, or fails there.
#[derive(Drop)]
struct Stream {
    bytes: VecDeque<u8>,
    fails: bool,
}

impl Read for Stream {
    fn read(&mut self, buf: &mut [u8]) -> io::Result<usize> {
        if self.fails && self.bytes.is_empty() {
            return Err(io::Error::from(ErrorKind::ConnectionReset));
        }
        self.bytes.read(buf)
    }
}

// A trace, the same for each argument. Its stream fails at the end, or ends there.
#[derive(Drop)]
struct Stored {
    alloc: Global,
    text: &'static str,
    fails: bool,
}

impl Traces for Stored {
    type Reader = BufReader<Stream>;

    ghost bytes = { λ _ _. None };

    fn open(&self, _name: &str) -> Result<BufReader<Stream>, TraceFault> {
        let mut bytes = VecDeque::new(self.alloc);
        bytes.write_all(self.text.as_bytes())?;
        let stream = Stream {
            bytes,
            fails: self.fails,
        };
        Ok(BufReader::new(self.alloc, stream)?)
    }
}

// Returns a sink that takes all bytes, up to 4,096 and three a call, except for the calls with these numbers.
fn sink(alloc: Global, failing: &[u64]) -> Result<MemorySink, Fail> {
    Ok(MemorySink::new(alloc, 3, Vec::from_slice(alloc, failing)?, 4096)?)
}

// Returns the status of the program with the argument `--live`, and the bytes of its output and of standard error.
fn run(traces: &Stored, failing: &[u64]) -> Result<(Status, MemorySink, MemorySink), Fail> {
    let alloc = traces.alloc;
    let mut words = Vec::new(alloc);
    words.push(String::from_str(alloc, "--live")?)?;
    let mut output = sink(alloc, failing)?;
    let mut errors = sink(alloc, &[])?;
    let status = nmgc_trace(
        alloc,
        &Arguments::Given(words),
        traces,
        &mut output,
        &mut errors,
    );
    Ok((status, output, errors))
}

// A fault is never reported as the end: after a whole line, within a line, before all lines, or after a whole trace.
#[test]
fn a_fault_is_no_end(rt: HostRuntime) -> Result<(), Fail> {
    for text in [
        "",
        "mutators 1\n",
        "trace 2\nmutators 1\n0 var r0 g = 0.0\nmark\nclose\nstop",
        "trace 2\nmutators 1\n0 var r0 g = 0.0\nmark\nclose\nstop\n",
        "mutators 1\nmark\nclose",
    ] {
        let traces = Stored {
            alloc: rt.alloc(),
            text,
            fails: true,
        };
        let (status, _, _) = run(&traces, &[])?;
        assert!(rt; status == Status::Unread);
    }
    Ok(())
}

// An output that fails has a front of the text, and only this is reported. Each empty line that happened is answered.
#[test]
fn a_failing_output_is_reported(rt: HostRuntime) -> Result<(), Fail> {
    let traces = Stored {
        alloc: rt.alloc(),
        text: "trace 2\n\nmutators 1\n\n# no answer\nmark\n\nstop\n\n",
        fails: false,
    };
    for (call, front) in [
        (1, b"".as_slice()),
        (2, b"ok\n".as_slice()),
        (4, b"ok\nok\nok\n".as_slice()),
        (5, b"ok\nok\nok\nlin".as_slice()),
    ] {
        let (status, output, errors) = run(&traces, &[call])?;
        assert!(rt; status == Status::Unwritten && output.bytes() == front);
        assert!(rt; errors.bytes() == b"nmgc_trace: can't write\n".as_slice());
    }
    let (status, output, errors) = run(&traces, &[])?;
    assert!(rt; status == Status::Refused && errors.bytes().is_empty());
    assert!(rt; output.bytes() == b"ok\nok\nok\nline 8 can't stand there\n".as_slice());
    Ok(())
}
