//! Live sessions over memory, and observers of runs.
ghost use Rattle.std.specs.Prelude.{IfOk};
ghost use Rattle.nmgc_script.specs.Spelling.{IsInLimits};

use nmgc_cli::Status;
use nmgc_cycle::{Collector, Forgetful};
use nmgc_io::{MemorySink, MemorySource, write_all};
use nmgc_journal::End;
use nmgc_journal::text::{push_end, text};
use nmgc_limits::MAX_SCRIPT_BYTES;
use nmgc_live::{Options, ReportWriter, live};
use nmgc_round::OpenGate;
use nmgc_script::{Script, parse};
use std::alloc::{AllocError, Global};
use std::test::Fail;
use std::thread::Threads;

// A session in which a cell is made, shared, let go of and freed, and its text.
const LINES: &str = "nmgc 3
heap 64 64 64 8 16 1
thread 0
thread 1
begin
0 num r1 7
0 con r0 3 r1 r1
0 set g 0 r0
round
# mutator 1 reads
1 get r2 g 0
1 get r3 r2 0
round
0 set g 0 r1
0 nil r0
1 nil r2
round
0 full
round
end
";

const ANSWERS: &str = "report 1
stop 0 idle free 64 filled 0 sweep 0 promoted 0
ready
round 1
0 ok
0 0.0
0 ok
0 ok
1 ok
stop 1 idle free 63 filled 0 sweep 0 promoted 1
ready
round 2
0 ok
1 0.0
1 7
1 ok
stop 2 idle free 63 filled 0 sweep 0 promoted 0
ready
round 3
0 ok
0 ok
0 ok
1 ok
1 ok
stop 3 idle free 63 filled 0 sweep 0 promoted 0
ready
round 4
0 ok
1 ok
stop 4 idle free 64 filled 0 sweep 0 promoted 0
cycle 1 from 4 closed 4 swept 1 had 1 freed 1 kept 0 dead 0
freed 0.0
ready
round 5
0 ok
1 ok
stop 5 idle free 64 filled 0 sweep 0 promoted 0
end done
";

// Good and bad lines, and the answers of a session that passes over bad lines.
const BAD_LINES: &str = "nmgc 2
nmgc 3
heap 64 64
heap 64 64 64 8 16 1
num r1 5
thread 0
begin
1 num r1 7
0 num r1
help
0 num r1 7
round
0 show r1";

const BAD_ANSWERS: &str = "bad line 1 version
bad line 3 heap
bad line 5 thread
report 1
stop 0 idle free 64 filled 0 sweep 0 promoted 0
ready
bad line 8 thread
bad line 9 arity
bad line 10 thread
round 1
0 ok
0 ok
stop 1 idle free 64 filled 0 sweep 0 promoted 0
ready
bad line 13 line
round 2
0 ok
stop 2 idle free 64 filled 0 sweep 0 promoted 0
end done
";

// A session whose heap is too small to begin: its reserve has more segments than it has.
const FULL_LINES: &str = "nmgc 3\nheap 32 64 64 8 16 0\nthread 0\nthread 1\nbegin\nround\n";

const FULL_ANSWERS: &str = "report 1
stop 0 idle free 32 filled 0 sweep 0 promoted 0
cycle 1 from 0 closed 0 swept 0 had 0 freed 0 kept 0 dead 0
end heapfull free 32 reserve 34
";

// A session at a terminal, and its text.
const TERMINAL_LINES: &str = "nmgc 3\nheap 64 64 64 8 16 1\nthread 0\nbegin\nhelp\nround\nrounds\n";

const TERMINAL_ANSWERS: &str = "report 1
stop 0 idle free 64 filled 0 sweep 0 promoted 0
ready
round 1
0 ok
stop 1 idle free 64 filled 0 sweep 0 promoted 0
ready
bad line 7 thread
round 2
0 ok
stop 2 idle free 64 filled 0 sweep 0 promoted 0
end done
";

// The answers of a session with a long comment in its head and another one behind it.
const LONG_ANSWERS: &str = "bad line 2 line
report 1
stop 0 idle free 64 filled 0 sweep 0 promoted 0
ready
bad line 7 line
round 1
0 ok
stop 1 idle free 64 filled 0 sweep 0 promoted 0
ready
round 2
0 ok
stop 2 idle free 64 filled 0 sweep 0 promoted 0
end done
";

// A script in whose run a cell is made, let go of and freed.
const SCRIPT: &str =
    "nmgc 3\nheap 64 64 64 8 16 1\nthread 0\nnum r1 7\ncon r0 3 r1 r1\nyield\nnil r0\nfull\nthread 1\nyield\n";

// A session's status, and the bytes that its sinks took.
#[derive(Drop)]
struct Session {
    status: Status,
    sink: MemorySink,
    prompts: MemorySink,
}

// Returns a list of failing calls: the number of this call alone.
fn listed(alloc: Global, call: u64) -> Result<Vec<u64>, AllocError> {
    let mut calls = Vec::new(alloc);
    calls.push(call)?;
    Ok(calls)
}

// Returns the script that the text spells. Fails if the text is longer than a script may be.
fn script_of(alloc: Global, text: &str) -> Result<Script, Fail>
    ensures { IfOk result IsInLimits }
{
    if text.len() > MAX_SCRIPT_BYTES {
        return Err("too long".into());
    }
    Ok(parse(alloc, text.as_bytes())?)
}

// Does a session over these lines, read in pieces of 7 bytes. The read numbered `read` and the write numbered `write` fail.
fn session_of<R: Threads + Sync>(
    rt: &R,
    alloc: Global,
    lines: &str,
    passes_over: bool,
    read: u64,
    write: u64,
) -> Result<Session, Fail> {
    let bytes = Vec::from_slice(alloc, lines.as_bytes())?;
    let source = MemorySource::new(bytes, 7, listed(alloc, read)?);
    let options = Options {
        passes_over,
        has_prompts: false,
    };
    session_from(rt, alloc, source, options, write)
}

// Does a session of this form over the lines of a source. The write numbered `write` fails.
fn session_from<R: Threads + Sync>(
    rt: &R,
    alloc: Global,
    source: MemorySource,
    options: Options,
    write: u64,
) -> Result<Session, Fail> {
    let mut source = source;
    let mut sink = MemorySink::new(alloc, 4096, listed(alloc, write)?, 2000)?;
    let mut prompts = MemorySink::new(alloc, 4096, listed(alloc, 0)?, 2000)?;
    let status = live(alloc, rt, options, &mut source, &mut sink, &mut prompts);
    Ok(Session {
        status,
        sink,
        prompts,
    })
}

// Appends a comment of `many` bytes and a line feed.
fn push_comment(lines: &mut Vec<u8>, many: usize) -> Result<(), AllocError> {
    for _byte in 0..many {
        lines.push(b'#')?;
    }
    lines.push(b'\n')?;
    Ok(())
}

#[test]
fn a_session_is_answered(rt: HostRuntime) -> Result<(), Fail> {
    let session = session_of(&rt, rt.alloc(), LINES, false, 0, 0)?;
    assert!(rt; session.status == Status::Done);
    assert!(rt; session.sink.bytes() == ANSWERS.as_bytes());
    Ok(())
}

#[test]
fn bad_lines_are_passed_over(rt: HostRuntime) -> Result<(), Fail> {
    let session = session_of(&rt, rt.alloc(), BAD_LINES, true, 0, 0)?;
    assert!(rt; session.status == Status::Done);
    assert!(rt; session.sink.bytes() == BAD_ANSWERS.as_bytes());
    let session = session_of(&rt, rt.alloc(), BAD_LINES, false, 0, 0)?;
    assert!(rt; session.status == Status::BadScript);
    assert!(rt; session.sink.bytes() == b"bad line 1 version\n".as_slice());
    Ok(())
}

#[test]
fn a_person_is_prompted(rt: HostRuntime) -> Result<(), Fail> {
    let alloc = rt.alloc();
    let bytes = Vec::from_slice(alloc, TERMINAL_LINES.as_bytes())?;
    let source = MemorySource::new(bytes, 4096, listed(alloc, 0)?);
    let options = Options {
        passes_over: true,
        has_prompts: true,
    };
    let session = session_from(&rt, alloc, source, options, 0)?;
    assert!(rt; session.status == Status::Done);
    assert!(rt; session.sink.bytes() == TERMINAL_ANSWERS.as_bytes());
    let prompts = session.prompts.bytes();
    assert!(rt; prompts.starts_with(b"> > > > > First the head"));
    let last = prompts.len().saturating_sub(7);
    assert!(rt; &prompts[last..] == b"\n> > > ".as_slice());
    Ok(())
}

#[test]
fn a_long_line_is_bad(rt: HostRuntime) -> Result<(), Fail> {
    let alloc = rt.alloc();
    let mut bytes = Vec::new(alloc);
    push_comment(&mut bytes, 65_536)?;
    push_comment(&mut bytes, 65_537)?;
    bytes.extend_from_slice(b"nmgc 3\nheap 64 64 64 8 16 1\nthread 0\nbegin\n")?;
    push_comment(&mut bytes, 65_537)?;
    bytes.extend_from_slice(b"round\n")?;
    let source = MemorySource::new(bytes, 4096, listed(alloc, 0)?);
    let options = Options {
        passes_over: true,
        has_prompts: false,
    };
    let session = session_from(&rt, alloc, source, options, 0)?;
    assert!(rt; session.status == Status::Done);
    assert!(rt; session.sink.bytes() == LONG_ANSWERS.as_bytes());
    assert!(rt; session.prompts.bytes().is_empty());
    Ok(())
}

#[test]
fn an_input_ends_in_the_head(rt: HostRuntime) -> Result<(), Fail> {
    for (lines, text) in [
        ("", "bad line 1 version\n"),
        ("nmgc 3\n", "bad line 2 heap\n"),
        ("nmgc 3\nheap 64 64 64 8 16 1\n", "bad line 3 thread\n"),
        (
            "nmgc 3\nheap 64 64 64 8 16 1\nthread 0\n",
            "bad line 4 thread\n",
        ),
        ("nmgc 3\nheap", "bad line 2 line\nbad line 3 heap\n"),
    ] {
        let session = session_of(&rt, rt.alloc(), lines, true, 0, 0)?;
        assert!(rt; session.status == Status::BadScript);
        assert!(rt; session.sink.bytes() == text.as_bytes());
    }
    Ok(())
}

#[test]
fn a_full_heap_ends_a_session(rt: HostRuntime) -> Result<(), Fail> {
    let session = session_of(&rt, rt.alloc(), FULL_LINES, false, 0, 0)?;
    assert!(rt; session.status == Status::HeapFull);
    assert!(rt; session.sink.bytes() == FULL_ANSWERS.as_bytes());
    Ok(())
}

#[test]
fn each_read_of_a_session_fails(rt: HostRuntime) -> Result<(), Fail> {
    for read in 1..=30 {
        let session = session_of(&rt, rt.alloc(), LINES, false, read, 0)?;
        assert!(rt; session.status == Status::ReadFault);
        let text = session.sink.bytes();
        let before = text.len().saturating_sub(11);
        assert!(rt; &text[before..] == b"read fault\n".as_slice());
        assert!(rt; ANSWERS.as_bytes().starts_with(&text[..before]));
    }
    Ok(())
}

#[test]
fn each_write_of_a_session_fails(rt: HostRuntime) -> Result<(), Fail> {
    for write in 1..=6 {
        let session = session_of(&rt, rt.alloc(), LINES, false, 0, write)?;
        assert!(rt; session.status == Status::WriteFault);
        assert!(rt; ANSWERS.as_bytes().starts_with(session.sink.bytes()));
    }
    Ok(())
}

#[test]
fn an_observer_writes_the_report(rt: HostRuntime) -> Result<(), Fail> {
    let alloc = rt.alloc();
    let script = script_of(alloc, SCRIPT)?;
    let report = Collector::run(alloc, &rt, &script, &OpenGate)?;
    let whole = text(alloc, &report)?;
    let mut sink = MemorySink::new(alloc, 4096, listed(alloc, 0)?, 100_000)?;
    if write_all(&mut sink, b"report 1\n").is_err() {
        return Err("the sink failed".into());
    }
    let mut writer = ReportWriter::new(alloc, sink);
    let Ok((_, end)) = Collector::run_observed(alloc, &rt, &script, &OpenGate, &mut writer) else {
        return Err("the run was given up".into());
    };
    let mut last = Vec::new(alloc);
    push_end(&mut last, end)?;
    assert!(rt; last.len() <= whole.len());
    assert!(rt; writer.sink.bytes() == &whole[..whole.len() - last.len()]);
    Ok(())
}

#[test]
fn an_observer_forgets(rt: HostRuntime) -> Result<(), Fail> {
    let alloc = rt.alloc();
    let script = script_of(alloc, SCRIPT)?;
    let Ok((_, end)) = Collector::run_observed(alloc, &rt, &script, &OpenGate, &mut Forgetful)
    else {
        return Err("the run was given up".into());
    };
    assert!(rt; end == End::Done);
    Ok(())
}
