//! Scripts that are cut, and sources and sinks that fail, for each subcommand of the program.
ghost use Rattle.std.specs.Prelude.{◌≤◌};

use super::running::{Run, all_arguments};
use nmgc_cli::{Status, nmgc};
use nmgc_io::{MemorySink, MemorySource};
use std::alloc::{AllocError, Global};
use std::process::Abort;
use std::test::Fail;
use std::thread::Threads;

// A script without commands, 41 bytes, and its report.
pub const HEAD: &str = "nmgc 1\nheap 32 64 64 100 1000 0\nthread 0\n";

pub const EMPTY_REPORT: &str = "report 1
stop 0 idle free 32 filled 0 sweep 0 promoted 0
end done
";

// The script with one object.
const WHOLE: &str =
    "nmgc 1\nheap 32 64 64 100 1000 0\nthread 0\nnum r1 5\ncon r0 7 r1\nget r2 r0 0\nshow r2\nget r2 r0 1\nget r2 r1 0\nshow r0\n";

// Its report, its upgrade, and the image of the heap that it leaves.
const ONE_OBJECT_REPORT: &str = "report 1
stop 0 idle free 32 filled 0 sweep 0 promoted 0
round 1
0 ok
0 0.0
0 5
0 5
0 nofield
0 nopointer
0 0.0
stop 1 idle free 31 filled 0 sweep 0 promoted 1
end done
";

const ONE_OBJECT_UPGRADED: &str = "nmgc 2
heap 32 64 64 100 1000 0
thread 0
num r1 5
con r0 7 r1
get r2 r0 0
show r2
get r2 r0 1
get r2 r1 0
show r0
";

const ONE_OBJECT_IMAGE: &str = "image 1 1
mutator 0 serial 1
register 0 0.0
register 1 5
register 2 5
node 0.0 con 7 5
node g arr nil nil nil nil nil nil nil nil nil nil nil nil nil nil nil nil
end
";

// The summary of a bench.
const ONE_BATCH: &str = "bench 1
commands 4104
rounds 1
cycles 0
made 4096
promoted 4096
freed 0
kept 0
end done
";

// Returns a list of failing calls: the number of this call alone.
pub fn listed(alloc: Global, call: u64) -> Result<Vec<u64>, AllocError> {
    let mut calls = Vec::new(alloc);
    calls.push(call)?;
    Ok(calls)
}

// Does the task that the arguments ask for over these bytes, read in pieces of 5 bytes and written in pieces of `piece`. The
// read numbered `read` and the write numbered `write` fail; no call has number 0.
pub fn run_arguments<R: Threads + Sync>(
    rt: &R,
    alloc: Global,
    arguments: &[&str],
    bytes: &[u8],
    read: u64,
    write: u64,
    piece: usize,
) -> Result<Run, Fail>
    requires { 1 ≤ piece }
{
    let bytes = Vec::from_slice(alloc, bytes)?;
    let mut source = MemorySource::new(bytes, 5, listed(alloc, read)?);
    let mut sink = MemorySink::new(alloc, piece, listed(alloc, write)?, 2000)?;
    let arguments = all_arguments(alloc, arguments)?;
    let ended = nmgc(alloc, rt, &arguments, &mut source, &mut sink);
    Ok(Run { ended, sink })
}

// Returns the status and the text of `run` for the first `cut` bytes of the script with one object.
fn report_of_text(cut: usize) -> (Status, &'static str) {
    match cut {
        0..=5 => (Status::BadScript, "bad line 1 version\n"),
        6..=30 => (Status::BadScript, "bad line 2 heap\n"),
        31..=39 => (Status::BadScript, "bad line 3 thread\n"),
        40..=41 => (Status::Done, EMPTY_REPORT),
        42..=43 => (Status::BadScript, "bad line 4 command\n"),
        44..=47 => (Status::BadScript, "bad line 4 arity\n"),
        48 => (Status::BadScript, "bad line 4 operand\n"),
        _ => (
            Status::Done,
            "report 1
stop 0 idle free 32 filled 0 sweep 0 promoted 0
round 1
0 ok
stop 1 idle free 32 filled 0 sweep 0 promoted 0
end done
",
        ),
    }
}

#[test]
fn a_script_is_cut(rt: HostRuntime) -> Result<(), Fail> {
    let script = WHOLE.as_bytes();
    for cut in 0..51 {
        let (status, text) = report_of_text(cut);
        let bytes = &script[..cut.min(script.len())];
        let run = run_arguments(&rt, rt.alloc(), &["run"], bytes, 0, 0, 5)?;
        assert!(rt; run.ended.status == status);
        assert!(rt; run.sink.bytes() == text.as_bytes());
    }
    Ok(())
}

// Arguments that ask for a read, the bytes, the output, and whether the report is handed on.
const READERS: [(&[&str], &str, &str, bool); 6] = [
    (&["run"], WHOLE, ONE_OBJECT_REPORT, true),
    (&["run"], HEAD, EMPTY_REPORT, true),
    (&["upgrade"], WHOLE, ONE_OBJECT_UPGRADED, false),
    (&["image"], WHOLE, ONE_OBJECT_IMAGE, true),
    (
        &["retain", "0.0"],
        ONE_OBJECT_IMAGE,
        "root register 0 0\nobject 0.0\nend\n",
        false,
    ),
    (
        &["marks", "2"],
        WHOLE,
        "marks 2\nreached 1\n0.0\nend done\n",
        true,
    ),
];

// The same for a bench, which reads nothing.
const BENCH: [(&[&str], &str, &str, bool); 1] = [(&["bench", "1"], "", ONE_BATCH, true)];

// Checks that each single read can fail alone and is reported: one read for each piece, and one that finds the end.
fn check_reads<R: Threads + Sync + Abort>(
    rt: &R,
    alloc: Global,
    rows: &[(&[&str], &str, &str, bool)],
) -> Result<(), Fail> {
    for (arguments, bytes, _, _) in rows {
        let reads = bytes.len().div_ceil(5) as u64 + 1;
        for read in 1..reads + 1 {
            let run = run_arguments(rt, alloc, arguments, bytes.as_bytes(), read, 0, 5)?;
            assert!(rt; run.ended.status == Status::ReadFault);
            assert!(rt; run.sink.bytes() == b"read fault\n".as_slice());
            assert!(rt; run.ended.report.is_none());
        }
    }
    Ok(())
}

// Checks that each write can fail alone: the status is `WriteFault`, and the sink has exactly the bytes written before it.
// Checks that all bytes are written if no read and no write fails.
fn check_writes<R: Threads + Sync + Abort>(
    rt: &R,
    alloc: Global,
    rows: &[(&[&str], &str, &str, bool)],
    piece: usize,
) -> Result<(), Fail>
    requires { 1 ≤ piece }
{
    for (arguments, bytes, text, is_handed_on) in rows {
        let text = text.as_bytes();
        let (reads, writes) = (
            bytes.len().div_ceil(5) as u64 + 1,
            text.len().div_ceil(piece) as u64,
        );
        for write in 1..writes + 1 {
            let run = run_arguments(rt, alloc, arguments, bytes.as_bytes(), 0, write, piece)?;
            let written = piece.saturating_mul(write as usize - 1).min(text.len());
            assert!(rt; run.ended.status == Status::WriteFault);
            assert!(rt; run.sink.bytes() == &text[..written]);
            assert!(rt; run.ended.report.is_some() == *is_handed_on);
        }
        let run = run_arguments(
            rt,
            alloc,
            arguments,
            bytes.as_bytes(),
            reads + 1,
            writes + 1,
            piece,
        )?;
        assert!(rt; run.ended.status == Status::Done);
        assert!(rt; run.sink.bytes() == text);
        assert!(rt; run.ended.report.is_some() == *is_handed_on);
    }
    Ok(())
}

#[test]
fn each_read_fails(rt: HostRuntime) -> Result<(), Fail> {
    check_reads(&rt, rt.alloc(), &READERS)
}

#[test]
fn each_write_fails(rt: HostRuntime) -> Result<(), Fail> {
    check_writes(&rt, rt.alloc(), &READERS, 5)?;
    check_writes(&rt, rt.alloc(), &BENCH, 30)
}
