//! Tests of jobs, of single failed reads and writes, and of two workers that wait for each other at a gate.
//!
//! The gate gives up after many turns of its loop, and records it. So workers on one thread fail the test and don't hang.
ghost use Rattle.std.specs.Prelude.{IfOk, ◌≡◌, length};
ghost use Rattle.nmgc_fin.specs.Handles.{AreNumbered};

use nmgc_fin::order::handled_text;
use nmgc_fin::{FinStatus, Handled, Job, JobsFault, jobs, nmgc_fin, run_jobs};
use nmgc_io::{MemorySink, MemorySource};
use nmgc_limits::SHARED_MAKER;
use nmgc_round::{Gate, OpenGate};
use nmgc_world_spec::Name;
use std::alloc::{AllocError, Global};
use std::process::Abort;
use std::sync::Wait;
use std::sync::atomic::{AtomicU64, Ordering};
use std::test::Fail;
use std::thread::Threads;

#[test]
fn lines_of_dead_weak_pointers_give_jobs(rt: HostRuntime) -> Result<(), Fail> {
    let text = b"report 1\n0 dead\ndead 0.4\ndeadly\n\ndead g\ndead 7.4294967295".as_slice();
    let Ok(found) = jobs(rt.alloc(), text) else {
        panic!(rt; "no jobs");
    };
    let [first, second, third] = found.items() else {
        panic!(rt; "not three jobs");
    };
    assert!(rt; (first.number, first.weak.maker, first.weak.serial) == (0u32, 0u8, 4u32));
    assert!(rt;
        (second.number, second.weak.maker, second.weak.serial) == (1u32, SHARED_MAKER, 0u32)
    );
    assert!(rt; (third.number, third.weak.maker, third.weak.serial) == (2u32, 7u8, 4294967295u32));
    Ok(())
}

#[test]
fn long_lines_are_known_by_their_front(rt: HostRuntime) -> Result<(), Fail> {
    let text = b"0 a reply of more bytes than are kept of a line\ndead 0.4\n".as_slice();
    let Ok(found) = jobs(rt.alloc(), text) else {
        panic!(rt; "no jobs");
    };
    assert!(rt; found.items().len() == 1);
    let text = b"dead 0.4\ndead 0.4 and more bytes than are kept of a line\n".as_slice();
    let Err(JobsFault::Bad { line }) = jobs(rt.alloc(), text) else {
        panic!(rt; "no bad line");
    };
    assert!(rt; line == 2);
    Ok(())
}

// A report with two dead weak pointers, and the output for it.
const TWO: &str = "report 1\n0 dead\ndead 0.4\ndead g\nend done\n";

const TWO_JOBS: &str = "jobs 2\njob 0 0.4\njob 1 g\nend\n";

// Returns a list of one number: the number of the call that fails, or 0 if none fails.
fn one_call(alloc: Global, call: u64) -> Result<Vec<u64>, AllocError> {
    let mut calls = Vec::new(alloc);
    calls.push(call)?;
    Ok(calls)
}

// Runs `nmgc_fin` with three workers on `TWO`, in pieces of 5 bytes, and returns the status and the sink's bytes. The read
// with number `read` and the write with number `write` fail. No call has number 0, so 0 means that none fails.
fn run_with_faults<R: Threads + Wait + Sync>(
    alloc: Global,
    rt: &R,
    read: u64,
    write: u64,
) -> Result<(FinStatus, Vec<u8>), Fail> {
    let mut words = Vec::new(alloc);
    words.push(String::from_str(alloc, "3")?)?;
    let bytes = Vec::from_slice(alloc, TWO.as_bytes())?;
    let mut source = MemorySource::new(bytes, 5, one_call(alloc, read)?);
    let mut sink = MemorySink::new(alloc, 5, one_call(alloc, write)?, 1000)?;
    let status = nmgc_fin(alloc, rt, words.as_slice(), &mut source, &mut sink);
    let text = Vec::from_slice(alloc, sink.bytes())?;
    Ok((status, text))
}

// Checks that each single failed read is reported: nine reads of pieces, and one that finds the end.
fn check_reads<R: Threads + Wait + Sync + Abort>(rt: &R, alloc: Global) -> Result<(), Fail> {
    for read in 1..11 {
        let (status, text) = run_with_faults(alloc, rt, read, 0)?;
        assert!(rt; status == FinStatus::ReadFault);
        assert!(rt; text.as_slice() == b"read fault\n".as_slice());
    }
    Ok(())
}

// Checks that each single failed write gives `WriteFault`, and that the sink has exactly the bytes of the writes before.
fn check_writes<R: Threads + Wait + Sync + Abort>(rt: &R, alloc: Global) -> Result<(), Fail> {
    let all = TWO_JOBS.as_bytes();
    for write in 1..7 {
        let (status, text) = run_with_faults(alloc, rt, 0, write)?;
        let written = (5 * (write as usize - 1)).min(all.len());
        assert!(rt; status == FinStatus::WriteFault);
        assert!(rt; text.as_slice() == &all[..written]);
    }
    Ok(())
}

#[test]
fn failed_reads_and_writes_are_reported(rt: HostRuntime) -> Result<(), Fail> {
    assert!(rt; TWO.len().div_ceil(5) == 9 && TWO_JOBS.len().div_ceil(5) == 6);
    check_reads(&rt, rt.alloc())?;
    check_writes(&rt, rt.alloc())?;
    let (status, text) = run_with_faults(rt.alloc(), &rt, 11, 7)?;
    assert!(rt; status == FinStatus::Done);
    assert!(rt; text.as_slice() == TWO_JOBS.as_bytes());
    Ok(())
}

#[test]
fn handled_text_lists_each_name(rt: HostRuntime) -> Result<(), Fail> {
    let names = [
        Name {
            maker: 0,
            serial: 4,
        },
        Name::SHARED,
    ];
    assert!(rt; handled_text(rt.alloc(), &names)?.as_slice() == TWO_JOBS.as_bytes());
    assert!(rt; handled_text(rt.alloc(), &[])?.as_slice() == b"jobs 0\nend\n".as_slice());
    Ok(())
}

// Returns `count` jobs, numbered from 0.
fn make_jobs(alloc: Global, count: u32) -> Result<Vec<Job>, Fail>
    ensures { IfOk result (λ all. AreNumbered all.items) }
{
    let mut all = Vec::new(alloc);
    for number in 0..count {
        all.push(Job {
            number,
            weak: Name {
                maker: 0,
                serial: number,
            },
        })?;
    }
    Ok(all)
}

// Returns the number of handled jobs, and the sum of their numbers.
fn count_and_sum(handled: &Handled) -> (u64, u64) {
    let mut count = 0u64;
    let mut sum = 0u64;
    for list in handled.by.items() {
        for job in list.items() {
            count = count.saturating_add(1);
            sum = sum.saturating_add(u64::from(job.number));
        }
    }
    (count, sum)
}

#[test]
fn each_job_is_handled_once(rt: HostRuntime) -> Result<(), Fail> {
    for workers in [1u8, 2, 3, 8, 32] {
        for (count, sum) in [(0u32, 0u64), (1, 0), (2, 1), (1000, 499_500)] {
            let all = make_jobs(rt.alloc(), count)?;
            let handled = run_jobs(rt.alloc(), &rt, all.as_slice(), workers, &OpenGate)?;
            assert!(rt; count_and_sum(&handled) == (u64::from(count), sum));
        }
    }
    Ok(())
}

// A gate for two workers. Each waits there with its first job until the other has reached it too, but gives up in the end.
#[derive(Drop)]
struct Meet {
    reached: [AtomicU64; 2],
    given_up: AtomicU64,
}

impl Meet {
    // Whether both workers reached the gate, and neither gave up waiting.
    fn has_met(&self) -> bool {
        self.reached[0].load(Ordering::SeqCst) >= 1
            && self.reached[1].load(Ordering::SeqCst) >= 1
            && self.given_up.load(Ordering::SeqCst) == 0
    }
}

impl Gate for Meet {
    fn pass(&self, who: u8, turn: u64) {
        let own = usize::from(who);
        if own >= 2 {
            return;
        }
        self.reached[own].store(turn, Ordering::SeqCst);
        if turn != 1 {
            return;
        }
        for _ in 0..200_000_000u32 {
            if self.reached[1 - own].load(Ordering::SeqCst) >= 1 {
                return;
            }
        }
        self.given_up.store(1, Ordering::SeqCst);
    }
}

#[test]
fn workers_run_beside_each_other(rt: HostRuntime) -> Result<(), Fail> {
    let meet = Meet {
        reached: [AtomicU64::new(0), AtomicU64::new(0)],
        given_up: AtomicU64::new(0),
    };
    let all = make_jobs(rt.alloc(), 2)?;
    let handled = run_jobs(rt.alloc(), &rt, all.as_slice(), 2, &meet)?;
    assert!(rt; meet.has_met());
    assert!(rt; count_and_sum(&handled) == (2u64, 1u64));
    Ok(())
}
