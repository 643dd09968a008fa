//! Runs under gates at which all workers of a round wait for each other, and under a gate that records each pass.
//!
//! A gate gives up after a long spin, and notes it: so a round that has two of its workers on one thread fails the test and
//! doesn't hang. It counts the workers that came: so a worker that passes no gate fails the test, and so does a worker that
//! passes it under another number.
ghost use Rattle.std.specs.Prelude.{◌≤◌, length, IfOk, IfSome};
ghost use Rattle.nmgc_script.specs.Spelling.{IsInLimits};

use crate::of_cycle::{Meet, reported, script_of};
use crate::worked::{EXCHANGE, THREE_SEGMENTS, WAITING};
use itoa::Buffer;
use nmgc_cycle::{Collector, StopEnd, StopRows};
use nmgc_limits::MAKERS;
use nmgc_lists::NoMemory;
use nmgc_round::{Gate, OpenGate};
use nmgc_script::Script;
use std::alloc::Global;
use std::process::Abort;
use std::sync::atomic::{AtomicU64, Ordering};
use std::test::Fail;
use std::thread::Threads;

// A gate at which some workers wait for each other, each at one pass of its own.
#[derive(Drop)]
struct Meeting {
    // The workers, and the waiting pass of each.
    awaited: Vec<(u8, u64)>,
    come: AtomicU64,
    given_up: AtomicU64,
}

impl Meeting {
    // Makes a gate at which the workers `others` and `mutators` mutators wait for each other, all mutators at pass `turn`.
    fn new(alloc: Global, mutators: u8, turn: u64, others: &[(u8, u64)]) -> Result<Meeting, Fail> {
        let mut awaited = Vec::from_slice(alloc, others)?;
        for mutator in 0..mutators {
            awaited.push((mutator, turn))?;
        }
        Ok(Meeting {
            awaited,
            come: AtomicU64::new(0),
            given_up: AtomicU64::new(0),
        })
    }

    // Whether all workers have come, and none gave up.
    fn has_met(&self) -> bool {
        self.come.load(Ordering::SeqCst) == self.awaited.len() as u64
            && self.given_up.load(Ordering::SeqCst) == 0
    }
}

impl Gate for Meeting {
    fn pass(&self, who: u8, turn: u64) {
        if !self.awaited.contains(&(who, turn)) {
            return;
        }
        self.come.fetch_add(1, Ordering::SeqCst);
        for _ in 0..200_000_000u32 {
            if self.come.load(Ordering::SeqCst) >= self.awaited.len() as u64 {
                return;
            }
        }
        self.given_up.store(1, Ordering::SeqCst);
    }
}

// Returns a script of `mutators` mutators. Each makes an object. The first then asks for a cycle, and in the next round, in
// which the cycle marks, each has one command.
fn many(alloc: Global, mutators: u8) -> Result<String, Fail> {
    let mut text = String::from_str(alloc, "nmgc 2\nheap 1024 64 64 100 1000 0\n")?;
    for mutator in 0..mutators {
        let mut number = Buffer::new();
        text.push_str("thread ")?;
        text.push_str(number.format(mutator))?;
        text.push_str("\ncon r0 0 r1\n")?;
        text.push_str(if mutator == 0 { "collect\n" } else { "yield\n" })?;
        text.push_str("nil r2\n")?;
    }
    Ok(text)
}

// Checks that a script's run under the gate gives the same report as its run under an open gate.
fn check_run<R: Threads + Sync + Abort, G: Gate>(
    alloc: Global,
    rt: &R,
    script: &str,
    gate: &G,
) -> Result<(), Fail> {
    let free = reported(alloc, rt, script, &OpenGate)?;
    let held = reported(alloc, rt, script, gate)?;
    assert!(rt; held.as_slice() == free.as_slice());
    Ok(())
}

// The third command of each mutator and the collector's first scan wait for each other, for few mutators and for the most.
#[test]
fn all_mutators_run_beside_the_marker(rt: HostRuntime) -> Result<(), Fail> {
    for mutators in [8u8, MAKERS] {
        let script = many(rt.alloc(), mutators)?;
        let meeting = Meeting::new(rt.alloc(), mutators, 3, &[(MAKERS, 1)])?;
        check_run(rt.alloc(), &rt, script.as_str(), &meeting)?;
        assert!(rt; meeting.has_met());
    }
    Ok(())
}

// Two mutators. The first fills two segments and asks for a cycle. Once 32 objects were scanned, each half of the sweep has
// one segment, and each mutator has one command.
const TWO_AND_A_SWEEP: &str =
    "nmgc 1\nheap 64 64 256 100 1000 0\nthread 0\ncon r0 0 r0 r1\ncon r0 0 r0 r1\ncon r0 0 r0 r1\ncon r0 0 r0 r1\ncon r0 0 r0 r1\ncon r0 0 r0 r1\ncon r0 0 r0 r1\ncon r0 0 r0 r1\ncon r0 0 r0 r1\ncon r0 0 r0 r1\ncon r0 0 r0 r1\ncon r0 0 r0 r1\ncon r0 0 r0 r1\ncon r0 0 r0 r1\ncon r0 0 r0 r1\ncon r0 0 r0 r1\ncon r2 0 r2 r1\ncon r2 0 r2 r1\ncon r2 0 r2 r1\ncon r2 0 r2 r1\ncon r2 0 r2 r1\ncon r2 0 r2 r1\ncon r2 0 r2 r1\ncon r2 0 r2 r1\ncon r2 0 r2 r1\ncon r2 0 r2 r1\ncon r2 0 r2 r1\ncon r2 0 r2 r1\ncon r2 0 r2 r1\ncon r2 0 r2 r1\ncon r2 0 r2 r1\ncon r2 0 r2 r1\ncollect\nyield\nnil r3\nthread 1\nyield\nyield\nnil r3\n";

#[test]
fn mutators_run_beside_both_halves_of_a_sweep(rt: HostRuntime) -> Result<(), Fail> {
    let meeting = Meeting::new(
        rt.alloc(),
        0,
        0,
        &[(0, 35), (1, 3), (MAKERS, 33), (MAKERS + 1, 1)],
    )?;
    check_run(rt.alloc(), &rt, TWO_AND_A_SWEEP, &meeting)?;
    assert!(rt; meeting.has_met());
    Ok(())
}

// A gate that checks each pass: a worker's passes are numbered 1, 2, 3 and so on.
#[derive(Drop)]
struct Recorder {
    // The last pass of each worker, by its number.
    last: Vec<AtomicU64>,
    wrong: AtomicU64,
}

impl Recorder {
    fn new(alloc: Global) -> Result<Recorder, Fail> {
        let mut last = Vec::new(alloc);
        for _ in 0..MAKERS + 2 {
            last.push(AtomicU64::new(0))?;
        }
        Ok(Recorder {
            last,
            wrong: AtomicU64::new(0),
        })
    }

    // Whether exactly the workers in `passes` passed, each as often as its row says, and no pass had a wrong number.
    fn has_seen(&self, passes: &[(u8, u64)]) -> bool {
        let mut sum = 0u64;
        for own in self.last.as_slice() {
            sum = sum.saturating_add(own.load(Ordering::SeqCst));
        }
        let mut wanted = 0u64;
        for (who, count) in passes {
            wanted = wanted.saturating_add(*count);
            match self.last.get(usize::from(*who)) {
                Some(own) if own.load(Ordering::SeqCst) == *count => {}
                _ => return false,
            }
        }
        sum == wanted && self.wrong.load(Ordering::SeqCst) == 0
    }
}

impl Gate for Recorder {
    fn pass(&self, who: u8, turn: u64) {
        let Some(own) = self.last.get(usize::from(who)) else {
            self.wrong.store(1, Ordering::SeqCst);
            return;
        };
        if own.load(Ordering::SeqCst).wrapping_add(1) != turn {
            self.wrong.store(1, Ordering::SeqCst);
        }
        own.store(turn, Ordering::SeqCst);
    }
}

// Checks that in a script's run exactly the workers in `passes` pass the gate, each as often as its row says.
fn check_passes<R: Threads + Sync + Abort>(
    alloc: Global,
    rt: &R,
    script: &str,
    passes: &[(u8, u64)],
) -> Result<(), Fail> {
    let recorder = Recorder::new(alloc)?;
    check_run(alloc, rt, script, &recorder)?;
    assert!(rt; recorder.has_seen(passes));
    Ok(())
}

// There is one pass before each command that is tried: the seventeenth of the second script waits for room, and is tried
// twice. There is also one before each of 31 objects that are scanned, and before each of three segments that are swept.
#[test]
fn each_unit_of_work_has_its_pass(rt: HostRuntime) -> Result<(), Fail> {
    check_passes(rt.alloc(), &rt, EXCHANGE, &[(0, 5), (1, 6)])?;
    check_passes(rt.alloc(), &rt, WAITING, &[(0, 18)])?;
    let passes = [(0, 52), (MAKERS, 33), (MAKERS + 1, 1)];
    check_passes(rt.alloc(), &rt, THREE_SEGMENTS, &passes)
}

// Returns a collector after two rounds of a script, each after a stop, or `None` if one of these stops ended the run.
#[tactic(auto, using(crate::proofs::Rounds::has_line, crate::proofs::Rounds::fits_run))]
fn after_two_rounds<R: Threads + Sync, G: Gate>(
    alloc: Global,
    rt: &R,
    script: &Script,
    gate: &G,
) -> Result<Option<Collector>, NoMemory>
    requires { IsInLimits script.now }
    ensures { IfOk result (λ found. IfSome found (λ collector. 1 ≤ length collector.inbox)) }
{
    let mut collector = Collector::new(alloc, script)?;
    match collector.stop(rt, script, &mut StopRows::new(alloc))? {
        StopEnd::GoOn => drop(collector.round(rt, script, gate)?),
        StopEnd::Done | StopEnd::HeapFull { .. } => return Ok(None),
    }
    match collector.stop(rt, script, &mut StopRows::new(alloc))? {
        StopEnd::GoOn => drop(collector.round(rt, script, gate)?),
        StopEnd::Done | StopEnd::HeapFull { .. } => return Ok(None),
    }
    Ok(Some(collector))
}

// Returns a script that overwrites a variable `times` times while a cycle marks. Its collector scans three objects a round.
// The first overwrite is the mutator's nineteenth command.
fn overwriting(alloc: Global, times: u32) -> Result<String, Fail> {
    let head =
        "nmgc 1\nheap 32 64 64 65536 3 0\nthread 0\nnum r1 5\ncon r4 0 r1\ncon r5 0 r1\nvar r0 r4\n";
    let mut text = String::from_str(alloc, head)?;
    for _ in 0..13u8 {
        text.push_str("con r3 0 r3 r1\n")?;
    }
    text.push_str("collect\n")?;
    for number in 0..times {
        text.push_str(if number % 2 == 0 {
            "set r0 0 r5\n"
        } else {
            "set r0 0 r4\n"
        })?;
    }
    text.push_str("collect\n")?;
    Ok(text)
}

// Returns the number of entries that the collector took from the ring in the second round, and the number that are kept.
fn taken_and_kept<R: Threads + Sync, G: Gate>(
    alloc: Global,
    rt: &R,
    text: &str,
    gate: &G,
) -> Result<(usize, usize), Fail> {
    let script = script_of(alloc, text)?;
    let Some(collector) = after_two_rounds(alloc, rt, &script, gate)? else {
        return Err("the run has ended".into());
    };
    let Some(mutator) = collector.mutators().first() else {
        return Err("no mutator".into());
    };
    Ok((
        collector.inbox().entries(0).len(),
        mutator.updrem.entries().len(),
    ))
}

// The collector's first scan waits until the mutator has done its two hundred overwrites: three full blocks are in the ring
// by then, and eight entries are kept. Before each of its three scans it takes a block out, so the ring is empty in the end.
#[test]
fn full_blocks_reach_the_collector_before_the_stop(rt: HostRuntime) -> Result<(), Fail> {
    let script = overwriting(rt.alloc(), 200)?;
    let meeting = Meeting::new(rt.alloc(), 0, 0, &[(0, 219), (MAKERS, 1)])?;
    let (taken, kept) = taken_and_kept(rt.alloc(), &rt, script.as_str(), &meeting)?;
    assert!(rt; meeting.has_met());
    assert!(rt; taken == 192 && kept == 8);
    Ok(())
}

// The collector's first scan waits until the mutator has overwritten the variable 4,160 times. The ring is full by then, with
// 64 blocks of 64, and one full block is kept. The mutator's next overwrite waits until the collector has taken a block out,
// as its second scan shows, and then finds that slot: one entry is kept. So 65 blocks went through 64 slots in one round, and
// the collector's three scans took three of them.
#[test]
fn a_slot_that_the_marker_freed_is_found_in_the_same_round(rt: HostRuntime) -> Result<(), Fail> {
    let script = overwriting(rt.alloc(), 4161)?;
    let meet = Meet::new([0, MAKERS], [(4179, 2), (1, 4179)]);
    let (taken, kept) = taken_and_kept(rt.alloc(), &rt, script.as_str(), &meet)?;
    assert!(rt; meet.has_met());
    assert!(rt; taken == 192 && kept == 1);
    Ok(())
}
