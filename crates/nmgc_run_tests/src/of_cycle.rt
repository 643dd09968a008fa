//! Whole runs, from the text of a script to the text of the report: with an open gate, and under gates at which two mutators
//! wait for each other.
//!
//! A gate gives up after a long spin, and notes it, so a round that has its mutators on one thread fails the test and doesn't
//! hang. The numbers read under a gate are checked too, so a round whose threads only pass the gate fails as well.
ghost use Rattle.std.specs.Prelude.{IfOk};
ghost use Rattle.nmgc_script.specs.Spelling.{IsInLimits};

use crate::worked::{
    EXCHANGE, EXCHANGE_REPORT, FIRST_UPDATED_REPORT, OVERWRITTEN, OVERWRITTEN_REPORT, RACE,
    SECOND_UPDATED_REPORT, THREE_SEGMENTS, THREE_SEGMENTS_REPORT, THUNK,
};
use nmgc_cycle::Collector;
use nmgc_journal::Report;
use nmgc_journal::text::text;
use nmgc_limits::{MAKERS, MAX_SCRIPT_BYTES};
use nmgc_round::{Gate, OpenGate};
use nmgc_script::{Script, parse};
use nmgc_world_spec::{Reply, Value};
use std::alloc::Global;
use std::sync::atomic::{AtomicU64, Ordering};
use std::test::Fail;
use std::thread::Threads;

// Returns the script that the text spells. Fails if the text is longer than a script may be.
pub(crate) fn script_of(alloc: Global, text: &str) -> Result<Script, Fail>
    ensures { IfOk result IsInLimits }
{
    if text.len() > MAX_SCRIPT_BYTES {
        return Err("too long".into());
    }
    Ok(parse(alloc, text.as_bytes())?)
}

// Runs a script under the gate, and returns the text of its report.
pub(crate) fn reported<R: Threads + Sync, G: Gate>(
    alloc: Global,
    rt: &R,
    script: &str,
    gate: &G,
) -> Result<Vec<u8>, Fail> {
    let script = script_of(alloc, script)?;
    let report = Collector::run(alloc, rt, &script, gate)?;
    Ok(text(alloc, &report)?)
}

// Whether the report of the script's run under the gate has the text `report`.
pub(crate) fn reports<R: Threads + Sync, G: Gate>(
    alloc: Global,
    rt: &R,
    script: &str,
    report: &str,
    gate: &G,
) -> Result<bool, Fail> {
    let bytes = reported(alloc, rt, script, gate)?;
    Ok(bytes.as_slice() == report.as_bytes())
}

// Word 0 is unused. After it come g's header, 3 + 2048 * 16 for an array of 16 fields, its name and its slots. The first two
// slots point to 0.0 at word 32 and to 1.0 in the next segment, and the third is nil. The words between the last slot and the
// first segment are 0, and unused too.
#[test]
fn a_report_has_the_words_of_the_heap(rt: HostRuntime) -> Result<(), Fail> {
    let script = script_of(rt.alloc(), EXCHANGE)?;
    let report = Collector::run(rt.alloc(), &rt, &script, &OpenGate)?;
    let words = &report.words;
    // 32 words with g, 64 segments of 64 words, and a nursery of 64 words for each of two mutators.
    assert!(rt; words.len() == 32 + 64 * 64 + 2 * 64);
    for (place, word) in [0, 32771, 32, 64, 192, 1].iter().enumerate() {
        assert!(rt; place < words.len() && words.word(place) == *word);
    }
    for place in 19..32usize {
        assert!(rt; place < words.len() && words.word(place) == 0);
    }
    Ok(())
}

#[test]
fn a_thunk_gets_one_result(rt: HostRuntime) -> Result<(), Fail> {
    for _ in 0..300u32 {
        let bytes = reported(rt.alloc(), &rt, THUNK, &OpenGate)?;
        let first = bytes.as_slice() == FIRST_UPDATED_REPORT.as_bytes();
        let second = bytes.as_slice() == SECOND_UPDATED_REPORT.as_bytes();
        assert!(rt; first || second);
    }
    Ok(())
}

// The second mutator's `update` comes first if the other's waits until it has reached its `force`, and last if it waits until
// the other has reached its own `force`.
#[test]
fn either_update_comes_first(rt: HostRuntime) -> Result<(), Fail> {
    let rows = [
        ([(5, 5), (5, 5)], SECOND_UPDATED_REPORT),
        ([(6, 4), (4, 6)], FIRST_UPDATED_REPORT),
    ];
    for (waits, report) in rows {
        let meet = Meet::new([0, 1], waits);
        assert!(rt; reports(rt.alloc(), &rt, THUNK, report, &meet)?);
        assert!(rt; meet.has_met());
    }
    Ok(())
}

// Returns the number in the mutator's last reply of the first round, or 0 if there is none.
fn number_of(report: &Report, mutator: usize) -> u64 {
    let Some(rows) = report.rounds.items().first() else {
        return 0;
    };
    let Some(replies) = rows.replies.items().get(mutator) else {
        return 0;
    };
    if replies.len() == 0 {
        return 0;
    }
    match replies.reply(replies.len() - 1) {
        Reply::Given(Value::Number(number)) => number,
        _ => 0,
    }
}

// Runs `RACE` under the gate, and returns the numbers that its two mutators read.
fn race<R: Threads + Sync, G: Gate>(alloc: Global, rt: &R, gate: &G) -> Result<(u64, u64), Fail> {
    let script = script_of(alloc, RACE)?;
    let reported = Collector::run(alloc, rt, &script, gate)?;
    Ok((number_of(&reported, 0), number_of(&reported, 1)))
}

// They can't both read the other's number: in one order of the four commands, the mutator of the last `set` reads after it.
#[test]
fn two_mutators_read_by_one_order(rt: HostRuntime) -> Result<(), Fail> {
    for _ in 0..300u32 {
        let read = race(rt.alloc(), &rt, &OpenGate)?;
        assert!(rt; read == (1, 2) || read == (1, 1) || read == (2, 2));
    }
    Ok(())
}

// A gate at which each of two workers waits, at one pass of its own, until the other has reached a given pass.
#[derive(Drop)]
pub(crate) struct Meet {
    // The two workers: mutators, the collector or the upper half of a sweep.
    who: [u8; 2],
    // For each: the pass that waits, and the other's pass that it waits for.
    waits: [(u64, u64); 2],
    reached: [AtomicU64; 2],
    // For each: 1 once its waiting pass has come.
    come: [AtomicU64; 2],
    given_up: AtomicU64,
}

impl Meet {
    pub(crate) fn new(who: [u8; 2], waits: [(u64, u64); 2]) -> Meet {
        Meet {
            who,
            waits,
            reached: [AtomicU64::new(0), AtomicU64::new(0)],
            come: [AtomicU64::new(0), AtomicU64::new(0)],
            given_up: AtomicU64::new(0),
        }
    }

    // Whether each worker has reached its waiting pass, and neither gave up.
    pub(crate) fn has_met(&self) -> bool {
        self.come[0].load(Ordering::SeqCst) == 1
            && self.come[1].load(Ordering::SeqCst) == 1
            && self.given_up.load(Ordering::SeqCst) == 0
    }

    // Returns the last pass of each worker.
    fn reached(&self) -> (u64, u64) {
        (
            self.reached[0].load(Ordering::SeqCst),
            self.reached[1].load(Ordering::SeqCst),
        )
    }
}

impl Gate for Meet {
    fn pass(&self, who: u8, turn: u64) {
        let own = if who == self.who[0] {
            0
        } else if who == self.who[1] {
            1
        } else {
            return;
        };
        self.reached[own].store(turn, Ordering::SeqCst);
        let (waits, until) = self.waits[own];
        if turn != waits {
            return;
        }
        self.come[own].store(1, Ordering::SeqCst);
        for _ in 0..200_000_000u32 {
            if self.reached[1 - own].load(Ordering::SeqCst) >= until {
                return;
            }
        }
        self.given_up.store(1, Ordering::SeqCst);
    }
}

// The first command of each mutator waits for the other's first command.
#[test]
fn mutators_run_beside_each_other(rt: HostRuntime) -> Result<(), Fail> {
    let meet = Meet::new([0, 1], [(1, 1), (1, 1)]);
    assert!(rt; reports(rt.alloc(), &rt, EXCHANGE, EXCHANGE_REPORT, &meet)?);
    assert!(rt; meet.has_met());
    Ok(())
}

// The late mutator's `set` waits until the other has reached its `get`, and that `get` waits until the late mutator has
// reached its own. So both read the number that the late mutator stored.
#[test]
fn the_gate_is_passed_before_each_command(rt: HostRuntime) -> Result<(), Fail> {
    for (waits, number) in [([(3, 3), (2, 3)], 2u64), ([(2, 3), (3, 3)], 1u64)] {
        let meet = Meet::new([0, 1], waits);
        let read = race(rt.alloc(), &rt, &meet)?;
        assert!(rt; read == (number, number));
        assert!(rt; meet.has_met());
    }
    Ok(())
}

// The collector's first scan waits for the mutator's `set`, and the `set` for that scan. So the mutator overwrites
// the reference while the collector marks.
#[test]
fn the_collector_marks_beside_a_mutator(rt: HostRuntime) -> Result<(), Fail> {
    let meet = Meet::new([0, MAKERS], [(20, 1), (1, 20)]);
    assert!(rt; reports(rt.alloc(), &rt, OVERWRITTEN, OVERWRITTEN_REPORT, &meet)?);
    assert!(rt; meet.has_met());
    Ok(())
}

// There are three segments to sweep, after the scans of 31 objects. Two of them are in the lower half. The first segments of
// the two halves wait for each other.
#[test]
fn the_halves_of_a_sweep_run_beside_each_other(rt: HostRuntime) -> Result<(), Fail> {
    let meet = Meet::new([MAKERS, MAKERS + 1], [(32, 1), (1, 32)]);
    assert!(rt;
        reports(
            rt.alloc(),
            &rt,
            THREE_SEGMENTS,
            THREE_SEGMENTS_REPORT,
            &meet
        )?
    );
    assert!(rt; meet.has_met());
    assert!(rt; meet.reached() == (33, 1));
    Ok(())
}
