//! Two markers beside each other, over the heap that a run leaves.
//!
//! Their gate gives up after a long spin, and notes it, so markers on one thread fail the test and don't hang.
ghost use Rattle.std.specs.Prelude.{◌≤◌, length, IfOk};
ghost use Rattle.nmgc_cli.specs.Parts.{IsOfScript};
ghost use Rattle.nmgc_limits.specs.Limits.{most_script_bytes};

use nmgc_cli::answer::Refusal;
use nmgc_cli::marks::claims_of;
use nmgc_cli::run::run_bytes;
use nmgc_journal::Report;
use nmgc_limits::MAX_SCRIPT_BYTES;
use nmgc_round::Gate;
use std::alloc::{AllocError, Global};
use std::sync::atomic::{AtomicU64, Ordering};
use std::test::Fail;
use std::thread::Threads;

// Returns a script of three chains of sixteen objects. The first and the last object of the second chain are dropped.
fn chains(alloc: Global) -> Result<Vec<u8>, AllocError> {
    let mut script = Vec::from_slice(alloc, b"nmgc 1\nheap 32 64 256 100 1000 0\nthread 0\n")?;
    for line in ["con r0 0 r0 r1\n", "con r2 0 r2 r1\n", "con r3 0 r3 r1\n"] {
        for _ in 0..16u8 {
            script.extend_from_slice(line.as_bytes())?;
        }
    }
    script.extend_from_slice(b"yield\nnil r0\nget r2 r2 0\ncollect\n")?;
    Ok(script)
}

// Runs the script that the bytes spell, and returns its report.
#[tactic(auto, using(crate::proofs::Reports::of_bytes))]
fn report_of<R: Threads + Sync>(alloc: Global, rt: &R, bytes: &[u8]) -> Result<Report, Refusal>
    requires { length bytes.now ≤ most_script_bytes }
    ensures { IfOk result IsOfScript }
{
    let Ok(own) = Vec::from_slice(alloc, bytes) else {
        return Err(Refusal::NoMemory);
    };
    run_bytes(alloc, rt, own)
}

// Each of two markers waits at its first object until the other has reached its first object.
#[derive(Drop)]
struct Meet {
    reached: [AtomicU64; 2],
    given_up: AtomicU64,
}

impl Meet {
    // Whether each marker has reached its first object, and neither gave up.
    fn has_met(&self) -> bool {
        self.reached[0].load(Ordering::SeqCst) >= 1
            && self.reached[1].load(Ordering::SeqCst) >= 1
            && self.given_up.load(Ordering::SeqCst) == 0
    }
}

impl Gate for Meet {
    fn pass(&self, who: u8, turn: u64) {
        let own = usize::from(who);
        if own >= 2 {
            return;
        }
        self.reached[own].store(turn, Ordering::SeqCst);
        if turn != 1 {
            return;
        }
        for _ in 0..200_000_000u32 {
            if self.reached[1 - own].load(Ordering::SeqCst) >= 1 {
                return;
            }
        }
        self.given_up.store(1, Ordering::SeqCst);
    }
}

#[test]
fn two_markers_mark_beside_each_other(rt: HostRuntime) -> Result<(), Fail> {
    let alloc = rt.alloc();
    let script = chains(alloc)?;
    if script.len() > MAX_SCRIPT_BYTES {
        panic!(rt; "too long");
    }
    let Ok(report) = report_of(alloc, &rt, &script) else {
        panic!(rt; "no report");
    };
    let meet = Meet {
        reached: [AtomicU64::new(0), AtomicU64::new(0)],
        given_up: AtomicU64::new(0),
    };
    let claims = claims_of(alloc, &rt, 2, &report, &meet)?;
    assert!(rt; meet.has_met());
    let mut all = 0;
    for own in claims.by.items() {
        assert!(rt; !own.items().is_empty());
        all = own.items().len().saturating_add(all);
    }
    assert!(rt; all == 31);
    Ok(())
}
