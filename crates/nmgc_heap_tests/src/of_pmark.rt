//! Two markers that wait for each other at a gate of the test, each with an object of its own.
//!
//! The gate gives up after a long spin, and notes it, so markers on one thread fail the test and don't hang.
ghost use Rattle.std.specs.Prelude.{◌<◌, length};

use nmgc_lists::List;
use nmgc_object::laws::words_differ;
use nmgc_pmark::crew::mark_places;
use nmgc_pmark::{Bounds, StillWords, laws};
use nmgc_round::Gate;
use std::sync::atomic::{AtomicU64, Ordering};
use std::test::Fail;

// Each of two markers waits at its first object until the other has reached its first object.
#[derive(Drop)]
struct Meet {
    reached: [AtomicU64; 2],
    given_up: AtomicU64,
}

impl Meet {
    // Whether both have come, and neither gave up.
    fn has_met(&self) -> bool {
        self.reached[0].load(Ordering::SeqCst) >= 1
            && self.reached[1].load(Ordering::SeqCst) >= 1
            && self.given_up.load(Ordering::SeqCst) == 0
    }
}

impl Gate for Meet {
    fn pass(&self, who: u8, turn: u64) {
        let own = usize::from(who);
        if own >= 2 {
            return;
        }
        self.reached[own].store(turn, Ordering::SeqCst);
        if turn != 1 {
            return;
        }
        for _ in 0..200_000_000u32 {
            if self.reached[1 - own].load(Ordering::SeqCst) >= 1 {
                return;
            }
        }
        self.given_up.store(1, Ordering::SeqCst);
    }
}

#[test]
fn markers_run_beside_each_other(rt: HostRuntime) -> Result<(), Fail> {
    words_differ();
    let words = Vec::from_slice(
        rt.alloc(),
        &[
            0u64, 0u64, 0u64, 0u64, 0u64, 0u64, 0u64, 0u64, 0u64, 0u64, 0u64, 0u64, 0u64, 0u64,
            0u64, 0u64, 0u64, 0u64, 0u64, 0u64, 0u64, 0u64, 0u64, 0u64, 0u64, 0u64, 0u64, 0u64,
            0u64, 0u64, 0u64, 0u64, 1u64, 0u64, 0u64, 0u64, 1u64, 0u64, 0u64, 0u64,
        ],
    )?;
    let meet = Meet {
        reached: [AtomicU64::new(0), AtomicU64::new(0)],
        given_up: AtomicU64::new(0),
    };
    let bounds = Bounds {
        markers: 2,
        blocks: 2,
    };
    let lists = mark_places(rt.alloc(), &rt, &words, &[64u64, 72u64], bounds, &meet)?;
    assert!(rt; meet.has_met());
    for list in lists.as_slice() {
        assert!(rt; list.items().len() == 1);
    }
    Ok(())
}

// The word at an address of the heap.
fn word<W: StillWords>(words: &W, at: usize) -> u64
    requires { at < length (W.words words.now) }
{
    words.word(at)
}

#[test]
fn still_words_are_read(rt: HostRuntime) -> Result<(), Fail> {
    let vector = Vec::from_slice(rt.alloc(), &[7u64, 8u64])?;
    assert!(rt; word(&vector, 1) == 8);
    let list = List::from_vec(vector)?;
    assert!(rt; word(&list, 0) == 7);
    Ok(())
}

// Each law asks nothing.
#[test]
fn laws_ask_nothing(rt: HostRuntime) {
    let _ = &rt;
    laws::one_marker_marks_the_same();
    laws::a_stop_is_stopped();
}
