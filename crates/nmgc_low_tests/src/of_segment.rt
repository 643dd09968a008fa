//! A segment through two cycles.
use nmgc_segment::{Segment, State, Swept};
use std::process::Abort;
use std::test::Fail;

// Sets of four blocks.
const NONE: [bool; 4] = [false, false, false, false];

const FIRST_TWO: [bool; 4] = [true, true, false, false];

const FIRST_THREE: [bool; 4] = [true, true, true, false];

const SECOND: [bool; 4] = [false, true, false, false];

const THIRD: [bool; 4] = [false, false, true, false];

const ALL: [bool; 4] = [true, true, true, true];

// Blocks taken after the snapshot aren't in it, a sweep keeps marked blocks, and carried marks are of the next epoch.
#[test]
fn two_cycles(rt: HostRuntime) -> Result<(), Fail> {
    let words: u32 = 64;
    assert!(rt; words.is_power_of_two());
    let mut segment = Segment::new(rt.alloc(), words)?;
    assert!(rt; segment.state() == State::Free);
    segment.begin(2, 12);
    assert!(rt; segment.class() == 12);
    assert!(rt; segment.state() == State::Current { mutator: 2 });
    assert!(rt; segment.blocks() == 4);
    take(&rt, &mut segment, 0);
    take(&rt, &mut segment, 1);
    segment.snapshot();
    take(&rt, &mut segment, 2);
    look(&rt, &segment, FIRST_THREE, FIRST_TWO);

    mark(&rt, &mut segment, 1, 1);
    sweep(&rt, &mut segment, 1, Swept::Active);
    look(&rt, &segment, SECOND, SECOND);
    take(&rt, &mut segment, 0);
    take(&rt, &mut segment, 2);
    segment.snapshot();
    take(&rt, &mut segment, 3);
    assert!(rt; !segment.has_free());
    look(&rt, &segment, ALL, FIRST_THREE);

    mark(&rt, &mut segment, 2, 2);
    sweep(&rt, &mut segment, 2, Swept::Active);
    look(&rt, &segment, THIRD, THIRD);
    segment.carry(1);
    sweep(&rt, &mut segment, 2, Swept::Free);
    look(&rt, &segment, NONE, NONE);
    Ok(())
}

// A sweep that frees no block leaves the segment filled.
#[test]
fn kept_whole(rt: HostRuntime) -> Result<(), Fail> {
    let words: u32 = 16;
    assert!(rt; words.is_power_of_two());
    let mut segment = Segment::new(rt.alloc(), words)?;
    segment.begin(0, 12);
    take(&rt, &mut segment, 0);
    segment.snapshot();
    mark(&rt, &mut segment, 0, 2);
    sweep(&rt, &mut segment, 2, Swept::Filled);
    assert!(rt; segment.state() != State::Free);
    segment.set_state(State::Filled);
    assert!(rt; segment.state() == State::Filled);
    Ok(())
}

// Takes a block, and checks its number.
fn take(rt: &impl Abort, segment: &mut Segment, block: u32) {
    assert!(rt; segment.state() != State::Free && segment.has_free());
    assert!(rt; segment.take() == block);
}

// Marks a block of the snapshot.
fn mark(rt: &impl Abort, segment: &mut Segment, block: u32, epoch: u8) {
    assert!(rt; 1 <= epoch && epoch <= 2);
    assert!(rt; block < segment.blocks());
    assert!(rt; segment.in_snapshot(block));
    assert!(rt; !segment.is_marked(block, epoch));
    segment.mark(block, epoch);
    assert!(rt; segment.is_marked(block, epoch));
}

// Sweeps, and checks the answer.
fn sweep(rt: &impl Abort, segment: &mut Segment, epoch: u8, swept: Swept) {
    assert!(rt; 1 <= epoch && epoch <= 2);
    assert!(rt; segment.sweep(epoch) == swept);
}

// Compares which of four blocks are in use, and which are in the snapshot.
fn look(rt: &impl Abort, segment: &Segment, in_use: [bool; 4], in_snapshot: [bool; 4]) {
    assert!(rt; segment.blocks() == 4);
    for (block, (used, old)) in (0..4u32).zip(in_use.into_iter().zip(in_snapshot)) {
        assert!(rt; block < segment.blocks());
        assert!(rt; segment.in_use(block) == used);
        assert!(rt; segment.in_snapshot(block) == old);
    }
}
