//! Allocation, a cycle and a full cycle in a small heap, and a large heap of one-block segments.
use nmgc_alloc::{Segments, blocks, laws, name_laws};
use nmgc_object::{Address, Layout, block_words};
use nmgc_segment::State;
use std::process::Abort;
use std::test::Fail;

// Allocates an object, and returns its address.
fn place(rt: &impl Abort, segments: &mut Segments, mutator: u8, class: u8) -> u32 {
    let layout = segments.layout();
    assert!(rt; mutator < layout.mutators && class <= 20);
    assert!(rt; block_words(class) <= layout.words);
    assert!(rt; segments.has_room(mutator, class));
    segments.allocate(mutator, class).0
}

// Begins a cycle. No segment may be left to be swept.
fn begin(rt: &impl Abort, segments: &mut Segments) {
    let left = segments.sweep_next(1);
    assert!(rt; left.is_none());
    segments.prepare();
}

// Marks the block at an address, and compares the answer.
fn mark(rt: &impl Abort, segments: &mut Segments, at: u32, epoch: u8, marked: bool) {
    assert!(rt; 1 <= epoch && epoch <= 2);
    let found = segments.block_at(Address(at));
    assert!(rt; found.is_some(), "no block at {at}");
    if let Some((number, block)) = found {
        assert!(rt; segments.place_of(number, block) == Address(at));
    }
    assert!(rt; segments.mark_at(Address(at), epoch) == marked);
}

// Compares the numbers of free, filled and sweeping segments, and of segments filled since the snapshot.
fn counts(rt: &impl Abort, segments: &Segments, free: u32, filled: u32, sweep: u32, fresh: u32) {
    assert!(rt; segments.free_count() == free);
    assert!(rt; segments.filled_count() == filled);
    assert!(rt; segments.sweep_count() == sweep);
    assert!(rt; segments.fresh() == fresh);
}

// Checks that blocks begin at these addresses: in this segment, with this number.
fn blocks_begin(rt: &impl Abort, segments: &Segments, rows: &[(u32, u32, u32)]) {
    for (at, segment, block) in rows {
        assert!(rt;
            segments.block_at(Address(*at)) == Some((*segment, *block)),
            "at {at}"
        );
    }
}

// Checks that no block begins at these addresses.
fn none_begins(rt: &impl Abort, segments: &Segments, places: &[u32]) {
    for at in places {
        assert!(rt; segments.block_at(Address(*at)).is_none(), "at {at}");
    }
}

// Retires the four segments. The second cycle keeps one block of the first segment, which is marked before the late pass.
fn sweep_retired(rt: &impl Abort, segments: &mut Segments) {
    segments.retire_all();
    counts(rt, segments, 28, 4, 0, 0);
    begin(rt, segments);
    mark(rt, segments, 36, 2, true);
    segments.catch_up();
    counts(rt, segments, 28, 0, 4, 0);
    mark(rt, segments, 36, 2, false);
    segments.carry(2);
    for number in 0..4u32 {
        assert!(rt; segments.sweep_next(2) == Some(number));
    }
    counts(rt, segments, 31, 0, 0, 0);
    assert!(rt; 0 < segments.layout().segments);
    assert!(rt; segments.state(0) == State::Active);
    for (mutator, at) in [(1, 32), (1, 40), (0, 96)] {
        assert!(rt; place(rt, segments, mutator, 0) == at);
    }
}

// The beginnings of blocks in the first cycle of `a_cycle`: the address, the segment and its block.
const BEGINNINGS: [(u32, u32, u32); 7] = [
    (32, 0, 0),
    (92, 0, 15),
    (96, 1, 0),
    (160, 2, 0),
    (165, 2, 1),
    (215, 2, 11),
    (224, 3, 0),
];

// Blocks are allocated by class and mutator; a filled segment is swept, and so are retired segments.
#[test]
fn a_cycle(rt: HostRuntime) -> Result<(), Fail> {
    let layout = layout!(segments: 32, words: 64, nursery: 64, mutators: 2);
    assert!(rt; layout.words.is_power_of_two());
    let mut segments = Segments::new(rt.alloc(), layout)?;
    counts(&rt, &segments, 32, 0, 0, 0);
    for block in 0..15u32 {
        assert!(rt; place(&rt, &mut segments, 0, 0) == 32 + 4 * block);
    }
    assert!(rt; place(&rt, &mut segments, 1, 0) == 96);
    assert!(rt; place(&rt, &mut segments, 0, 1) == 160);
    counts(&rt, &segments, 29, 0, 0, 0);
    assert!(rt; place(&rt, &mut segments, 0, 0) == 92);
    counts(&rt, &segments, 29, 1, 0, 1);

    begin(&rt, &mut segments);
    counts(&rt, &segments, 29, 0, 1, 0);
    assert!(rt; place(&rt, &mut segments, 0, 0) == 224);
    for (at, marked) in [(36, true), (36, false), (96, true), (224, false)] {
        mark(&rt, &mut segments, at, 1, marked);
    }
    blocks_begin(&rt, &segments, &BEGINNINGS);
    // Addresses before the segments, within a block, and in the four words that twelve blocks of five words leave over; in a
    // free segment, and behind the last segment.
    none_begins(&rt, &segments, &[0, 1, 31, 33, 38, 95, 164, 219, 220, 223]);
    none_begins(&rt, &segments, &[288, 2079, 2080, 4_294_967_295]);
    segments.carry(1);
    assert!(rt; segments.sweep_next(1) == Some(0));
    assert!(rt; segments.sweep_next(1) == None);
    counts(&rt, &segments, 28, 0, 0, 0);
    sweep_retired(&rt, &mut segments);
    Ok(())
}

// Compares the answers on block 0 of segment 0: it is in use, in the snapshot, and marked with the epoch and no other.
fn is_carried(rt: &impl Abort, segments: &Segments, epoch: u8) {
    assert!(rt; 1 <= epoch && epoch <= 2);
    assert!(rt; 0 < segments.layout().segments);
    assert!(rt; segments.state(0) == State::Current { mutator: 0 });
    assert!(rt; 0 < segments.blocks(0));
    assert!(rt; segments.in_use(0, 0));
    assert!(rt; segments.in_snapshot(0, 0));
    assert!(rt; segments.is_marked(0, 0, epoch));
    assert!(rt; !segments.is_marked(0, 0, 3 - epoch));
}

// A mark is carried over late: readers see it at once, and no difference after the pass. Then the next cycle marks anew.
#[test]
fn a_late_carry(rt: HostRuntime) -> Result<(), Fail> {
    let layout = layout!(segments: 32, words: 64, nursery: 64, mutators: 2);
    assert!(rt; layout.words.is_power_of_two());
    let mut segments = Segments::new(rt.alloc(), layout)?;
    assert!(rt; place(&rt, &mut segments, 0, 0) == 32);
    begin(&rt, &mut segments);
    mark(&rt, &mut segments, 32, 1, true);
    segments.carry(2);
    is_carried(&rt, &segments, 2);
    segments.catch_up();
    is_carried(&rt, &segments, 2);
    segments.carry(1);
    is_carried(&rt, &segments, 1);
    begin(&rt, &mut segments);
    mark(&rt, &mut segments, 32, 2, true);
    is_carried(&rt, &segments, 2);
    Ok(())
}

// Each allocation fills a segment and each sweep frees one, so a search through all segments for each would take 300,000,000
// steps, in each of the cycles.
#[test]
fn one_block_segments(rt: HostRuntime) -> Result<(), Fail> {
    let layout = layout!(segments: 16_384, words: 16, nursery: 16, mutators: 1);
    assert!(rt; layout.words.is_power_of_two());
    let mut segments = Segments::new(rt.alloc(), layout)?;
    for number in 0..16_384u32 {
        assert!(rt; place(&rt, &mut segments, 0, 12) == 32 + 16 * number);
    }
    counts(&rt, &segments, 0, 16_384, 0, 16_384);
    for _ in 0..2 {
        begin(&rt, &mut segments);
        counts(&rt, &segments, 0, 0, 16_384, 0);
        for number in 0..16_384u32 {
            assert!(rt; segments.sweep_next(1) == Some(number));
            assert!(rt; place(&rt, &mut segments, 0, 12) == 32 + 16 * number);
        }
        counts(&rt, &segments, 0, 16_384, 0, 16_384);
    }
    begin(&rt, &mut segments);
    for number in 0..16_384u32 {
        assert!(rt; segments.sweep_next(1) == Some(number));
    }
    counts(&rt, &segments, 16_384, 0, 0, 0);
    Ok(())
}

// Each sweep frees a segment below the free segments. The first allocation after it fills that segment, and further
// allocations fill segments above.
#[test]
fn sweeps_and_placings_by_turns(rt: HostRuntime) -> Result<(), Fail> {
    let layout = layout!(segments: 65_536, words: 16, nursery: 16, mutators: 1);
    assert!(rt; layout.words.is_power_of_two());
    let mut segments = Segments::new(rt.alloc(), layout)?;
    for number in 0..8_192u32 {
        assert!(rt; place(&rt, &mut segments, 0, 12) == 32 + 16 * number);
    }
    begin(&rt, &mut segments);
    for number in 0..8_192u32 {
        assert!(rt; segments.sweep_next(1) == Some(number));
        assert!(rt; place(&rt, &mut segments, 0, 12) == 32 + 16 * number);
        for above in 0..6u32 {
            let next = 8_192 + 6 * number + above;
            assert!(rt; place(&rt, &mut segments, 0, 12) == 32 + 16 * next);
        }
    }
    counts(&rt, &segments, 8_192, 57_344, 0, 57_344);
    Ok(())
}

// Free segments lie above filled segments. Each sweep frees a segment below them. After it, the first allocation fills that
// segment, and the second fills the lowest segment above.
#[test]
fn sweeps_below_filled_segments(rt: HostRuntime) -> Result<(), Fail> {
    let layout = layout!(segments: 65_536, words: 16, nursery: 16, mutators: 1);
    assert!(rt; layout.words.is_power_of_two());
    let mut segments = Segments::new(rt.alloc(), layout)?;
    for number in 0..32_768u32 {
        assert!(rt; place(&rt, &mut segments, 0, 12) == 32 + 16 * number);
    }
    begin(&rt, &mut segments);
    for number in 0..8_192u32 {
        mark(&rt, &mut segments, 32 + 16 * number, 1, true);
    }
    for number in 0..32_768u32 {
        assert!(rt; segments.sweep_next(1) == Some(number));
    }
    counts(&rt, &segments, 57_344, 8_192, 0, 0);
    begin(&rt, &mut segments);
    for number in 0..8_192u32 {
        assert!(rt; segments.sweep_next(2) == Some(number));
        assert!(rt; place(&rt, &mut segments, 0, 12) == 32 + 16 * number);
        let above = 8_192 + number;
        assert!(rt; place(&rt, &mut segments, 0, 12) == 32 + 16 * above);
    }
    counts(&rt, &segments, 49_152, 16_384, 0, 16_384);
    Ok(())
}

// Each law asks nothing.
#[test]
fn laws_ask_nothing(rt: HostRuntime) {
    let _ = &rt;
    laws::blocks_lie_apart();
    laws::new_segments_are_all_free();
    laws::state_is_unique();
    laws::prepare_begins_a_cycle();
    laws::retire_all_files_as_filled();
    laws::room_is_a_target();
    laws::allocate_places_a_name();
    laws::sweep_next_sweeps_names();
    laws::carry_keeps_the_state();
    laws::mark_at_keeps_the_state();
    laws::counts_are_equal();
    laws::reserve_suffices();
    laws::placing_has_one_answer();
    laws::each_step_gives_a_state();
    laws::other_words_keep_the_state();
    laws::counts_show_waiting_and_room();
    blocks::blocks_lie_in_segments();
    blocks::allocate_returns_a_block_in_use();
    blocks::snapshot_stays();
    blocks::marks_stay();
    blocks::mark_at_marks_at_most_one_block();
    blocks::block_counts_follow();
    blocks::marked_are_at_most_the_snapshot();
    name_laws::names_keep_their_blocks();
    name_laws::names_lie_once();
    name_laws::sweeps_are_by_names();
}
