//! Remembered addresses: which of them are marked and queued, their order, and which are passed over.
ghost use Rattle.std.specs.Prelude.{IfOk};
ghost use Rattle.nmgc_mark.specs.Marker.{HasRoomToMark};

use nmgc_alloc::Segments;
use nmgc_lists::NoMemory;
use nmgc_mark::laws;
use nmgc_mark::marker::{Marker, most_blocks};
use nmgc_object::{Address, Layout};
use std::alloc::Global;
use std::process::Abort;
use std::test::Fail;

// Allocates an object of four words, and returns its address.
fn place(rt: &impl Abort, segments: &mut Segments) -> u32 {
    let layout = segments.layout();
    assert!(rt; 0 < layout.mutators && 4 <= layout.words);
    assert!(rt; segments.has_room(0, 0));
    segments.allocate(0, 0).0
}

// Begins a cycle. No segment may be left to be swept.
fn begin(rt: &impl Abort, segments: &mut Segments) {
    let left = segments.sweep_next(1);
    assert!(rt; left.is_none());
    segments.prepare();
}

// The marker with which a cycle of epoch 1 begins. It has marked nothing yet.
fn marker_of(alloc: Global, segments: &Segments) -> Result<Marker, NoMemory>
    ensures { IfOk result (HasRoomToMark segments.now) }
{
    laws::blank_markers_have_room();
    let blocks = most_blocks(segments.layout());
    let marker = Marker::blank(alloc, 1, blocks)?;
    Ok(marker)
}

// Whether a block begins at an address, and was marked.
fn is_marked(segments: &Segments, at: u32) -> Option<bool> {
    let (number, block) = segments.block_at(Address(at))?;
    Some(segments.is_marked(number, block, 1))
}

// The addresses that wait, in order: the last found first.
fn waiting(marker: &mut Marker) -> [Option<Address>; 3] {
    [
        marker.take_first(),
        marker.take_first(),
        marker.take_first(),
    ]
}

#[test]
fn remembered_places(rt: HostRuntime) -> Result<(), Fail> {
    let layout = layout!(segments: 32, words: 64, nursery: 64, mutators: 1);
    assert!(rt; layout.words.is_power_of_two());
    let mut segments = Segments::new(rt.alloc(), layout)?;
    for block in 0..3u32 {
        assert!(rt; place(&rt, &mut segments) == 32 + 4 * block);
    }
    begin(&rt, &mut segments);
    assert!(rt; place(&rt, &mut segments) == 44);
    let mut marker = marker_of(rt.alloc(), &segments)?;
    assert!(rt; marker.is_empty());

    marker.add(&mut segments, &[Address(36), Address(32), Address(36)]);
    assert!(rt; marker.marked() == 2);
    assert!(rt; !marker.is_empty());
    assert!(rt; waiting(&mut marker) == [Some(Address(32)), Some(Address(36)), None]);
    assert!(rt; marker.is_empty());
    for (at, marked) in [
        (32, Some(true)),
        (36, Some(true)),
        (40, Some(false)),
        (44, Some(false)),
        (33, None),
    ] {
        assert!(rt; is_marked(&segments, at) == marked);
    }
    Ok(())
}

// Each law asks nothing.
#[test]
fn laws_ask_nothing(rt: HostRuntime) {
    let _ = &rt;
    laws::marking_begins_on_prepared_heaps();
    laws::a_round_begins_tied();
    laws::a_round_ends_tied();
    laws::a_tie_survives_further_objects();
    laws::marks_are_of_the_snapshot();
    laws::all_reached_is_marked();
    laws::blank_markers_have_room();
}
