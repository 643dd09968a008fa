//! The second pass, which places objects: through all nurseries, and through the words of a single nursery.
//!
//! Easy to get wrong: an object is found if its entry in the table isn't 0, and found objects don't overlap. So the loop
//! continues after a found object's words. Together these words are at most the nursery's words, and the reserve suffices.
ghost use Rattle.std.specs.Prelude.{ℕ, ◌≡◌, ◌+◌, ◌-◌, ◌*◌, ◌<◌, ◌≤◌, ◌⊎◌, ◌++◌, List, length, map};
ghost use Rattle.nmgc_alloc.specs.{Reserve.KeepsReserve, Segments.IsSegments, Segments.IsMutator};
ghost use Rattle.nmgc_stop_spec.specs.Nurseries.{AreEmpty};
ghost use Rattle.nmgc_minor.specs.{declared.placing.Move.Move as Shown, Placing.CanPlaceAll, Placing.CanPlaceEach, Placing.AreNurseries, Placing.PlacesRange};
ghost use Rattle.nmgc_object.specs.Words.{nursery_place};

use crate::placing::{Move, object_words, place_object};
use nmgc_alloc::Segments;
use nmgc_heap_spec::{HeapWords, MutatorRoots};
use nmgc_lists::Room;
use nmgc_object::Nursery;

/// Gives a block to each found object of a maker's nursery (`CanPlaceAll`), in order of addresses. Adds the moves to `moves`,
/// and writes the new addresses to the table. The reserve has to suffice (`KeepsReserve`), or the nursery has to be empty. A
/// sufficient reserve then suffices for the next maker. `moves` needs room for each used word. No word changes.
pub fn place_nursery<W: HeapWords>(
    base: u32,
    table: &mut [u32],
    moves: &mut Room<Move>,
    words: &mut W,
    segments: &mut Segments,
    maker: u8,
    nursery: Nursery,
)
    requires sound { IsSegments segments.old }
    requires maker { IsMutator segments.old.layout maker }
    requires above { base ≤ nursery.base }
    requires ordered { nursery.base ≤ nursery.top }
    requires inside { nursery.top ≤ base + length table.old }
    requires nursery { nursery.top ≤ nursery.base + segments.old.layout.nursery }
    requires objects { CanPlaceAll segments.old.layout maker (W.words words.old) table.old base nursery.base nursery.top }
    requires spare { nursery.top ≤ nursery.base + moves.old.spare }
    requires reserve { KeepsReserve segments.old.layout segments.old.segments (maker * segments.old.layout.nursery) ⊎ (nursery.base ≡ nursery.top) }
    ensures sound { IsSegments segments.new }
    ensures layout { segments.new.layout ≡ segments.old.layout }
    ensures places { (added : List Shown) × (moves.new.items ≡ moves.old.items ++ added) ×
        PlacesRange base (W.words words.old) segments.old segments.new table.old table.new added nursery.base nursery.top }
    ensures spare { moves.old.spare + nursery.base ≤ moves.new.spare + nursery.top }
    ensures room { moves.new.spare + length moves.new.items ≡ moves.old.spare + length moves.old.items }
    ensures reserve { KeepsReserve segments.old.layout segments.old.segments (maker * segments.old.layout.nursery) →
        KeepsReserve segments.new.layout segments.new.segments ((maker + 1) * segments.old.layout.nursery) }
    ensures same { W.words words.new ≡ W.words words.old }
{
    let mut at = nursery.base;
    while at < nursery.top {
        let index = (at - base) as usize;
        if table[index] != 0 {
            let size = object_words(words, at);
            let moved = place_object(words, segments, maker, at, size);
            table[index] = moved.to.0;
            moves.add(moved);
            at += size;
        } else {
            at += 1;
        }
    }
}

/// Gives a block to each found object in all nurseries, in order of addresses. The premises are as for `place_nursery`.
pub fn place_nurseries<W: HeapWords, M: MutatorRoots>(
    base: u32,
    table: &mut [u32],
    moves: &mut Room<Move>,
    words: &mut W,
    segments: &mut Segments,
    mutators: &[M],
)
    requires sound { IsSegments segments.old }
    requires nurseries { AreNurseries segments.old.layout base table.old (map M.nursery mutators.now) }
    requires objects { CanPlaceEach segments.old.layout (W.words words.old) table.old base (map M.nursery mutators.now) }
    requires spare { length table.old ≤ moves.old.spare }
    requires reserve { KeepsReserve segments.old.layout segments.old.segments 0 ⊎ AreEmpty (map M.nursery mutators.now) }
    ensures sound { IsSegments segments.new }
    ensures layout { segments.new.layout ≡ segments.old.layout }
    ensures places { (added : List Shown) × (moves.new.items ≡ moves.old.items ++ added) ×
        PlacesRange base (W.words words.old) segments.old segments.new table.old table.new added base (base + length table.old) }
    ensures room { moves.new.spare + length moves.new.items ≡ moves.old.spare + length moves.old.items }
    ensures same { W.words words.new ≡ W.words words.old }
{
    for (maker, mutator) in mutators.iter().enumerate() {
        let nursery = mutator.nursery();
        place_nursery(base, table, moves, words, segments, maker as u8, nursery);
    }
}
