//! The laws of blocks in use, of the strong fields that words show, and of the reserve, and a sample of a heap at a stop.
//! Each function here does nothing; its contract is the law.
ghost use Rattle.std.specs.Prelude.{ℕ, ◌≡◌, ◌+◌, ◌*◌, ◌<◌, ◌≤◌, ◌⊎◌, List, Contains};
ghost use Rattle.nmgc_world_spec.specs.{declared.value.Name.Name, declared.value.Value.TheVariants.Ref, declared.node.Node.Node, World.World, Known.IsWorld, World.node_of, Reach.RefersTo, Reach.strong_fields};
ghost use Rattle.nmgc_object.specs.{Words.nursery_place, Words.InSegment, Words.block_size, declared.layout.Layout.Layout, declared.layout.TheConstants.FIRST_PLACE};
ghost use Rattle.nmgc_alloc.specs.{AllocState.Segments, Segments.IsSegments, Segments.Allocates};
ghost use Rattle.nmgc_heap_spec.specs.{Tracked.IsTracked, Objects.Place, Represents.Represents, Represents.NoNode};
ghost use Rattle.nmgc_stop_spec.specs.{Occupied.IsOccupied, Occupied.KeepsMarks, Strong.HasStrong, Room.ReserveSuffices, Samples.OneYoung};

use nmgc_object::laws::words_differ;

/// Proves that blocks in use lie within one segment each, after g and before the nurseries, and that no two of them overlap.
pub fn blocks_lie_apart()
    ensures inside { (s : Segments) (at size : ℕ) → IsSegments s → (o : IsOccupied s at size) → (i : ℕ) → at ≤ i → i < at + size →
        InSegment s.layout o.number i }
    ensures apart { (s : Segments) (p a q b : ℕ) → IsSegments s → IsOccupied s p a → IsOccupied s q b → (p ≡ q) ⊎ ((p + a ≤ q) ⊎ (q + b ≤ p)) }
    ensures above { (s : Segments) (at size : ℕ) → IsSegments s → IsOccupied s at size → FIRST_PLACE ≤ at }
    ensures below { (s : Segments) (at size : ℕ) → IsSegments s → IsOccupied s at size → at + size ≤ nursery_place s.layout 0 }
{}

/// Proves that the words of a tracked object show exactly the strong references of its node, if words represent a world
/// between rounds. Each pointer in a strong field of the words leads to an object to which the node refers. If a strong field
/// of the node refers to an object at an address, a strong field of the words points to this address.
pub fn fields_are_shown()
    ensures sound { (layout : Layout) (earlier : List World) (places : List Place) (w : World) (words : List ℕ) → IsWorld w →
        Represents layout earlier NoNode places w words → (name : Name) (node : Node) (at to : ℕ) → IsTracked w earlier name →
        node_of w name ≡ Some node → Contains places (record { at = at; name = name }) → 1 ≤ to → HasStrong words at (2 * to) → (n : Name) ×
        Contains places (record { at = to; name = n }) × RefersTo w name n }
    ensures complete { (layout : Layout) (earlier : List World) (places : List Place) (w : World) (words : List ℕ) → IsWorld w →
        Represents layout earlier NoNode places w words → (name : Name) (node : Node) (at : ℕ) (n : Name) (to : ℕ) → IsTracked w earlier name →
        node_of w name ≡ Some node → Contains places (record { at = at; name = name }) → Contains (strong_fields node) (Ref n) →
        Contains places (record { at = to; name = n }) → HasStrong words at (2 * to) }
{
    words_differ();
}

/// Proves that placing an object takes a block that shares no word with any block in use. The blocks in use stay in use, no
/// other block comes into use, and no mark changes.
pub fn placing_takes_a_new_block()
    ensures occupies { (s new : Segments) (m c at : ℕ) → IsSegments s → IsSegments new → Allocates s new m c at → IsOccupied new at (block_size c) }
    ensures stays { (s new : Segments) (m c at : ℕ) → IsSegments s → IsSegments new → Allocates s new m c at → (p size : ℕ) → IsOccupied s p size →
        IsOccupied new p size }
    ensures only { (s new : Segments) (m c at : ℕ) → IsSegments s → IsSegments new → Allocates s new m c at → (p size : ℕ) → IsOccupied new p size →
        IsOccupied s p size ⊎ (p ≡ at) }
    ensures apart { (s new : Segments) (m c at : ℕ) → IsSegments s → IsSegments new → Allocates s new m c at → (p size : ℕ) → IsOccupied s p size →
        (p + size ≤ at) ⊎ (at + block_size c ≤ p) }
    ensures marks { (s new : Segments) (m c at : ℕ) → IsSegments s → IsSegments new → Allocates s new m c at → KeepsMarks s new }
{}

/// Proves that all nursery objects find room if at least as many segments were free as the reserve (`reserve_count`). Suppose
/// that objects were then placed (`AllocatesAll`), with at most the nurseries' words in all. Then each mutator still has room
/// for an object of each class. The reason: once a free segment is filled, its objects together take at least half of its
/// words, even with words left after its last block. Besides filled segments, a mutator has at most one begun segment of each
/// class.
pub fn reserve_suffices()
    ensures { ReserveSuffices }
{}

/// Proves that a sample's free segments and words (`HoldsYoung`) are a heap at a stop (`IsStopped`) with one new object.
pub fn a_stop_may_have_a_new_object()
    ensures { OneYoung }
{}
