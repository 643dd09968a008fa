//! A law for the small heap of these tests. The function does nothing; its contract is the law.
ghost use Rattle.std.specs.Prelude.{ℕ, List};
ghost use Rattle.nmgc_round.specs.Starting.{CanOpen};
ghost use Rattle.nmgc_heap_tests.specs.Sample.{snapshot_opening, IsSnapshotHeap};

/// A round may begin while a cycle is marking: the words of a small heap open one. In that heap a variable holds the only
/// reference to an object as the cycle begins.
pub(super) fn a_marking_round_opens()
    ensures { (words : List ℕ) → IsSnapshotHeap words → CanOpen snapshot_opening words }
{
    nmgc_heap_spec::laws::a_small_world_has_words();
}
