//! The block of each name after each step of the allocation state; no name lies in two blocks.
//!
//! Each function here does nothing; its contract is the law, over the steps of the allocation state. The blocks that a sweep
//! keeps are given by the mark bytes, as for `Segments::sweep_next`, or by a list of names, as for a cycle's census. If these
//! agree, a sweep by marks is a sweep by names.
ghost use Rattle.std.specs.Prelude.{ℕ, ◌≡◌, ◌+◌, ◌⊎◌, ◌↔◌, List, Contains};
ghost use Rattle.nmgc_world_spec.specs.declared.value.Name.{Name};
ghost use Rattle.nmgc_object.specs.declared.layout.Layout.{Layout};
ghost use Rattle.nmgc_segment.specs.{Segment.Segment, Invariant.IsMarked};
ghost use Rattle.nmgc_alloc.specs.{AllocState.AllocState, Invariant.IsAllocState, AllocState.IsIn, AllocState.NoneIs, AllocState.PlacesName, AllocState.Sweeps, AllocState.SweepsSome, AllocState.HoldsKept, AllocState.LiesIn, Invariant.LiesNowhere, Invariant.LieOnce, AllocState.all_empty, AllocState.cycle_begun, AllocState.all_retired, AllocState.count_in};

use nmgc_segment::State;

/// Proves that names keep their blocks, unless a sweep drops them. Placing a name puts it into its block and moves no other
/// name. A sweep drops exactly the names in its segment's unmarked blocks. A cycle's beginning and retiring move no name.
pub fn names_keep_their_blocks()
    ensures placing { (layout : Layout) (old new : AllocState) (mutator class : ℕ) (name : Name) → IsAllocState layout old →
        (p : PlacesName layout old new mutator class name) → (number block : ℕ) (other : Name) → LiesIn new number block other ↔
        (((other ≡ name) × (number ≡ p.number) × (block ≡ p.block)) ⊎ LiesIn old number block other) }
    ensures sweeping { (old new : AllocState) (segment : Segment) (epoch swept : ℕ) → Sweeps old new swept (IsMarked segment epoch) →
        (number block : ℕ) (name : Name) → LiesIn new number block name ↔ (LiesIn old number block name × (number ≡ swept → IsMarked segment epoch block)) }
    ensures begun { (old : AllocState) (number block : ℕ) (name : Name) → LiesIn (cycle_begun old) number block name ↔ LiesIn old number block name }
    ensures retired { (old : AllocState) (number block : ℕ) (name : Name) → LiesIn (all_retired old) number block name ↔ LiesIn old number block name }
{}

/// Proves that each name lies in at most one block while all segments are free, and after each step if it did before the
/// step. If a name is placed, it must have lain in no block before.
pub fn names_lie_once()
    ensures first { (count : ℕ) → LieOnce (all_empty count) }
    ensures placing { (layout : Layout) (old new : AllocState) (mutator class : ℕ) (name : Name) → PlacesName layout old new mutator class name →
        LiesNowhere old name → LieOnce old → LieOnce new }
    ensures sweeping { (old new : AllocState) (segment : Segment) (epoch swept : ℕ) → Sweeps old new swept (IsMarked segment epoch) → LieOnce old →
        LieOnce new }
    ensures begun { (old : AllocState) → LieOnce old → LieOnce (cycle_begun old) }
    ensures retired { (old : AllocState) → LieOnce old → LieOnce (all_retired old) }
{}

/// Proves that a sweep by marks is a sweep by names, if a block of the segment with a name is marked exactly if the name is
/// to be kept. No sweep at all counts as 0 sweeps by names (`SweepsSome`), and one sweep more adds 1. After `count` sweeps,
/// `count` fewer segments wait to be swept. After a sweep for each waiting segment, none waits.
pub fn sweeps_are_by_names()
    ensures by_names { (old new : AllocState) (segment : Segment) (epoch swept : ℕ) (kept : List Name) →
        ((block : ℕ) (name : Name) → LiesIn old swept block name → IsMarked segment epoch block ↔ Contains kept name) →
        Sweeps old new swept (IsMarked segment epoch) → Sweeps old new swept (HoldsKept (Contains kept) old swept) }
    ensures none { (kept : List Name) (old : AllocState) → SweepsSome (Contains kept) 0 old old }
    ensures one_more { (kept : List Name) (count swept : ℕ) (old next new : AllocState) → SweepsSome (Contains kept) count old next →
        Sweeps next new swept (HoldsKept (Contains kept) next swept) → SweepsSome (Contains kept) (count + 1) old new }
    ensures count { (kept : List Name) (count : ℕ) (old new : AllocState) → SweepsSome (Contains kept) count old new →
        count_in State.Sweeping new + count ≡ count_in State.Sweeping old }
    ensures all { (kept : List Name) (old new : AllocState) → SweepsSome (Contains kept) (count_in State.Sweeping old) old new →
        NoneIs (IsIn State.Sweeping) new }
{}
