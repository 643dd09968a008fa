//! The segments of a heap, for which a cycle begins in constant time. `carrying` has the type that other crates see.
//!
//! When a cycle begins, every segment that isn't free changes: its snapshot is taken, and if it is filled, it is then to be
//! swept. All mutators are stopped then, and a pass over all segments takes time that grows with the heap. So `prepare` only
//! notes that this pass is late. Contracts see all segments prepared from then on, whether or not the pass was done.
//!
//! The collector does the pass in the first round of the cycle, beside the mutators, which look at no segment (`catch_up`).
//! Until then, a call that only reads answers as if the pass was done. A mark needs only the snapshot of one segment, and
//! takes it. Every other call that changes segments does the pass first, if it is still late.
//!
//! Easy to get wrong: a block that is taken before the pass would be in the snapshot, and so the object in it would look
//! unmarked, and be freed. So nothing is placed while the pass is late.
ghost use Rattle.std.specs.Prelude.{ℕ, ◌≡◌, ◌≢◌, ◌↔◌, ◌<◌, map, min, count_by, slice_set, IsTrue, IfOk, IfSome, IfNone, if◌then◌else◌};
ghost use Rattle.nmgc_object.specs.Layouts.{IsLayout};
ghost use Rattle.nmgc_segment.specs.{Marks.IsEpoch, Invariant.InSnapshot, Invariant.IsMarked, Segment.block_count};
ghost use Rattle.nmgc_alloc.specs.{AllocState.prepared, AllocState.seen_late, AllocState.is, AllocState.nth, AllocState.carried_over, CycleSteps.retired, declared.search.Category.TheVariants.Sweeping, Search.sought_count, Halves.IsInHalf, Halves.SweepsMany};

use crate::cycle_steps;
use crate::segments::Segments as Done;
use nmgc_lists::NoMemory;
use nmgc_object::{Address, Layout};
use nmgc_segment::{Segment, State};
use std::alloc::Global;
use std::marker::Model;
use std::thread::Threads;

/// The segments of a heap, in order of their numbers.
#[derive(Drop)]
pub(crate) struct Segments {
    done: Done,
    // Whether the pass of the last `prepare` is still to be done.
    late: bool,
}

impl Model for Segments {
    ghost use Rattle.std.specs.Prelude.{IsTrue};
    ghost use Rattle.nmgc_segment.specs.declared.state.State.TheVariants.{Sweeping as Waiting};
    ghost use Rattle.nmgc_alloc.specs.{AllocState.Segments as Shown, AllocState.seen_late, Segments.HasNoneIn};

    ghost Value = { Shown };

    ghost view = { λ s. seen_late s.late s.done };

    ghost invariant = { λ s. IsTrue s.late → HasNoneIn Waiting s.done };
}

// Returns the first number if the pass is late, and otherwise the second.
fn either(late: bool, first: u32, second: u32) -> u32
    ensures { result ≡ (if late then first else second) }
{
    if late { first } else { second }
}

impl Segments {
    ghost use Rattle.nmgc_alloc.specs.Segments.{all_free, IsMutator, IsClass, HasRoom, HasNoneIn, Allocates, SweepsNext, IsBlockAt, IsSegments, IsToMark, marked_if};
    ghost use Rattle.nmgc_alloc.specs.AllocState.{HasNumber, block_place};

    /// Makes all segments of a layout, each of them free. No other call takes memory. Fails with `NoMemory` if there is none.
    pub(crate) fn new(alloc: Global, layout: Layout) -> Result<Self, NoMemory>
        requires { IsLayout layout }
        ensures value { IfOk result (λ segments. segments ≡ all_free layout) }
        ensures sound { IfOk result IsSegments }
    {
        let done = Done::new(alloc, layout)?;
        Ok(Segments { done, late: false })
    }

    // Does the pass over all segments if it is late.
    fn prepare_late(done: &mut Done, late: bool)
        requires { IsTrue late → HasNoneIn State.Sweeping done.old }
        ensures { done.new ≡ seen_late late done.old }
    {
        if late {
            done.prepare();
        }
    }

    /// Does the pass of the last `prepare`, if it is still late: contracts see no change. Takes time proportional to the
    /// number of segments, once a cycle.
    pub(crate) fn catch_up(&mut self)
        ensures { self.new ≡ self.old }
    {
        Segments::prepare_late(&mut self.done, self.late);
        self.late = false;
    }

    /// Returns the layout.
    pub(crate) fn layout(&self) -> Layout
        ensures layout { result ≡ self.now.layout }
        ensures sound { IsSegments self.now }
    {
        self.done.layout()
    }

    /// Returns the number of segments filled by placing since the last cycle began, at most the number of filled segments.
    pub(crate) fn fresh(&self) -> u32
        ensures { result ≡ self.now.fresh }
    {
        either(self.late, 0, self.done.fresh())
    }

    /// Returns a segment by its number, for its class, its blocks and their marks. For its state and its snapshot there are
    /// `state` and `in_snapshot`.
    pub(crate) fn segment(&self, number: u32) -> &Segment
        requires { HasNumber self.now number }
        ensures { result.now ≡ record (nth self.now.segments number) { state = result.now.state; snap = result.now.snap } }
    {
        self.done.segment(number)
    }

    /// Returns the state of a segment.
    pub(crate) fn state(&self, number: u32) -> State
        requires { HasNumber self.now number }
        ensures { result ≡ (nth self.now.segments number).state }
    {
        cycle_steps::state_if(self.done.segment(number).state(), self.late)
    }

    /// Whether a block is in the snapshot.
    pub(crate) fn in_snapshot(&self, number: u32, block: u32) -> bool
        requires exists { HasNumber self.now number }
        requires block { block < block_count (nth self.now.segments number) }
        ensures { IsTrue result ↔ InSnapshot (nth self.now.segments number) block }
    {
        let _ = self.done.layout();
        cycle_steps::in_snapshot_if(self.done.segment(number), block, self.late)
    }

    /// Whether a block is marked with the epoch.
    pub(crate) fn is_marked(&self, number: u32, block: u32, epoch: u8) -> bool
        requires epoch { IsEpoch epoch }
        requires exists { HasNumber self.now number }
        requires block { block < block_count (nth self.now.segments number) }
        ensures { IsTrue result ↔ IsMarked (nth self.now.segments number) epoch block }
    {
        self.done.segment(number).is_marked(block, epoch)
    }

    /// Returns the number of free segments. Constant time.
    pub(crate) fn free_count(&self) -> u32
        ensures { result ≡ count_by (λ segment. is segment.state State.Free) self.now.segments }
    {
        self.done.free_count()
    }

    /// Returns the number of filled segments. Constant time.
    pub(crate) fn filled_count(&self) -> u32
        ensures { result ≡ count_by (λ segment. is segment.state State.Filled) self.now.segments }
    {
        either(self.late, 0, self.done.filled_count())
    }

    /// Returns the number of segments to be swept. Constant time.
    pub(crate) fn sweep_count(&self) -> u32
        ensures { result ≡ count_by (λ segment. is segment.state State.Sweeping) self.now.segments }
    {
        either(self.late, self.done.filled_count(), self.done.sweep_count())
    }

    /// Returns true exactly if there is room for a mutator's object of a class. The room is in the mutator's current segment
    /// of the class, which always has a free block, in an active segment of the class, or in a free segment. It is for tests:
    /// promotion knows from the reserve that there is room.
    pub(crate) fn has_room(&self, mutator: u8, class: u8) -> bool
        requires mutator { IsMutator self.now.layout mutator }
        requires class { IsClass self.now.layout class }
        ensures { IsTrue result ↔ HasRoom self.now mutator class }
    {
        self.done.has_room(mutator, class)
    }

    /// Places an object of the class for the mutator by Note [The placing rule], and returns its address. Constant time
    /// except for the search for the next unused block, and for the next segment if the current one was filled.
    pub(crate) fn allocate(&mut self, mutator: u8, class: u8) -> Address
        requires mutator { IsMutator self.old.layout mutator }
        requires class { IsClass self.old.layout class }
        requires room { HasRoom self.old mutator class }
        ensures placed { Allocates self.old self.new mutator class result.0 }
        ensures sound { IsSegments self.new }
    {
        Segments::prepare_late(&mut self.done, self.late);
        self.late = false;
        self.done.allocate(mutator, class)
    }

    /// Returns the segment's number and the block's number for the block that begins at an address, or `None` exactly if no
    /// block begins there. A free segment has no blocks. Constant time: a shift finds the segment, without a division.
    pub(crate) fn block_at(&self, at: Address) -> Option<(u32, u32)>
        ensures some { IfSome result (λ p. IsBlockAt self.now p.0 p.1 at.0) }
        ensures none { IfNone result ((number block : ℕ) → IsBlockAt self.now number block at.0 → ⊥) }
    {
        self.done.block_at(at)
    }

    /// Marks a block if it is an unmarked block of the snapshot, and returns whether it marked the block. Constant time.
    pub(crate) fn try_mark(&mut self, number: u32, block: u32, epoch: u8) -> bool
        requires epoch { IsEpoch epoch }
        requires exists { HasNumber self.old number }
        requires block { block < block_count (nth self.old.segments number) }
        ensures answer { IsTrue result ↔ IsToMark (nth self.old.segments number) epoch block }
        ensures value { self.new ≡ record self.old {
          segments =
              slice_set self.old.segments number (marked_if result epoch block (nth self.old.segments number));
        } }
        ensures sound { IsSegments self.new }
    {
        let _ = self.done.layout();
        self.done.try_mark(number, block, epoch, self.late)
    }

    /// Returns the address of the first word of a segment's block.
    pub(crate) fn place_of(&self, number: u32, block: u32) -> Address
        requires exists { HasNumber self.now number }
        requires block { block < block_count (nth self.now.segments number) }
        ensures place { result.0 ≡ block_place self.now.layout number (nth self.now.segments number).class block }
        ensures begins { (nth self.now.segments number).state ≢ State.Free → IsBlockAt self.now number block result.0 }
    {
        self.done.place_of(number, block)
    }

    /// Begins a cycle: takes the snapshot of every segment that isn't free, and sets `fresh` to 0. Filled segments are then
    /// to be swept. Requires that no segment is to be swept before. Constant time: `catch_up` does the pass over segments.
    pub(crate) fn prepare(&mut self)
        requires { HasNoneIn State.Sweeping self.old }
        ensures value { self.new ≡ record self.old { segments = map prepared self.old.segments; fresh = 0 } }
        ensures sound { IsSegments self.new }
    {
        Segments::prepare_late(&mut self.done, self.late);
        let _ = self.done.layout();
        self.late = true;
    }

    /// Sets each mark byte that isn't 0 to the epoch, in all segments that are neither free nor to be swept.
    pub(crate) fn carry(&mut self, epoch: u8)
        requires { IsEpoch epoch }
        ensures value { self.new ≡ record self.old { segments = map (carried_over epoch) self.old.segments } }
        ensures sound { IsSegments self.new }
    {
        Segments::prepare_late(&mut self.done, self.late);
        self.late = false;
        self.done.carry(epoch);
    }

    /// Sweeps the least-numbered segment that is to be swept, and returns its number. Returns `None` exactly if there is
    /// none. Constant time except for the search for that segment and the sweep.
    pub(crate) fn sweep_next(&mut self, epoch: u8) -> Option<u32>
        requires { IsEpoch epoch }
        ensures none { IfNone result (HasNoneIn State.Sweeping self.old × (self.new ≡ self.old)) }
        ensures some { IfSome result (λ number. SweepsNext self.old self.new epoch number) }
        ensures sound { IsSegments self.new }
    {
        Segments::prepare_late(&mut self.done, self.late);
        self.late = false;
        self.done.sweep_next(epoch)
    }

    /// Sweeps the first `quota` waiting segments, by number, or all if there are fewer, and returns the number of sweeps. The
    /// segments are then the same as after this number of calls of `sweep_next`. Takes no memory. It sweeps two halves in two
    /// threads. If the number of sweeps is odd, the lower half has one more. For a single segment, or if no thread can be
    /// started, the calling thread does the work. Before each sweep, a half calls `before` with its number (0 or 1) and the
    /// number of its earlier sweeps. No clause promises these calls: the requirement `before` only bounds the arguments.
    pub(crate) fn sweep_many<R: Threads + Sync, F: Fn(u8, u32) + Sync>(
        &mut self,
        rt: &R,
        epoch: u8,
        quota: u32,
        before: &F,
    ) -> u32
        requires epoch { IsEpoch epoch }
        requires before { (half i : ℕ) → IsInHalf (min quota (sought_count Sweeping self.old.segments)) half i → F.pre before.now half i }
        ensures count { result ≡ min quota (sought_count Sweeping self.old.segments) }
        ensures swept { SweepsMany epoch result self.old self.new }
        ensures sound { IsSegments self.new }
    {
        Segments::prepare_late(&mut self.done, self.late);
        self.late = false;
        self.done.sweep_many(rt, epoch, quota, before)
    }

    /// Files every current and every active segment as filled, for a full cycle that is to begin.
    pub(crate) fn retire_all(&mut self)
        ensures value { self.new ≡ record self.old { segments = map retired self.old.segments } }
        ensures sound { IsSegments self.new }
    {
        Segments::prepare_late(&mut self.done, self.late);
        self.late = false;
        self.done.retire_all();
    }
}
