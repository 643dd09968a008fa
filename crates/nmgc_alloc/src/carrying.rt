//! The segments of a heap, as other crates use them: the closing of a cycle changes them here in constant time.
//!
//! When a cycle is closed, the marks of all segments that aren't to be swept are carried over to its epoch. All mutators are
//! stopped then, and a pass over all segments and their marks takes time that grows with the heap. So `carry` only notes that
//! this pass is late. Contracts see the marks carried over from then on, whether or not the pass was done.
//!
//! The collector does the pass as it first sweeps (`sweep_many`), beside the mutators, which look at no mark. Until then, a
//! call that only reads answers as if the pass was done. Every other call does the pass first, if it is still late. At a stop
//! that happens only in a full cycle, and after a cycle with nothing to sweep.
//!
//! Easy to get wrong: a mark of the next cycle would be overwritten by this pass. So nothing is marked while it is late.
ghost use Rattle.std.specs.Prelude.{ℕ, ◌≡◌, ◌≢◌, ◌↔◌, ◌<◌, map, min, count_by, slice_set, IsTrue, IfOk, IfSome, IfNone};
ghost use Rattle.nmgc_object.specs.Layouts.{IsLayout};
ghost use Rattle.nmgc_segment.specs.{Marks.IsEpoch, Invariant.InSnapshot, Invariant.IsMarked, Segment.InUse, Segment.block_count};
ghost use Rattle.nmgc_alloc.specs.{AllocState.prepared, AllocState.is, AllocState.nth, AllocState.carried_over, AllocState.seen_carried, CycleSteps.retired, declared.search.Category.TheVariants.Sweeping, Search.sought_count, Halves.IsInHalf, Halves.SweepsMany};

use crate::late::Segments as Prepared;
use nmgc_lists::NoMemory;
use nmgc_object::{Address, Layout};
use nmgc_segment::{MAX_EPOCH, Segment, State};
use std::alloc::Global;
use std::marker::Model;
use std::thread::Threads;

/// The segments of a heap, in order of their numbers.
#[derive(Drop)]
pub struct Segments {
    done: Prepared,
    // The epoch to which marks are still to be carried over, if the pass of the last `carry` is still to be done.
    late: Option<u8>,
}

impl Model for Segments {
    ghost use Rattle.std.specs.Prelude.{IfSome};
    ghost use Rattle.nmgc_segment.specs.Marks.{IsEpoch};
    ghost use Rattle.nmgc_alloc.specs.{AllocState.Segments as Shown, AllocState.seen_carried};

    ghost Value = { Shown };

    ghost view = { λ s. seen_carried s.late s.done };

    ghost invariant = { λ s. IfSome s.late IsEpoch };
}

impl Segments {
    ghost use Rattle.nmgc_alloc.specs.Segments.{all_free, IsMutator, IsClass, HasRoom, HasNoneIn, IsWaiting, Allocates, SweepsNext, IsBlockAt, IsSegments, MarksBlock, MarksIfBlock, IsToMark, marked_if};
    ghost use Rattle.nmgc_alloc.specs.AllocState.{HasNumber, block_place};

    /// Makes all segments of a layout, each of them free. No other call takes memory. Fails with `NoMemory` if there is none.
    pub fn new(alloc: Global, layout: Layout) -> Result<Self, NoMemory>
        requires { IsLayout layout }
        ensures value { IfOk result (λ segments. segments ≡ all_free layout) }
        ensures sound { IfOk result IsSegments }
    {
        let done = Prepared::new(alloc, layout)?;
        Ok(Segments { done, late: None })
    }

    // Carries all marks over to the epoch `late`, if there is one.
    fn carry_late(done: &mut Prepared, late: Option<u8>)
        requires { IfSome late IsEpoch }
        ensures { done.new ≡ seen_carried late done.old }
    {
        if let Some(epoch) = late {
            done.carry(epoch);
        }
    }

    // Whether a block is marked with `epoch` once all marks are carried over to the epoch `late`.
    fn is_marked_if_carried(done: &Prepared, late: u8, number: u32, block: u32, epoch: u8) -> bool
        requires sound { IsSegments done.now }
        requires late { IsEpoch late }
        requires epoch { IsEpoch epoch }
        requires exists { HasNumber done.now number }
        requires block { block < block_count (nth done.now.segments number) }
        ensures { IsTrue result ↔ IsMarked (carried_over late (nth done.now.segments number)) epoch block }
    {
        match done.state(number) {
            State::Free | State::Sweeping => done.is_marked(number, block, epoch),
            State::Current { .. } | State::Active | State::Filled => {
                epoch == late
                    && (done.is_marked(number, block, 1)
                        || done.is_marked(number, block, MAX_EPOCH))
            }
        }
    }

    /// Does the passes of the last `carry` and the last `prepare`, if they are still late: contracts see no change. Takes time
    /// proportional to the number of segments, and to the marks carried over, once a cycle.
    pub fn catch_up(&mut self)
        ensures { self.new ≡ self.old }
    {
        Segments::carry_late(&mut self.done, self.late);
        self.late = None;
        self.done.catch_up();
    }

    /// Returns the layout.
    pub fn layout(&self) -> Layout
        ensures layout { result ≡ self.now.layout }
        ensures sound { IsSegments self.now }
    {
        self.done.layout()
    }

    /// Returns the number of segments filled by placing since the last cycle began, at most the number of filled segments.
    pub fn fresh(&self) -> u32
        ensures { result ≡ self.now.fresh }
    {
        self.done.fresh()
    }

    /// Returns a segment to be swept by its number, for its class, its blocks and their marks. For its state and its snapshot
    /// there are `state` and `in_snapshot`.
    pub fn segment(&self, number: u32) -> &Segment
        requires exists { HasNumber self.now number }
        requires waits { IsWaiting self.now number }
        ensures { result.now ≡ record (nth self.now.segments number) { state = result.now.state; snap = result.now.snap } }
    {
        self.done.segment(number)
    }

    /// Returns the number of blocks of a segment.
    pub fn blocks(&self, number: u32) -> u32
        requires { HasNumber self.now number }
        ensures { result ≡ block_count (nth self.now.segments number) }
    {
        self.done.segment(number).blocks()
    }

    /// Whether a block is in use.
    pub fn in_use(&self, number: u32, block: u32) -> bool
        requires exists { HasNumber self.now number }
        requires block { block < block_count (nth self.now.segments number) }
        ensures { IsTrue result ↔ InUse (nth self.now.segments number) block }
    {
        self.done.segment(number).in_use(block)
    }

    /// Returns the state of a segment.
    pub fn state(&self, number: u32) -> State
        requires { HasNumber self.now number }
        ensures { result ≡ (nth self.now.segments number).state }
    {
        self.done.state(number)
    }

    /// Whether a block is in the snapshot.
    pub fn in_snapshot(&self, number: u32, block: u32) -> bool
        requires exists { HasNumber self.now number }
        requires block { block < block_count (nth self.now.segments number) }
        ensures { IsTrue result ↔ InSnapshot (nth self.now.segments number) block }
    {
        let _ = self.done.layout();
        self.done.in_snapshot(number, block)
    }

    /// Whether a block is marked with the epoch.
    pub fn is_marked(&self, number: u32, block: u32, epoch: u8) -> bool
        requires epoch { IsEpoch epoch }
        requires exists { HasNumber self.now number }
        requires block { block < block_count (nth self.now.segments number) }
        ensures { IsTrue result ↔ IsMarked (nth self.now.segments number) epoch block }
    {
        let _ = self.done.layout();
        match self.late {
            Some(late) => Segments::is_marked_if_carried(&self.done, late, number, block, epoch),
            None => self.done.is_marked(number, block, epoch),
        }
    }

    /// Returns the number of free segments. Constant time.
    pub fn free_count(&self) -> u32
        ensures { result ≡ count_by (λ segment. is segment.state State.Free) self.now.segments }
    {
        self.done.free_count()
    }

    /// Returns the number of filled segments. Constant time.
    pub fn filled_count(&self) -> u32
        ensures { result ≡ count_by (λ segment. is segment.state State.Filled) self.now.segments }
    {
        self.done.filled_count()
    }

    /// Returns the number of segments to be swept. Constant time.
    pub fn sweep_count(&self) -> u32
        ensures { result ≡ count_by (λ segment. is segment.state State.Sweeping) self.now.segments }
    {
        self.done.sweep_count()
    }

    /// Returns true exactly if there is room for a mutator's object of a class. The room is in the mutator's current segment
    /// of the class, which always has a free block, in an active segment of the class, or in a free segment. It is for tests:
    /// promotion knows from the reserve that there is room.
    pub fn has_room(&self, mutator: u8, class: u8) -> bool
        requires mutator { IsMutator self.now.layout mutator }
        requires class { IsClass self.now.layout class }
        ensures { IsTrue result ↔ HasRoom self.now mutator class }
    {
        self.done.has_room(mutator, class)
    }

    /// Places an object of the class for the mutator by Note [The placing rule], and returns its address. Constant time
    /// except for the search for the next unused block, and for the next segment if the current one was filled.
    pub fn allocate(&mut self, mutator: u8, class: u8) -> Address
        requires mutator { IsMutator self.old.layout mutator }
        requires class { IsClass self.old.layout class }
        requires room { HasRoom self.old mutator class }
        ensures placed { Allocates self.old self.new mutator class result.0 }
        ensures sound { IsSegments self.new }
    {
        Segments::carry_late(&mut self.done, self.late);
        self.late = None;
        self.done.allocate(mutator, class)
    }

    /// Returns the segment's number and the block's number for the block that begins at an address, or `None` exactly if no
    /// block begins there. A free segment has no blocks. Constant time: a shift finds the segment, without a division.
    pub fn block_at(&self, at: Address) -> Option<(u32, u32)>
        ensures some { IfSome result (λ p. IsBlockAt self.now p.0 p.1 at.0) }
        ensures none { IfNone result ((number block : ℕ) → IsBlockAt self.now number block at.0 → ⊥) }
    {
        self.done.block_at(at)
    }

    /// Marks the block that begins at the address if it is an unmarked block of the snapshot, and returns whether it did.
    /// Otherwise nothing changes. Requires that a block begins there. For tests; the marker calls `try_mark_at`.
    pub fn mark_at(&mut self, at: Address, epoch: u8) -> bool
        requires epoch { IsEpoch epoch }
        requires begins { (number : ℕ) × (block : ℕ) × IsBlockAt self.old number block at.0 }
        ensures marks { MarksBlock self.old self.new at.0 epoch result }
        ensures sound { IsSegments self.new }
    {
        match self.block_at(at) {
            Some((number, block)) => self.try_mark(number, block, epoch),
            None => unreachable!(),
        }
    }

    /// Marks the block that begins at the address, if one begins there and is an unmarked block of the snapshot. Returns
    /// whether it marked a block. Otherwise nothing changes. Constant time.
    pub fn try_mark_at(&mut self, at: Address, epoch: u8) -> bool
        requires { IsEpoch epoch }
        ensures marks { MarksIfBlock self.old self.new at.0 epoch result }
        ensures sound { IsSegments self.new }
    {
        let _ = self.layout();
        match self.block_at(at) {
            Some((number, block)) => self.try_mark(number, block, epoch),
            None => false,
        }
    }

    /// Marks a block if it is an unmarked block of the snapshot, and returns whether it marked the block. Constant time.
    pub fn try_mark(&mut self, number: u32, block: u32, epoch: u8) -> bool
        requires epoch { IsEpoch epoch }
        requires exists { HasNumber self.old number }
        requires block { block < block_count (nth self.old.segments number) }
        ensures answer { IsTrue result ↔ IsToMark (nth self.old.segments number) epoch block }
        ensures value { self.new ≡ record self.old {
          segments =
              slice_set self.old.segments number (marked_if result epoch block (nth self.old.segments number));
        } }
        ensures sound { IsSegments self.new }
    {
        Segments::carry_late(&mut self.done, self.late);
        self.late = None;
        self.done.try_mark(number, block, epoch)
    }

    /// Returns the address of the first word of a segment's block.
    pub fn place_of(&self, number: u32, block: u32) -> Address
        requires exists { HasNumber self.now number }
        requires block { block < block_count (nth self.now.segments number) }
        ensures place { result.0 ≡ block_place self.now.layout number (nth self.now.segments number).class block }
        ensures begins { (nth self.now.segments number).state ≢ State.Free → IsBlockAt self.now number block result.0 }
    {
        self.done.place_of(number, block)
    }

    /// Begins a cycle: takes the snapshot of every segment that isn't free, and sets `fresh` to 0. Filled segments are then
    /// to be swept. Requires that no segment is to be swept before. Constant time, unless marks are still to be carried over:
    /// `catch_up` does the pass over segments.
    pub fn prepare(&mut self)
        requires { HasNoneIn State.Sweeping self.old }
        ensures value { self.new ≡ record self.old { segments = map prepared self.old.segments; fresh = 0 } }
        ensures sound { IsSegments self.new }
    {
        Segments::carry_late(&mut self.done, self.late);
        self.late = None;
        self.done.prepare();
    }

    /// Sets each mark byte that isn't 0 to the epoch, in all segments that are neither free nor to be swept. Constant time:
    /// the first sweep does the pass over segments.
    pub fn carry(&mut self, epoch: u8)
        requires { IsEpoch epoch }
        ensures value { self.new ≡ record self.old { segments = map (carried_over epoch) self.old.segments } }
        ensures sound { IsSegments self.new }
    {
        Segments::carry_late(&mut self.done, self.late);
        let _ = self.done.layout();
        self.late = Some(epoch);
    }

    /// Sweeps the least-numbered segment that is to be swept, and returns its number. Returns `None` exactly if there is
    /// none. Constant time except for the search for that segment and the sweep.
    pub fn sweep_next(&mut self, epoch: u8) -> Option<u32>
        requires { IsEpoch epoch }
        ensures none { IfNone result (HasNoneIn State.Sweeping self.old × (self.new ≡ self.old)) }
        ensures some { IfSome result (λ number. SweepsNext self.old self.new epoch number) }
        ensures sound { IsSegments self.new }
    {
        Segments::carry_late(&mut self.done, self.late);
        self.late = None;
        self.done.sweep_next(epoch)
    }

    /// Sweeps the first `quota` waiting segments, by number, or all if there are fewer, and returns the number of sweeps. The
    /// segments are then the same as after this number of calls of `sweep_next`. Takes no memory. It sweeps two halves in two
    /// threads. If the number of sweeps is odd, the lower half has one more. For a single segment, or if no thread can be
    /// started, the calling thread does the work. Before each sweep, a half calls `before` with its number (0 or 1) and the
    /// number of its earlier sweeps. No clause promises these calls: the requirement `before` only bounds the arguments.
    pub fn sweep_many<R: Threads + Sync, F: Fn(u8, u32) + Sync>(
        &mut self,
        rt: &R,
        epoch: u8,
        quota: u32,
        before: &F,
    ) -> u32
        requires epoch { IsEpoch epoch }
        requires before { (half i : ℕ) → IsInHalf (min quota (sought_count Sweeping self.old.segments)) half i → F.pre before.now half i }
        ensures count { result ≡ min quota (sought_count Sweeping self.old.segments) }
        ensures swept { SweepsMany epoch result self.old self.new }
        ensures sound { IsSegments self.new }
    {
        Segments::carry_late(&mut self.done, self.late);
        self.late = None;
        self.done.sweep_many(rt, epoch, quota, before)
    }

    /// Files every current and every active segment as filled, for a full cycle that is to begin.
    pub fn retire_all(&mut self)
        ensures value { self.new ≡ record self.old { segments = map retired self.old.segments } }
        ensures sound { IsSegments self.new }
    {
        Segments::carry_late(&mut self.done, self.late);
        self.late = None;
        self.done.retire_all();
    }
}
