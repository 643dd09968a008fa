//! All segments, by number. `late` has the type that other crates see: there the beginning of a cycle takes constant time.
//!
//! Placing must take constant time, except for two searches: within one segment, and for the next segment once the current
//! one was filled. No object should need a search through all segments. A table has the number of each mutator's current
//! segment of each class. Another has a tally of each kind of segment that is searched for: free segments, segments to be
//! swept, and active segments of a class. A tally has the number of segments of the kind, and ranges without any. So the code
//! doesn't search for a kind without segments, and each search continues the last. The counts take constant time, since each
//! is updated when a segment changes its state.
//!
//! Easy to get wrong: the number in the table may be of a segment that has been filled or retired since, so the code reads
//! its state. A current segment that isn't in the table is never found, so each new one is written there.
ghost use Rattle.std.specs.Prelude.{ℕ, ◌≡◌, ◌≢◌, ◌↔◌, ◌+◌, ◌<◌, ◌≤◌, ◌/◌, ◌%◌, map, min, replicate, count_by, slice_set, IsTrue, IfOk, IfSome, IfNone};
ghost use Rattle.nmgc_object.specs.{Layouts.IsLayout, Layouts.IsSegmentSize, Words.segment_place};
ghost use Rattle.nmgc_segment.specs.{Marks.IsEpoch, Segment.free_segment, Segment.block_count};
ghost use Rattle.nmgc_alloc.specs.{AllocState.prepared, AllocState.is, AllocState.nth, AllocState.carried_over, CycleSteps.retired, CycleSteps.with_snapshot, Search.sought_count, Search.IsKind, Search.tally_from, Halves.IsInHalf, Halves.SweepsMany};

use crate::filing::Filed;
use crate::search::{self, Category};
use crate::tables::{CLASSES, KINDS, PAIRS};
use crate::tally::Tally;
use crate::{cycle_steps, filing, halves};
use nmgc_limits::MAKERS;
use nmgc_lists::NoMemory;
use nmgc_object::{Address, FIRST_PLACE, Layout, block_words};
use nmgc_segment::{Segment, State, Swept};
use std::alloc::Global;
use std::marker::Model;
use std::thread::Threads;

/// The segments of a heap, in order of their numbers.
#[derive(Drop)]
pub(crate) struct Segments {
    layout: Layout,
    segments: Vec<Segment>,
    fresh: u32,
    current: Vec<u32>,
    tallies: Vec<Tally>,
    filled: u32,
}

impl Model for Segments {
    ghost use Rattle.nmgc_alloc.specs.{AllocState.Segments as Shown, Segments.IsSegments, Segments.Leads, Segments.HaveTallies};

    ghost Value = { Shown };

    ghost view = { λ s. record {
      layout = s.layout;
      segments = s.segments.items;
      fresh = s.fresh;
    } };

    ghost invariant = { λ s. let shown : Shown = record {
      layout = s.layout;
      segments = s.segments.items;
      fresh = s.fresh;
    } in IsSegments shown × Leads s.segments.items s.current.items × HaveTallies s.segments.items s.tallies.items s.filled };
}

// Returns the number of the segment that contains a word, and the word's offset from the segment's first word. `distance` is
// the word's distance from the first segment. A segment has `words` words, a power of two: no division is needed.
fn split(distance: u32, words: u32) -> (u32, u32)
    requires { IsSegmentSize words }
    ensures number { result.0 ≡ distance / words }
    ensures rest { result.1 ≡ distance % words }
{
    (distance >> words.trailing_zeros(), distance & (words - 1))
}

// Makes all segments of a layout, each of them free.
fn free_segments(alloc: Global, layout: Layout) -> Result<Vec<Segment>, NoMemory>
    requires { IsLayout layout }
    ensures { IfOk result (λ segments. segments.items ≡ replicate layout.segments (free_segment layout.words)) }
{
    let mut segments = Vec::new(alloc);
    for _ in 0..layout.segments {
        segments.push(Segment::new(alloc, layout.words)?)?;
    }
    Ok(segments)
}

// Makes a table of `length` zeros.
fn zeroes(alloc: Global, length: usize) -> Result<Vec<u32>, NoMemory>
    ensures { IfOk result (λ table. table.items ≡ replicate length 0) }
{
    Ok(vec![in alloc; 0; length]?)
}

// Makes the table of tallies for `segments` segments that are all free.
fn first_tallies(alloc: Global, segments: u32) -> Result<Vec<Tally>, NoMemory>
    ensures { IfOk result (λ tallies. tallies.items ≡ slice_set (replicate KINDS (tally_from 0 segments)) 0 (tally_from segments 0)) }
{
    let mut tallies = vec![in alloc; Tally::new(0, segments); KINDS]?;
    tallies[Category::Free.place()] = Tally::new(segments, 0);
    Ok(tallies)
}

impl Segments {
    ghost use Rattle.nmgc_alloc.specs.Segments.{all_free, IsMutator, IsClass, IsCurrent, HasRoom, HasNone, HasNoneIn, HasNoCurrent, Allocates, SweepsNext, IsBlockAt, IsSegments, IsOwn, IsLeast, IsOpen, CountsFilled, TakesBlock, IsChosen, SweepsSegment, IsToMark, as_current, marked_if};
    ghost use Rattle.nmgc_alloc.specs.AllocState.{HasNumber, block_place};

    /// Makes all segments of a layout, each of them free. No other call takes memory. Fails with `NoMemory` if there is none.
    pub(crate) fn new(alloc: Global, layout: Layout) -> Result<Self, NoMemory>
        requires { IsLayout layout }
        ensures value { IfOk result (λ segments. segments ≡ all_free layout) }
        ensures sound { IfOk result IsSegments }
    {
        let segments = free_segments(alloc, layout)?;
        let current = zeroes(alloc, PAIRS)?;
        let tallies = first_tallies(alloc, layout.segments)?;
        Ok(Segments {
            layout,
            segments,
            fresh: 0,
            current,
            tallies,
            filled: 0,
        })
    }

    /// Returns the layout.
    pub(crate) fn layout(&self) -> Layout
        ensures layout { result ≡ self.now.layout }
        ensures sound { IsSegments self.now }
    {
        // Note [Lines that do nothing]
        //
        // Some lines do nothing when they run. A read of a field, as here, gives the prover the invariant of the value's
        // type: that all segments are sound. In other methods it may be `let _limit = self.limit;`, and a caller writes `let
        // _ = segments.layout();`. A call of a law, such as `a_stop_leads();` in `nmgc_cycle/src/stop.rt`, gives the prover
        // the law. `let _ = command;` is for an argument that only clauses read. Before a call that changes something, `let
        // _` only drops the answer: `let _ = self.queue.take_first();`.
        let _ = &self.segments;
        self.layout
    }

    /// Returns the number of segments filled by placing since the last cycle began, at most the number of filled segments.
    pub(crate) fn fresh(&self) -> u32
        ensures { result ≡ self.now.fresh }
    {
        self.fresh
    }

    /// Returns a segment by its number.
    pub(crate) fn segment(&self, number: u32) -> &Segment
        requires { HasNumber self.now number }
        ensures { result.now ≡ nth self.now.segments number }
    {
        &self.segments[number as usize]
    }

    /// Returns the number of free segments. Constant time.
    pub(crate) fn free_count(&self) -> u32
        ensures { result ≡ count_by (λ segment. is segment.state State.Free) self.now.segments }
    {
        self.tallies[Category::Free.place()].count
    }

    /// Returns the number of filled segments. Constant time.
    pub(crate) fn filled_count(&self) -> u32
        ensures { result ≡ count_by (λ segment. is segment.state State.Filled) self.now.segments }
    {
        self.filled
    }

    /// Returns the number of segments to be swept. Constant time.
    pub(crate) fn sweep_count(&self) -> u32
        ensures { result ≡ count_by (λ segment. is segment.state State.Sweeping) self.now.segments }
    {
        self.tallies[Category::Sweeping.place()].count
    }

    // Returns the entry for a mutator and a class in the table of current segments: the number of the mutator's current
    // segment of the class. Without such a segment, the entry means nothing.
    fn table_entry(&self, mutator: u8, class: u8) -> u32
        requires mutator { mutator < MAKERS }
        requires class { class < CLASSES }
        ensures noted { (number : ℕ) → HasNumber self.now number → IsCurrent mutator class (nth self.now.segments number) → result ≡ number }
        ensures sound { IsSegments self.now }
    {
        let _ = &self.segments;
        self.current[usize::from(mutator) * CLASSES + usize::from(class)]
    }

    // Returns the number of the mutator's current segment of the class, or `None` exactly if it has none.
    fn current_of(&self, mutator: u8, class: u8) -> Option<u32>
        requires mutator { mutator < MAKERS }
        requires class { class < CLASSES }
        ensures some { IfSome result (λ number. IsOwn self.now mutator class number) }
        ensures none { IfNone result (HasNoCurrent self.now mutator class) }
    {
        let number = self.table_entry(mutator, class);
        if number as usize >= self.segments.len() {
            return None;
        }
        let segment = &self.segments[number as usize];
        if segment.state() == (State::Current { mutator }) && segment.class() == class {
            Some(number)
        } else {
            None
        }
    }

    // Returns the least number of a segment of the kind, or `None` exactly if there is no such segment.
    fn least_of_kind(&self, category: Category) -> Option<u32>
        requires { IsKind category }
        ensures some { IfSome result (λ number. IsLeast category self.now number) }
        ensures none { IfNone result (HasNone category self.now) }
        ensures sound { IsSegments self.now }
    {
        let tally = self.tallies[category.place()];
        let number = search::least_of_kind(self.segments.as_slice(), tally, category);
        if (number as usize) < self.segments.len() {
            Some(number)
        } else {
            None
        }
    }

    // Makes segment `number`, the least-numbered of its kind (active or free), the mutator's current segment of the class.
    fn make_current(&mut self, number: u32, mutator: u8, class: u8, category: Category)
        requires mutator { mutator < MAKERS }
        requires class { class < CLASSES }
        requires fits { IsClass self.old.layout class }
        requires kind { IsKind category }
        requires least { IsLeast category self.old number }
        requires open { IsOpen class (nth self.old.segments number) }
        requires no_current { HasNoCurrent self.old mutator class }
        ensures { self.new ≡ record self.old { segments = slice_set self.old.segments number (as_current mutator class (nth self.old.segments number)) } }
    {
        let segment = &mut self.segments[number as usize];
        cycle_steps::open(segment, mutator, class);
        self.current[usize::from(mutator) * CLASSES + usize::from(class)] = number;
        self.tallies[category.place()].leave(number, self.layout.segments);
    }

    // Takes the first unused block of a current segment, and returns the block's number. If no block is left then,
    // `take_block` of `cycle_steps` files the segment as filled, and this function counts it.
    fn take_block_in(&mut self, number: u32) -> u32
        requires exists { HasNumber self.old number }
        requires current { (mutator : ℕ) × ((nth self.old.segments number).state ≡ State.Current mutator) }
        ensures takes { TakesBlock (nth self.old.segments number) (nth self.new.segments number) result }
        ensures others { self.new.segments ≡ slice_set self.old.segments number (nth self.new.segments number) }
        ensures layout { self.new.layout ≡ self.old.layout }
        ensures fresh { CountsFilled (nth self.new.segments number) self.old.fresh self.new.fresh }
        ensures sound { IsSegments self.new }
    {
        let segment = &mut self.segments[number as usize];
        let block = cycle_steps::take_block(segment);
        if !segment.has_free() {
            self.fresh += 1;
            self.filled += 1;
        }
        block
    }

    // Chooses the segment for a mutator's next object of a class, makes it current, and returns its number.
    //
    // Note [The placing rule]
    //
    // The address to which an object is promoted depends only on the segments, its mutator and its class: the least class
    // whose blocks are large enough for it. The object goes into the mutator's current segment of the class. If there is
    // none, the least-numbered active segment of the class becomes current, or else the least-numbered free one.
    //
    // There the object takes the least unused block. If no block is free then, the segment is filed as filled and counted in
    // `fresh`. So a current segment always has a free block; filled segments and segments to be swept take no objects.
    //
    // Promotions place objects in order of names. So a report doesn't depend on how the code finds a segment. The rule is
    // `Allocates` in `specs/Segments.antt`, and by names, as in a report, `PlacesName` in `specs/AllocState.antt`.
    fn choose_segment(&mut self, mutator: u8, class: u8) -> u32
        requires mutator { mutator < MAKERS }
        requires class { class < CLASSES }
        requires fits { IsClass self.old.layout class }
        requires room { HasRoom self.old mutator class }
        ensures chosen { IsChosen self.old mutator class result }
        ensures value { self.new ≡ record self.old { segments = slice_set self.old.segments result (as_current mutator class (nth self.old.segments result)) } }
        ensures exists { HasNumber self.new result }
        ensures current { (nth self.new.segments result).state ≡ State.Current mutator }
    {
        if let Some(number) = self.current_of(mutator, class) {
            return number;
        }
        let active = Category::Active { class };
        if let Some(number) = self.least_of_kind(active) {
            self.make_current(number, mutator, class, active);
            return number;
        }
        match self.least_of_kind(Category::Free) {
            Some(number) => {
                self.make_current(number, mutator, class, Category::Free);
                number
            }
            None => unreachable!(),
        }
    }

    /// Returns true exactly if there is room for a mutator's object of a class.
    pub(crate) fn has_room(&self, mutator: u8, class: u8) -> bool
        requires mutator { IsMutator self.now.layout mutator }
        requires class { IsClass self.now.layout class }
        ensures { IsTrue result ↔ HasRoom self.now mutator class }
    {
        let _ = &self.segments;
        self.current_of(mutator, class).is_some()
            || self.least_of_kind(Category::Active { class }).is_some()
            || self.least_of_kind(Category::Free).is_some()
    }

    /// Places an object of the class for the mutator by Note [The placing rule], and returns its address. Constant time
    /// except for the search for the next unused block, and for the next segment if the current one was filled.
    pub(crate) fn allocate(&mut self, mutator: u8, class: u8) -> Address
        requires mutator { IsMutator self.old.layout mutator }
        requires class { IsClass self.old.layout class }
        requires room { HasRoom self.old mutator class }
        ensures placed { Allocates self.old self.new mutator class result.0 }
        ensures sound { IsSegments self.new }
    {
        let _ = &self.segments;
        let number = self.choose_segment(mutator, class);
        let block = self.take_block_in(number);
        self.place_of(number, block)
    }

    /// Returns the segment's number and the block's number for the block that begins at an address, or `None` exactly if no
    /// block begins there. A free segment has no blocks. Constant time: a shift finds the segment, without a division.
    pub(crate) fn block_at(&self, at: Address) -> Option<(u32, u32)>
        ensures some { IfSome result (λ p. IsBlockAt self.now p.0 p.1 at.0) }
        ensures none { IfNone result ((number block : ℕ) → IsBlockAt self.now number block at.0 → ⊥) }
    {
        let (number, offset) = self.segment_at(at)?;
        self.block_in(number, offset)
    }

    /// Marks a block if it is an unmarked block of the snapshot, and returns whether it marked the block. If the segment's
    /// snapshot is `late`, takes it first. Constant time.
    pub(crate) fn try_mark(&mut self, number: u32, block: u32, epoch: u8, late: bool) -> bool
        requires epoch { IsEpoch epoch }
        requires exists { HasNumber self.old number }
        requires block { block < block_count (nth self.old.segments number) }
        ensures answer { IsTrue result ↔ IsToMark (with_snapshot late (nth self.old.segments number)) epoch block }
        ensures value { self.new ≡ record self.old {
          segments =
              slice_set self.old.segments number (marked_if result epoch block (with_snapshot late (nth self.old.segments number)));
        } }
        ensures sound { IsSegments self.new }
    {
        let segment = &mut self.segments[number as usize];
        cycle_steps::snapshot_if(segment, late);
        cycle_steps::mark_if_unmarked(segment, block, epoch)
    }

    // Returns the number of the segment in which an address lies, and the offset in it, or `None` if it lies in no segment.
    fn segment_at(&self, at: Address) -> Option<(u32, u32)>
        ensures some { IfSome result (λ p. HasNumber self.now p.0 × (p.1 < self.now.layout.words) × (at.0 ≡ segment_place self.now.layout p.0 + p.1)) }
        ensures none { IfNone result ((number block : ℕ) → IsBlockAt self.now number block at.0 → ⊥) }
    {
        let _ = &self.segments;
        let distance = at.0.checked_sub(FIRST_PLACE)?;
        let (number, offset) = split(distance, self.layout.words);
        if number as usize >= self.segments.len() {
            return None;
        }
        Some((number, offset))
    }

    // Returns `number` and the segment's block at `offset`, or `None` exactly if it is free or no block begins at `offset`.
    fn block_in(&self, number: u32, offset: u32) -> Option<(u32, u32)>
        requires exists { HasNumber self.now number }
        requires within { offset < self.now.layout.words }
        ensures some { IfSome result (λ p. IsBlockAt self.now p.0 p.1 (segment_place self.now.layout number + offset)) }
        ensures none { IfNone result ((other block : ℕ) → IsBlockAt self.now other block (segment_place self.now.layout number + offset) → ⊥) }
    {
        let _ = &self.segments;
        if self.is_free(number) {
            return None;
        }
        let block = self.segments[number as usize].block_at(offset)?;
        Some((number, block))
    }

    // Whether a segment is free.
    fn is_free(&self, number: u32) -> bool
        requires { HasNumber self.now number }
        ensures { IsTrue result ↔ ((nth self.now.segments number).state ≡ State.Free) }
    {
        self.segment(number).state() == State::Free
    }

    /// Returns the address of the first word of a segment's block.
    pub(crate) fn place_of(&self, number: u32, block: u32) -> Address
        requires exists { HasNumber self.now number }
        requires block { block < block_count (nth self.now.segments number) }
        ensures place { result.0 ≡ block_place self.now.layout number (nth self.now.segments number).class block }
        ensures begins { (nth self.now.segments number).state ≢ State.Free → IsBlockAt self.now number block result.0 }
    {
        let segment = &self.segments[number as usize];
        Address(self.layout.segment_base(number) + block * block_words(segment.class()))
    }

    /// Begins a cycle: takes the snapshot of every segment that isn't free, and sets `fresh` to 0. Filled segments are then
    /// to be swept. Requires that no segment is to be swept before.
    #[cold]
    #[inline(never)]
    pub(crate) fn prepare(&mut self)
        requires { HasNoneIn State.Sweeping self.old }
        ensures value { self.new ≡ record self.old { segments = map prepared self.old.segments; fresh = 0 } }
        ensures sound { IsSegments self.new }
    {
        cycle_steps::prepare_all(self.segments.as_mut_slice());
        self.fresh = 0;
        self.tallies[Category::Sweeping.place()] = Tally::new(self.filled, 0);
        self.filled = 0;
    }

    /// Sets each mark byte that isn't 0 to the epoch, in all segments that are neither free nor to be swept.
    #[cold]
    #[inline(never)]
    pub(crate) fn carry(&mut self, epoch: u8)
        requires { IsEpoch epoch }
        ensures value { self.new ≡ record self.old { segments = map (carried_over epoch) self.old.segments } }
        ensures sound { IsSegments self.new }
    {
        cycle_steps::carry_all(self.segments.as_mut_slice(), epoch);
    }

    /// Sweeps the least-numbered segment that is to be swept, and returns its number. Returns `None` exactly if there is
    /// none. Constant time except for the search for that segment and the sweep.
    pub(crate) fn sweep_next(&mut self, epoch: u8) -> Option<u32>
        requires { IsEpoch epoch }
        ensures none { IfNone result (HasNoneIn State.Sweeping self.old × (self.new ≡ self.old)) }
        ensures some { IfSome result (λ number. SweepsNext self.old self.new epoch number) }
        ensures sound { IsSegments self.new }
    {
        let number = self.least_of_kind(Category::Sweeping)?;
        self.sweep_and_count(number, epoch);
        Some(number)
    }

    /// Sweeps the first `quota` waiting segments, by number, or all if there are fewer, and returns the number of sweeps. See
    /// `late`.
    pub(crate) fn sweep_many<R: Threads + Sync, F: Fn(u8, u32) + Sync>(
        &mut self,
        rt: &R,
        epoch: u8,
        quota: u32,
        before: &F,
    ) -> u32
        requires epoch { IsEpoch epoch }
        requires before { (half i : ℕ) → IsInHalf (min quota (sought_count Category.Sweeping self.old.segments)) half i → F.pre before.now half i }
        ensures count { result ≡ min quota (sought_count Category.Sweeping self.old.segments) }
        ensures swept { SweepsMany epoch result self.old self.new }
        ensures sound { IsSegments self.new }
    {
        let count = quota.min(self.sweep_count());
        if count == 1 {
            self.sweep_one(epoch, before);
            return count;
        }
        self.sweep_halves(rt, epoch, count, before);
        count
    }

    // Sweeps the first waiting segment, after a call of `before` with 0 and 0. Requires that a segment waits.
    fn sweep_one<F: Fn(u8, u32)>(&mut self, epoch: u8, before: &F)
        requires epoch { IsEpoch epoch }
        requires some { HasNoneIn State.Sweeping self.old → ⊥ }
        requires before { F.pre before.now 0 0 }
        ensures swept { SweepsMany epoch 1 self.old self.new }
        ensures sound { IsSegments self.new }
    {
        before(0, 0);
        let Some(_) = self.sweep_next(epoch) else {
            unreachable!();
        };
    }

    // Sweeps the first `count` waiting segments in two halves, and updates the tallies and `filled` by the results.
    fn sweep_halves<R: Threads + Sync, F: Fn(u8, u32) + Sync>(
        &mut self,
        rt: &R,
        epoch: u8,
        count: u32,
        before: &F,
    )
        requires epoch { IsEpoch epoch }
        requires enough { count ≤ sought_count Category.Sweeping self.old.segments }
        requires before { (half i : ℕ) → IsInHalf count half i → F.pre before.now half i }
        ensures swept { SweepsMany epoch count self.old self.new }
        ensures sound { IsSegments self.new }
    {
        let waiting = self.tallies[Category::Sweeping.place()];
        let from = waiting.from as usize;
        let mut lower = Filed::none();
        let mut upper = Filed::none();
        let past = halves::sweep_from(
            rt,
            before,
            epoch,
            count,
            from,
            &mut lower,
            &mut upper,
            self.segments.as_mut_slice(),
        );
        let end = past as u32;
        filing::take_up(
            self.tallies.as_mut_slice(),
            &lower,
            &upper,
            waiting.from,
            end,
        );
        self.tallies[Category::Sweeping.place()] = Tally::new(waiting.count - count, end);
        self.filled += lower.filled + upper.filled;
    }

    // Sweeps segment `number`, the least that is to be swept, and updates the tallies and `filled` by its new state.
    fn sweep_and_count(&mut self, number: u32, epoch: u8)
        requires epoch { IsEpoch epoch }
        requires least { IsLeast Category.Sweeping self.old number }
        ensures sweeps { SweepsSegment (nth self.old.segments number) (nth self.new.segments number) epoch }
        ensures others { self.new ≡ record self.old { segments = slice_set self.old.segments number (nth self.new.segments number) } }
        ensures sound { IsSegments self.new }
    {
        let segment = &mut self.segments[number as usize];
        let class = segment.class();
        let swept = cycle_steps::sweep_and_file(segment, epoch);
        self.tallies[Category::Sweeping.place()].leave(number, self.layout.segments);
        match swept {
            Swept::Free => self.tallies[Category::Free.place()].enter(number),
            Swept::Active => self.tallies[Category::Active { class }.place()].enter(number),
            Swept::Filled => self.filled += 1,
        }
    }

    /// Files every current and every active segment as filled, for a full cycle that is to begin.
    pub(crate) fn retire_all(&mut self)
        ensures value { self.new ≡ record self.old { segments = map retired self.old.segments } }
        ensures sound { IsSegments self.new }
    {
        cycle_steps::retire_all(self.segments.as_mut_slice());
        let free = self.tallies[Category::Free.place()];
        let sweeping = self.tallies[Category::Sweeping.place()];
        self.filled = self.layout.segments - free.count - sweeping.count;
        self.tallies.fill(Tally::new(0, self.layout.segments));
        self.tallies[Category::Free.place()] = free;
        self.tallies[Category::Sweeping.place()] = sweeping;
    }
}
