//! The sweeper of one cycle: the segments that it has to sweep, and the names that it listed and freed.
//!
//! The waiting segments are exactly the segments that this sweeper planned and hasn't swept, in the same order. Each name is
//! judged once, before its segment's sweep: the sweep leaves in use exactly the blocks that are marked with this cycle's
//! epoch. So a call lists the names in all segments that it will sweep. Then it sweeps them in two halves, in two threads if
//! a thread can be started. Each half passes the gate under its own number, so the sweeper has two counts. The lower half
//! continues the marker's count. The upper half continues the count of the upper halves before it.
//!
//! All mutators are stopped when a sweeper starts, and a pass over all segments takes time that grows with the heap. So the
//! start looks at no segment. The list of the segments to be swept is a witness (`planned`), which only clauses read. The
//! sweeper searches for each of them when it is about to be swept, beside the mutators, and keeps its number then (`done`).
//!
//! Room for all numbers and names is taken at the start, so that sweeping beside the mutators takes no memory. Reserved memory
//! isn't touched. The room suffices even if no two names are consecutive.
//!
//! Easy to get wrong: the names had and freed are in the order of their blocks, and several makers' segments alternate. So
//! the sweeper's lists aren't in order of names. A report puts them in order in the cycle's row.
ghost use Rattle.std.specs.Prelude.{ℕ, ◌≡◌, ◌≢◌, ◌+◌, ◌++◌, ◌-◌, ◌/◌, ◌^◌, ◌<◌, ◌≤◌, [], length, min, IsTrue, IfOk, ◌↔◌};
ghost use Rattle.nmgc_segment.specs.Marks.{IsEpoch};
ghost use Rattle.nmgc_alloc.specs.{Halves.IsInHalf, Segments.IsWaiting};
ghost use Rattle.nmgc_name_lists.specs.Spans.{names_in};
ghost use Rattle.nmgc_round.specs.Gate.{passed};
ghost use Rattle.nmgc_sweep.specs.{NameTable.HaveEntries, Sweeper.AreLeft, Sweeper.CanList, Work.HasBegun, Work.HasListed, Work.HaveListed, Work.HasSwept, Work.HasJudged};

use crate::listing::list_segment;
use crate::name_table::NameTable;
use nmgc_alloc::Segments;
use nmgc_limits::MAKERS;
use nmgc_lists::{List, NoMemory};
use nmgc_name_lists::{NameList, NameRoom, Span};
use nmgc_object::MIN_BLOCK_WORDS;
use nmgc_round::witness::WitnessFor;
use nmgc_round::{Gate, Witness};
use nmgc_segment::State;
use std::alloc::Global;
use std::marker::Model;
use std::thread::Threads;

/// The work of a sweeper in a round: the number of segments it swept, and whether it has swept all.
#[derive(Clone, Copy, Debug, PartialEq, Eq)]
pub struct SweepWork {
    pub swept: u32,
    pub finished: bool,
}

/// A sweep's part of the census, for its cycle's row. The names are in no order.
#[derive(Drop)]
pub struct Census {
    /// The numbers of the segments that waited at the snapshot, in order.
    pub swept: Vec<u32>,
    /// The names of the blocks that were in use in them at the snapshot.
    pub had: NameList,
    /// The names among `had` that were freed.
    pub freed: NameList,
}

// A sweeper's list of the waiting segments, in order.
struct WaitingSegments;

impl WitnessFor<Segments, List<u32>> for WaitingSegments {
    ghost use Rattle.nmgc_alloc.specs.Segments.{IsWaiting};
    ghost use Rattle.nmgc_world_spec.specs.Reach.{ListsNumbers};

    ghost wanted = { λ segments numbers. ListsNumbers (IsWaiting segments) numbers };
}

/// The sweeper of a cycle. Contracts see its epoch, the segments that it has to sweep, the names in the segments that it swept
/// and the freed names among them. They also see its unswept segments, its room for names in each, and its counts of the gate.
#[derive(Drop)]
pub struct Sweeper {
    /// How often the collector passed the gate as `MAKERS` in the whole run. The count stops at 2^64 - 1.
    pub turns: u64,
    /// How often the upper halves of its sweeps passed the gate, as `MAKERS + 1`. The count stops at 2^64 - 1.
    pub upper_turns: u64,
    epoch: u8,
    // The numbers of the segments to be swept, which only clauses read, and how many they are.
    planned: Witness<List<u32>>,
    count: u32,
    // The numbers of the segments listed so far, and the number from which the next is searched for.
    done: Vec<u32>,
    next: u32,
    most: u32,
    had: NameRoom,
    freed: NameRoom,
}

impl Model for Sweeper {
    ghost use Rattle.std.specs.Prelude.{◌≡◌, ◌-◌, ◌*◌, ◌≤◌, length, drop, vec_capacity};
    ghost use Rattle.nmgc_segment.specs.Marks.{IsEpoch};
    ghost use Rattle.nmgc_sweep.specs.Sweeper.{Sweeper as Shown, IsOnPlan};

    ghost Value = { Shown };

    ghost view = { λ s. record {
      seen = record { epoch = s.epoch; swept = s.planned.value; had = s.had.names; freed = s.freed.names };
      left = drop (length s.done.items) s.planned.value;
      most = s.most;
      turns = s.turns;
      upper_turns = s.upper_turns;
    } };

    ghost invariant = { λ s. IsEpoch s.epoch × IsOnPlan s.planned.value s.done.items s.next × (length s.planned.value ≡ s.count) × (s.count ≤ vec_capacity s.done)
        × ((s.count - length s.done.items) * s.most ≤ s.had.spare) × ((s.count - length s.done.items) * s.most ≤ s.freed.spare) };
}

// Returns the first waiting segment from the number `from` on. There has to be one. Takes time proportional to the segments
// that it looks at, which are those up to the returned one.
fn first_waiting(segments: &Segments, from: u32) -> u32
    requires { (number : ℕ) × (from ≤ number) × IsWaiting segments.now number }
    ensures waits { IsWaiting segments.now result }
    ensures from { from ≤ result }
    ensures first { (number : ℕ) → from ≤ number → number < result → IsWaiting segments.now number → ⊥ }
    ensures below { result + 1 < 2 ^ 32 }
{
    for number in from..segments.layout().segments {
        if segments.state(number) == State::Sweeping {
            return number;
        }
    }
    unreachable!()
}

// Returns the count of the gate's passes after `passes` further passes. The count stops at 2^64 - 1.
fn add_passes(turns: u64, passes: u32) -> u64
    ensures { result ≡ passed turns passes }
{
    turns.saturating_add(u64::from(passes))
}

impl Sweeper {
    /// Makes the sweeper of a cycle that begins. The sweeper is to sweep all waiting segments (after `Segments::prepare`, the
    /// segments that the cycle sweeps). It takes room for their numbers, for all names in them and for all names that will
    /// be freed, and needs no further memory. Its `turns` and `upper_turns` are 0. Constant time.
    pub fn start(alloc: Global, segments: &Segments, epoch: u8) -> Result<Sweeper, NoMemory>
        requires epoch { IsEpoch epoch }
        ensures begun { IfOk result (λ sweeper. HasBegun segments.now epoch sweeper) }
        ensures turns { IfOk result (λ sweeper. sweeper.turns ≡ 0) }
        ensures upper_turns { IfOk result (λ sweeper. sweeper.upper_turns ≡ 0) }
    {
        let planned = Witness::of::<Segments, WaitingSegments>(segments);
        let count = segments.sweep_count();
        let most = segments.layout().words / MIN_BLOCK_WORDS;
        // No heap is so large that this fails.
        let Some(names) = (count as usize).checked_mul(most as usize) else {
            return Err(NoMemory);
        };
        Ok(Sweeper {
            turns: 0,
            upper_turns: 0,
            epoch,
            planned,
            count,
            done: Vec::with_capacity(alloc, count as usize)?,
            next: 0,
            most,
            had: NameRoom::with_room(alloc, names)?,
            freed: NameRoom::with_room(alloc, names)?,
        })
    }

    /// Returns the numbers of the segments that were swept so far, in order. Those and the unswept ones are the segments that
    /// waited at the snapshot. Once the sweeper has finished, none is unswept.
    pub fn swept(&self) -> &[u32]
        ensures { self.now.seen.swept ≡ result.now ++ self.now.left }
    {
        self.done.as_slice()
    }

    /// Returns the names listed in the segments that were swept so far, as spans, in no order.
    pub fn had(&self) -> &[Span]
        ensures { names_in result.now ≡ self.now.seen.had }
    {
        self.had.spans()
    }

    /// Returns the names freed so far, as spans, in no order.
    pub fn freed(&self) -> &[Span]
        ensures { names_in result.now ≡ self.now.seen.freed }
    {
        self.freed.spans()
    }

    /// Turns a sweeper that has swept all its segments into its part of the census: these segments, the names listed in them,
    /// and the freed names among these. The call can't fail. A list of few spans is copied, and the spare room of both lists
    /// of names is given back, each only if memory suffices.
    pub fn into_census(self) -> Census
        requires { self.left ≡ [] }
        ensures swept { result.swept.items ≡ self.seen.swept }
        ensures had { result.had ≡ self.seen.had }
        ensures freed { result.freed ≡ self.seen.freed }
    {
        let Sweeper {
            turns: _,
            upper_turns: _,
            epoch: _,
            planned: _,
            count: _,
            done: swept,
            next: _,
            most: _,
            had,
            freed,
        } = self;
        let had = had.into_list();
        let freed = freed.into_list();
        Census { swept, had, freed }
    }

    /// Whether the sweeper has swept all segments that it has to sweep.
    pub fn is_finished(&self) -> bool
        ensures { IsTrue result ↔ (self.now.left ≡ []) }
    {
        self.done.len() == self.count as usize
    }

    // Searches for the first unswept segment, and keeps its number. Lists the names in it, and the names that a sweep of it
    // frees. The segment then counts as swept.
    fn list_next(&mut self, segments: &Segments, names: &NameTable)
        requires can { CanList segments.now self.old }
        requires some { self.old.left ≢ [] }
        requires entries { HaveEntries segments.now.layout names.now }
        ensures { HasListed segments.now names.now self.old self.new }
    {
        let number = first_waiting(segments, self.next);
        list_segment(
            names,
            segments,
            number,
            self.epoch,
            &mut self.had,
            &mut self.freed,
        );
        self.done.push_reserved(number);
        self.next = number + 1;
    }

    // Lists the names in the first `count` unswept segments, one segment after the other, as `list_next` does.
    fn list_first(&mut self, segments: &Segments, names: &NameTable, count: u32)
        requires can { CanList segments.now self.old }
        requires enough { count ≤ length self.old.left }
        requires entries { HaveEntries segments.now.layout names.now }
        ensures { HaveListed segments.now names.now count self.old self.new }
    {
        for _listed in 0..count {
            self.list_next(segments, names);
        }
    }

    // Sweeps the first `quota` waiting segments, or all if there are fewer, and returns their number. First it lists the
    // names in these segments, and the freed names. Before each sweep it calls `before` with the segment's half and the
    // segment's position in that half.
    fn sweep_some<R: Threads + Sync, F: Fn(u8, u32) + Sync>(
        &mut self,
        rt: &R,
        segments: &mut Segments,
        names: &NameTable,
        quota: u32,
        before: &F,
    ) -> u32
        requires left { AreLeft segments.old self.old }
        requires entries { HaveEntries segments.old.layout names.now }
        requires before { (half i : ℕ) → IsInHalf (min quota (length self.old.left)) half i → F.pre before.now half i }
        ensures swept { HasSwept segments.old segments.new names.now self.old self.new result }
        ensures judged { HasJudged segments.old segments.new names.now self.old self.new result }
        ensures many { result ≡ min quota (length self.old.left) }
        ensures turns { (self.new.turns ≡ self.old.turns) × (self.new.upper_turns ≡ self.old.upper_turns) }
    {
        let epoch = self.epoch;
        let count = quota.min(segments.sweep_count());
        self.list_first(segments, names, count);
        segments.sweep_many(rt, epoch, count, before)
    }

    /// Sweeps the first `quota` waiting segments, or all if there are fewer, beside the mutators. Returns their number, and
    /// whether none is left. First it lists the names that `names` has for the blocks in use in these segments. The freed
    /// names are the listed names of blocks that aren't marked with the epoch (clause `judged`, for any marks). It sweeps in
    /// two halves: the lower in the calling thread, the upper in a thread of its own, or after the lower if no thread can be
    /// started. For a single segment no thread starts. If the number is odd, the lower half has one segment more. Before each
    /// sweep the gate is passed, as `MAKERS` in the lower half and as `MAKERS + 1` in the upper half. The clauses `turns` and
    /// `upper_turns` give the counts.
    ///
    /// Requires that the waiting segments are exactly the sweeper's unswept segments, with room for their names (`AreLeft`),
    /// and that `names` has an entry for each block. If the entries are the blocks' names, a sweeper at work in a closed
    /// cycle stays at work (clause `swept`). Takes no memory, and waits only at the gate.
    pub fn work<R: Threads + Sync, G: Gate>(
        &mut self,
        rt: &R,
        segments: &mut Segments,
        names: &NameTable,
        quota: u32,
        gate: &G,
    ) -> SweepWork
        requires left { AreLeft segments.old self.old }
        requires entries { HaveEntries segments.old.layout names.now }
        ensures swept { HasSwept segments.old segments.new names.now self.old self.new result.swept }
        ensures judged { HasJudged segments.old segments.new names.now self.old self.new result.swept }
        ensures turns { self.new.turns ≡ passed self.old.turns (result.swept - result.swept / 2) }
        ensures upper_turns { self.new.upper_turns ≡ passed self.old.upper_turns (result.swept / 2) }
        ensures many { result.swept ≡ min quota (length self.old.left) }
        ensures finished { IsTrue result.finished ↔ (self.new.left ≡ []) }
    {
        let (lower, upper) = (self.turns, self.upper_turns);
        let swept = self.sweep_some(
            rt,
            segments,
            names,
            quota,
            &|half: u8, i: u32|
                requires { half < 2 }
            {
                let turns = if half == 0 { lower } else { upper };
                gate.pass(MAKERS + half, turns.saturating_add(u64::from(i) + 1));
            },
        );
        self.turns = add_passes(lower, swept - swept / 2);
        self.upper_turns = add_passes(upper, swept / 2);
        SweepWork {
            swept,
            finished: self.is_finished(),
        }
    }

    /// Sweeps all segments that are left, at a stop, as `work` does. The gate isn't passed, and its counts stay.
    pub fn finish<R: Threads + Sync>(&mut self, rt: &R, segments: &mut Segments, names: &NameTable)
        requires left { AreLeft segments.old self.old }
        requires entries { HaveEntries segments.old.layout names.now }
        ensures swept { HasSwept segments.old segments.new names.now self.old self.new (length self.old.left) }
        ensures judged { HasJudged segments.old segments.new names.now self.old self.new (length self.old.left) }
        ensures turns { (self.new.turns ≡ self.old.turns) × (self.new.upper_turns ≡ self.old.upper_turns) }
        ensures finished { self.new.left ≡ [] }
    {
        let waiting = segments.sweep_count();
        let _ = self.sweep_some(rt, segments, names, waiting, &|_half: u8, _i: u32| {});
    }
}
