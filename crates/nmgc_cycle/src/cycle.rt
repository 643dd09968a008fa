//! The steps of a stop that advance a cycle: adding, closing, end and beginning.
//!
//! Note [The steps of a stop] in stop.rt has their order. All that takes memory here may fail, since the words are back from
//! the round. `nmgc_run_spec`'s `specs/Run.antt` defines when a cycle may be closed, and the closing's effect.
//!
//! A mutator's remembered entries are the entries taken out of its ring, then those in the ring, then those in its set. They
//! go to the marker in this order. Then ring, set and list in the inbox are empty, even if no cycle marks. So at a stop the
//! ends of each ring are level: all entries sent were received.
//!
//! Easy to get wrong: while a cycle marks, the marker gets the remembered entries at each stop, even if the cycle isn't
//! closed. They can't prevent a closing. It depends only on the marker's work in the last round, and scans their objects.
ghost use Rattle.std.specs.Prelude.{ℕ, ◌≡◌, ◌↔◌, ◌+◌, ◌*◌, ◌<◌, ◌≤◌, ◌^◌, [], IfOk, IfSome, IfNone, OnOk, IsSome, IsTrue, Some, length, slice_get};
ghost use Rattle.nmgc_object.specs.declared.layout.TheConstants.{FIRST_PLACE};
ghost use Rattle.nmgc_alloc.specs.Segments.{IsSegments};
ghost use Rattle.nmgc_mark.specs.Marker.{HasRoomToMark};
ghost use Rattle.nmgc_segment.specs.Marks.{epoch_of as epoch_by, IsEpoch};
ghost use Rattle.nmgc_cycle.specs.{Roots.queues_in, Shown.words_in, Lined.IsLined, Lined.IsPaired, Lined.AnyLine, Lined.HasForgotten, Lined.HaveForgottenSoFar, Lined.HaveLines, Observed.HandsOn};
ghost use Rattle.nmgc_updrem.specs.{Lines.TakesRestSo, Lines.IsLevelSo, Rings.AtLine};
ghost use Rattle.nmgc_mutator.specs.{declared.mutator.Mutator.Mutator as MutatorSeen, Does.remembered};
ghost use Rattle.nmgc_cycle.specs.Cycles.{remembered_by, CanAdd, HasAdded, HasTaken, CanClose, Closes, HasClosed, IsClosed, IsReadyToClose, row_of as row_shown, IsSwept, Ends, IsDue, CanBegin, StartsMarking, HasStarted, Begins};

use crate::progress::{Marking, Progress, Sweeping};
use crate::{Collector, weaks};
use nmgc_alloc::Segments;
use nmgc_journal::CycleRow;
use nmgc_lists::{List, NoMemory};
use nmgc_mark::{Marker, Work};
use nmgc_mutator::Mutator;
use nmgc_sweep::{Census, Sweeper};
use nmgc_updrem::{Inbox, UpdBlock};
use nmgc_world_spec::Name;
use std::alloc::Global;
use std::mem;

// Returns the epoch of cycle `number`: 2 if the number is even, and otherwise 1.
fn epoch_of(number: u32) -> u8
    ensures value { result ≡ epoch_by number }
    ensures sound { IsEpoch result }
{
    if number % 2 == 0 { 2 } else { 1 }
}

// Shows the prover that segments are sound after the marker or sweeper worked (Note [Lines that do nothing] in `nmgc_alloc`).
pub(crate) fn segments_are_sound(segments: &Segments)
    ensures { IsSegments segments.now }
{
    let _ = segments.layout();
}

// Takes the oldest block out of a mutator's ring and returns it. After `None` the ring is empty, and its ends are level.
fn take_block(inbox: &mut Inbox, number: u8, mutator: &mut Mutator) -> Option<UpdBlock>
    requires { IsPaired inbox.old number mutator.old.sender }
    ensures rest { mutator.new ≡ record mutator.old { sender = mutator.new.sender } }
    ensures some { IfSome result (λ block. AtLine (TakesRestSo mutator.old.sender mutator.new.sender block) number inbox.old inbox.new) }
    ensures none { IfNone result (AtLine (IsLevelSo mutator.old.sender mutator.new.sender) number inbox.old inbox.new) }
{
    inbox.take_rest(number, mutator.sender())
}

// Gives a mutator's remembered entries to the marker: the entries taken out of its ring, the entries in the ring, and the
// entries in its set, in this order. It empties the ring, though no clause says so. The set and the list in the inbox stay.
fn add_one(
    marker: &mut Marker,
    segments: &mut Segments,
    inbox: &mut Inbox,
    number: u8,
    mutator: &mut Mutator,
)
    requires room { HasRoomToMark segments.old marker.old }
    requires line { IsLined inbox.old number mutator.old.sender }
    ensures added { HasAdded (remembered mutator.old) segments.old segments.new marker.old marker.new }
    ensures mutator { mutator.new ≡ record mutator.old { sender = mutator.new.sender } }
    ensures inbox { AtLine AnyLine number inbox.old inbox.new }
    ensures pair { IsPaired inbox.new number mutator.new.sender }
{
    marker.add(segments, inbox.entries(number));
    while let Some(block) = take_block(inbox, number, mutator) {
        marker.add(segments, block.entries());
    }
    marker.add(segments, mutator.updrem.entries());
}

// Empties a mutator's set, its ring and its list in the inbox, so that the mutator remembers nothing.
fn forget(inbox: &mut Inbox, number: u8, mutator: &mut Mutator)
    requires { IsPaired inbox.old number mutator.old.sender }
    ensures forgot { HasForgotten mutator.old mutator.new }
    ensures inbox { AtLine AnyLine number inbox.old inbox.new }
    ensures line { IsLined inbox.new number mutator.new.sender }
{
    while let Some(_block) = take_block(inbox, number, mutator) {}
    inbox.clear(number);
    mutator.updrem.clear();
}

// Gives the remembered entries of all mutators to the marker, one mutator after another. Empties their sets, rings and lists.
fn add_all(
    marker: &mut Marker,
    segments: &mut Segments,
    inbox: &mut Inbox,
    mutators: &mut [Mutator],
)
    requires room { HasRoomToMark segments.old marker.old }
    requires lines { HaveLines inbox.old mutators.old }
    ensures added { HasAdded (remembered_by mutators.old) segments.old segments.new marker.old marker.new }
    ensures forgot { HaveForgottenSoFar (length mutators.old) inbox.old inbox.new mutators.old mutators.new }
    ensures sound { IsSegments segments.new }
{
    for number in 0..mutators.len() {
        let mutator = &mut mutators[number];
        add_one(marker, segments, inbox, number as u8, mutator);
        forget(inbox, number as u8, mutator);
    }
    segments_are_sound(segments);
}

// Empties each mutator's set, its ring and its list in the inbox.
fn forget_all(inbox: &mut Inbox, mutators: &mut [Mutator])
    requires lines { HaveLines inbox.old mutators.old }
    ensures { HaveForgottenSoFar (length mutators.old) inbox.old inbox.new mutators.old mutators.new }
{
    for number in 0..mutators.len() {
        forget(inbox, number as u8, &mut mutators[number]);
    }
}

impl Collector {
    // Empties all sets, rings and lists of remembered entries. If a cycle marks, gives the entries to its marker first.
    pub(crate) fn add_remembered(&mut self)
        requires can { CanAdd self.old.heap.segments self.old.cycle.progress }
        requires lines { HaveLines self.old.inbox self.old.mutators.items }
        ensures { HasTaken self.old self.new }
    {
        let mutators = self.mutators.as_mut_slice();
        if let Progress::Marking(marking) = &mut self.cycle.progress {
            add_all(
                &mut marking.marker,
                &mut self.heap.segments,
                &mut self.inbox,
                mutators,
            );
            return;
        }
        forget_all(&mut self.inbox, mutators);
    }

    // If a cycle marks and its marker's last work left nothing to scan, closes the cycle.
    pub(crate) fn try_close(&mut self, stop: u32)
        requires words { IsSome self.old.heap.words }
        requires can { CanClose (words_in self.old.heap.words) self.old.heap.segments self.old.heap.weaks.list (queues_in self.old.mutators.items)
            self.old.cycle.progress }
        ensures { HasClosed Closes stop self.old self.new }
    {
        self.cycle.progress = match mem::replace(&mut self.cycle.progress, Progress::Idle) {
            Progress::Marking(marking) => {
                if marking.last.empty {
                    Progress::Sweeping(self.close(marking, stop))
                } else {
                    Progress::Marking(marking)
                }
            }
            progress => progress,
        };
    }

    // Closes a cycle, and returns the cycle as it begins to sweep. The marker scans to the end, weak pointers are resolved,
    // finalisers of those that die are queued, and marks of segments that aren't to be swept are carried over. Words,
    // segments, the list of weak pointers and queues change. The sweeper gets the marker's count of the gate's passes, and
    // the marker's memory is kept for the next cycle.
    pub(crate) fn close(&mut self, marking: Marking, stop: u32) -> Sweeping
        requires words { IsSome self.old.heap.words }
        requires ready { IsReadyToClose (words_in self.old.heap.words) self.old.heap.segments self.old.heap.weaks.list (queues_in self.old.mutators.items)
            marking }
        ensures rest { self.new ≡ record self.old {
          heap = record self.old.heap { words = self.new.heap.words; segments = self.new.heap.segments; weaks = self.new.heap.weaks };
          mutators = self.new.mutators;
        } }
        ensures words { IsSome self.new.heap.words }
        ensures closed { IsClosed stop (words_in self.old.heap.words) (words_in self.new.heap.words) self.old.heap.segments self.new.heap.segments
            self.old.heap.weaks self.new.heap.weaks self.old.mutators.items self.new.mutators.items marking result }
    {
        let Marking {
            from,
            mut marker,
            last: _,
            mut sweeper,
        } = marking;
        let Some(words) = &mut self.heap.words else {
            unreachable!()
        };
        marker.finish(words, &mut self.heap.segments);
        self.heap
            .weaks
            .resolve(&mut marker, words, &mut self.heap.segments);
        weaks::queue_all(self.heap.weaks.deaths(), self.mutators.as_mut_slice());
        segments_are_sound(&self.heap.segments);
        self.heap.segments.carry(marker.epoch());
        sweeper.turns = marker.turns;
        let sweeping = Sweeping {
            from,
            closed: stop,
            kept: marker.marked(),
            sweeper,
        };
        self.marker_memory.keep(marker);
        sweeping
    }

    // Whether a cycle sweeps and its sweeper has swept all its segments, so that no segment waits any more.
    fn is_swept(&self) -> bool
        ensures { IsTrue result ↔ IsSwept self.now }
    {
        match &self.cycle.progress {
            Progress::Sweeping(sweeping) => sweeping.sweeper.is_finished(),
            Progress::Idle | Progress::Marking(_) => false,
        }
    }

    // If a cycle has swept all its segments, ends it: hands its row on, and keeps the sweeper's counts of passes.
    pub(crate) fn try_end(&mut self, stop: u32, rows: &mut List<CycleRow>) -> Result<(), NoMemory>
        ensures ends { OnOk result (Ends stop self.old.cycle.progress self.old self.new) }
        ensures handed { OnOk result (HandsOn stop self.old.rows.cycles self.new.rows.cycles rows.old rows.new) }
    {
        if !self.is_swept() {
            return Ok(());
        }
        let dead = weaks::dead_names(self.alloc, self.heap.weaks.deaths())?;
        let Progress::Sweeping(sweeping) = mem::replace(&mut self.cycle.progress, Progress::Idle)
        else {
            unreachable!();
        };
        self.cycle.turns = sweeping.sweeper.turns;
        self.cycle.upper_turns = sweeping.sweeper.upper_turns;
        let row = row_of(self.cycle.begun, sweeping, dead, stop)?;
        self.rows.cycles.note(&row);
        rows.push(row)
    }

    // Whether a cycle is due: none is in progress, and either one was asked for, or `trigger` isn't 0 and at least `trigger`
    // segments were filled since the last cycle began.
    fn is_due(&self, trigger: u32) -> bool
        ensures { IsTrue result ↔ IsDue trigger self.now }
    {
        match self.cycle.progress {
            Progress::Idle => self.cycle.collect
                || (trigger != 0 && self.heap.segments.fresh() >= trigger),
            Progress::Marking(_) | Progress::Sweeping(_) => false,
        }
    }

    // If a cycle is due, begins it.
    pub(crate) fn try_begin(&mut self, trigger: u32, stop: u32) -> Result<(), NoMemory>
        requires words { IsSome self.old.heap.words }
        requires inside { FIRST_PLACE ≤ length (words_in self.old.heap.words) }
        requires number { self.old.cycle.begun + 1 < 2 ^ 32 }
        requires can { IsDue trigger self.old → CanBegin self.old }
        ensures { OnOk result (Begins trigger stop self.old self.new) }
    {
        if self.is_due(trigger) {
            self.start(stop)?;
        }
        Ok(())
    }

    // Begins a cycle, which marks from now on, and clears the request for a cycle.
    pub(crate) fn start(&mut self, stop: u32) -> Result<(), NoMemory>
        requires words { IsSome self.old.heap.words }
        requires inside { FIRST_PLACE ≤ length (words_in self.old.heap.words) }
        requires number { self.old.cycle.begun + 1 < 2 ^ 32 }
        requires can { CanBegin self.old }
        ensures { OnOk result (HasStarted stop self.old self.new) }
    {
        let marking = self.start_marking(stop)?;
        self.cycle.begun += 1;
        self.cycle.collect = false;
        self.cycle.progress = Progress::Marking(marking);
        Ok(())
    }

    // Prepares the segments, starts a cycle's marking, and returns the cycle. The sweeper plans the waiting segments, and the
    // marker marks the objects that the roots refer to. The mutators' queues get room for the closing's finalisers.
    fn start_marking(&mut self, stop: u32) -> Result<Marking, NoMemory>
        requires words { IsSome self.old.heap.words }
        requires inside { FIRST_PLACE ≤ length (words_in self.old.heap.words) }
        requires number { self.old.cycle.begun + 1 < 2 ^ 32 }
        requires can { CanBegin self.old }
        ensures { IfOk result (λ marking. StartsMarking stop self.old self.new marking) }
    {
        let epoch = epoch_of(self.cycle.begun + 1);
        self.heap.segments.prepare();
        let Some(words) = &mut self.heap.words else {
            unreachable!()
        };
        let mut sweeper = Sweeper::start(self.alloc, &self.heap.segments, epoch)?;
        let mut marker = Marker::snapshot(
            self.alloc,
            &mut self.marker_memory,
            words,
            &mut self.heap.segments,
            self.mutators.as_slice(),
            epoch,
        )?;
        segments_are_sound(&self.heap.segments);
        weaks::reserve_queues(self.mutators.as_mut_slice(), &self.heap.weaks)?;
        marker.turns = self.cycle.turns;
        // No run reads this count, since `close` sets it again. It makes `StartsMarking` say the same of marker and sweeper.
        sweeper.turns = self.cycle.turns;
        sweeper.upper_turns = self.cycle.upper_turns;
        Ok(Marking {
            from: stop,
            marker,
            last: Work {
                scanned: 0,
                empty: false,
            },
            sweeper,
        })
    }
}

// Returns the row of a cycle that ends at a stop, with the names of the weak pointers that died at its closing. Its sweeper
// must have swept all segments.
fn row_of(
    number: u32,
    sweeping: Sweeping,
    dead: List<Name>,
    stop: u32,
) -> Result<CycleRow, NoMemory>
    requires { sweeping.sweeper.left ≡ [] }
    ensures { IfOk result (λ row. row ≡ row_shown number stop sweeping dead) }
{
    let Sweeping {
        from,
        closed,
        kept,
        sweeper,
    } = sweeping;
    let Census { swept, had, freed } = sweeper.into_census();
    Ok(CycleRow {
        number,
        from,
        closed,
        ended: stop,
        swept: List::from_vec(swept)?,
        had,
        freed,
        dead,
        kept,
    })
}
