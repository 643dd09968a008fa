//! A full cycle, done at one stop. The cycle in progress is closed, swept and ended. Then a new cycle that sweeps every
//! segment in use begins, and is closed, swept and ended too.
//!
//! Step 4 of Note [The steps of a stop] in stop.rt says when a full cycle is due. After it, each segment that isn't free has
//! an object that the new cycle kept. So a heap that is still short of segments is full of kept objects.
//!
//! Easy to get wrong: current and active segments are swept only if they are filed as filled before the cycle begins. And the
//! cycle in progress is closed whatever its marker's last work answered: the closing scans the rest.
ghost use Rattle.std.specs.Prelude.{◌≡◌, ◌↔◌, ◌+◌, ◌<◌, ◌^◌, OnOk, IsSome, IsTrue};
ghost use Rattle.nmgc_cycle.specs.{Roots.queues_in, Shown.words_in, Cycles.HasClosed, FullLaws.StandsAtStop, Observed.HandsOn};
ghost use Rattle.nmgc_cycle.specs.Full.{is_short_of, IsFullDue, CanCloseNow, ClosesNow, CanSweepRest, HasSweptRest, HasFinished, HasDoneFull, Proceeds};

use crate::Collector;
use crate::cycle::segments_are_sound;
use crate::progress::Progress;
use crate::stop_laws::{a_due_cycle_leads, a_finish_leads};
use nmgc_journal::CycleRow;
use nmgc_lists::{List, NoMemory};
use std::mem;
use std::thread::Threads;

impl Collector {
    // Whether the heap is short of segments: commands are left (`left`), and fewer segments are free than the reserve.
    fn is_short(&self, left: bool) -> bool
        ensures { result ≡ is_short_of left self.now }
    {
        left && self.heap.segments.free_count() < self.heap.segments.layout().reserve()
    }

    // Whether a full cycle is due: it was asked for, or the heap is short of segments.
    fn is_full_due(&self, left: bool) -> bool
        ensures { IsTrue result ↔ IsFullDue left self.now }
    {
        self.cycle.full || self.is_short(left)
    }

    // If a cycle marks, closes the cycle, whatever its marker's last work left to scan.
    fn close_now(&mut self, stop: u32)
        requires words { IsSome self.old.heap.words }
        requires can { CanCloseNow (words_in self.old.heap.words) self.old.heap.segments self.old.heap.weaks.list (queues_in self.old.mutators.items)
            self.old.cycle.progress }
        ensures { HasClosed ClosesNow stop self.old self.new }
    {
        self.cycle.progress = match mem::replace(&mut self.cycle.progress, Progress::Idle) {
            Progress::Marking(marking) => Progress::Sweeping(self.close(marking, stop)),
            progress => progress,
        };
    }

    // If a cycle sweeps, sweeps all segments that wait, without passing the gate.
    fn sweep_rest<R: Threads + Sync>(&mut self, rt: &R)
        requires can { CanSweepRest self.old.heap.segments self.old.heap.names self.old.cycle.progress }
        ensures { HasSweptRest self.old self.new }
    {
        if let Progress::Sweeping(sweeping) = &mut self.cycle.progress {
            sweeping
                .sweeper
                .finish(rt, &mut self.heap.segments, &self.heap.names);
            segments_are_sound(&self.heap.segments);
        }
    }

    // Closes, sweeps and ends the cycle in progress at this stop, if there is one, and hands its row on.
    fn finish_cycle<R: Threads + Sync>(
        &mut self,
        rt: &R,
        stop: u32,
        rows: &mut List<CycleRow>,
    ) -> Result<(), NoMemory>
        requires stands { StandsAtStop stop self.old }
        ensures finished { OnOk result (HasFinished stop self.old self.new) }
        ensures handed { OnOk result (HandsOn stop self.old.rows.cycles self.new.rows.cycles rows.old rows.new) }
    {
        a_finish_leads();
        self.close_now(stop);
        self.sweep_rest(rt);
        self.try_end(stop, rows)?;
        Ok(())
    }

    // Does a full cycle at this stop, and clears the requests for a cycle and for a full cycle.
    fn do_full_cycle<R: Threads + Sync>(
        &mut self,
        rt: &R,
        stop: u32,
        rows: &mut List<CycleRow>,
    ) -> Result<(), NoMemory>
        requires stands { StandsAtStop stop self.old }
        requires number { self.old.cycle.begun + 1 < 2 ^ 32 }
        ensures full { OnOk result (HasDoneFull stop self.old self.new) }
        ensures handed { OnOk result (HandsOn stop self.old.rows.cycles self.new.rows.cycles rows.old rows.new) }
    {
        a_due_cycle_leads();
        self.finish_cycle(rt, stop, rows)?;
        self.heap.segments.retire_all();
        self.start(stop)?;
        self.finish_cycle(rt, stop, rows)?;
        self.cycle.collect = false;
        self.cycle.full = false;
        Ok(())
    }

    // If a full cycle is due, does it. Otherwise, if a cycle is due, begins it. `left` says whether commands are left.
    pub(crate) fn do_due_cycle<R: Threads + Sync>(
        &mut self,
        rt: &R,
        left: bool,
        trigger: u32,
        stop: u32,
        rows: &mut List<CycleRow>,
    ) -> Result<(), NoMemory>
        requires stands { StandsAtStop stop self.old }
        requires number { self.old.cycle.begun + 1 < 2 ^ 32 }
        ensures proceeds { OnOk result (Proceeds trigger left stop self.old self.new) }
        ensures handed { OnOk result (HandsOn stop self.old.rows.cycles self.new.rows.cycles rows.old rows.new) }
    {
        a_due_cycle_leads();
        if self.is_full_due(left) {
            self.do_full_cycle(rt, stop, rows)?;
            Ok(())
        } else {
            self.try_begin(trigger, stop)?;
            Ok(())
        }
    }
}
