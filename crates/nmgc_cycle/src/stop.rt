//! A stop: objects are promoted, a cycle advances, and the stop's row is handed on.
//!
//! No mutator runs, so words are read and written plainly, and registers, queues and notes change in place. After each step
//! the collector represents a state of the run at this stop (`specs/Steps.antt`), and together the steps are the run's stop.
//!
//! Easy to get wrong: a lack of free segments ends a run only while commands are left, and only if this stop's full cycle
//! left fewer than the reserve. Without commands left, a run goes on while a cycle is in progress, since its row is missing.
//!
//! # Note [The steps of a stop]
//!
//! The steps in order, numbered as in `docs/FORMATS.md`. One stop may close a cycle, end it and begin another.
//! 1. Promote (`promote`). Finalised weak pointers leave the list (`remove_finalised`). Nursery objects move into segments if
//!    they can be reached from roots, slots of g, recorded fields or new weak pointers that are alive. Their names are noted
//!    (`move_promoted`). Moved weak pointers that are alive join the list (`add_moved`). Then the nurseries are empty, and of
//!    the round's notes the mutators have only remembered entries left.
//! 2. Close (`add_remembered`, `try_close`). The remembered entries go to the marker, if a cycle marks, and are forgotten. If
//!    the marker's work in the last round left nothing to scan, the cycle is closed (`close`), even if these entries added
//!    objects, and sweeps from then on. A closing has four parts: the marker scans to the end, weak pointers are resolved,
//!    finalisers of those that die are queued, and the marks of segments that aren't to be swept are carried over.
//! 3. End (`try_end`). A cycle that sweeps ends if no segment waits, and its row is handed on.
//! 4. Full cycle (`do_full_cycle`, by `do_due_cycle`), if it is due (`is_full_due`): it was asked for, or commands are left
//!    and fewer segments are free than the reserve. The cycle in progress is closed, swept and ended (`finish_cycle`).
//!    Current and active segments are filed as filled (`retire_all`). A new cycle begins (`start`), and is closed, swept and
//!    ended too. Requests for a cycle and for a full one are forgotten.
//! 5. Begin (`try_begin`, by `do_due_cycle`). If step 4 wasn't done and a cycle is due (`is_due`), it begins (`start`).
//! 6. Answer (`stop`). The row gets the numbers of the heap that this stop leaves. The answer is chosen: the run goes on, is
//!    done, or has a full heap. An end is kept in `answered`.
ghost use Rattle.std.specs.Prelude.{ℕ, ◌≡◌, ◌↔◌, ◌^◌, ◌<◌, [], ◌∷◌, ◌++◌, IfOk, OnOk, IsSome, IsTrue, None, Some, length, slice_get, false};
ghost use Rattle.nmgc_stop_spec.specs.Stopped.{Stopped};
ghost use Rattle.nmgc_minor.specs.Promotion.{IsFor};
ghost use Rattle.nmgc_cycle.specs.{Cycles.MarksOn, Shown.turns_of, Shown.upper_turns_of, Shown.mutator_turns_of, Keeps.CanStop, Keeps.HasAnswered, Keeps.StopsAfter, Stopping.StandsStopped, Stopping.CanList, Stopping.HasListed, Stopping.HasPromoted, Stopping.SomeIsLeft, Stopping.IsDone, Stopping.IsHeapFullAt, Stopping.ended_by, Keeps.NothingReachableIsFreed, Programs.FollowEach, Observed.HandsOn, Open.MayBeScript};
ghost use Rattle.nmgc_run_laws.specs.Limits.{FitsRun};
ghost use Rattle.nmgc_script.specs.declared.script.Script.{Script as ScriptSeen};
ghost use Rattle.nmgc_cycle.specs.declared.stop.StopEnd.TheVariants as answer;
ghost use Rattle.nmgc_sweep.specs.NameTable.{HaveEntries};

use crate::Collector;
use crate::asking::is_some_left;
use crate::name_notes::note_moves;
use crate::round::known_before;
use crate::stop_laws::a_stop_leads;
use crate::worker::are_commands_left;
use nmgc_collector_laws::marking::moved_join_the_list;
use nmgc_journal::{CycleRow, End, Phase, StopRow};
use nmgc_lists::{List, NoMemory};
use nmgc_mutator::Program;
use nmgc_round::Witness;
use nmgc_round::witness::WitnessFor;
use nmgc_script::{Config, Script};
use nmgc_weak::laws::weaks_without_value_leave_the_list;
use std::alloc::Global;
use std::thread::Threads;

/// The answer of a stop.
#[derive(Clone, Copy, Debug, PartialEq, Eq)]
pub enum StopEnd {
    /// A round follows: commands are left and the reserve of segments is free, or none are left and a cycle is in progress.
    GoOn,
    /// Every command was answered, and no cycle is in progress.
    Done,
    /// Commands are left, and after a full cycle at this stop only `free` segments are free, fewer than `reserve`.
    HeapFull { free: u32, reserve: u32 },
}

/// The rows that a stop hands on: its own row, once the stop was done, and the rows of the cycles that ended there. The names
/// in a cycle's row are in the order in which they were listed.
#[derive(Drop)]
pub struct StopRows {
    pub stop: Option<StopRow>,
    pub cycles: List<CycleRow>,
}

impl StopRows {
    /// Returns no rows. Takes no memory.
    pub fn new(alloc: Global) -> StopRows
        ensures { (result.stop ≡ None) × (result.cycles ≡ []) }
    {
        StopRows {
            stop: None,
            cycles: List::new(alloc),
        }
    }
}

// A script in whose run a stop may be done.
pub(crate) struct StopScript;

impl<'a> WitnessFor<(&'a Config, &'a Collector, bool), Script> for StopScript {
    ghost use Rattle.nmgc_cycle.specs.Open.{MayBeScript};

    ghost wanted = { λ about script. MayBeScript about.0.now about.2 about.1.now script };
}

impl Collector {
    /// Does a stop, and returns its answer: promotes objects of the round, advances the cycle, and hands rows on in `rows`.
    ///
    /// Exactly the objects named in step 1 of the note are promoted, and the nurseries are empty afterwards. Exactly the weak
    /// pointers finalised in the round leave the list, and those that moved and are alive join it. So the list has exactly
    /// the weak pointers that are alive and have a block. By the rules of a run, a cycle is closed, and a cycle ends with its
    /// census. A full cycle is done exactly if it is due; otherwise a cycle begins exactly if it is due. The stop's row has
    /// the numbers of the heap that the stop leaves, and follows the rows before; rows of rounds stay. `rows` gets this row,
    /// and at its end the rows of the cycles that ended, with their names as they were listed. The run after the stop
    /// is the run before the round, with this round and this stop, whatever the answer. Only weak pointers that die at a
    /// closing change the world. No command is answered. Afterwards
    /// each object that roots or living weak pointers reach has a block (clause `freed`).
    ///
    /// Answers `Done` exactly if no command is left and no cycle is in progress. Answers `HeapFull` exactly if commands are
    /// left and fewer segments are free than the reserve, even after a full cycle at this stop. If the same cycle marks
    /// before and after the stop, only its marker changed. The marker's last answer is kept, and says that objects were left
    /// to scan. A full cycle sweeps in two halves, each in a thread of its own. The gate isn't passed. The mutators' counts
    /// stay, and the collector's are handed on: from a marker to its sweeper, and from a sweeper that ends to the next cycle.
    ///
    /// Requires that no stop was done yet, or that a round followed the last stop. Takes memory for weak pointers that join
    /// the list, and for the rows of the stop and of a cycle that ends. A cycle that begins takes memory for the marker's
    /// queue, the sweeper's lists and finaliser queues. Takes time for promoted objects, roots, weak pointers that leave or
    /// join the list, recorded fields, remembered entries, and segments. A closing adds the objects left to scan, and the list of
    /// weak pointers with a logarithm. A full cycle adds all reachable objects and every block. After `NoMemory` nothing is known of the collector.
    pub fn stop<R: Threads + Sync>(
        &mut self,
        rt: &R,
        script: &Script,
        rows: &mut StopRows,
    ) -> Result<StopEnd, NoMemory>
        requires limits { FitsRun script.now }
        requires can { CanStop script.now self.old }
        ensures answered { IfOk result (λ end. HasAnswered script.now self.new end) }
        ensures after { OnOk result (StopsAfter script.now self.old self.new) }
        ensures done { IfOk result (λ end. (end ≡ answer.Done) ↔ IsDone script.now self.new) }
        ensures full { IfOk result (λ end. (free reserve : ℕ) → (end ≡ answer.HeapFull free reserve) ↔ IsHeapFullAt script.now self.new free reserve) }
        ensures marks_on { OnOk result (MarksOn self.old self.new) }
        ensures freed { OnOk result (NothingReachableIsFreed script.now self.new) }
        ensures rounds { OnOk result (self.new.rows.rounds ≡ self.old.rows.rounds) }
        ensures stops { OnOk result ((row : StopRow) × (self.new.rows.stops ≡ self.old.rows.stops ++ row ∷ []) × (rows.new.stop ≡ Some row) × (row.number ≡ length self.old.rows.stops)) }
        ensures cycles { OnOk result (HandsOn (length self.old.rows.stops) self.old.rows.cycles self.new.rows.cycles rows.old.cycles rows.new.cycles) }
        ensures mutator_turns { OnOk result (mutator_turns_of self.new ≡ mutator_turns_of self.old) }
        ensures turns { OnOk result (turns_of self.new ≡ turns_of self.old) }
        ensures upper_turns { OnOk result (upper_turns_of self.new ≡ upper_turns_of self.old) }
    {
        let left = self.has_commands_left(script);
        self.do_stop(rt, script.config.trigger, &known_before(script), left, rows)
    }

    /// Does a stop of a run of programs, as `stop` does for a script, and returns its answer. `script` is the script of the
    /// run so far, for proofs alone: the rest of each of its programs begins with the program's next command. Programs are
    /// only asked whether they have a next command, and none changes.
    pub(crate) fn stop_programs<R: Threads + Sync, P: Program>(
        &mut self,
        rt: &R,
        config: &Config,
        script: &Witness<Script>,
        programs: &[P],
        rows: &mut StopRows,
    ) -> Result<StopEnd, NoMemory>
        requires limits { FitsRun script.now.value }
        requires config { config.now ≡ script.now.value.config }
        requires valid { (k : ℕ) (p : P) → slice_get programs.now k ≡ Some p → P.valid p }
        requires follow { FollowEach P.next script.now.value self.old.positions.items programs.now }
        requires can { CanStop script.now.value self.old }
        ensures answered { IfOk result (λ end. HasAnswered script.now.value self.new end) }
        ensures after { OnOk result (StopsAfter script.now.value self.old self.new) }
        ensures freed { OnOk result (NothingReachableIsFreed script.now.value self.new) }
        ensures positions { OnOk result (self.new.positions.items ≡ self.old.positions.items) }
        ensures rounds { OnOk result (self.new.rows.rounds ≡ self.old.rows.rounds) }
        ensures stops { OnOk result ((row : StopRow) × (self.new.rows.stops ≡ self.old.rows.stops ++ row ∷ []) × (rows.new.stop ≡ Some row) × (row.number ≡ length self.old.rows.stops)) }
        ensures cycles { OnOk result (HandsOn (length self.old.rows.stops) self.old.rows.cycles self.new.rows.cycles rows.old.cycles rows.new.cycles) }
    {
        let left = is_some_left(programs);
        self.do_stop(rt, config.trigger, script, left, rows)
    }

    // Does a stop of a run whose script isn't known yet, as `stop` does, and returns its answer. `left` says whether any program
    // has commands left: then the run isn't done. The stop is the same for every script in whose run it may be done, and there
    // has to be one.
    pub(crate) fn stop_open<R: Threads + Sync>(
        &mut self,
        rt: &R,
        config: &Config,
        left: bool,
        rows: &mut StopRows,
    ) -> Result<StopEnd, NoMemory>
        requires may { (script : ScriptSeen) × MayBeScript config.now left self.old script }
        ensures each { IfOk result (λ end. (script : ScriptSeen) → MayBeScript config.now left self.old script → HasAnswered script self.new end) }
        ensures done { IfOk result (λ end. end ≡ answer.Done → left ≡ false) }
        ensures positions { OnOk result (self.new.positions.items ≡ self.old.positions.items) }
        ensures rounds { OnOk result (self.new.rows.rounds ≡ self.old.rows.rounds) }
        ensures stops { OnOk result ((row : StopRow) × (self.new.rows.stops ≡ self.old.rows.stops ++ row ∷ []) × (rows.new.stop ≡ Some row) × (row.number ≡ length self.old.rows.stops)) }
        ensures cycles { OnOk result (HandsOn (length self.old.rows.stops) self.old.rows.cycles self.new.rows.cycles rows.old.cycles rows.new.cycles) }
    {
        let script = Witness::of::<(&Config, &Collector, bool), StopScript>(&(
            config, &*self, left,
        ));
        let answer = self.do_stop(rt, config.trigger, &script, left, rows)?;
        Ok(answer)
    }

    // Does a stop of the run of this script, and returns its answer. `left` says whether any program has commands left.
    fn do_stop<R: Threads + Sync>(
        &mut self,
        rt: &R,
        trigger: u32,
        script: &Witness<Script>,
        left: bool,
        rows: &mut StopRows,
    ) -> Result<StopEnd, NoMemory>
        requires limits { FitsRun script.now.value }
        requires trigger { trigger ≡ script.now.value.config.trigger }
        requires left { IsTrue left ↔ SomeIsLeft script.now.value.threads self.old.positions.items }
        requires can { CanStop script.now.value self.old }
        ensures answered { IfOk result (λ end. HasAnswered script.now.value self.new end) }
        ensures each { IfOk result (λ end. (other : ScriptSeen) → FitsRun other → trigger ≡ other.config.trigger →
            IsTrue left ↔ SomeIsLeft other.threads self.old.positions.items → CanStop other self.old → HasAnswered other self.new end) }
        ensures after { OnOk result (StopsAfter script.now.value self.old self.new) }
        ensures done { IfOk result (λ end. (end ≡ answer.Done) ↔ IsDone script.now.value self.new) }
        ensures full { IfOk result (λ end. (free reserve : ℕ) → (end ≡ answer.HeapFull free reserve) ↔
            IsHeapFullAt script.now.value self.new free reserve) }
        ensures marks_on { OnOk result (MarksOn self.old self.new) }
        ensures freed { OnOk result (NothingReachableIsFreed script.now.value self.new) }
        ensures positions { OnOk result (self.new.positions.items ≡ self.old.positions.items) }
        ensures rounds { OnOk result (self.new.rows.rounds ≡ self.old.rows.rounds) }
        ensures stops { OnOk result ((row : StopRow) × (self.new.rows.stops ≡ self.old.rows.stops ++ row ∷ []) × (rows.new.stop ≡ Some row) × (row.number ≡ length self.old.rows.stops)) }
        ensures cycles { OnOk result (HandsOn (length self.old.rows.stops) self.old.rows.cycles self.new.rows.cycles rows.old.cycles rows.new.cycles) }
        ensures mutator_turns { OnOk result (mutator_turns_of self.new ≡ mutator_turns_of self.old) }
        ensures turns { OnOk result (turns_of self.new ≡ turns_of self.old) }
        ensures upper_turns { OnOk result (upper_turns_of self.new ≡ upper_turns_of self.old) }
    {
        a_stop_leads();
        let number = self.rows.stops.count() as u32;
        let promoted = self.promote()?;
        self.add_remembered();
        self.try_close(number);
        self.try_end(number, &mut rows.cycles)?;
        self.do_due_cycle(rt, left, trigger, number, &mut rows.cycles)?;
        let free = self.heap.segments.free_count();
        let row = StopRow {
            number,
            phase: self.cycle.progress.phase(),
            free,
            filled: self.heap.segments.filled_count(),
            sweep: self.heap.segments.sweep_count(),
            promoted,
        };
        self.rows.stops.note(&row);
        rows.stop = Some(row);
        let reserve = self.heap.segments.layout().reserve();
        let end = if left && free < reserve {
            StopEnd::HeapFull { free, reserve }
        } else if !left && self.cycle.progress.phase() == Phase::Idle {
            StopEnd::Done
        } else {
            StopEnd::GoOn
        };
        self.answered = end_of_answer(end);
        Ok(end)
    }

    // Whether any program has commands left.
    fn has_commands_left(&self, script: &Script) -> bool
        requires { length self.now.positions.items ≡ length script.now.threads }
        ensures { IsTrue result ↔ SomeIsLeft script.now.threads self.now.positions.items }
    {
        are_commands_left(script, self.positions.as_slice())
    }

    // Promotes objects of the round, and returns the number of objects that moved. Weak pointers that were finalised in the
    // round leave the list, and weak pointers that moved and are alive join it.
    fn promote(&mut self) -> Result<u32, NoMemory>
        requires words { IsSome self.old.heap.words }
        requires lists { IsFor self.old.heap.segments.layout self.old.heap.promotion }
        requires entries { HaveEntries self.old.heap.segments.layout self.old.heap.names }
        requires stopped { (t : Stopped) × StandsStopped t self.old × CanList t self.old }
        ensures promoted { OnOk result (HasPromoted self.old self.new) }
        ensures listed { OnOk result (HasListed self.old self.new) }
        ensures many { IfOk result (λ count. count ≡ length self.new.heap.promotion.moves) }
    {
        // Two laws on the list of weak pointers. Then the work.
        weaks_without_value_leave_the_list();
        moved_join_the_list();
        self.remove_finalised();
        self.move_promoted();
        self.add_moved()?;
        Ok(self.heap.promotion.moves().len() as u32)
    }

    // Moves the promoted objects into segments, forwards the mutators' words, and notes the moved names. Takes no memory.
    fn move_promoted(&mut self)
        requires words { IsSome self.old.heap.words }
        requires lists { IsFor self.old.heap.segments.layout self.old.heap.promotion }
        requires entries { HaveEntries self.old.heap.segments.layout self.old.heap.names }
        requires stopped { (t : Stopped) × StandsStopped t self.old }
        ensures promoted { HasPromoted self.old self.new }
        ensures weaks { self.new.heap.weaks ≡ self.old.heap.weaks }
        ensures few { length self.new.heap.promotion.moves < 2 ^ 32 }
    {
        let Some(words) = &mut self.heap.words else {
            unreachable!()
        };
        self.heap.promotion.promote(words, &mut self.heap.segments, self.mutators.as_mut_slice());
        note_moves(&mut self.heap.names, self.heap.promotion.moves());
    }
}

// Returns the end of the run that a stop's answer means, or `None` if the run goes on.
fn end_of_answer(end: StopEnd) -> Option<End>
    ensures { result ≡ ended_by end }
{
    match end {
        StopEnd::GoOn => None,
        StopEnd::Done => Some(End::Done),
        StopEnd::HeapFull { free, reserve } => Some(End::HeapFull { free, reserve }),
    }
}
