//! A round: each mutator with commands left does a slice of its program, in a thread of its own. Beside them the collector
//! marks or sweeps, if a cycle is in progress, in a thread too. A round asks programs (`round_programs`). The programs of a
//! script are lists (`round`).
//!
//! First comes all that can fail: room for replies and notes, and the lists of the round's seats. The room for the workers
//! lasts for the run. Then the words go into the round and come back from it, and nothing in between can fail. Only then are
//! the replies taken off the mutators, for the report.
//!
//! The opening of the round, with the world that the words represent, exists in proofs alone (`Witness`). So does the script
//! of the run so far: of each program it has the commands done and the next one (`specs/Programs.antt`). The opening is the
//! last state of the run that the collector's rows describe. While a cycle marks, it also has the marking machine to which the
//! marker is tied (`OpensAt`). The round's `marking` is true then, since only then do mutators owe overwritten references.
//!
//! Commands, replies and worlds don't depend on the collector: it writes only marks and segments that wait. While a cycle
//! marks, only scans add marks. While it sweeps, a swept segment loses only the names that were freed.
//!
//! Easy to get wrong: a request for a cycle or a full one lasts until a stop grants it, so a round may only add requests. And
//! the opening is chosen for the script before the round, but the round belongs to the longer script's run too. The opening
//! depends only on the world, the places and the marking machine, which are the same for both scripts.
ghost use Rattle.std.specs.Prelude.{ℕ, ◌≡◌, ◌⊎◌, ◌||◌, ◌<◌, ◌≤◌, ◌+◌, ◌^◌, [], ◌∷◌, ◌++◌, true, None, Some, IfOk, OnErr, OnOk, length, map, min, slice_get, slice_index, slice_index_or};
ghost use Rattle.std.specs.List.{list_any};
ghost use Rattle.nmgc_alloc.specs.Segments.{IsSegments};
ghost use Rattle.nmgc_round.specs.Gate.{passed};
ghost use Rattle.nmgc_mutator.specs.declared.mutator.Mutator.{Mutator as MutatorSeen};
ghost use Rattle.nmgc_limits.specs.{Limits.most_slice, declared.mutators.TheConstants.MAKERS};
ghost use Rattle.nmgc_updrem.specs.{Lines.HasMetSo, Rings.AtLine, Rings.HavePolled};
ghost use Rattle.nmgc_run_laws.specs.Limits.{FitsRun};
ghost use Rattle.nmgc_cycle.specs.{Lined.IsLined, Lined.HasMetSender, Lined.HaveLines, Lined.HaveMet, Lined.RememberInOrder, Keeps.HasStopped, Keeps.DidRound, Cycles.CanHelp, Cycles.HasHelped, Cycles.worked_on, Cycles.upper_worked_on, Shown.is_marking_in, Shown.turns_of, Shown.upper_turns_of};
ghost use Rattle.nmgc_cycle.specs.Working.{HaveRoom, HasLists, AreReserved, OpensAt, HaveTried, asks_of, asks_full_of, done_by, cleared, replies_of};
ghost use Rattle.nmgc_cycle.specs.declared.collector.Collector.{Collector as CollectorSeen};
ghost use Rattle.nmgc_cycle.specs.{Asking.CanAskAll, Programs.AreListed, Programs.CanContinue, Programs.DidAsk, Programs.DidAskSlices, Programs.GaveSome, Programs.HasAskInbox, Programs.HaveAskRoom, Programs.HaveWorkedAsAsked, Programs.MayBeAsked, Programs.most_at};

use crate::Collector;
use crate::asking::ask_beside;
use crate::cycle::segments_are_sound;
use crate::round_laws::{a_round_leads, slices_lead};
use crate::worker::{RoundInputs, Worker, seat_all, some_ask_full, some_asks, unseat_all};
use nmgc_journal::{Replies, RoundRows};
use nmgc_limits::MAKERS;
use nmgc_lists::{List, ListMemory, NoMemory};
use nmgc_mutator::mutator::{MOST_PUSHED, Mutator};
use nmgc_mutator::{Listed, Program};
use nmgc_round::witness::WitnessFor;
use nmgc_round::{CollectorSeat, Finished, Gate, MutatorSeat, Opened, Round, Started, Witness};
use nmgc_script::{Config, Script};
use nmgc_updrem::{BLOCK_ENTRIES, Inbox};
use std::alloc::Global;
use std::mem;
use std::thread::Threads;

// The memory of a round's seats: two lists with room, and the memory in which each will lie. The round hands its seats out in
// `given`, and takes them back in `taken`. Both lists are made anew for each round, since the round takes them by value, and
// contracts don't see the room of a `List`. A seat has no bytes.
#[derive(Drop)]
struct Lists {
    given: Vec<MutatorSeat>,
    taken: Vec<MutatorSeat>,
    given_memory: ListMemory<MutatorSeat>,
    taken_memory: ListMemory<MutatorSeat>,
}

impl Lists {
    // Returns two empty lists, each with room for `count` seats.
    fn new(alloc: Global, count: usize) -> Result<Lists, NoMemory>
        ensures { IfOk result (λ lists. HaveRoom count lists) }
    {
        Ok(Lists {
            given: Vec::with_capacity(alloc, count)?,
            taken: Vec::with_capacity(alloc, count)?,
            given_memory: ListMemory::new(alloc)?,
            taken_memory: ListMemory::new(alloc)?,
        })
    }
}

// The opening of the round after a stop.
struct AfterStop;

impl<'a> WitnessFor<(&'a Witness<Script>, &'a Collector), Opened> for AfterStop {
    ghost use Rattle.nmgc_cycle.specs.Working.{OpensAt};

    ghost wanted = { λ about o. OpensAt about.0.now.value about.1.now o };
}

// Returns the opening of the round that follows the last stop. Requires that no round followed that stop yet.
fn opening_of(script: &Witness<Script>, collector: &Collector) -> Witness<Opened>
    requires { HasStopped script.now.value collector.now }
    ensures { OpensAt script.now.value collector.now result.value }
{
    Witness::of::<(&Witness<Script>, &Collector), AfterStop>(&(script, collector))
}

// A script that is known before its run.
struct KnownBefore;

impl<'a> WitnessFor<&'a Script, Script> for KnownBefore {
    ghost use Rattle.std.specs.Prelude.{◌≡◌};

    ghost wanted = { λ about script. script ≡ about.now };
}

/// Returns a witness of a script that is known before its run. A witness has no bytes.
pub fn known_before(script: &Script) -> Witness<Script>
    ensures { result.value ≡ script.now }
{
    Witness::of::<&Script, KnownBefore>(&script)
}

/// Returns the programs of a script from these positions on, as lists.
pub(crate) fn listed<'a>(
    alloc: Global,
    script: &'a Script,
    positions: &[u32],
) -> Result<Vec<Listed<'a>>, NoMemory>
    requires { length positions.now ≡ length script.now.threads }
    ensures { IfOk result (λ programs. AreListed script.now positions.now programs.items) }
{
    let mut programs = Vec::with_capacity(alloc, positions.len())?;
    for number in 0..positions.len() {
        let program = script.threads.items()[number].items();
        programs.push(Listed {
            commands: program,
            position: positions[number] as usize,
            words: script.config.words,
        })?;
    }
    Ok(programs)
}

impl Collector {
    /// Does one round: each mutator with commands left does a slice, in a thread of its own, and passes `gate` before each
    /// command that it tries. Whatever the schedule was, all commands of the round have one legal order from the world of the
    /// stop before the round. Words and mutators represent the world after this order. The round's replies are returned. They
    /// follow the earlier replies, and no row of a stop or a cycle changes.
    ///
    /// Beside the mutators the collector passes `gate` before each object that it scans and each segment that it sweeps.
    /// While a cycle marks, it scans `quota` objects, or all if there are fewer. The marker then has the marks and queue of
    /// the marking machine after this order and these scans, at the quota's pace. After a closing, it sweeps `quota` segments
    /// in two halves, or all that wait if there are fewer. Swept segments have only names that the cycle keeps. Passes are
    /// counted through the whole run (`mutator_turns`, `turns`, `upper_turns`). A mutator's count grows by the commands that
    /// it tried, even if the last waits for room. The collector's count grows by the objects that it scanned, or by the
    /// segments swept in the lower half; the upper half has its own count. A full cycle that a slice asks for is due at the
    /// next stop, an ordinary one at the next stop without a cycle in progress.
    ///
    /// While a cycle marks, mutators send full blocks of remembered entries through their rings, and the collector takes them
    /// out. Afterwards each mutator remembers the entries taken out of its ring, then those in the ring, then those in its
    /// set. Requires that the last stop answered `GoOn` and no round followed. After `NoMemory` no clause applies.
    pub fn round<R: Threads + Sync, G: Gate>(
        &mut self,
        rt: &R,
        script: &Script,
        gate: &G,
    ) -> Result<RoundRows, NoMemory>
        requires limits { FitsRun script.now }
        requires stopped { HasStopped script.now self.old × (self.old.answered ≡ None) }
        ensures worked { OnOk result (DidRound script.now self.old self.new) }
        ensures reported { IfOk result (λ rows. self.new.rows.rounds ≡ self.old.rows.rounds ++ rows ∷ []) }
        ensures stops { OnOk result (self.new.rows.stops ≡ self.old.rows.stops) }
        ensures cycles { OnOk result (self.new.rows.cycles ≡ self.old.rows.cycles) }
        ensures mutator_turns { OnOk result (HaveTried script.now self.old self.new) }
        ensures turns { OnOk result (turns_of self.new ≡ passed (turns_of self.old) (worked_on self.old.cycle.progress self.new.cycle.progress)) }
        ensures upper_turns { OnOk result (upper_turns_of self.new ≡
            passed (upper_turns_of self.old) (upper_worked_on self.old.cycle.progress self.new.cycle.progress)) }
        ensures remembered { OnOk result (RememberInOrder self.new.inbox self.new.mutators.items) }
    {
        let mut programs = listed(self.alloc, script, self.positions.as_slice())?;
        self.round_programs(
            rt,
            &script.config,
            &known_before(script),
            programs.as_mut_slice(),
            gate,
        )
    }

    /// Does one round for programs, one for each mutator in the order of their numbers, as `round` does for a script. Each
    /// program runs in its mutator's thread, and gets each reply before it is asked for the next command.
    ///
    /// `script` is the script of the run so far, for proofs alone. Requires that whatever the programs give in the round, some
    /// script with more commands at the ends of its programs has these commands (clause `continues`). The round is then a
    /// round of that script's run (clause `worked`, `DidAsk`). So a program may decide on its next command by the last reply.
    ///
    /// The programs stay the caller's. Even after `NoMemory` each is in the state in which it took its last reply, and gave
    /// at most its own bound of commands (clause `gave`). Then no program gave a command, or the round was done and only its row
    /// is missing (clause `replied`). No other clause applies then. Requires that the last stop answered `GoOn` and no round
    /// followed.
    pub(crate) fn round_programs<R: Threads + Sync, P: Program, G: Gate>(
        &mut self,
        rt: &R,
        config: &Config,
        script: &Witness<Script>,
        programs: &mut [P],
        gate: &G,
    ) -> Result<RoundRows, NoMemory>
        requires limits { FitsRun script.now.value }
        requires config { config.now ≡ script.now.value.config }
        requires stopped { HasStopped script.now.value self.old × (self.old.answered ≡ None) }
        requires programs { MayBeAsked P.words P.most P.valid script.now.value self.old.positions.items programs.old }
        requires continues { CanContinue P.next P.steps P.words P.most P.valid script.now.value self.old.positions.items programs.old }
        ensures worked { OnOk result (DidAsk P.next P.steps P.words P.most P.valid script.now.value self.old self.new programs.old programs.new) }
        ensures gave { GaveSome P.next P.steps P.words P.most P.valid programs.old programs.new }
        ensures replied { OnErr result ((programs.new ≡ programs.old) ⊎
            ((new : CollectorSeen) × DidAsk P.next P.steps P.words P.most P.valid script.now.value self.old new programs.old programs.new)) }
        ensures reported { IfOk result (λ rows. self.new.rows.rounds ≡ self.old.rows.rounds ++ rows ∷ []) }
        ensures stops { OnOk result (self.new.rows.stops ≡ self.old.rows.stops) }
        ensures cycles { OnOk result (self.new.rows.cycles ≡ self.old.rows.cycles) }
        ensures turns { OnOk result (turns_of self.new ≡ passed (turns_of self.old) (worked_on self.old.cycle.progress self.new.cycle.progress)) }
        ensures upper_turns { OnOk result (upper_turns_of self.new ≡
            passed (upper_turns_of self.old) (upper_worked_on self.old.cycle.progress self.new.cycle.progress)) }
        ensures remembered { OnOk result (RememberInOrder self.new.inbox self.new.mutators.items) }
    {
        let rows = self.do_round(rt, config, script, programs, gate)?;
        self.meet_all();
        Ok(rows)
    }

    // Looks into each ring once, now that a single thread has both ends. No entry moves. This shows the prover that the
    // entries received and the entries in the ring are all that were sent, so the order of remembered entries is known.
    fn meet_all(&mut self)
        requires { HaveLines self.old.inbox self.old.mutators.items }
        ensures rest { self.new ≡ record self.old { inbox = self.new.inbox; mutators = self.new.mutators } }
        ensures met { HaveMet (length self.old.mutators.items) self.old.inbox self.new.inbox self.old.mutators.items self.new.mutators.items }
    {
        meet_each(&mut self.inbox, self.mutators.as_mut_slice());
    }

    // Does what `round_programs` does, except for `meet_all`: only after it is the order of the remembered entries known.
    fn do_round<R: Threads + Sync, P: Program, G: Gate>(
        &mut self,
        rt: &R,
        config: &Config,
        script: &Witness<Script>,
        programs: &mut [P],
        gate: &G,
    ) -> Result<RoundRows, NoMemory>
        requires limits { FitsRun script.now.value }
        requires config { config.now ≡ script.now.value.config }
        requires stopped { HasStopped script.now.value self.old × (self.old.answered ≡ None) }
        requires programs { MayBeAsked P.words P.most P.valid script.now.value self.old.positions.items programs.old }
        requires continues { CanContinue P.next P.steps P.words P.most P.valid script.now.value self.old.positions.items programs.old }
        ensures worked { OnOk result (DidAsk P.next P.steps P.words P.most P.valid script.now.value self.old self.new programs.old programs.new) }
        ensures gave { GaveSome P.next P.steps P.words P.most P.valid programs.old programs.new }
        ensures replied { OnErr result ((programs.new ≡ programs.old) ⊎
            ((new : CollectorSeen) × DidAsk P.next P.steps P.words P.most P.valid script.now.value self.old new programs.old programs.new)) }
        ensures reported { IfOk result (λ rows. self.new.rows.rounds ≡ self.old.rows.rounds ++ rows ∷ []) }
        ensures stops { OnOk result (self.new.rows.stops ≡ self.old.rows.stops) }
        ensures cycles { OnOk result (self.new.rows.cycles ≡ self.old.rows.cycles) }
        ensures turns { OnOk result (turns_of self.new ≡ passed (turns_of self.old) (worked_on self.old.cycle.progress self.new.cycle.progress)) }
        ensures upper_turns { OnOk result (upper_turns_of self.new ≡
            passed (upper_turns_of self.old) (upper_worked_on self.old.cycle.progress self.new.cycle.progress)) }
    {
        a_round_leads();
        self.make_room(config, script, programs)?;
        self.make_inbox_room(config, script, programs)?;
        let lists = Lists::new(self.alloc, self.mutators.len())?;
        let opening = opening_of(script, self);
        self.do_slices(rt, config, script, programs, gate, &opening, lists);
        let rows = take_rows(self.alloc, self.mutators.as_mut_slice())?;
        self.rows.rounds.note(&rows);
        Ok(rows)
    }

    // Makes room in each mutator for the replies and notes of its slice in the round.
    fn make_room<P: Program>(
        &mut self,
        config: &Config,
        script: &Witness<Script>,
        programs: &[P],
    ) -> Result<(), NoMemory>
        requires limits { FitsRun script.now.value }
        requires config { config.now ≡ script.now.value.config }
        requires stopped { HasStopped script.now.value self.old }
        requires programs { MayBeAsked P.words P.most P.valid script.now.value self.old.positions.items programs.now }
        ensures rest { OnOk result (self.new ≡ record self.old { mutators = self.new.mutators }) }
        ensures mutators { OnOk result (AreReserved self.old.mutators.items self.new.mutators.items) }
        ensures room { OnOk result (HaveAskRoom P.most config.now.slice self.new.mutators.items programs.now) }
    {
        reserve_all(self.mutators.as_mut_slice(), config.slice, programs)
    }

    // If a cycle marks, makes room in the inbox for all entries that the mutators may send in the round.
    fn make_inbox_room<P: Program>(
        &mut self,
        config: &Config,
        script: &Witness<Script>,
        programs: &[P],
    ) -> Result<(), NoMemory>
        requires limits { FitsRun script.now.value }
        requires config { config.now ≡ script.now.value.config }
        requires stopped { HasStopped script.now.value self.old }
        requires programs { MayBeAsked P.words P.most P.valid script.now.value self.old.positions.items programs.now }
        ensures rest { OnOk result (self.new ≡ record self.old { inbox = self.new.inbox }) }
        ensures lists { OnOk result (HavePolled self.old.inbox self.new.inbox) }
        ensures room { OnOk result (is_marking_in self.old.cycle.progress ≡ true → HasAskInbox P.most config.now.slice self.new.inbox programs.now) }
    {
        if !self.cycle.progress.is_marking() {
            return Ok(());
        }
        reserve_inbox(&mut self.inbox, config.slice, programs)
    }

    // Does the slices of all mutators and the collector's part beside them. Meanwhile the words, the mutators and the
    // workers' room are out of the collector's fields. Moving them takes no memory, and nothing here can fail.
    fn do_slices<R: Threads + Sync, P: Program, G: Gate>(
        &mut self,
        rt: &R,
        config: &Config,
        script: &Witness<Script>,
        programs: &mut [P],
        gate: &G,
        opening: &Witness<Opened>,
        lists: Lists,
    )
        requires limits { FitsRun script.now.value }
        requires config { config.now ≡ script.now.value.config }
        requires opens { OpensAt script.now.value self.old opening.now.value }
        requires programs { MayBeAsked P.words P.most P.valid script.now.value self.old.positions.items programs.old }
        requires continues { CanContinue P.next P.steps P.words P.most P.valid script.now.value self.old.positions.items programs.old }
        requires room { HaveAskRoom P.most config.now.slice self.old.mutators.items programs.old }
        requires inbox { is_marking_in self.old.cycle.progress ≡ true → HasAskInbox P.most config.now.slice self.old.inbox programs.old }
        requires lists { HaveRoom (length self.old.mutators.items) lists }
        ensures { DidAskSlices P.next P.steps P.words P.most P.valid script.now.value opening.now.value self.old self.new programs.old programs.new }
    {
        slices_lead();
        let Lists {
            given,
            mut taken,
            given_memory,
            taken_memory,
        } = lists;
        let words = self.heap.words.take().unwrap();
        let layout = self.heap.segments.layout();
        let marking = self.cycle.progress.is_marking();
        let Started {
            round,
            mutators: seats,
            mut collector,
        } = Round::start(words, layout, marking, opening, given, given_memory);
        let mut workers = self.workers.lend(self.alloc);
        // Until `unseat_all`, the workers have the mutators, and the list in `self.mutators` is empty, with its room.
        let mutators = mem::replace(&mut self.mutators, Vec::new(self.alloc));
        self.mutators = seat_all(mutators, seats, &mut workers);
        self.run_workers(
            &RoundInputs {
                rt,
                round: &round,
                config,
                gate,
            },
            &mut collector,
            workers.as_mut_slice(),
            script,
            programs,
        );
        advance(self.positions.as_mut_slice(), workers.as_slice());
        let emptied = unseat_all(workers, &mut self.mutators, &mut taken);
        self.workers.give_back(emptied);
        let Finished { words } = round.finish(List::from_vec_in(taken, taken_memory), collector);
        self.heap.words = Some(words);
    }

    // Does the workers' slices and the collector's part beside them, and notes the slices' requests for cycles.
    fn run_workers<R: Threads + Sync, P: Program, G: Gate>(
        &mut self,
        inputs: &RoundInputs<R, G>,
        seat: &mut CollectorSeat,
        workers: &mut [Worker],
        script: &Witness<Script>,
        programs: &mut [P],
    )
        requires inbox { self.old.heap.segments.layout.mutators ≤ length self.old.inbox }
        requires collector { CanHelp inputs.now.round.now seat.old self.old.heap.segments self.old.heap.names self.old.cycle.progress }
        requires config { inputs.now.config.now ≡ script.now.value.config }
        requires mutators { CanAskAll P.words P.most P.valid inputs.now.round.now inputs.now.config.now.slice workers.old programs.old }
        ensures rest { self.new ≡ record self.old {
          heap = record self.old.heap { segments = self.new.heap.segments };
          cycle = record self.old.cycle { progress = self.new.cycle.progress; collect = self.new.cycle.collect; full = self.new.cycle.full };
          inbox = self.new.inbox;
        } }
        ensures collector { HasHelped inputs.now.round.now inputs.now.config.now.quota seat.old seat.new self.old.heap.segments self.new.heap.segments self.old.heap.names
            self.old.cycle.progress self.new.cycle.progress }
        ensures mutators { HaveWorkedAsAsked P.next P.steps P.words P.most P.valid inputs.now.round.now script.now.value self.old.positions.items
            workers.old workers.new programs.old programs.new }
        ensures polled { HavePolled self.old.inbox self.new.inbox }
        ensures sound { IsSegments self.new.heap.segments }
        ensures collect { self.new.cycle.collect ≡ (self.old.cycle.collect || list_any asks_of workers.new) }
        ensures full { self.new.cycle.full ≡ (self.old.cycle.full || list_any asks_full_of workers.new) }
    {
        ask_beside(
            inputs,
            &mut self.cycle.progress,
            seat,
            &mut self.heap.segments,
            &self.heap.names,
            &mut self.inbox,
            workers,
            programs,
        );
        segments_are_sound(&self.heap.segments);
        self.cycle.collect = is_still_asked(self.cycle.collect, some_asks(workers));
        self.cycle.full = is_still_asked(self.cycle.full, some_ask_full(workers));
    }
}

// Looks into a mutator's ring from both of its ends (`Inbox::meet`), for the reason at `meet_all`. No entry moves.
fn meet(inbox: &mut Inbox, number: u8, mutator: &mut Mutator)
    requires { IsLined inbox.old number mutator.old.sender }
    ensures mutator { HasMetSender mutator.old mutator.new }
    ensures receiver { AtLine (HasMetSo mutator.old.sender mutator.new.sender) number inbox.old inbox.new }
{
    inbox.meet(number, mutator.sender());
}

// Looks into each mutator's ring from both of its ends, for the reason at `meet_all`. No entry moves.
fn meet_each(inbox: &mut Inbox, mutators: &mut [Mutator])
    requires lines { HaveLines inbox.old mutators.old }
    ensures { HaveMet (length mutators.old) inbox.old inbox.new mutators.old mutators.new }
{
    for number in 0..mutators.len() {
        meet(inbox, number as u8, &mut mutators[number]);
    }
}

// Makes room in the inbox for the entries that each mutator may send in its next slice, in whole blocks.
fn reserve_inbox<P: Program>(inbox: &mut Inbox, slice: u32, programs: &[P]) -> Result<(), NoMemory>
    requires count { length programs.now ≡ length inbox.old }
    requires valid { (k : ℕ) (p : P) → slice_get programs.now k ≡ Some p → P.valid p }
    requires few { length inbox.old ≤ MAKERS }
    requires slice { slice ≤ most_slice }
    ensures lists { HavePolled inbox.old inbox.new }
    ensures room { OnOk result (HasAskInbox P.most slice inbox.new programs.now) }
{
    for number in 0..programs.len() {
        let commands = programs[number].at_most().min(slice);
        let blocks = (MOST_PUSHED * commands).div_ceil(BLOCK_ENTRIES as u32);
        inbox.reserve(number as u8, blocks * BLOCK_ENTRIES as u32)?;
    }
    Ok(())
}

// Whether the next stop finds a request: one from before the round that no stop has granted, or one that the round made.
fn is_still_asked(before: bool, in_round: bool) -> bool
    ensures { result ≡ (before || in_round) }
{
    before || in_round
}

// Makes room in each mutator for the replies and notes of its next slice.
fn reserve_all<P: Program>(
    mutators: &mut [Mutator],
    slice: u32,
    programs: &[P],
) -> Result<(), NoMemory>
    requires count { length programs.now ≡ length mutators.old }
    requires valid { (k : ℕ) (p : P) → slice_get programs.now k ≡ Some p → P.valid p }
    requires slice { slice ≤ most_slice }
    ensures kept { OnOk result (AreReserved mutators.old mutators.new) }
    ensures room { OnOk result ((k : ℕ) (d : MutatorSeen) → k < length mutators.old →
        HasLists (min slice (most_at P.most programs.now k)) (slice_index_or mutators.new k d)) }
{
    for (number, mutator) in mutators.iter_mut().enumerate() {
        mutator.reserve(programs[number].at_most().min(slice))?;
    }
    Ok(())
}

// Advances the position of each program by the number of commands that its worker did.
#[tactic(auto, using(crate::proofs::rounds::Sliced::done_of))]
fn advance(positions: &mut [u32], workers: &[Worker])
    requires count { length workers.now ≡ length positions.old }
    requires fits { (k : ℕ) → k < length positions.old → slice_index positions.old k + slice_index (map done_by workers.now) k < 2 ^ 32 }
    ensures count { length positions.new ≡ length positions.old }
    ensures each { (k : ℕ) → k < length positions.old → slice_index positions.new k ≡ slice_index positions.old k + slice_index (map done_by workers.now) k }
{
    for (number, position) in positions.iter_mut().enumerate() {
        *position += workers[number].done;
    }
}

// Clears a mutator's list of replies, and returns the replies that were in it.
fn take_replies(alloc: Global, mutator: &mut Mutator) -> Result<Replies, NoMemory>
    ensures replies { IfOk result (λ replies. replies ≡ mutator.old.replies.items) }
    ensures rest { OnOk result (mutator.new ≡ cleared mutator.old) }
{
    let replies = Replies::from_slice(alloc, mutator.replies.items())?;
    mutator.replies.clear();
    Ok(replies)
}

// Clears the mutators' lists of replies, and returns the round's row with the replies that were in them.
fn take_rows(alloc: Global, mutators: &mut [Mutator]) -> Result<RoundRows, NoMemory>
    ensures rows { IfOk result (λ rows. rows.replies ≡ replies_of mutators.old) }
    ensures rest { OnOk result (mutators.new ≡ map cleared mutators.old) }
{
    let mut replies = List::new(alloc);
    for mutator in mutators {
        replies.push(take_replies(alloc, mutator)?)?;
    }
    Ok(RoundRows { replies })
}
