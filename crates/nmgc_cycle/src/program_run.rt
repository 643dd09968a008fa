//! A run of programs, stop by stop, whose programs may be replaced.
//!
//! `ProgramRun` is a collector in a run of programs. Stops and rounds alternate, and the caller has the programs in between. A
//! run doesn't belong to its first programs: at a stop others may take their places, and the same heap goes on with them. They
//! need the same next commands, and room for their commands beside those given so far (law `programs_are_replaced`). A
//! program that waits gives `yield`, and may be replaced by any program that begins with `yield` (`Parks`).
//!
//! The invariant is in `specs/SoFar.antt`. The run keeps the commands given so far with their replies, for proofs alone
//! (`given`). The script of the run so far has them, and then each program's waiting command. The collector is in a run of this
//! script. So the report of the whole run is lawful for one script, whichever programs gave its commands.
//!
//! Easy to get wrong: a program at its end gives no command any more, and neither does one in its place. Only a program that
//! waits with a command may be replaced by one that goes on.
ghost use Rattle.std.specs.Prelude.{ℕ, ◌≡◌, ◌↔◌, ◌+◌, ◌-◌, ◌^◌, ◌<◌, ◌≤◌, [], ◌∷◌, ◌++◌, length, min, sum_by, IfOk, IfSome, IfNone, OnOk, OnErr, IsTrue, Some, None, slice_get, true, false};
ghost use Rattle.nmgc_world_spec.specs.declared.command.Command.TheVariants.{Yield};
ghost use Rattle.nmgc_journal.specs.declared.report.StopRow.{StopRow};
ghost use Rattle.nmgc_round.specs.Gate.{passed};
ghost use Rattle.nmgc_run_laws.specs.Limits.{most_commands};
ghost use Rattle.nmgc_cycle.specs.{Cycles.upper_worked_on, Cycles.worked_on, Keeps.DidRound, Keeps.NothingReachableIsFreed, Keeps.StopsAfter, Lined.RememberInOrder, Observed.AreEventsOf, Observed.HandsOn, Observed.KeepsEvent, Observed.ObservedFrom, Observed.ObservedRun, Shown.turns_of, Shown.upper_turns_of, Working.HaveTried, Programs.GaveSome, Programs.MayRun, Programs.most_total, declared.observer.KeptRows.KeptRows as KeptRowsSeen};
ghost use Rattle.nmgc_cycle.specs.SoFar.{AreParked, GaveMore, IsContinuedTo, IsReportOf, IsRoundOrNone, MayReplace, ObservedSince, RunHasEnded, StandsAfterStop, StandsBeforeStop, nothing_given, script_so_far as script_of_so_far, total_of};
ghost use Rattle.nmgc_cycle.specs.declared.stop.StopEnd.TheVariants as answer;

use crate::collector::observe_stop;
use crate::observer::{Event, KeptRows, Observer, RunFault};
use crate::programs::without_commands;
use crate::{Collector, StopEnd, StopRows};
use nmgc_commands::Form;
use nmgc_journal::{End, Report, RoundRows};
use nmgc_lists::{List, NoMemory};
use nmgc_mutator::Program;
use nmgc_round::witness::WitnessFor;
use nmgc_round::{Gate, Witness};
use nmgc_script::{Config, Script};
use nmgc_world_spec::{Command, Reply};
use std::alloc::Global;
use std::marker::PhantomData;
use std::thread::Threads;

/// The most commands of all programs of a run together: 2^31.
pub const MOST_COMMANDS: u32 = 2_147_483_648;

// The commands that each program gave, with their replies, for proofs alone.
type Given = List<List<(Command, Reply)>>;

/// A collector in a run of programs, with the run's configuration. The programs are the caller's.
#[derive(Drop)]
pub struct ProgramRun {
    pub(crate) collector: Collector,
    pub(crate) config: Config,
    // The commands given so far.
    pub(crate) given: Witness<Given>,
}

/// A program that may wait for others. It gives `yield` until it finds work in the heap, or is replaced.
pub trait Parks: Program {
    /// Returns whether the program waits.
    fn is_parked(&self) -> bool
        requires { Self.valid self.now }
        ensures { IsTrue result → Self.next self.now ≡ Some Yield };
}

/// A program that knows how many commands it may still give. So it may take a place in a run that goes on (`may_resume`).
pub trait Bounded: Program {
    /// Returns the greatest number of further commands, and `u32::MAX` if it is greater.
    fn bound(&self) -> u32
        requires { Self.valid self.now }
        ensures { result ≡ min (Self.most self.now) (2 ^ 32 - 1) };
}

// No commands, for programs of a run that begins.
struct NothingGiven<P> {
    marker: PhantomData<P>,
}

impl<'a, P> WitnessFor<&'a [P], Given> for NothingGiven<P> {
    ghost use Rattle.std.specs.Prelude.{◌≡◌};
    ghost use Rattle.nmgc_cycle.specs.SoFar.{nothing_given};

    ghost wanted = { λ about given. given ≡ nothing_given about.now };
}

// The script of the run so far.
struct SoFar<P> {
    marker: PhantomData<P>,
}

impl<'a, P: Program> WitnessFor<(&'a ProgramRun, &'a [P]), Script> for SoFar<P> {
    ghost use Rattle.std.specs.Prelude.{◌≡◌};
    ghost use Rattle.nmgc_cycle.specs.SoFar.{script_so_far};

    ghost wanted = { λ about script. script ≡ script_so_far P.next about.0.now about.1.now };
}

// The programs as a round began, for proofs alone. The witness names a slice, which has the same size for all programs. It
// borrows nothing, since a witness has no bytes.
struct BeforeRound<P> {
    marker: PhantomData<P>,
}

impl<'a, 'b, P> WitnessFor<&'a [P], &'b [P]> for BeforeRound<P> {
    ghost use Rattle.std.specs.Prelude.{◌≡◌};

    ghost wanted = { λ about programs. programs.now ≡ about.now };
}

// The collector at the stop before a round, for proofs alone.
struct StoppedBefore;

impl<'a> WitnessFor<&'a Collector, Collector> for StoppedBefore {
    ghost use Rattle.std.specs.Prelude.{◌≡◌};

    ghost wanted = { λ about stopped. stopped ≡ about.now };
}

// The commands given until after a round.
struct AfterRound<P> {
    marker: PhantomData<P>,
}

impl<'a, 'b, P: Program> WitnessFor<
    (
        &'a Witness<&'b [P]>,
        &'a Witness<Collector>,
        &'a ProgramRun,
        &'a [P],
    ),
    Given,
> for AfterRound<P> {
    ghost use Rattle.nmgc_cycle.specs.{Keeps.DidRound, Programs.script_of, Working.HaveTried};
    ghost use Rattle.nmgc_cycle.specs.SoFar.{GaveMore, IsRunSoFar};

    ghost wanted = { λ about given. GaveMore P.next P.steps P.words P.most P.valid about.0.now.value.now about.3.now about.2.now.given.value given ×
        IsRunSoFar P.next P.words P.most P.valid about.2.now.config about.2.now.collector given about.3.now ×
        DidRound (script_of P.next about.2.now.config given about.3.now) about.1.now.value about.2.now.collector ×
        HaveTried (script_of P.next about.2.now.config given about.3.now) about.1.now.value about.2.now.collector };
}

// Whether each program is parked.
fn are_parked<P: Parks>(programs: &[P]) -> bool
    requires valid { (k : ℕ) (p : P) → slice_get programs.now k ≡ Some p → P.valid p }
    ensures { IsTrue result → AreParked P.next programs.now }
{
    for number in 0..programs.len() {
        if !programs[number].is_parked() {
            return false;
        }
    }
    true
}

// Whether each program begins with `yield`.
fn begin_with_yield<P: Program>(programs: &[P]) -> bool
    requires { (k : ℕ) (p : P) → slice_get programs.now k ≡ Some p → P.valid p }
    ensures { IsTrue result ↔ AreParked P.next programs.now }
{
    for number in 0..programs.len() {
        let Some(command) = programs[number].peek() else {
            return false;
        };
        if !matches!(command.form(), Form::Yield) {
            return false;
        }
    }
    true
}

// Returns the sum of these numbers of commands given and of the programs' bounds, or a number above 2^31 if the sum is.
fn commands_at_most<P: Bounded>(positions: &[u32], programs: &[P]) -> u64
    requires count { length positions.now ≡ length programs.now }
    requires valid { (k : ℕ) (p : P) → slice_get programs.now k ≡ Some p → P.valid p }
    ensures { (result ≤ most_commands) ↔ (total_of positions.now + most_total P.most programs.now ≤ most_commands) }
{
    let mut count = 0u64;
    for number in 0..programs.len() {
        count = count
            .saturating_add(u64::from(positions[number]))
            .saturating_add(u64::from(programs[number].bound()));
    }
    count
}

// Returns the number of commands in the first slice of each program, at most. No clause constrains the answer.
fn first_slices_of<P: Program>(
    alloc: Global,
    slice: u32,
    programs: &[P],
) -> Result<Vec<u32>, NoMemory>
    requires { (k : ℕ) (p : P) → slice_get programs.now k ≡ Some p → P.valid p }
{
    let mut slices = Vec::with_capacity(alloc, programs.len())?;
    for number in 0..programs.len() {
        slices.push(programs[number].at_most().min(slice))?;
    }
    Ok(slices)
}

impl ProgramRun {
    /// Begins a run of programs, one for each mutator, as it is before its first stop. Takes memory as `Collector::new` does.
    /// Requires a configuration within the limits of version 3, and one to `MAKERS` valid programs whose bounds sum up to at
    /// most 2^31.
    pub fn new<P: Program>(
        alloc: Global,
        config: &Config,
        programs: &[P],
    ) -> Result<ProgramRun, NoMemory>
        requires { MayRun P.words P.most P.valid config.now programs.now }
        ensures config { IfOk result (λ run. run.config ≡ config.now) }
        ensures given { IfOk result (λ run. run.given.value ≡ nothing_given programs.now) }
        ensures stands { IfOk result (λ run. StandsBeforeStop P.next P.words P.most P.valid run programs.now) }
        ensures events { IfOk result (λ run. AreEventsOf run.collector true []) }
    {
        let empty = without_commands(alloc, config, programs.len())?;
        let slices = first_slices_of(alloc, config.slice, programs)?;
        let collector = Collector::with_slices(alloc, &empty, slices.as_slice())?;
        Ok(ProgramRun {
            collector,
            config: *config,
            given: Witness::of::<&[P], NothingGiven<P>>(&programs),
        })
    }

    // Returns the script of the run so far, with these programs, for proofs alone.
    fn script_so_far<P: Program>(&self, programs: &[P]) -> Witness<Script>
        ensures { result.value ≡ script_of_so_far P.next self.now programs.now }
    {
        Witness::of::<(&ProgramRun, &[P]), SoFar<P>>(&(self, programs))
    }

    /// Does a stop, as `Collector::stop` does for a script, and returns its answer. Programs are only asked whether they have a
    /// next command, and none changes. `rows` gets the stop's row and the rows of the cycles that ended.
    ///
    /// The run of the script so far goes on by this stop (clause `after`). Each object that can still be reached has its block
    /// afterwards (clause `freed`). After `GoOn` a round may follow, with these programs. After another answer the run has
    /// ended. Requires that the run stands before a stop with these programs. After `NoMemory` the collector is gone.
    pub fn stop<R: Threads + Sync, P: Program>(
        &mut self,
        rt: &R,
        programs: &[P],
        rows: &mut StopRows,
    ) -> Result<StopEnd, NoMemory>
        requires stands { StandsBeforeStop P.next P.words P.most P.valid self.old programs.now }
        ensures rest { self.new ≡ record self.old { collector = self.new.collector } }
        ensures answered { IfOk result (StandsAfterStop P.next P.words P.most P.valid self.new programs.now) }
        ensures after { OnOk result (StopsAfter (script_of_so_far P.next self.old programs.now) self.old.collector self.new.collector) }
        ensures freed { OnOk result (NothingReachableIsFreed (script_of_so_far P.next self.old programs.now) self.new.collector) }
        ensures rounds { OnOk result (self.new.collector.rows.rounds ≡ self.old.collector.rows.rounds) }
        ensures stops { OnOk result ((row : StopRow) × (self.new.collector.rows.stops ≡ self.old.collector.rows.stops ++ row ∷ []) × (rows.new.stop ≡ Some row) × (row.number ≡ length self.old.collector.rows.stops)) }
        ensures cycles { OnOk result (HandsOn (length self.old.collector.rows.stops) self.old.collector.rows.cycles self.new.collector.rows.cycles rows.old.cycles rows.new.cycles) }
    {
        let script = self.script_so_far(programs);
        let answer = self
            .collector
            .stop_programs(rt, &self.config, &script, programs, rows)?;
        Ok(answer)
    }

    /// Does a round, and returns its replies. Each program runs in its mutator's thread, and gets each reply before it is asked
    /// for the next command. `gate` is passed as in `Collector::round`.
    ///
    /// The programs gave commands and took the round's replies, and the run stands before a stop with the programs as they are
    /// then (clauses `more` and `stands`). The round begins with the heap that the stop left, and the run of the script with the
    /// new commands goes on by it (clause `did`). Rows of earlier rounds, stops and cycles stay.
    ///
    /// The programs stay the caller's. Even after `NoMemory` each is in the state in which it took its last reply (clause
    /// `gave`). Then either no program gave a command, or all took the replies of a lawful round that isn't reported (clause
    /// `replied`). The collector is gone. Requires that the run stands after a stop that answered `GoOn`, with these programs.
    pub fn round<'b, R: Threads + Sync, P: Program, G: Gate>(
        &mut self,
        rt: &R,
        programs: &'b mut [P],
        gate: &G,
    ) -> Result<RoundRows, NoMemory>
        requires stands { StandsAfterStop P.next P.words P.most P.valid self.old programs.old answer.GoOn }
        ensures config { self.new.config ≡ self.old.config }
        ensures more { OnOk result (GaveMore P.next P.steps P.words P.most P.valid programs.old programs.new self.old.given.value self.new.given.value) }
        ensures stands { OnOk result (StandsBeforeStop P.next P.words P.most P.valid self.new programs.new) }
        ensures did { OnOk result (DidRound (script_of_so_far P.next self.new programs.new) self.old.collector self.new.collector) }
        ensures gave { GaveSome P.next P.steps P.words P.most P.valid programs.old programs.new }
        ensures replied { OnErr result (IsRoundOrNone P.next P.steps P.words P.most P.valid self.old programs.old programs.new) }
        ensures reported { IfOk result (λ rows. self.new.collector.rows.rounds ≡ self.old.collector.rows.rounds ++ rows ∷ []) }
        ensures stops { OnOk result (self.new.collector.rows.stops ≡ self.old.collector.rows.stops) }
        ensures cycles { OnOk result (self.new.collector.rows.cycles ≡ self.old.collector.rows.cycles) }
        ensures mutator_turns { OnOk result (HaveTried (script_of_so_far P.next self.new programs.new) self.old.collector self.new.collector) }
        ensures turns { OnOk result (turns_of self.new.collector ≡
            passed (turns_of self.old.collector) (worked_on self.old.collector.cycle.progress self.new.collector.cycle.progress)) }
        ensures upper_turns { OnOk result (upper_turns_of self.new.collector ≡
            passed (upper_turns_of self.old.collector) (upper_worked_on self.old.collector.cycle.progress self.new.collector.cycle.progress)) }
        ensures remembered { OnOk result (RememberInOrder self.new.collector.inbox self.new.collector.mutators.items) }
    {
        let before: Witness<&'b [P]> = Witness::of::<&[P], BeforeRound<P>>(&&*programs);
        let stopped: Witness<Collector> = Witness::of::<&Collector, StoppedBefore>(
            &&self.collector,
        );
        let script = self.script_so_far(programs);
        let rows = self
            .collector
            .round_programs(rt, &self.config, &script, programs, gate)?;
        self.given = Witness::of::<
            (&Witness<&'b [P]>, &Witness<Collector>, &ProgramRun, &[P]),
            AfterRound<P>,
        >(&(&before, &stopped, &*self, &*programs));
        Ok(rows)
    }

    // Does a stop and then a round, if the stop doesn't end the run, and gives `observer` their events. Returns the end, if
    // there is one.
    pub(crate) fn advance<R: Threads + Sync, P: Program, G: Gate, J: Observer>(
        &mut self,
        rt: &R,
        programs: &mut [P],
        gate: &G,
        observer: &mut J,
    ) -> Result<Option<End>, RunFault>
        requires stands { StandsBeforeStop P.next P.words P.most P.valid self.old programs.old }
        ensures config { self.new.config ≡ self.old.config }
        ensures more { OnOk result (GaveMore P.next P.steps P.words P.most P.valid programs.old programs.new self.old.given.value self.new.given.value) }
        ensures goes_on { IfOk result (λ end. IsContinuedTo P.next P.steps P.words P.most P.valid self.old programs.old self.new programs.new end) }
        ensures stands { IfOk result (λ end. IfNone end (StandsBeforeStop P.next P.words P.most P.valid self.new programs.new ×
            ObservedFrom J.steps self.old.collector observer.old self.new.collector true observer.new)) }
        ensures ended { IfOk result (λ end. IfSome end (λ e. RunHasEnded P.next P.words P.most P.valid self.new programs.new e ×
            ObservedFrom J.steps self.old.collector observer.old self.new.collector false observer.new)) }
        ensures stops { OnOk result (length self.old.collector.rows.stops < length self.new.collector.rows.stops) }
        ensures rounds { IfOk result (λ end. IfNone end (length self.old.collector.rows.rounds < length self.new.collector.rows.rounds)) }
        ensures err { OnErr result (ObservedSince J.steps J.fails P.next P.steps P.words P.most P.valid self.old programs.old programs.new observer.old observer.new) }
        ensures gave { GaveSome P.next P.steps P.words P.most P.valid programs.old programs.new }
    {
        let mut handed = StopRows::new(self.collector.alloc);
        let answer = self.stop(rt, programs, &mut handed)?;
        observe_stop(observer, handed)?;
        match answer {
            StopEnd::GoOn => {
                let rows = self.round(rt, programs, gate)?;
                observer.observe(Event::Round(rows))?;
                Ok(None)
            }
            StopEnd::Done => Ok(Some(End::Done)),
            StopEnd::HeapFull { free, reserve } => Ok(Some(End::HeapFull { free, reserve })),
        }
    }

    /// Does stops and rounds until the run ends, and gives `observer` each event as it comes. Returns the end. `gate`
    /// is passed as in `Collector::round`.
    ///
    /// The run is continued: stops and rounds are done as by `stop` and `round`, each from the heap that the one before left
    /// (clause `goes_on`). At least one stop is done.
    ///
    /// The observer may begin here: it is given exactly the events from here on. Their rows follow the rows of the run so far,
    /// which stay. If the observer was given exactly the earlier events, it was given all of the run (law
    /// `the_rest_completes_a_run`). If the observer fails or memory is refused, the run is given up (clause `err`), and the
    /// collector is gone. The programs stay the caller's, as after `round`. Requires that the run stands before a stop with
    /// these programs.
    pub fn run_to_end<R: Threads + Sync, P: Program, G: Gate, J: Observer>(
        &mut self,
        rt: &R,
        programs: &mut [P],
        gate: &G,
        observer: &mut J,
    ) -> Result<End, RunFault>
        requires stands { StandsBeforeStop P.next P.words P.most P.valid self.old programs.old }
        ensures config { self.new.config ≡ self.old.config }
        ensures more { OnOk result (GaveMore P.next P.steps P.words P.most P.valid programs.old programs.new self.old.given.value self.new.given.value) }
        ensures goes_on { IfOk result (λ end. IsContinuedTo P.next P.steps P.words P.most P.valid self.old programs.old self.new programs.new (Some end)) }
        ensures ended { IfOk result (λ end. RunHasEnded P.next P.words P.most P.valid self.new programs.new end ×
            ObservedFrom J.steps self.old.collector observer.old self.new.collector false observer.new) }
        ensures stops { OnOk result (length self.old.collector.rows.stops < length self.new.collector.rows.stops) }
        ensures err { OnErr result (ObservedSince J.steps J.fails P.next P.steps P.words P.most P.valid self.old programs.old programs.new observer.old observer.new) }
        ensures gave { GaveSome P.next P.steps P.words P.most P.valid programs.old programs.new }
    {
        'stops: loop {
            let ended = self.advance(rt, programs, gate, observer)?;
            if let Some(end) = ended {
                return Ok(end);
            }
        }
    }

    /// Does stops and rounds until every program is parked after a round, and gives `observer` each event as it comes. Returns
    /// `None` then, and the end if the run ended first. `gate` is passed as in `Collector::round`.
    ///
    /// After `None` the run stands before a stop, and each program waits with `yield`. So other programs that begin with
    /// `yield` may take their places, and the run goes on with them. A program that waits costs one `yield` a round while
    /// others work. Programs that wait for each other by `yield` may be parked at once, though there is work for one. At least
    /// one stop is done, and before `None` at least one round. So programs that are parked from the beginning give commands.
    ///
    /// Stops and rounds, the observer's events, and a run that is given up are as at `run_to_end`. Requires that the run stands
    /// before a stop with these programs.
    pub fn run_until_parked<R: Threads + Sync, P: Parks, G: Gate, J: Observer>(
        &mut self,
        rt: &R,
        programs: &mut [P],
        gate: &G,
        observer: &mut J,
    ) -> Result<Option<End>, RunFault>
        requires stands { StandsBeforeStop P.next P.words P.most P.valid self.old programs.old }
        ensures config { self.new.config ≡ self.old.config }
        ensures more { OnOk result (GaveMore P.next P.steps P.words P.most P.valid programs.old programs.new self.old.given.value self.new.given.value) }
        ensures goes_on { IfOk result (λ end. IsContinuedTo P.next P.steps P.words P.most P.valid self.old programs.old self.new programs.new end) }
        ensures parked { IfOk result (λ end. IfNone end (AreParked P.next programs.new × StandsBeforeStop P.next P.words P.most P.valid self.new programs.new ×
            ObservedFrom J.steps self.old.collector observer.old self.new.collector true observer.new)) }
        ensures ended { IfOk result (λ end. IfSome end (λ e. RunHasEnded P.next P.words P.most P.valid self.new programs.new e ×
            ObservedFrom J.steps self.old.collector observer.old self.new.collector false observer.new)) }
        ensures stops { OnOk result (length self.old.collector.rows.stops < length self.new.collector.rows.stops) }
        ensures rounds { IfOk result (λ end. IfNone end (length self.old.collector.rows.rounds < length self.new.collector.rows.rounds)) }
        ensures err { OnErr result (ObservedSince J.steps J.fails P.next P.steps P.words P.most P.valid self.old programs.old programs.new observer.old observer.new) }
        ensures gave { GaveSome P.next P.steps P.words P.most P.valid programs.old programs.new }
    {
        'turns: loop {
            let ended = self.advance(rt, programs, gate, observer)?;
            if let Some(end) = ended {
                return Ok(Some(end));
            }
            if are_parked(programs) {
                return Ok(None);
            }
        }
    }

    /// Returns whether other programs may take the places of parked programs. They may exactly if there are equally many, each
    /// begins with `yield`, and all give at most 2^31 commands with those given so far (clause `answer`). The run then stands
    /// before the stop with these programs, and goes on with them. Requires that the run stands before a stop with the parked
    /// programs. The other programs have to be valid, and no object that they make may have more words than a segment. Takes no
    /// memory.
    pub fn may_resume<P: Program, Q: Bounded>(&self, parked: &[P], others: &[Q]) -> bool
        requires stands { StandsBeforeStop P.next P.words P.most P.valid self.now parked.now }
        requires parked { AreParked P.next parked.now }
        requires valid { (k : ℕ) (q : Q) → slice_get others.now k ≡ Some q → Q.valid q }
        requires fit { (k : ℕ) (q : Q) → slice_get others.now k ≡ Some q → Q.words q ≤ self.now.config.words }
        ensures stands { IsTrue result → StandsBeforeStop Q.next Q.words Q.most Q.valid self.now others.now }
        ensures answer { IsTrue result ↔ MayReplace P.next Q.next Q.words Q.most Q.valid self.now parked.now others.now }
    {
        if others.len() != parked.len() {
            return false;
        }
        if !begin_with_yield(others) {
            return false;
        }
        commands_at_most(self.collector.positions.as_slice(), others) <= u64::from(MOST_COMMANDS)
    }

    /// Returns the collector, and forgets the rest.
    pub fn into_collector(self) -> Collector
        ensures { result ≡ self.collector }
    {
        let ProgramRun {
            collector,
            config: _,
            given: _,
        } = self;
        collector
    }

    /// Turns the run into its report, which is lawful for the script of all commands given. Requires that the run has ended
    /// with these programs, and that `kept` was empty first and then was given exactly
    /// the run's events. Takes no memory.
    pub fn into_report<P: Program>(self, programs: &[P], kept: KeptRows, end: End) -> Report
        requires ended { RunHasEnded P.next P.words P.most P.valid self programs.now end }
        requires kept { (first : KeptRowsSeen) × (first.rounds ≡ []) × (first.stops ≡ []) × (first.cycles ≡ []) × ObservedRun KeepsEvent first self.collector false kept }
        ensures { IsReportOf P.next self.config self.given.value programs.now result }
    {
        let _ = programs;
        self.into_collector().into_report(kept, end)
    }
}
