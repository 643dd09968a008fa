//! Sessions: runs whose commands come between two rounds.
//!
//! A session has a queue of commands for each mutator. After a stop, commands may be added (`push`). A round asks the queues, and
//! a stop follows it. While the session is open, each mutator gives a `yield` once its commands are answered, its pause. So it
//! has commands left at every stop. Once the session is closed, no command comes any more. Each mutator gives the commands that
//! wait and one more pause, and then the run ends as a script's run does.
//!
//! The script of a session has the accepted commands of each mutator, with pauses between them (`HasAccepted`). It is known only
//! at the end. So the invariant (`IsSession`) is about every script that the session may turn out to have. A stop reads no
//! command, and a slice that ended by itself is the same whatever follows.
//!
//! Easy to get wrong: `HeapFull` needs a command that is left. While the session is open there is one, whether it came or not.
ghost use Rattle.std.specs.Prelude.{ℕ, ◌≡◌, ◌↔◌, ◌<◌, All, ◌∷◌, ◌++◌, [], IfOk, OnOk, IsTrue, None, Some, false, length, map, slice_get, true};
ghost use Rattle.nmgc_world_spec.specs.World.{Fits};
ghost use Rattle.nmgc_script.specs.Spelling.{version_3};
ghost use Rattle.nmgc_run_laws.specs.Limits.{FitsRun};
ghost use Rattle.nmgc_run_spec.specs.Lawful.{IsRunOf};
ghost use Rattle.nmgc_journal.specs.declared.report.End.{End as EndSeen};
ghost use Rattle.nmgc_cycle.specs.{Keeps.HasAnswered, Keeps.HasEnded, Observed.HandsOn, Programs.SomeGives, Sessions.AreEmptyQueues, Sessions.BeginsSession, Sessions.HasPushedAt, Sessions.HasPushedTo, Sessions.HasRoom, Sessions.HasSameLines, Sessions.HavePauses, Sessions.HaveRoom, Sessions.HaveRoomAll, Sessions.IsQueue, Sessions.IsSession, Sessions.accepted_in, Sessions.next_in, Sessions.script_in, Sessions.with_pause, Shown.HasNamesOnce, Shown.report_of};
ghost use Rattle.nmgc_cycle.specs.declared.stop.StopEnd.TheVariants as answer;
ghost use Rattle.nmgc_cycle.specs.declared.command_queue.CommandQueue.{CommandQueue as QueueSeen};

use crate::asking::is_some_left;
use crate::{Collector, CommandQueue, StopEnd, StopRows};
use nmgc_commands::PackedCommand;
use nmgc_journal::{RoundRows, StopRow};
use nmgc_lists::NoMemory;
use nmgc_round::witness::WitnessFor;
use nmgc_round::{Gate, Witness};
use nmgc_script::{Config, Script};
use std::alloc::Global;
use std::thread::Threads;

/// A run whose commands come between two rounds.
#[derive(Drop)]
pub struct Session {
    pub(crate) config: Config,
    pub(crate) collector: Collector,
    // One for each mutator, in the order of their numbers.
    pub(crate) queues: Vec<CommandQueue>,
    // Whether further commands may come.
    pub(crate) is_open: bool,
}

// The script of a session as a round begins: the commands that were answered, and of each queue the next command.
struct ScriptBefore;

impl<'a> WitnessFor<(&'a Config, &'a [CommandQueue]), Script> for ScriptBefore {
    ghost use Rattle.std.specs.Prelude.{◌≡◌};
    ghost use Rattle.nmgc_cycle.specs.Sessions.{script_before};

    ghost wanted = { λ about script. script ≡ script_before about.0.now about.1.now };
}

// Returns a queue without commands for each mutator of the head.
fn empty_queues(alloc: Global, head: &Script) -> Result<Vec<CommandQueue>, NoMemory>
    ensures { IfOk result (λ queues. AreEmptyQueues head.now.config.words (length head.now.threads) queues.items) }
{
    let count = head.threads.items().len();
    let mut queues = Vec::with_capacity(alloc, count)?;
    for _number in 0..count {
        queues.push(CommandQueue::new(alloc, head.config.words))?;
    }
    Ok(queues)
}

// Lets each queue give a pause.
fn allow_pauses(queues: &mut [CommandQueue])
    ensures { queues.new ≡ map with_pause queues.old }
{
    for queue in queues {
        queue.allow_pause();
    }
}

// Whether each queue has room for another command.
fn have_room(queues: &[CommandQueue]) -> bool
    ensures { IsTrue result ↔ HaveRoom queues.now }
{
    for number in 0..queues.len() {
        if !queues[number].has_room() {
            return false;
        }
    }
    true
}

// Adds a command to one queue.
fn push_to(
    queues: &mut [CommandQueue],
    number: usize,
    command: PackedCommand,
) -> Result<(), NoMemory>
    requires number { number < length queues.old }
    requires can { (q : QueueSeen) → slice_get queues.old number ≡ Some q → IsQueue q × Fits q.words command × HasRoom q }
    ensures { OnOk result (HasPushedAt number command queues.old queues.new) }
{
    queues[number].push(command)
}

impl Session {
    /// Begins a session with the configuration and the number of mutators of `head`, a script without commands. It is open, and
    /// its first stop follows. Takes the memory that `Collector::new` takes.
    pub fn new(alloc: Global, head: &Script) -> Result<Session, NoMemory>
        requires fits { FitsRun head.now }
        requires version { head.now.version ≡ version_3.number }
        ensures { IfOk result (λ session. BeginsSession head.now session) }
    {
        let queues = empty_queues(alloc, head)?;
        let collector = Collector::new(alloc, head)?;
        Ok(Session {
            config: head.config,
            collector,
            queues,
            is_open: true,
        })
    }

    /// Does a stop, and returns its answer, as `Collector::stop` does. While the session is open, commands count as left, so
    /// the answer isn't `Done`.
    pub fn stop<R: Threads + Sync>(
        &mut self,
        rt: &R,
        rows: &mut StopRows,
    ) -> Result<StopEnd, NoMemory>
        requires { IsSession true self.old }
        ensures session { OnOk result (IsSession false self.new) }
        ensures rest { OnOk result (self.new ≡ record self.old { collector = self.new.collector }) }
        ensures answered { IfOk result (λ end. HasAnswered (script_in self.new) self.new.collector end) }
        ensures done { IfOk result (λ end. end ≡ answer.Done → self.old.is_open ≡ false) }
        ensures ended { OnOk result ((end : EndSeen) → HasEnded (script_in self.new) self.new.collector end →
            IsRunOf (script_in self.new) (report_of self.new.collector end)) }
        ensures rounds { OnOk result (self.new.collector.rows.rounds ≡ self.old.collector.rows.rounds) }
        ensures stops { OnOk result ((row : StopRow) × (self.new.collector.rows.stops ≡ self.old.collector.rows.stops ++ row ∷ []) × (rows.new.stop ≡ Some row) × (row.number ≡ length self.old.collector.rows.stops)) }
        ensures once { OnOk result (rows.old.cycles ≡ [] → All HasNamesOnce rows.new.cycles) }
        ensures cycles { OnOk result (HandsOn (length self.old.collector.rows.stops) self.old.collector.rows.cycles self.new.collector.rows.cycles rows.old.cycles rows.new.cycles) }
    {
        let left = self.are_commands_left();
        let answer = self.collector.stop_open(rt, &self.config, left, rows)?;
        Ok(answer)
    }

    // Whether commands are left at a stop, as far as it is known: in an open session further commands come.
    fn are_commands_left(&self) -> bool
        requires { (k : ℕ) (q : QueueSeen) → slice_get self.now.queues.items k ≡ Some q → IsQueue q }
        ensures is_open { self.now.is_open ≡ true → result ≡ true }
        ensures closed { self.now.is_open ≡ false → IsTrue result ↔ SomeGives next_in self.now.queues.items }
    {
        if self.is_open {
            return true;
        }
        is_some_left(self.queues.as_slice())
    }

    /// Returns the number of mutators.
    pub fn count(&self) -> usize
        ensures { result ≡ length self.now.queues.items }
    {
        self.queues.len()
    }

    /// Whether a mutator may get another command, or a pause.
    pub fn has_room(&self, number: usize) -> bool
        requires { number < length self.now.queues.items }
        ensures { (q : QueueSeen) → slice_get self.now.queues.items number ≡ Some q → IsTrue result ↔ HasRoom q }
    {
        let queues = self.queues.as_slice();
        queues[number].has_room()
    }

    /// Whether each mutator may get another command, or a pause. A round of an open session needs it.
    pub fn has_room_all(&self) -> bool
        ensures { IsTrue result ↔ HaveRoomAll self.now }
    {
        have_room(self.queues.as_slice())
    }

    /// Adds a command of a mutator behind those that wait. Requires an open session after a stop.
    pub fn push(&mut self, number: usize, command: PackedCommand) -> Result<(), NoMemory>
        requires session { IsSession false self.old }
        requires is_open { self.old.is_open ≡ true }
        requires number { number < length self.old.queues.items }
        requires fits { Fits self.old.config.words command }
        requires room { (q : QueueSeen) → slice_get self.old.queues.items number ≡ Some q → HasRoom q }
        ensures session { OnOk result (IsSession false self.new) }
        ensures pushed { OnOk result (HasPushedTo number command self.old self.new) }
    {
        push_to(self.queues.as_mut_slice(), number, command)
    }

    /// Closes the session: no further command comes. Each mutator still gives the commands that wait, and then one pause.
    pub fn close(&mut self)
        requires session { IsSession false self.old }
        requires is_open { self.old.is_open ≡ true }
        ensures session { IsSession false self.new }
        ensures is_open { self.new.is_open ≡ false }
        ensures rest { self.new ≡ record self.old { queues = self.new.queues; is_open = false } }
        ensures accepted { accepted_in self.new ≡ accepted_in self.old }
    {
        allow_pauses(self.queues.as_mut_slice());
        self.is_open = false;
    }

    /// Does a round, as `Collector::round` does, and returns its replies. Each mutator gives commands that wait. In an open
    /// session it then gives a pause. Requires that the last stop answered `GoOn`, and in an open session room for the pauses.
    pub fn round<R: Threads + Sync, G: Gate>(
        &mut self,
        rt: &R,
        gate: &G,
    ) -> Result<RoundRows, NoMemory>
        requires session { IsSession false self.old }
        requires goes_on { self.old.collector.answered ≡ None }
        requires room { self.old.is_open ≡ true → HaveRoomAll self.old }
        ensures session { OnOk result (IsSession true self.new) }
        ensures lines { OnOk result (HasSameLines self.old self.new) }
        ensures reported { IfOk result (λ rows. self.new.collector.rows.rounds ≡ self.old.collector.rows.rounds ++ rows ∷ []) }
        ensures stops { OnOk result (self.new.collector.rows.stops ≡ self.old.collector.rows.stops) }
        ensures cycles { OnOk result (self.new.collector.rows.cycles ≡ self.old.collector.rows.cycles) }
    {
        self.begin_round();
        self.ask(rt, gate)
    }

    // In an open session lets each queue give a pause in the next round.
    fn begin_round(&mut self)
        requires session { IsSession false self.old }
        requires room { self.old.is_open ≡ true → HaveRoomAll self.old }
        ensures session { IsSession false self.new }
        ensures pauses { self.new.is_open ≡ true → HavePauses self.new.queues.items }
        ensures collector { self.new.collector ≡ self.old.collector }
        ensures lines { HasSameLines self.old self.new }
    {
        if self.is_open {
            allow_pauses(self.queues.as_mut_slice());
        }
    }

    // Does a round in which the queues are asked as they are. In an open session each may give a pause.
    fn ask<R: Threads + Sync, G: Gate>(&mut self, rt: &R, gate: &G) -> Result<RoundRows, NoMemory>
        requires session { IsSession false self.old }
        requires goes_on { self.old.collector.answered ≡ None }
        requires pauses { self.old.is_open ≡ true → HavePauses self.old.queues.items }
        ensures session { OnOk result (IsSession true self.new) }
        ensures lines { OnOk result (HasSameLines self.old self.new) }
        ensures reported { IfOk result (λ rows. self.new.collector.rows.rounds ≡ self.old.collector.rows.rounds ++ rows ∷ []) }
        ensures stops { OnOk result (self.new.collector.rows.stops ≡ self.old.collector.rows.stops) }
        ensures cycles { OnOk result (self.new.collector.rows.cycles ≡ self.old.collector.rows.cycles) }
    {
        let script = Witness::of::<(&Config, &[CommandQueue]), ScriptBefore>(&(
            &self.config,
            self.queues.as_slice(),
        ));
        self.collector.round_programs(rt, &self.config, &script, self.queues.as_mut_slice(), gate)
    }
}
