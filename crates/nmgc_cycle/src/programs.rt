//! Runs of programs that decide: a program is asked for each command, and may look at the last reply first.
//!
//! The commands of a program aren't known before the run. At a stop, the script of the run so far has the commands that each
//! program gave, and then its waiting command (`script_of` in `specs/Programs.antt`). It exists in proofs alone (`Witness`).
//! Only a program with a waiting command can give more. So the next stop's script is longer, and the collector at this stop
//! is at a stop of the longer script's run too. At the end of the run the report is a lawful report of the last script.
//!
//! Every run ends, since each program says how many commands it gives at most (`most`), and all together at most 2^31. A command
//! that waits for room is asked for again in the next round, and the program gives the same command.
//!
//! Easy to get wrong: a program at its end gives no command in a later round either. Its state doesn't change any more.
ghost use Rattle.std.specs.Prelude.{false, IfOk, OnErr};
ghost use Rattle.nmgc_cycle.specs.{Programs.GaveSome, Programs.HasNoCommands, Programs.HasRunPrograms, Programs.IsRunOfPrograms, Programs.MayRun, Observed.ObservedPrograms, Observed.ObservedRun};

use crate::observer::{KeptRows, Observer, RunFault};
use crate::{Collector, ProgramRun};
use nmgc_journal::{End, Report};
use nmgc_lists::{List, NoMemory};
use nmgc_mutator::Program;
use nmgc_round::Gate;
use nmgc_script::{Config, Script};
use std::alloc::Global;
use std::thread::Threads;

// Returns a script with this configuration and `count` programs without commands.
pub(crate) fn without_commands(
    alloc: Global,
    config: &Config,
    count: usize,
) -> Result<Script, NoMemory>
    ensures { IfOk result (λ script. HasNoCommands config.now count script) }
{
    let mut threads = List::new(alloc);
    for _number in 0..count {
        threads.push(List::new(alloc))?;
    }
    Ok(Script {
        version: 3,
        config: *config,
        threads,
    })
}

impl Collector {
    /// Does a whole run of programs, one for each mutator, and returns its report. Each program runs in its mutator's thread,
    /// and gets each reply before it is asked for the next command. A run is a stop, and then rounds, each with a stop after
    /// it, until a stop answers an end. `gate` is passed as in `run`.
    ///
    /// The report is a lawful report of a script with this configuration. Program k of the script has the commands that program
    /// k gave, and then its waiting command if it isn't at its end. The replies of mutator k in the report are those
    /// that program k took, in order. The report ends with `Done` exactly if every program is at its end. It ends with
    /// `HeapFull` exactly if a full cycle at the last stop left fewer segments free than the reserve, and some command waits.
    ///
    /// The programs stay the caller's. Even after `NoMemory` each is in the state in which it took its last reply, and gave at
    /// most its own bound of commands (clause `gave`). Requires a configuration within the limits of version 3, and one to
    /// `MAKERS` valid programs whose bounds sum up to at most 2^31.
    pub fn run_programs<R: Threads + Sync, P: Program, G: Gate>(
        alloc: Global,
        rt: &R,
        config: &Config,
        programs: &mut [P],
        gate: &G,
    ) -> Result<Report, NoMemory>
        requires { MayRun P.words P.most P.valid config.now programs.old }
        ensures run { IfOk result (λ report. IsRunOfPrograms P.next P.steps P.words P.most P.valid config.now programs.old programs.new report) }
        ensures gave { GaveSome P.next P.steps P.words P.most P.valid programs.old programs.new }
    {
        let mut kept = KeptRows::new(alloc);
        let Ok(ran) = Collector::run_programs_observed(alloc, rt, config, programs, gate, &mut kept)
        else {
            return Err(NoMemory);
        };
        let (collector, end) = ran;
        Ok(collector.into_report(kept, end))
    }

    /// Does a whole run of programs as `run_programs` does, and gives `observer` each event as it comes, as `run_observed`
    /// does. Returns the collector and the run's end. The observer was given exactly the events of the run, in order. No row
    /// and no command is kept here, so a long run takes memory for the heap and for one round.
    ///
    /// If the observer fails or memory is refused, the run is given up. Then the observer was given the events of a lawful run
    /// so far. If it failed itself, it did at the last of them (clause `err`). The programs are as after `run_programs`.
    pub fn run_programs_observed<R: Threads + Sync, P: Program, G: Gate, J: Observer>(
        alloc: Global,
        rt: &R,
        config: &Config,
        programs: &mut [P],
        gate: &G,
        observer: &mut J,
    ) -> Result<(Collector, End), RunFault>
        requires { MayRun P.words P.most P.valid config.now programs.old }
        ensures ok { IfOk result (λ ran. HasRunPrograms P.next P.steps P.words P.most P.valid config.now programs.old programs.new ran.0 ran.1 ×
            ObservedRun J.steps observer.old ran.0 false observer.new) }
        ensures err { OnErr result (ObservedPrograms J.steps J.fails P.next P.steps P.words P.most P.valid config.now programs.old programs.new observer.old observer.new) }
        ensures gave { GaveSome P.next P.steps P.words P.most P.valid programs.old programs.new }
    {
        let mut run = ProgramRun::new(alloc, config, programs)?;
        let end = run.run_to_end(rt, programs, gate, observer)?;
        Ok((run.into_collector(), end))
    }
}
