//! A whole run: a program for each mutator, and the collector.
ghost use Rattle.std.specs.Prelude.{◌≤◌, ◌+◌, IfOk, IfSome};
ghost use Rattle.nmgc_run_laws.specs.Limits.{most_commands as most_of_run};
ghost use Rattle.nmgc_decider.specs.Heap.{IsHeap};
ghost use Rattle.nmgc_loads.specs.Ready.{AreLoads, IsLoad};
ghost use Rattle.nmgc_loads.specs.Ran.{HasRunLoads};

use crate::arrays::{NIL, SLOTS};
use crate::load::{Counts, Kind, Load, Task};
use crate::table::{ARRAYS, FIELDS};
use nmgc_commands::PackedCommand;
use nmgc_cycle::{Collector, RunFault};
use nmgc_decider::figures::{Sums, TimedSums};
use nmgc_decider::{Decided, MOST_COMMANDS, heap_of};
use nmgc_journal::End;
use nmgc_limits::MAX_SEGMENT_WORDS;
use nmgc_lists::NoMemory;
use nmgc_round::Gate;
use nmgc_script::Config;
use std::alloc::Global;
use std::thread::Threads;
use std::time::Clock;

// The words of a cell or an entry.
const PAIR_WORDS: u32 = 4;

// The most commands for a place. Three times a list is made: its number, 1,024 cells, and the write into the place. The list that
// is left is read: two commands for each cell, and one more.
const PLACE_COMMANDS: u64 = 3 * 1026 + 2049;

// The most commands of an operation.
const OPERATION_COMMANDS: u64 = 3;

// The commands with which a program may make or find its arrays, and wait for them. A program that needs more ends too early.
const OTHER_COMMANDS: u64 = 65_536;

/// Why there was no run.
#[derive(Clone, Copy, Debug, PartialEq, Eq)]
pub enum LoadsFault {
    /// The mutators would give too many commands, or the heap would be too large, or there is no such number of mutators.
    TooLarge,
    /// There was no memory.
    NoMemory,
}

impl From<NoMemory> for LoadsFault {
    fn from(_: NoMemory) -> Self {
        LoadsFault::NoMemory
    }
}

// The observer of sums never fails, so memory was refused.
impl From<RunFault> for LoadsFault {
    fn from(_: RunFault) -> Self {
        LoadsFault::NoMemory
    }
}

/// A run that ended: the programs as they took their last replies, the collector with its heap, and the sums over the events.
#[derive(Drop)]
pub struct Finished {
    pub programs: Vec<Decided<Load>>,
    pub collector: Collector,
    pub end: End,
    pub sums: Sums,
}

/// Returns the most commands that a mutator's program gives.
pub fn most_commands(task: Task, mutator: u8) -> u64 {
    let each = match task.kind {
        Kind::Lists => PLACE_COMMANDS,
        Kind::Table => OPERATION_COMMANDS,
    };
    u64::from(task.share(mutator)) * each + OTHER_COMMANDS
}

// Returns the sizes of a heap that holds the live objects twice, or `None` if it isn't within the limits. It also has segments for
// each mutator to fill. For the table these are many, since a replaced entry stays until a cycle that begins later has swept it.
fn config_of(task: Task) -> Option<Config>
    ensures { IfSome result (IsHeap task.threads) }
{
    let threads = u32::from(task.threads);
    let (live, begun) = match task.kind {
        Kind::Lists => {
            let arrays = (task.count / SLOTS).saturating_add(threads);
            (task.count.saturating_add(arrays), 2)
        }
        Kind::Table => {
            let entries = FIELDS * PAIR_WORDS / MAX_SEGMENT_WORDS + 1;
            (entries + u32::from(ARRAYS), 80)
        }
    };
    heap_of(
        live.saturating_mul(2).saturating_add(threads * begun),
        live / 2 + 1,
        task.threads,
    )
}

// Returns the program of a mutator, or `None` if it would give more than `most` commands.
fn program_of(task: Task, mutator: u8, most: u32) -> Option<Decided<Load>>
    ensures is { IfSome result IsLoad }
    ensures few { IfSome result (λ p. p.left ≤ most) }
{
    let commands = most_commands(task, mutator);
    if commands > u64::from(most) || commands == 0 {
        return None;
    }
    let first = PackedCommand::nil(NIL);
    Some(Decided::new(task.load(mutator), first, commands as u32))
}

// Returns the programs of all mutators.
fn programs_of(alloc: Global, task: Task) -> Result<Vec<Decided<Load>>, LoadsFault>
    ensures { IfOk result (λ programs. AreLoads task.threads most_of_run programs.items) }
{
    let mut programs = Vec::new(alloc);
    let mut given = 0;
    for mutator in 0..task.threads {
        let Some(program) = program_of(task, mutator, MOST_COMMANDS - given) else {
            return Err(LoadsFault::TooLarge);
        };
        given = push(mutator, given, &mut programs, program)?;
    }
    Ok(programs)
}

// Adds a program to `count` others, which give at most `given` commands. Returns the most commands of all.
fn push(
    count: u8,
    given: u32,
    programs: &mut Vec<Decided<Load>>,
    program: Decided<Load>,
) -> Result<u32, NoMemory>
    requires others { AreLoads count given programs.old.items }
    requires program { IsLoad program }
    requires few { given + program.left ≤ most_of_run }
    ensures all { IfOk result (λ more. AreLoads (count + 1) more programs.new.items) }
    ensures few { IfOk result (λ more. more ≤ most_of_run) }
{
    let more = given + program.left;
    programs.push(program)?;
    Ok(more)
}

/// Does a task on one heap, and returns the programs, the collector, the run's end and the sums over its events. The run is one
/// of programs with loads as deciders, one for each mutator (clause `ran`). No clause says that they are the loads of this task.
/// Returns `TooLarge` too if the number of mutators isn't from 1 to `MAKERS`.
pub fn run<R: Threads + Clock + Sync, G: Gate>(
    alloc: Global,
    rt: &R,
    task: Task,
    gate: &G,
) -> Result<Finished, LoadsFault>
    ensures ran { IfOk result (HasRunLoads task.threads) }
{
    let Some(config) = config_of(task) else {
        return Err(LoadsFault::TooLarge);
    };
    let mut programs = programs_of(alloc, task)?;
    let mut timed = TimedSums::new(rt);
    let (collector, end) = Collector::run_programs_observed(
        alloc,
        rt,
        &config,
        programs.as_mut_slice(),
        gate,
        &mut timed,
    )?;
    Ok(Finished {
        programs,
        collector,
        end,
        sums: timed.sums,
    })
}

/// Returns the counts of all programs together. Takes no memory.
pub fn counts_of(programs: &[Decided<Load>]) -> Counts {
    let mut all = Counts::NONE;
    for program in programs {
        all.add(&program.decider);
    }
    all
}
