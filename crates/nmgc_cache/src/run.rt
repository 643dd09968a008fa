//! A whole run: a program for each mutator, the collector, and the counts.
//!
//! The heap holds the cache twice: its arrays, and for each entry a value and a weak pointer.
//!
//! Easy to get wrong: the index keeps dead weak pointers, too. The sizes of the heap don't count them.
ghost use Rattle.std.specs.Prelude.{◌≤◌, ◌+◌, IfOk, IfSome};
ghost use Rattle.nmgc_run_laws.specs.Limits.{most_commands as most_of_run};
ghost use Rattle.nmgc_decider.specs.Heap.{IsHeap};
ghost use Rattle.nmgc_cache.specs.Ready.{AreCaches, IsCache};

use crate::cache::{Cache, Tally};
use crate::known::Known;
use crate::load::Load;
use crate::sizes::{SHARDS, Sizes};
use crate::turns::Turns;
use nmgc_cycle::{Collector, RunFault};
use nmgc_decider::figures::{Sums, TimedSums};
use nmgc_decider::{Decided, MOST_COMMANDS, heap_of, share};
use nmgc_journal::End;
use nmgc_limits::MAX_SEGMENT_WORDS;
use nmgc_lists::NoMemory;
use nmgc_round::Gate;
use nmgc_script::Config;
use std::alloc::Global;
use std::thread::Threads;
use std::time::Clock;

// The words of a value and its weak pointer, each in a block of its class.
const ENTRY_WORDS: u64 = 4 + 6;

// The number of sizes of objects: two sizes of arrays, one of values and one of weak pointers. The heap has a segment of each size
// for each mutator to fill.
const SIZES_MADE: u8 = 4;

// The commands that an operation may take on average. A read takes 3, or 11 if its value is made anew; a write takes 9, a scan 24,
// and an eviction one more.
const OPERATION_COMMANDS: u32 = 20;

// The commands with which a program may make or find the arrays, and end.
const OTHER_COMMANDS: u32 = 65_536;

/// The task of a run.
#[derive(Clone, Copy, Debug, PartialEq, Eq)]
pub struct Task {
    pub sizes: Sizes,
    /// The operations of all mutators together.
    pub operations: u32,
    /// The number of mutators.
    pub threads: u8,
    /// The seed of all operations.
    pub seed: u64,
}

/// Why there was no run.
#[derive(Clone, Copy, Debug, PartialEq, Eq)]
pub enum CacheFault {
    /// There are too many operations for a run, or the heap would be too large, or there is no such number of mutators.
    TooLarge,
    /// There was no memory.
    NoMemory,
}

impl From<NoMemory> for CacheFault {
    fn from(_: NoMemory) -> Self {
        CacheFault::NoMemory
    }
}

// The observer of sums never fails, so memory was refused.
impl From<RunFault> for CacheFault {
    fn from(_: RunFault) -> Self {
        CacheFault::NoMemory
    }
}

/// A run that ended: the programs as they took their last replies, the collector with its heap, and the sums over the events.
#[derive(Drop)]
pub struct Finished {
    pub programs: Vec<Decided<Cache>>,
    pub collector: Collector,
    pub end: End,
    pub sums: Sums,
    pub account: Account,
}

/// The values at a run's end: the numbers of their weak pointers that are alive and that died, and of the queued finalisers.
#[derive(Clone, Copy, Debug, PartialEq, Eq)]
pub struct Account {
    pub alive: u64,
    pub dead: u64,
    pub queued: u64,
}

/// The counts of all mutators together.
#[derive(Clone, Copy, Debug, PartialEq, Eq)]
pub struct Totals {
    pub tally: Tally,
    /// The turns at all rings.
    pub turns: Turns,
    /// Values read and finalisers that the plain map of a mutator excludes.
    pub wrong: u64,
    /// Whether each mutator did all its operations.
    pub is_done: bool,
    /// Whether a mutator has no command left.
    pub is_used_up: bool,
}

// Returns the sizes of a heap that holds the cache twice, or `None` if it isn't within the limits.
fn config_of(sizes: Sizes, threads: u8) -> Option<Config>
    ensures { IfSome result (IsHeap threads) }
{
    let arrays = u64::from(sizes.keys) + u64::from(sizes.entries) + 5;
    let entries = u64::from(sizes.all_entries());
    let words = 2 * u64::from(SHARDS) * arrays + entries * ENTRY_WORDS;
    let live = (words / u64::from(MAX_SEGMENT_WORDS) + 1) as u32;
    let begun = u32::from(SIZES_MADE) * u32::from(threads);
    heap_of(
        live.saturating_mul(2).saturating_add(begun),
        live / 2 + 1,
        threads,
    )
}

// Returns the number of operations of a mutator.
fn operations_of(task: Task, mutator: u8) -> u32 {
    share(task.operations, task.threads, mutator)
}

/// Returns the most commands that a mutator's program gives. Takes no memory.
pub fn most_commands(task: Task, mutator: u8) -> u32 {
    operations_of(task, mutator)
        .saturating_mul(OPERATION_COMMANDS)
        .saturating_add(OTHER_COMMANDS)
}

// Returns the program of a mutator. Returns `TooLarge` if it would give more than `most` commands.
fn program_of(
    alloc: Global,
    task: Task,
    mutator: u8,
    most: u32,
) -> Result<Decided<Cache>, CacheFault>
    ensures is { IfOk result IsCache }
    ensures few { IfOk result (λ p. p.left ≤ most) }
{
    let commands = most_commands(task, mutator);
    if commands > most || commands == 0 {
        return Err(CacheFault::TooLarge);
    }
    let keys = task.sizes.all_keys();
    let load = Load::new(
        task.seed,
        mutator,
        task.threads,
        keys,
        operations_of(task, mutator),
    );
    let known = Known::new(alloc, mutator, task.threads, keys)?;
    let cache = Cache::new(task.sizes, mutator, load, known);
    let Some(first) = cache.first() else {
        return Err(CacheFault::TooLarge);
    };
    Ok(Decided::new(cache, first, commands))
}

// Returns the programs of all mutators.
fn programs_of(alloc: Global, task: Task) -> Result<Vec<Decided<Cache>>, CacheFault>
    ensures { IfOk result (λ programs. AreCaches task.threads most_of_run programs.items) }
{
    let mut programs = Vec::new(alloc);
    let mut given = 0;
    for mutator in 0..task.threads {
        let program = program_of(alloc, task, mutator, MOST_COMMANDS - given)?;
        given = push(mutator, given, &mut programs, program)?;
    }
    Ok(programs)
}

// Adds a program to `count` others, which give at most `given` commands. Returns the most commands of all.
fn push(
    count: u8,
    given: u32,
    programs: &mut Vec<Decided<Cache>>,
    program: Decided<Cache>,
) -> Result<u32, NoMemory>
    requires others { AreCaches count given programs.old.items }
    requires program { IsCache program }
    requires few { given + program.left ≤ most_of_run }
    ensures all { IfOk result (λ more. AreCaches (count + 1) more programs.new.items) }
    ensures few { IfOk result (λ more. more ≤ most_of_run) }
{
    let more = given + program.left;
    programs.push(program)?;
    Ok(more)
}

/// Runs the operations of all mutators on one heap. Returns the programs, the collector, the run's end, the sums over its events
/// and the account of its values. Returns `TooLarge` too if the number of mutators isn't from 1 to `MAKERS`.
pub fn run<R: Threads + Clock + Sync, G: Gate>(
    alloc: Global,
    rt: &R,
    task: Task,
    gate: &G,
) -> Result<Finished, CacheFault> {
    let Some(config) = config_of(task.sizes, task.threads) else {
        return Err(CacheFault::TooLarge);
    };
    let mut programs = programs_of(alloc, task)?;
    let mut timed = TimedSums::new(rt);
    let (collector, end) = Collector::run_programs_observed(
        alloc,
        rt,
        &config,
        programs.as_mut_slice(),
        gate,
        &mut timed,
    )?;
    let account = account_of(&collector, &timed.sums)?;
    Ok(Finished {
        programs,
        collector,
        end,
        sums: timed.sums,
        account,
    })
}

// Returns the account of a run that ended.
fn account_of(collector: &Collector, sums: &Sums) -> Result<Account, NoMemory> {
    let mut queued = 0u64;
    for mutator in collector.mutators() {
        queued = queued.saturating_add(mutator.queue.words().len() as u64);
    }
    Ok(Account {
        alive: collector.count_weaks()? as u64,
        dead: sums.dead,
        queued,
    })
}

/// Returns the counts of all programs together. Takes no memory.
pub fn totals_of(programs: &[Decided<Cache>]) -> Totals {
    let mut all = Totals {
        tally: Tally::ZERO,
        turns: Turns::NONE,
        wrong: 0,
        is_done: true,
        is_used_up: false,
    };
    for program in programs {
        all.tally = all.tally.plus(&program.decider.tally);
        all.turns.add(&program.decider.turns);
        all.wrong = all.wrong.saturating_add(program.decider.known.wrong);
        all.is_done = all.is_done && program.decider.is_done();
        all.is_used_up = all.is_used_up || program.is_used_up();
    }
    all
}

/// Returns whether the numbers agree: values made with weak pointers alive and dead, the dead with finalisers taken and queued.
/// At most `entries` values are alive, and two for each mutator. The turns at each ring have the sum that each turn once has.
pub fn is_accounted(finished: &Finished, totals: &Totals, entries: u32) -> bool {
    let account = finished.account;
    let mutators = finished.programs.len() as u64;
    let most = u64::from(entries).saturating_add(mutators.saturating_mul(2));
    account.dead == totals.tally.evictions.saturating_add(account.queued)
        && totals.tally.made == account.dead.saturating_add(account.alive)
        && account.alive <= most
        && totals.turns.have_their_sum()
}
