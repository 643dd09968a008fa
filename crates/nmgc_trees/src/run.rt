//! A whole run: a program for each mutator, the collector, and the counts.
//!
//! The heap holds the live trees twice. These are the second tree and a small tree of the greatest depth for each mutator; the
//! first tree has one node more than two such trees.
//!
//! Easy to get wrong: registers keep parts of the last small tree, too.
ghost use Rattle.std.specs.Prelude.{◌≤◌, ◌+◌, IfOk, IfSome};
ghost use Rattle.nmgc_run_laws.specs.Limits.{most_commands as most_of_run};
ghost use Rattle.nmgc_decider.specs.Heap.{IsHeap};
ghost use Rattle.nmgc_trees.specs.Ready.{AreTrees, IsTrees};

use crate::plan::{Plan, nodes_of};
use crate::trees::{DEPTHS, Trees};
use nmgc_cycle::{Collector, RunFault};
use nmgc_decider::figures::{Sums, TimedSums};
use nmgc_decider::{Decided, MOST_COMMANDS, heap_of};
use nmgc_journal::End;
use nmgc_limits::MAX_SEGMENT_WORDS;
use nmgc_lists::NoMemory;
use nmgc_round::Gate;
use nmgc_script::Config;
use std::alloc::Global;
use std::thread::Threads;
use std::time::Clock;

// The words of a node: a header, a name and two fields.
const NODE_WORDS: u64 = 4;

/// Why there was no run.
#[derive(Clone, Copy, Debug, PartialEq, Eq)]
pub enum TreesFault {
    /// The mutators would give more than `MOST_COMMANDS` commands, or the heap would be too large, or there is no such number of
    /// mutators.
    TooLarge,
    /// There was no memory.
    NoMemory,
}

impl From<NoMemory> for TreesFault {
    fn from(_: NoMemory) -> Self {
        TreesFault::NoMemory
    }
}

// The observer of sums never fails, so memory was refused.
impl From<RunFault> for TreesFault {
    fn from(_: RunFault) -> Self {
        TreesFault::NoMemory
    }
}

/// The counts of all mutators together.
#[derive(Clone, Copy, Debug, PartialEq, Eq)]
pub struct Counts {
    /// The nodes of the first tree.
    pub first: u64,
    /// The nodes of the second tree.
    pub kept: u64,
    /// The nodes of the small trees of each even depth, from 4 on.
    pub small: [u64; DEPTHS],
    /// The objects made.
    pub made: u64,
    /// The replies that no command should have had.
    pub refused: u64,
    /// Whether each mutator made and counted all its trees.
    pub is_done: bool,
}

/// A run that ended: the programs as they took their last replies, the collector with its heap, and the sums over the events.
#[derive(Drop)]
pub struct Finished {
    pub programs: Vec<Decided<Trees>>,
    pub collector: Collector,
    pub end: End,
    pub sums: Sums,
}

/// Returns the number of commands that mutator 0 gives: no mutator gives more.
pub fn most_commands(depth: u8, threads: u8) -> u64 {
    let plan = Plan {
        depth,
        threads,
        mutator: 0,
    };
    plan.commands()
}

// Returns the sizes of a heap that holds the live trees twice, or `None` if it isn't within the limits. It also has a segment for
// each mutator to fill.
fn config_of(depth: u8, threads: u8) -> Option<Config>
    ensures { IfSome result (IsHeap threads) }
{
    let trees = u64::from(threads).saturating_add(1);
    let words = nodes_of(depth)
        .saturating_mul(NODE_WORDS)
        .saturating_mul(trees);
    let live = words / u64::from(MAX_SEGMENT_WORDS) + 1;
    let begun = u64::from(threads);
    let segments = u32::try_from(live.saturating_mul(2).saturating_add(begun)).ok()?;
    let trigger = u32::try_from(live / 2 + 1).ok()?;
    heap_of(segments, trigger, threads)
}

// Returns the program of a plan, or `None` if it would give more than `most` commands.
fn program_of(plan: Plan, most: u32) -> Option<Decided<Trees>>
    ensures is { IfSome result IsTrees }
    ensures few { IfSome result (λ p. p.left ≤ most) }
{
    let commands = plan.commands();
    if commands > u64::from(most) || commands == 0 {
        return None;
    }
    let (trees, first) = Trees::new(plan);
    Some(Decided::new(trees, first, commands as u32))
}

// Returns the programs of all mutators.
fn programs_of(alloc: Global, depth: u8, threads: u8) -> Result<Vec<Decided<Trees>>, TreesFault>
    ensures { IfOk result (λ programs. AreTrees threads most_of_run programs.items) }
{
    let mut programs = Vec::new(alloc);
    let mut given = 0;
    for mutator in 0..threads {
        let plan = Plan {
            depth,
            threads,
            mutator,
        };
        let Some(program) = program_of(plan, MOST_COMMANDS - given) else {
            return Err(TreesFault::TooLarge);
        };
        given = push(mutator, given, &mut programs, program)?;
    }
    Ok(programs)
}

// Adds a program to `count` others, which give at most `given` commands. Returns the most commands of all.
fn push(
    count: u8,
    given: u32,
    programs: &mut Vec<Decided<Trees>>,
    program: Decided<Trees>,
) -> Result<u32, NoMemory>
    requires others { AreTrees count given programs.old.items }
    requires program { IsTrees program }
    requires few { given + program.left ≤ most_of_run }
    ensures all { IfOk result (λ more. AreTrees (count + 1) more programs.new.items) }
    ensures few { IfOk result (λ more. more ≤ most_of_run) }
{
    let more = given + program.left;
    programs.push(program)?;
    Ok(more)
}

/// Runs the trees of all mutators on one heap, and returns the programs, the collector, the run's end and the sums over its
/// events. Returns `TooLarge` too if `threads` isn't from 1 to `MAKERS`.
pub fn run<R: Threads + Clock + Sync, G: Gate>(
    alloc: Global,
    rt: &R,
    depth: u8,
    threads: u8,
    gate: &G,
) -> Result<Finished, TreesFault> {
    let Some(config) = config_of(depth, threads) else {
        return Err(TreesFault::TooLarge);
    };
    let mut programs = programs_of(alloc, depth, threads)?;
    let mut timed = TimedSums::new(rt);
    let (collector, end) = Collector::run_programs_observed(
        alloc,
        rt,
        &config,
        programs.as_mut_slice(),
        gate,
        &mut timed,
    )?;
    Ok(Finished {
        programs,
        collector,
        end,
        sums: timed.sums,
    })
}

/// Returns the counts of all programs together. Takes no memory.
pub fn counted(programs: &[Decided<Trees>]) -> Counts {
    let mut all = Counts {
        first: 0,
        kept: 0,
        small: [0; DEPTHS],
        made: 0,
        refused: 0,
        is_done: true,
    };
    for program in programs {
        all.add(&program.decider);
    }
    all
}

impl Counts {
    // Adds the counts of one mutator.
    fn add(&mut self, trees: &Trees) {
        self.first = self.first.saturating_add(trees.first);
        self.kept = self.kept.saturating_add(trees.kept);
        for (sum, more) in self.small.iter_mut().zip(trees.small) {
            *sum = sum.saturating_add(more);
        }
        self.made = self.made.saturating_add(trees.made);
        self.refused = self.refused.saturating_add(trees.refused);
        self.is_done = self.is_done && trees.is_done();
    }
}
