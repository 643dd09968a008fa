//! Binary trees: the lines of the benchmarks game, words that are wrong, and a sink that fails.
use crate::words::Words;
use nmgc_commands::registers::{R0, R1};
use nmgc_decider::{Decider, Random};
use nmgc_io::MemorySink;
use nmgc_round::OpenGate;
use nmgc_trees::plan::{Plan, nodes_of, small_trees};
use nmgc_trees::run::{TreesFault, run};
use nmgc_trees::{Build, Trees, Walk, program};
use nmgc_world_spec::{Name, Reply, Value};
use std::alloc::Global;
use std::test::Fail;
use std::thread::Threads;
use std::time::Clock;

// The output for 6, by the numbers of nodes.
const SIX: &str = "stretch tree of depth 7\t check: 255
64\t trees of depth 4\t check: 1984
16\t trees of depth 6\t check: 2032
long lived tree of depth 6\t check: 127
";

const USAGE: &str = "usage: nmgc_trees N [THREADS], N from 6 to 18, THREADS from 1 to 32\n";

// The output and the status of the program for these words.
fn ran<R: Threads + Clock + Sync, P: Print + Sync>(
    alloc: Global,
    rt: &R,
    log: &P,
    words: &[&[u8]],
    want: &str,
    status: u8,
) -> Result<bool, Fail> {
    let mut sink = MemorySink::new(alloc, 4096, Vec::new(alloc), 4096)?;
    let line = Words { words };
    let number = program(alloc, rt, log, &line, &mut sink);
    Ok(number == status && sink.bytes() == want.as_bytes())
}

#[test]
fn mutators_share_the_small_trees(rt: HostRuntime) -> Result<(), Fail> {
    for threads in [b"1".as_slice(), b"2".as_slice(), b"5".as_slice()] {
        let words = [b"nmgc_trees".as_slice(), b"6", threads];
        assert!(rt; ran(rt.alloc(), &rt, &rt.stderr(), &words, SIX, 0)?);
    }
    Ok(())
}

#[test]
fn wrong_depths_are_refused(rt: HostRuntime) -> Result<(), Fail> {
    let rows: [&[u8]; 6] = [b"5", b"19", b"06", b"", b"six", b"-6"];
    for word in rows {
        let words = [b"nmgc_trees".as_slice(), word];
        assert!(rt; ran(rt.alloc(), &rt, &rt.stderr(), &words, USAGE, 2)?);
    }
    Ok(())
}

#[test]
fn wrong_numbers_of_threads_are_refused(rt: HostRuntime) -> Result<(), Fail> {
    let rows: [&[u8]; 3] = [b"0", b"33", b"two"];
    for word in rows {
        let words = [b"nmgc_trees".as_slice(), b"6", word];
        assert!(rt; ran(rt.alloc(), &rt, &rt.stderr(), &words, USAGE, 2)?);
    }
    Ok(())
}

#[test]
fn wrong_numbers_of_words_are_refused(rt: HostRuntime) -> Result<(), Fail> {
    assert!(rt; ran(rt.alloc(), &rt, &rt.stderr(), &[b"nmgc_trees"], USAGE, 2)?);
    let words = [b"nmgc_trees".as_slice(), b"6", b"1", b"1"];
    assert!(rt; ran(rt.alloc(), &rt, &rt.stderr(), &words, USAGE, 2)?);
    Ok(())
}

// Whether there is no run of trees of this depth, since it would be too large.
fn is_too_large<R: Threads + Clock + Sync>(alloc: Global, rt: &R, depth: u8, threads: u8) -> bool {
    match run(alloc, rt, depth, threads, &OpenGate) {
        Err(TreesFault::TooLarge) => true,
        _ => false,
    }
}

// Depth 22 takes more than 2^31 commands, and 24 more than the largest heap. There are at most 32 mutators.
#[test]
fn runs_that_are_too_large_are_refused(rt: HostRuntime) {
    assert!(rt; is_too_large(rt.alloc(), &rt, 22, 1));
    assert!(rt; is_too_large(rt.alloc(), &rt, 24, 1));
    assert!(rt; is_too_large(rt.alloc(), &rt, 6, 0));
    assert!(rt; is_too_large(rt.alloc(), &rt, 6, 33));
}

#[test]
fn a_sink_that_fails_gives_its_status(rt: HostRuntime) -> Result<(), Fail> {
    let mut sink = MemorySink::new(rt.alloc(), 4096, Vec::new(rt.alloc()), 0)?;
    let line = Words {
        words: &[b"nmgc_trees", b"5"],
    };
    assert!(rt; program(rt.alloc(), &rt, &rt.stderr(), &line, &mut sink) == 4);
    Ok(())
}

// Returns the number of commands that make a tree of this depth.
fn built(depth: u8) -> u64 {
    let mut build = Build::new(R1, depth);
    let mut commands = 0u64;
    for _ in 0..1000u32 {
        if build.next().is_none() {
            return commands;
        }
        commands = commands.saturating_add(1);
    }
    0
}

#[test]
fn a_tree_has_a_command_for_each_node(rt: HostRuntime) {
    for (depth, nodes) in [(0u8, 1u64), (1, 3), (4, 31), (8, 511)] {
        assert!(rt; built(depth) == nodes);
        assert!(rt; nodes_of(depth) == nodes);
    }
}

// Whether a walk counts the root and each reference that it saw, over a tree that no heap has: each reply is drawn by lot, and
// references are few.
fn is_counted(random: &mut Random) -> bool {
    let mut walk = Walk::new(R0);
    let mut seen = 1u64;
    for turn in 0..10_000u32 {
        let is_there = turn < 500 && random.below(100) < 45;
        let value = if is_there {
            seen = seen.saturating_add(1);
            Value::Ref(Name::SHARED)
        } else {
            Value::Nil
        };
        if walk.next(Reply::Given(value)).is_none() {
            return walk.nodes() == seen;
        }
    }
    false
}

#[test]
fn a_walk_counts_the_references_that_it_sees(rt: HostRuntime) {
    let mut random = Random::new(5, 0);
    for _ in 0..50u32 {
        assert!(rt; is_counted(&mut random));
    }
}

// Returns the number of small trees of this depth that all mutators have together.
fn shared(threads: u8, small: u8) -> u32 {
    let mut all = 0u32;
    for mutator in 0..threads {
        let plan = Plan {
            depth: 12,
            threads,
            mutator,
        };
        all = all.saturating_add(plan.share(small));
    }
    all
}

#[test]
fn the_small_trees_are_shared_out(rt: HostRuntime) {
    for threads in [1u8, 3, 8, 32] {
        assert!(rt; shared(threads, 4) == small_trees(12, 4));
        assert!(rt; shared(threads, 8) == small_trees(12, 8));
        assert!(rt; shared(threads, 12) == small_trees(12, 12));
    }
}

// The first command has no value, and a pair has one. After a wrong reply the decider is at its end, and not done.
#[test]
fn a_decider_refuses_wrong_replies(rt: HostRuntime) {
    let plan = Plan {
        depth: 6,
        threads: 1,
        mutator: 0,
    };
    let (mut trees, _first) = Trees::new(plan);
    assert!(rt; trees.decide(Reply::Fine).is_some());
    assert!(rt; trees.refused == 0 && !trees.is_done());
    assert!(rt; trees.decide(Reply::Fine).is_none());
    assert!(rt; trees.refused == 1 && !trees.is_done());
}
