//! The cache: small caches that evict at once, the plain map that has to see each wrong value, and the program's words.
use crate::words::Words;
use nmgc_cache::run::{CacheFault, Finished, Task, is_accounted, run, totals_of};
use nmgc_cache::{Known, Load, Operation, Sizes, Stamp, Totals, Turns, program};
use nmgc_io::MemorySink;
use nmgc_journal::End;
use nmgc_round::OpenGate;
use std::alloc::Global;
use std::test::Fail;
use std::thread::Threads;
use std::time::Clock;

const SMALL: Sizes = Sizes {
    keys: 20,
    entries: 3,
};

// Whether nothing is wrong, and each value is accounted for.
fn is_right(finished: &Finished, totals: &Totals) -> bool {
    finished.end == End::Done
        && totals.wrong == 0
        && totals.is_done
        && !totals.is_used_up
        && is_accounted(finished, totals, SMALL.all_entries())
}

// Whether a small cache evicts, answers rightly, and does all its operations.
fn is_small_right<R: Threads + Clock + Sync>(
    alloc: Global,
    rt: &R,
    threads: u8,
    seed: u64,
) -> Result<bool, Fail> {
    let task = Task {
        sizes: SMALL,
        operations: 3000,
        threads,
        seed,
    };
    let finished = run(alloc, rt, task, &OpenGate)?;
    let totals = totals_of(finished.programs.as_slice());
    let tally = totals.tally;
    let all = tally
        .reads
        .saturating_add(tally.writes)
        .saturating_add(tally.scans);
    let is_used = tally.evictions > 0 && tally.hits > 0 && all == 3000;
    Ok(is_used && is_right(&finished, &totals))
}

#[test]
fn small_caches_evict_and_answer_rightly(rt: HostRuntime) -> Result<(), Fail> {
    assert!(rt; is_small_right(rt.alloc(), &rt, 1, 1)?);
    assert!(rt; is_small_right(rt.alloc(), &rt, 3, 2)?);
    assert!(rt; is_small_right(rt.alloc(), &rt, 8, 3)?);
    Ok(())
}

// With more operations than a run may have, there is no run.
#[test]
fn too_many_operations_are_refused(rt: HostRuntime) -> Result<(), Fail> {
    let task = Task {
        sizes: SMALL,
        operations: 200_000_000,
        threads: 1,
        seed: 1,
    };
    assert!(rt; is_too_large(rt.alloc(), &rt, task));
    Ok(())
}

// Whether there is no run of a task, since it would be too large.
fn is_too_large<R: Threads + Clock + Sync>(alloc: Global, rt: &R, task: Task) -> bool {
    match run(alloc, rt, task, &OpenGate) {
        Err(CacheFault::TooLarge) => true,
        _ => false,
    }
}

// A count that is off by one is seen.
#[test]
fn values_that_are_missing_are_seen(rt: HostRuntime) -> Result<(), Fail> {
    let task = Task {
        sizes: SMALL,
        operations: 500,
        threads: 1,
        seed: 9,
    };
    let finished = run(rt.alloc(), &rt, task, &OpenGate)?;
    let totals = totals_of(finished.programs.as_slice());
    assert!(rt; is_accounted(&finished, &totals, SMALL.all_entries()));
    let mut more = totals;
    more.tally.made = more.tally.made.saturating_add(1);
    assert!(rt; !is_accounted(&finished, &more, SMALL.all_entries()));
    let mut more = totals;
    more.tally.evictions = more.tally.evictions.saturating_add(1);
    assert!(rt; !is_accounted(&finished, &more, SMALL.all_entries()));
    assert!(rt; !is_accounted(&finished, &totals, 0));
    Ok(())
}

// Reads a stamp for a key, and returns whether it is seen to be wrong.
fn is_wrong(known: &mut Known, key: u32, found: u32, version: u32) -> bool {
    let before = known.wrong;
    let stamp = Stamp {
        key: found,
        version,
    };
    known.read(key, stamp);
    known.wrong > before
}

// Mutator 1 of three owns the keys 1, 4, 7..
#[test]
fn wrong_values_of_own_keys_are_seen(rt: HostRuntime) -> Result<(), Fail> {
    let mut known = Known::new(rt.alloc(), 1, 3, 9)?;
    assert!(rt; known.write(4) == Stamp { key: 4, version: 1 });
    assert!(rt; known.write(4) == Stamp { key: 4, version: 2 });
    assert!(rt; !is_wrong(&mut known, 4, 4, 2));
    assert!(rt; is_wrong(&mut known, 4, 4, 1));
    assert!(rt; is_wrong(&mut known, 4, 4, 3));
    assert!(rt; is_wrong(&mut known, 4, 7, 2));
    Ok(())
}

// Of another's key each later version passes.
#[test]
fn versions_that_go_back_are_seen(rt: HostRuntime) -> Result<(), Fail> {
    let mut known = Known::new(rt.alloc(), 1, 3, 9)?;
    assert!(rt; !is_wrong(&mut known, 5, 5, 3));
    assert!(rt; !is_wrong(&mut known, 5, 5, 3));
    assert!(rt; is_wrong(&mut known, 5, 5, 2));
    assert!(rt; !is_wrong(&mut known, 5, 5, 4));
    assert!(rt; is_wrong(&mut known, 6, 6, 0));
    Ok(())
}

// Takes a finaliser, and returns whether it is seen to be wrong.
fn is_evicted_wrongly(known: &mut Known, key: u32, version: u32) -> bool {
    let before = known.wrong;
    known.evict(Stamp { key, version });
    known.wrong > before
}

#[test]
fn wrong_finalisers_are_seen(rt: HostRuntime) -> Result<(), Fail> {
    let mut known = Known::new(rt.alloc(), 1, 3, 9)?;
    assert!(rt; known.write(4) == Stamp { key: 4, version: 1 });
    assert!(rt; !is_evicted_wrongly(&mut known, 4, 1));
    assert!(rt; is_evicted_wrongly(&mut known, 4, 2));
    assert!(rt; is_evicted_wrongly(&mut known, 4, 0));
    assert!(rt; is_evicted_wrongly(&mut known, 5, 1));
    Ok(())
}

// Whether a stamp is this number, and the number is the stamp.
fn is_stamp(key: u32, version: u32, number: u64) -> bool {
    let stamp = Stamp { key, version };
    stamp.number().value() == number && Stamp::of_number(number) == stamp
}

#[test]
fn stamps_are_numbers(rt: HostRuntime) {
    assert!(rt; is_stamp(0, 0, 0));
    assert!(rt; is_stamp(1, 2, 4_294_967_298));
    assert!(rt; is_stamp(7, 4_294_967_295, 34_359_738_367));
}

// Whether an operation's key is below 50, and is owned by mutator 2 of three if it is written.
fn is_of_load(operation: Option<Operation>) -> bool {
    match operation {
        Some(Operation::Read { key } | Operation::Scan { key }) => key < 50,
        Some(Operation::Write { key }) => key < 50 && key % 3 == 2,
        None => false,
    }
}

// A seed determines the operations.
#[test]
fn operations_are_those_of_the_seed(rt: HostRuntime) {
    let mut load = Load::new(7, 2, 3, 50, 1000);
    let mut again = Load::new(7, 2, 3, 50, 1000);
    for _ in 0..1000u32 {
        let operation = load.next();
        assert!(rt; is_of_load(operation));
        assert!(rt; again.next() == operation);
    }
    assert!(rt; load.next() == None && load.left() == 0);
}

#[test]
fn seeds_have_operations_of_their_own(rt: HostRuntime) {
    let mut load = Load::new(7, 2, 3, 50, 1000);
    let mut other = Load::new(8, 2, 3, 50, 1000);
    let mut differ = 0u32;
    for _ in 0..1000u32 {
        if other.next() != load.next() {
            differ = differ.saturating_add(1);
        }
    }
    assert!(rt; differ > 500);
}

// Whether the sums agree, if two mutators got these turns at one ring.
fn agree(mine: [u64; 2], yours: [u64; 2]) -> bool {
    let mut turns = Turns::NONE;
    turns.take(5, mine[0]);
    turns.take(5, mine[1]);
    let mut others = Turns::NONE;
    others.take(5, yours[0]);
    others.take(5, yours[1]);
    turns.add(&others);
    turns.have_their_sum()
}

#[test]
fn turns_that_are_got_twice_are_seen(rt: HostRuntime) {
    assert!(rt; Turns::NONE.have_their_sum());
    assert!(rt; agree([0, 1], [2, 3]));
    assert!(rt; agree([0, 3], [1, 2]));
    assert!(rt; !agree([0, 1], [1, 2]));
    assert!(rt; !agree([0, 0], [0, 0]));
    assert!(rt; !agree([1, 2], [3, 4]));
}

// The output and the status of the program for these words.
fn ran<R: Threads + Clock + Sync, P: Print + Sync>(
    alloc: Global,
    rt: &R,
    log: &P,
    words: &[&[u8]],
    want: &str,
    status: u8,
) -> Result<bool, Fail> {
    let mut sink = MemorySink::new(alloc, 4096, Vec::new(alloc), 4096)?;
    let line = Words { words };
    let number = program(alloc, rt, log, &line, &mut sink);
    Ok(number == status && sink.bytes() == want.as_bytes())
}

// The text for wrong words.
const USAGE: &str =
    "usage: nmgc_cache N [THREADS [SEED]], N from 1 to 100000000, THREADS from 1 to 32, SEED from 0 to 4294967295\n";

#[test]
fn wrong_counts_are_refused(rt: HostRuntime) -> Result<(), Fail> {
    let rows: [&[u8]; 4] = [b"0", b"100000001", b"many", b""];
    for word in rows {
        let words = [b"nmgc_cache".as_slice(), word];
        assert!(rt; ran(rt.alloc(), &rt, &rt.stderr(), &words, USAGE, 2)?);
    }
    Ok(())
}

#[test]
fn wrong_numbers_of_words_are_refused(rt: HostRuntime) -> Result<(), Fail> {
    assert!(rt; ran(rt.alloc(), &rt, &rt.stderr(), &[b"nmgc_cache"], USAGE, 2)?);
    let words = [b"nmgc_cache".as_slice(), b"1", b"1", b"1", b"1"];
    assert!(rt; ran(rt.alloc(), &rt, &rt.stderr(), &words, USAGE, 2)?);
    Ok(())
}

#[test]
fn wrong_threads_and_seeds_are_refused(rt: HostRuntime) -> Result<(), Fail> {
    let words = [b"nmgc_cache".as_slice(), b"1", b"0"];
    assert!(rt; ran(rt.alloc(), &rt, &rt.stderr(), &words, USAGE, 2)?);
    let words = [b"nmgc_cache".as_slice(), b"1", b"1", b"4294967296"];
    assert!(rt; ran(rt.alloc(), &rt, &rt.stderr(), &words, USAGE, 2)?);
    Ok(())
}
