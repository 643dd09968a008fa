//! Loads: their lines and counts, and words and replies that are wrong.
use crate::words::Words;
use nmgc_commands::Form;
use nmgc_commands::registers::R2;
use nmgc_decider::Decider;
use nmgc_io::MemorySink;
use nmgc_journal::End;
use nmgc_loads::lists::right_sum;
use nmgc_loads::run::{LoadsFault, counts_of, most_commands, run};
use nmgc_loads::top::{LoadsStatus, status_of};
use nmgc_loads::{Counts, Kind, Lists, Load, Table, Task, program};
use nmgc_round::OpenGate;
use nmgc_world_spec::{Name, Reply, Value};
use std::alloc::Global;
use std::test::Fail;
use std::thread::Threads;
use std::time::Clock;

const USAGE: &str =
    "usage: nmgc_loads list N [THREADS] | nmgc_loads table N [THREADS], N from 1 to 30000 lists or 100000000 operations, THREADS from 1 to 32\n";

// Whether the program has this output and this status for these words behind its name.
fn ran<R: Threads + Clock + Sync, P: Print + Sync>(
    alloc: Global,
    rt: &R,
    log: &P,
    words: [&[u8]; 3],
    want: &str,
    status: u8,
) -> Result<bool, Fail> {
    let mut sink = MemorySink::new(alloc, 4096, Vec::new(alloc), 4096)?;
    let line = Words {
        words: &[b"nmgc_loads", words[0], words[1], words[2]],
    };
    let number = program(alloc, rt, log, &line, &mut sink);
    Ok(number == status && sink.bytes() == want.as_bytes())
}

// Of three lists, 6, 7 and 8 are left, each with 1,024 cells. Of five, two mutators have three and two: 6, 7, 8 and 4, 5. A
// mutator without a list does nothing.
#[test]
fn the_lists_that_are_left_are_summed_up(rt: HostRuntime) -> Result<(), Fail> {
    let rows: [(&[u8], &[u8], &str); 3] = [
        (b"3", b"1", "cells 3072\nsum 21504\n"),
        (b"5", b"2", "cells 5120\nsum 30720\n"),
        (b"1", b"3", "cells 1024\nsum 2048\n"),
    ];
    for (count, threads, want) in rows {
        let words = [b"list".as_slice(), count, threads];
        assert!(rt; ran(rt.alloc(), &rt, &rt.stderr(), words, want, 0)?);
    }
    Ok(())
}

#[test]
fn operations_on_the_table_are_done(rt: HostRuntime) -> Result<(), Fail> {
    for threads in [b"1".as_slice(), b"3"] {
        let words = [b"table".as_slice(), b"2000", threads];
        let want = "operations 2000\nwrong 0\n";
        assert!(rt; ran(rt.alloc(), &rt, &rt.stderr(), words, want, 0)?);
    }
    Ok(())
}

#[test]
fn wrong_words_are_refused(rt: HostRuntime) -> Result<(), Fail> {
    let rows: [[&[u8]; 3]; 7] = [
        [b"tree", b"1", b"1"],
        [b"list", b"0", b"1"],
        [b"list", b"30001", b"1"],
        [b"table", b"100000001", b"1"],
        [b"table", b"1", b"0"],
        [b"table", b"1", b"33"],
        [b"list", b"many", b"1"],
    ];
    for words in rows {
        assert!(rt; ran(rt.alloc(), &rt, &rt.stderr(), words, USAGE, 2)?);
    }
    Ok(())
}

#[test]
fn a_sink_that_fails_gives_its_status(rt: HostRuntime) -> Result<(), Fail> {
    let mut sink = MemorySink::new(rt.alloc(), 4096, Vec::new(rt.alloc()), 0)?;
    let line = Words {
        words: &[b"nmgc_loads", b"list"],
    };
    assert!(rt; program(rt.alloc(), &rt, &rt.stderr(), &line, &mut sink) == 4);
    Ok(())
}

// Whether there is no run of this task, since it would be too large.
fn is_too_large<R: Threads + Clock + Sync>(
    alloc: Global,
    rt: &R,
    kind: Kind,
    count: u32,
    threads: u8,
) -> bool {
    let task = Task {
        kind,
        count,
        threads,
    };
    match run(alloc, rt, task, &OpenGate) {
        Err(LoadsFault::TooLarge) => true,
        _ => false,
    }
}

// 40,000 lists take more than the largest heap, and 800 million operations more than 2^31 commands. There are at most 32 mutators.
#[test]
fn runs_that_are_too_large_are_refused(rt: HostRuntime) {
    assert!(rt; is_too_large(rt.alloc(), &rt, Kind::Lists, 40_000, 1));
    assert!(rt; is_too_large(rt.alloc(), &rt, Kind::Table, 800_000_000, 1));
    assert!(rt; is_too_large(rt.alloc(), &rt, Kind::Lists, 1, 0));
    assert!(rt; is_too_large(rt.alloc(), &rt, Kind::Table, 1, 33));
}

// Seven lists are shared out as three, two and two: 6, 7, 8, and 4, 5 twice are left.
#[test]
fn lists_are_shared_out(rt: HostRuntime) {
    let task = Task {
        kind: Kind::Lists,
        count: 7,
        threads: 3,
    };
    assert!(rt; task.share(0) == 3 && task.share(1) == 2 && task.share(2) == 2);
    assert!(rt; right_sum(3) == 21_504 && right_sum(2) == 9_216 && right_sum(0) == 0);
    let right = task.right_counts();
    assert!(rt; right.cells == 7_168 && right.sum == 39_936);
    assert!(rt; right.operations == 0 && right.wrong == 0 && right.is_done);
    assert!(rt; task.load(1) == Load::Lists(Lists::new(2)));
    assert!(rt; most_commands(task, 0) == 3 * 5_127 + 65_536);
}

// The run reads the clock, so the longest of its stops took a while.
#[test]
fn a_run_has_its_counts_and_its_longest_stop(rt: HostRuntime) -> Result<(), Fail> {
    let task = Task {
        kind: Kind::Table,
        count: 200,
        threads: 2,
    };
    let finished = run(rt.alloc(), &rt, task, &OpenGate)?;
    assert!(rt; counts_of(finished.programs.as_slice()) == task.right_counts());
    assert!(rt; finished.sums.longest_stop > 0);
    Ok(())
}

// A list of no places is done at once. A wrong reply is no end.
#[test]
fn lists_see_wrong_replies(rt: HostRuntime) {
    let mut lists = Lists::new(0);
    assert!(rt; lists.decide(Reply::Fine).is_none() && lists.is_done());
    let mut lists = Lists::new(1);
    assert!(rt; lists.decide(Reply::Fine).is_some() && !lists.is_done());
    assert!(rt; lists.decide(Reply::Fine).is_none() && !lists.is_done());
    let mut counts = Counts::NONE;
    counts.add(&Load::Lists(lists));
    assert!(rt; !counts.is_done && counts.cells == 0);
}

// Does the operations of a mutator on a table in which each field has an entry of no field. Returns the number of its reads.
fn misled(table: &mut Table) -> u64 {
    let mut reads = 0u64;
    let mut reply = Reply::Fine;
    for _ in 0..10_000u32 {
        let Some(command) = table.decide(reply) else {
            return reads;
        };
        reply = match command.form() {
            Form::Get { dest, .. } if *dest == R2.number() => {
                reads = reads.saturating_add(1);
                Reply::Given(Value::Number(64_000))
            }
            Form::Get { .. } | Form::Con { .. } => Reply::Given(Value::Ref(Name::SHARED)),
            _ => Reply::Fine,
        };
    }
    0
}

#[test]
fn wrong_entries_are_counted(rt: HostRuntime) {
    let mut table = Table::new(1, 1000);
    let reads = misled(&mut table);
    assert!(rt; table.is_done() && table.operations == 1000);
    assert!(rt; reads > 400 && reads < 600 && table.wrong == reads);
}

// A run that ended as heap full is neither done nor wrong, whatever was counted.
#[test]
fn statuses_have_their_causes(rt: HostRuntime) {
    let right = Counts {
        cells: 1024,
        sum: 2048,
        ..Counts::NONE
    };
    let full = End::HeapFull {
        free: 1,
        reserve: 2,
    };
    assert!(rt; status_of(End::Done, &right, &right) == LoadsStatus::Done);
    assert!(rt; status_of(End::Done, &Counts::NONE, &right) == LoadsStatus::Wrong);
    assert!(rt; status_of(full, &right, &right) == LoadsStatus::HeapFull);
}
