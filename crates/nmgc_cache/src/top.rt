//! The program: words in, lines and a status out.
//!
//! Standard output has the lines that the words determine, and the number of wrong values. All that depends on the schedule and the clock goes to the log.
use crate::run::{
    Account, CacheFault, Finished, Task, Totals, is_accounted, most_commands, run, totals_of,
};
use crate::sizes::LARGE;
use crate::text::lines;
use nmgc_arguments::{CommandLine, Text, arguments_of, write_output};
use nmgc_decider::Progress;
use nmgc_decider::figures::{Figures, print_figures};
use nmgc_io::{Sink, read_number};
use nmgc_journal::End;
use nmgc_limits::MAKERS;
use std::alloc::Global;
use std::thread::Threads;
use std::time::Clock;

// The name with which each line of the log begins.
const NAME: &str = "nmgc_cache";

/// The most operations of all mutators.
pub const MOST_OPERATIONS: u32 = 100_000_000;

/// The greatest seed.
pub const MOST_SEED: u64 = u32::MAX as u64;

/// How the program ended, with the number with which the process ends.
#[derive(Clone, Copy, Debug, PartialEq, Eq)]
pub enum CacheStatus {
    /// No value was seen to be wrong, and the numbers of values made, alive, dead and finalised agree. Number 0.
    Done,
    /// A value was seen to be wrong, the numbers don't agree, or a reply was refused. Number 1.
    Wrong,
    /// The words are wrong. Number 2.
    Usage,
    /// There are too many operations for a run, or a mutator had no command left before its operations were done. Number 2.
    TooMany,
    /// The sink failed. Number 4.
    WriteFault,
    /// The heap was full. Number 6.
    HeapFull,
    /// There was no memory. Number 7.
    NoMemory,
}

impl CacheStatus {
    /// Returns the number with which the process ends.
    pub fn number(self) -> u8 {
        match self {
            CacheStatus::Done => 0,
            CacheStatus::Wrong => 1,
            CacheStatus::TooMany | CacheStatus::Usage => 2,
            CacheStatus::WriteFault => 4,
            CacheStatus::HeapFull => 6,
            CacheStatus::NoMemory => 7,
        }
    }

    // Returns the fixed text of a status whose lines weren't made.
    fn text(self) -> Text {
        Text::Fixed(match self {
            CacheStatus::Usage =>
                b"usage: nmgc_cache N [THREADS [SEED]], N from 1 to 100000000, THREADS from 1 to 32, SEED from 0 to 4294967295\n".as_slice(),
            CacheStatus::TooMany => b"too many operations for a run: take a smaller N\n".as_slice(),
            CacheStatus::HeapFull => b"the heap is full\n".as_slice(),
            CacheStatus::NoMemory => b"no memory\n".as_slice(),
            _ => b"".as_slice(),
        })
    }
}

// Returns the task that the words ask for, or `None` if they are wrong.
fn task_of(arguments: &[String]) -> Option<Task> {
    match arguments {
        [count] => task_in(count.as_str(), "1", "1"),
        [count, threads] => task_in(count.as_str(), threads.as_str(), "1"),
        [count, threads, seed] => task_in(count.as_str(), threads.as_str(), seed.as_str()),
        _ => None,
    }
}

// Returns what three words ask for, or `None` if one isn't a number within its limits.
fn task_in(count: &str, threads: &str, seed: &str) -> Option<Task> {
    let operations = read_number(count.as_bytes(), u64::from(MOST_OPERATIONS))? as u32;
    let threads = read_number(threads.as_bytes(), u64::from(MAKERS))? as u8;
    let seed = read_number(seed.as_bytes(), MOST_SEED)?;
    if operations == 0 || threads == 0 {
        return None;
    }
    Some(Task {
        sizes: LARGE,
        operations,
        threads,
        seed,
    })
}

/// Runs the operations that the command line asks for, writes the lines to the sink, and returns the status's number. Progress
/// and figures are printed on the log.
pub fn program<R: Threads + Clock + Sync, L: CommandLine, K: Sink, P: Print + Sync>(
    alloc: Global,
    rt: &R,
    log: &P,
    line: &L,
    sink: &mut K,
) -> u8 {
    let Ok(arguments) = arguments_of(alloc, line) else {
        return write(sink, CacheStatus::NoMemory, CacheStatus::NoMemory.text());
    };
    let Some(task) = task_of(&arguments) else {
        return write(sink, CacheStatus::Usage, CacheStatus::Usage.text());
    };
    let (status, text) = output_of(alloc, rt, log, task);
    write(sink, status, text)
}

// Writes a text, and returns the number of the status, or of a fault.
fn write<K: Sink>(sink: &mut K, status: CacheStatus, text: Text) -> u8 {
    write_output(sink, status, CacheStatus::WriteFault, text.bytes()).number()
}

// Does a task, and returns the status and the lines.
fn output_of<R: Threads + Clock + Sync, P: Print + Sync>(
    alloc: Global,
    rt: &R,
    log: &P,
    task: Task,
) -> (CacheStatus, Text) {
    let gate = Progress {
        log,
        name: NAME,
        most: u64::from(most_commands(task, 0)),
    };
    let began = Figures::begin(rt);
    match run(alloc, rt, task, &gate) {
        Ok(finished) => {
            print_figures(rt, log, NAME, began, &finished.sums, &finished.collector);
            let totals = totals_of(finished.programs.as_slice());
            print_totals(log, finished.account, &totals);
            output_of_finished(alloc, task, &finished, &totals)
        }
        Err(CacheFault::TooLarge) => (CacheStatus::TooMany, CacheStatus::TooMany.text()),
        Err(CacheFault::NoMemory) => (CacheStatus::NoMemory, CacheStatus::NoMemory.text()),
    }
}

// Prints the counts that depend on the schedule.
fn print_totals<P: Print>(log: &P, account: Account, totals: &Totals) {
    let tally = totals.tally;
    drop(println!(log;
        "{NAME}: {} weak pointers made, {} alive, {} dead, {} finalisers queued",
        tally.made, account.alive, account.dead, account.queued
    ));
    drop(println!(log;
        "{NAME}: {} hits, {} absent, {} dead, {} values made, {} exchanges too late, {} evictions counted, {} replies refused",
        tally.hits,
        tally.absent,
        tally.dead,
        tally.made,
        tally.retries,
        tally.evictions,
        tally.refused
    ));
}

// Returns the status of a run that ended.
fn status_of(task: Task, finished: &Finished, totals: &Totals) -> CacheStatus {
    if finished.end != End::Done {
        return CacheStatus::HeapFull;
    }
    if totals.is_used_up {
        return CacheStatus::TooMany;
    }
    let is_right = totals.wrong == 0 && totals.is_done;
    if is_right && is_accounted(finished, totals, task.sizes.all_entries()) {
        return CacheStatus::Done;
    }
    CacheStatus::Wrong
}

// Returns the status and the lines of a run that ended.
fn output_of_finished(
    alloc: Global,
    task: Task,
    finished: &Finished,
    totals: &Totals,
) -> (CacheStatus, Text) {
    let status = status_of(task, finished, totals);
    if status == CacheStatus::HeapFull || status == CacheStatus::TooMany {
        return (status, status.text());
    }
    match lines(alloc, task, totals) {
        Ok(text) => (status, Text::Made(text)),
        Err(_) => (CacheStatus::NoMemory, CacheStatus::NoMemory.text()),
    }
}
