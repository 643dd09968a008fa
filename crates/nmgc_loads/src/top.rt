//! The program: words in, lines and a status out.
//!
//! Standard output has the lines, which the words determine if the status is 0. All that depends on the schedule and the clock
//! goes to the log.
ghost use Rattle.std.specs.Prelude.{◌≡◌, ◌↔◌, ◌≢◌};
ghost use Rattle.nmgc_journal.specs.declared.report.End.TheVariants as run_end;
ghost use Rattle.nmgc_loads.specs.declared.top.LoadsStatus.TheVariants as status;

use crate::load::{Counts, Kind, Task};
use crate::run::{Finished, LoadsFault, counts_of, most_commands, run};
use crate::text::lines;
use nmgc_arguments::{CommandLine, Text, arguments_of, write_output};
use nmgc_decider::Progress;
use nmgc_decider::figures::{Figures, print_figures};
use nmgc_io::{Sink, read_number};
use nmgc_journal::End;
use nmgc_limits::MAKERS;
use std::alloc::Global;
use std::thread::Threads;
use std::time::Clock;

// The name with which each line of the log begins.
const NAME: &str = "nmgc_loads";

/// The most places of all mutators.
pub const MOST_PLACES: u32 = 30_000;

/// The most operations of all mutators.
pub const MOST_OPERATIONS: u32 = 100_000_000;

/// How the program ended, with the number with which the process ends.
#[derive(Clone, Copy, Debug, PartialEq, Eq)]
pub enum LoadsStatus {
    /// Each count was right. Number 0.
    Done,
    /// A count was wrong, or a mutator didn't do all its work. Number 1.
    Wrong,
    /// The words are wrong. Number 2.
    Usage,
    /// The mutators would have too many commands, or the heap would be too large. No words within their limits give it. Number 2.
    TooLarge,
    /// The sink failed. Number 4.
    WriteFault,
    /// The heap was full. Number 6.
    HeapFull,
    /// There was no memory. Number 7.
    NoMemory,
}

impl LoadsStatus {
    /// Returns the number with which the process ends.
    pub fn number(self) -> u8 {
        match self {
            LoadsStatus::Done => 0,
            LoadsStatus::Wrong => 1,
            LoadsStatus::TooLarge | LoadsStatus::Usage => 2,
            LoadsStatus::WriteFault => 4,
            LoadsStatus::HeapFull => 6,
            LoadsStatus::NoMemory => 7,
        }
    }

    // Returns the fixed text of a status whose lines weren't made.
    fn text(self) -> Text {
        Text::Fixed(match self {
            LoadsStatus::Usage =>
                b"usage: nmgc_loads list N [THREADS] | nmgc_loads table N [THREADS], N from 1 to 30000 lists or 100000000 operations, THREADS from 1 to 32\n".as_slice(),
            LoadsStatus::TooLarge =>
                b"too large for a run: take a smaller N, or fewer threads\n".as_slice(),
            LoadsStatus::HeapFull => b"the heap is full\n".as_slice(),
            LoadsStatus::NoMemory => b"no memory\n".as_slice(),
            _ => b"".as_slice(),
        })
    }
}

// Returns the task that the words ask for, or `None` if they are wrong.
fn task_of(arguments: &[String]) -> Option<Task> {
    match arguments {
        [kind, count] => task_in(kind.as_str(), count.as_str(), "1"),
        [kind, count, threads] => task_in(kind.as_str(), count.as_str(), threads.as_str()),
        _ => None,
    }
}

// Returns what three words ask for, or `None` if one is none of a kind, or no number within its limits.
fn task_in(kind: &str, count: &str, threads: &str) -> Option<Task> {
    let (kind, most) = match kind {
        "list" => (Kind::Lists, MOST_PLACES),
        "table" => (Kind::Table, MOST_OPERATIONS),
        _ => return None,
    };
    let count = read_number(count.as_bytes(), u64::from(most))? as u32;
    let threads = read_number(threads.as_bytes(), u64::from(MAKERS))? as u8;
    if count == 0 || threads == 0 {
        return None;
    }
    Some(Task {
        kind,
        count,
        threads,
    })
}

/// Does the task that the command line asks for, writes its lines to the sink, and returns the status's number. Progress and
/// figures are printed on the log.
pub fn program<R: Threads + Clock + Sync, L: CommandLine, K: Sink, P: Print + Sync>(
    alloc: Global,
    rt: &R,
    log: &P,
    line: &L,
    sink: &mut K,
) -> u8 {
    let Ok(arguments) = arguments_of(alloc, line) else {
        return write(sink, LoadsStatus::NoMemory, LoadsStatus::NoMemory.text());
    };
    let Some(task) = task_of(&arguments) else {
        return write(sink, LoadsStatus::Usage, LoadsStatus::Usage.text());
    };
    let (status, text) = output_of(alloc, rt, log, task);
    write(sink, status, text)
}

// Writes a text, and returns the number of the status, or of a fault.
fn write<K: Sink>(sink: &mut K, status: LoadsStatus, text: Text) -> u8 {
    write_output(sink, status, LoadsStatus::WriteFault, text.bytes()).number()
}

// Does a task, and returns the status and the lines.
fn output_of<R: Threads + Clock + Sync, P: Print + Sync>(
    alloc: Global,
    rt: &R,
    log: &P,
    task: Task,
) -> (LoadsStatus, Text) {
    let gate = Progress {
        log,
        name: NAME,
        most: most_commands(task, 0),
    };
    let began = Figures::begin(rt);
    match run(alloc, rt, task, &gate) {
        Ok(finished) => {
            print_figures(rt, log, NAME, began, &finished.sums, &finished.collector);
            output_of_finished(alloc, task, &finished)
        }
        Err(LoadsFault::TooLarge) => (LoadsStatus::TooLarge, LoadsStatus::TooLarge.text()),
        Err(LoadsFault::NoMemory) => (LoadsStatus::NoMemory, LoadsStatus::NoMemory.text()),
    }
}

/// Returns the status of a run with this end and these counts: `HeapFull`, `Done` or `Wrong`. `right` has the right counts. Takes no
/// memory.
pub fn status_of(end: End, counts: &Counts, right: &Counts) -> LoadsStatus
    ensures full { (result ≡ status.HeapFull) ↔ (end ≢ run_end.Done) }
    ensures done { (end ≡ run_end.Done) → ((result ≡ status.Done) ↔ (counts.now ≡ right.now)) }
{
    if end != End::Done {
        return LoadsStatus::HeapFull;
    }
    if counts == right {
        LoadsStatus::Done
    } else {
        LoadsStatus::Wrong
    }
}

// Returns the status and the lines of a run that ended.
fn output_of_finished(alloc: Global, task: Task, finished: &Finished) -> (LoadsStatus, Text) {
    let counts = counts_of(finished.programs.as_slice());
    let status = status_of(finished.end, &counts, &task.right_counts());
    if status == LoadsStatus::HeapFull {
        return (status, status.text());
    }
    match lines(alloc, task.kind, &counts) {
        Ok(text) => (status, Text::Made(text)),
        Err(_) => (LoadsStatus::NoMemory, LoadsStatus::NoMemory.text()),
    }
}
