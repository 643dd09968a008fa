//! The program: words in, lines and a status out.
//!
//! Standard output has the lines that the words determine. All that depends on the schedule and the clock goes to the log.
use crate::plan::{LEAST_DEPTH, MOST_DEPTH};
use crate::run::{Finished, TreesFault, counted, most_commands, run};
use crate::text::{are_right, lines};
use nmgc_arguments::{CommandLine, Text, arguments_of, write_output};
use nmgc_decider::Progress;
use nmgc_decider::figures::{Figures, print_figures};
use nmgc_io::{Sink, read_number};
use nmgc_journal::End;
use nmgc_limits::MAKERS;
use std::alloc::Global;
use std::thread::Threads;
use std::time::Clock;

/// How the program ended, with the number with which the process ends.
#[derive(Clone, Copy, Debug, PartialEq, Eq)]
pub enum TreesStatus {
    /// Each count was right. Number 0.
    Done,
    /// A count was wrong, or a reply was refused. Number 1.
    Wrong,
    /// The words are wrong. Number 2.
    Usage,
    /// The mutators would have too many commands, or the heap would be too large. No words within their limits give it. Number 2.
    TooLarge,
    /// The sink failed. Number 4.
    WriteFault,
    /// The heap was full. Number 6.
    HeapFull,
    /// There was no memory. Number 7.
    NoMemory,
}

impl TreesStatus {
    /// Returns the number with which the process ends.
    pub fn number(self) -> u8 {
        match self {
            TreesStatus::Done => 0,
            TreesStatus::Wrong => 1,
            TreesStatus::TooLarge | TreesStatus::Usage => 2,
            TreesStatus::WriteFault => 4,
            TreesStatus::HeapFull => 6,
            TreesStatus::NoMemory => 7,
        }
    }

    // Returns the fixed text of a status whose lines weren't made.
    fn text(self) -> Text {
        Text::Fixed(match self {
            TreesStatus::Usage =>
                b"usage: nmgc_trees N [THREADS], N from 6 to 18, THREADS from 1 to 32\n".as_slice(),
            TreesStatus::TooLarge =>
                b"too large for a run: take a smaller N, or fewer threads\n".as_slice(),
            TreesStatus::HeapFull => b"the heap is full\n".as_slice(),
            TreesStatus::NoMemory => b"no memory\n".as_slice(),
            _ => b"".as_slice(),
        })
    }
}

// The greatest depth, and the number of mutators.
#[derive(Clone, Copy, Debug, PartialEq, Eq)]
struct Words {
    depth: u8,
    threads: u8,
}

// Returns the task that the words ask for, or `None` if they are wrong.
fn words_of(arguments: &[String]) -> Option<Words> {
    match arguments {
        [depth] => words_in(depth.as_str(), "1"),
        [depth, threads] => words_in(depth.as_str(), threads.as_str()),
        _ => None,
    }
}

// Returns what two words ask for, or `None` if one isn't a number within its limits.
fn words_in(depth: &str, threads: &str) -> Option<Words> {
    let depth = read_number(depth.as_bytes(), u64::from(MOST_DEPTH))? as u8;
    let threads = read_number(threads.as_bytes(), u64::from(MAKERS))? as u8;
    if depth < LEAST_DEPTH || threads == 0 {
        return None;
    }
    Some(Words { depth, threads })
}

/// Runs the trees that the command line asks for, writes their lines to the sink, and returns the status's number. Progress
/// and figures are printed on the log.
pub fn program<R: Threads + Clock + Sync, L: CommandLine, K: Sink, P: Print + Sync>(
    alloc: Global,
    rt: &R,
    log: &P,
    line: &L,
    sink: &mut K,
) -> u8 {
    let Ok(arguments) = arguments_of(alloc, line) else {
        return write(sink, TreesStatus::NoMemory, TreesStatus::NoMemory.text());
    };
    let Some(words) = words_of(&arguments) else {
        return write(sink, TreesStatus::Usage, TreesStatus::Usage.text());
    };
    let (status, text) = output_of(alloc, rt, log, words);
    write(sink, status, text)
}

// Writes a text, and returns the number of the status, or of a fault.
fn write<K: Sink>(sink: &mut K, status: TreesStatus, text: Text) -> u8 {
    write_output(sink, status, TreesStatus::WriteFault, text.bytes()).number()
}

// Runs the trees, and returns the status and the lines.
fn output_of<R: Threads + Clock + Sync, P: Print + Sync>(
    alloc: Global,
    rt: &R,
    log: &P,
    words: Words,
) -> (TreesStatus, Text) {
    let gate = Progress {
        log,
        name: "nmgc_trees",
        most: most_commands(words.depth, words.threads),
    };
    let began = Figures::begin(rt);
    match run(alloc, rt, words.depth, words.threads, &gate) {
        Ok(finished) => {
            print_figures(
                rt,
                log,
                "nmgc_trees",
                began,
                &finished.sums,
                &finished.collector,
            );
            output_of_finished(alloc, words.depth, &finished)
        }
        Err(TreesFault::TooLarge) => (TreesStatus::TooLarge, TreesStatus::TooLarge.text()),
        Err(TreesFault::NoMemory) => (TreesStatus::NoMemory, TreesStatus::NoMemory.text()),
    }
}

// Returns the status and the lines of a run that ended.
fn output_of_finished(alloc: Global, depth: u8, finished: &Finished) -> (TreesStatus, Text) {
    if finished.end != End::Done {
        return (TreesStatus::HeapFull, TreesStatus::HeapFull.text());
    }
    let counts = counted(finished.programs.as_slice());
    let status = if are_right(depth, &counts) {
        TreesStatus::Done
    } else {
        TreesStatus::Wrong
    };
    match lines(alloc, depth, &counts) {
        Ok(text) => (status, Text::Made(text)),
        Err(_) => (TreesStatus::NoMemory, TreesStatus::NoMemory.text()),
    }
}
