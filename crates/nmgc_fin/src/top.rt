//! The program's top call.
//!
//! The work goes one way: arguments, bytes and jobs, workers, text, sink. The bytes are read in pieces and not kept. The first refusal is the output. The output is
//! complete before the sink is used, so a sink that fails changes only the status.
ghost use Rattle.std.specs.Prelude.{◌≡◌, ◌≤◌, ℕ, List, [], ◌∷◌, length, map, string_bytes, IfOk, IfSome, IfNone, decimal};
ghost use Rattle.nmgc_io.specs.Text.{Rose};
ghost use Rattle.nmgc_arguments.specs.Output.{text_bytes};
ghost use Rattle.nmgc_fin.specs.{Handles.AreNumbered, Handles.Handles, Scan.HasScanned, declared.reading.TheConstants.MAX_REPORT_BYTES, declared.top.FinStatus.FinStatus as StatusOf};
ghost use Rattle.nmgc_fin.specs.Program.{IsCount, Asks, IsWrong, number_of, IsFixed, fixed_text, bad_text, IsMadeOf, AreDone, SaysOfBytes, Says, IsWritten, IsComplete};

use crate::job::Job;
use crate::order::{handled_text, names_in_order};
use crate::reading::read_report;
use crate::run::{Handled, MOST_WORKERS, run_jobs};
use crate::scan::Scan;
use crate::text::JobsFault;
use nmgc_arguments::{Text, write_output};
use nmgc_io::{ReadEnd, Sink, Source, push_number, read_number};
use nmgc_lists::NoMemory;
use nmgc_round::OpenGate;
use std::alloc::Global;
use std::sync::Wait;
use std::thread::Threads;

/// How the program ended, with the exit number of the process. Two variants share number 5: the text distinguishes them.
#[derive(Clone, Copy, Debug, PartialEq, Eq)]
pub enum FinStatus {
    /// Each job was handled; the text was written. Number 0.
    Done,
    /// The arguments aren't one number from 1 to `MOST_WORKERS`; nothing was read. Number 2.
    Usage,
    /// The source failed. Number 3.
    ReadFault,
    /// The sink failed, and has a prefix of the output. Number 4.
    WriteFault,
    /// A line whose first token is `dead` isn't `dead` and a name. Number 5.
    BadReport,
    /// There are more bytes than a report may have. Number 5.
    TooLong,
    /// There was no memory. Number 7.
    NoMemory,
}

impl FinStatus {
    /// Returns the exit number of the process for this status.
    pub fn number(self) -> u8
        ensures { result ≡ number_of self }
    {
        match self {
            FinStatus::Done => 0,
            FinStatus::Usage => 2,
            FinStatus::ReadFault => 3,
            FinStatus::WriteFault => 4,
            FinStatus::BadReport | FinStatus::TooLong => 5,
            FinStatus::NoMemory => 7,
        }
    }
}

// The output of the program: its status and its text.
#[derive(Drop)]
struct Output {
    status: FinStatus,
    text: Text,
}

/// Reads a report from the source to its end, handles the job of each dead weak pointer once, and writes the handled jobs in
/// order of number. `arguments` is the number of workers. Returns the status. If something prevents the handling, writes the
/// text of the first refusal. If the sink fails, it has a prefix of the text. Suppose that the arguments are right, that the
/// bytes of the source are known, within the limit and without a bad line, and that no fault occurs. Then the status is
/// `Done` or `NoMemory`. No clause says when memory runs out. May wait for workers.
pub fn nmgc_fin<R: Threads + Wait + Sync, S: Source, K: Sink>(
    alloc: Global,
    rt: &R,
    arguments: &[String],
    source: &mut S,
    sink: &mut K,
) -> FinStatus
    // The output for the arguments and the bytes read was written; if the sink failed, a prefix of the output.
    ensures reported { (reported : StatusOf) × (text : List ℕ)
        × Says (map string_bytes arguments.now) (S.left source.old) (S.left source.new) (Rose (S.faults source.old) (S.faults source.new)) reported text
        × IsWritten (K.taken sink.old) (K.taken sink.new) (Rose (K.faults sink.old) (K.faults sink.new)) reported text result }
    // If the arguments are wrong, nothing is read.
    ensures unread { IsWrong (map string_bytes arguments.now) → source.new ≡ source.old }
    // If the arguments are right, the bytes are known, within the limit and without a bad line, and no fault occurs, the
    // status is `Done` or `NoMemory`.
    ensures complete { IsComplete (map string_bytes arguments.now) (S.left source.old) (Rose (S.faults source.old) (S.faults source.new))
        (Rose (K.faults sink.old) (K.faults sink.new)) result }
{
    let Output { status, text } = output_of(alloc, rt, arguments, source);
    write_output(sink, status, FinStatus::WriteFault, text.bytes())
}

// Reads a report, handles its jobs, and returns the output, also for a refusal. If the arguments are wrong, nothing is read.
fn output_of<R: Threads + Wait + Sync, S: Source>(
    alloc: Global,
    rt: &R,
    arguments: &[String],
    source: &mut S,
) -> Output
    ensures says { Says (map string_bytes arguments.now) (S.left source.old) (S.left source.new) (Rose (S.faults source.old) (S.faults source.new))
        result.status (text_bytes result.text) }
    ensures unread { IsWrong (map string_bytes arguments.now) → source.new ≡ source.old }
{
    let Some(workers) = workers_of(arguments) else {
        return fixed_output(FinStatus::Usage);
    };
    let mut scan = Scan::new(alloc);
    match read_report(alloc, source, &mut scan) {
        Ok(()) => output_of_scan(alloc, rt, workers, scan),
        Err(ReadEnd::ReadFault) => fixed_output(FinStatus::ReadFault),
        Err(ReadEnd::TooLong) => fixed_output(FinStatus::TooLong),
        Err(ReadEnd::NoMemory) => fixed_output(FinStatus::NoMemory),
    }
}

// Handles the jobs of a report with `workers` workers, and returns the output. If a line is bad, handles no job. The scan has
// taken the whole report.
fn output_of_scan<R: Threads + Wait + Sync>(
    alloc: Global,
    rt: &R,
    workers: u8,
    scan: Scan,
) -> Output
    requires workers { IsCount workers }
    requires taken { (bytes : List ℕ) × HasScanned scan bytes × (length bytes ≤ MAX_REPORT_BYTES) }
    ensures { (bytes : List ℕ) → HasScanned scan bytes → SaysOfBytes workers bytes result.status (text_bytes result.text) }
{
    match scan.finish() {
        Ok(jobs) => output_with(FinStatus::Done, done_text(alloc, rt, workers, jobs.items())),
        Err(JobsFault::Bad { line }) => output_with(FinStatus::BadReport, bad_text(alloc, line)),
        Err(JobsFault::NoMemory) => fixed_output(FinStatus::NoMemory),
    }
}

// Returns the output with this status and text, or the output for lack of memory if the text couldn't be made.
fn output_with(status: FinStatus, text: Result<Vec<u8>, NoMemory>) -> Output
    ensures { IsMadeOf status text result }
{
    match text {
        Ok(text) => Output {
            status,
            text: Text::Made(text),
        },
        Err(_) => fixed_output(FinStatus::NoMemory),
    }
}

// Handles the jobs with `workers` workers, and returns the text that lists all jobs in order of number.
fn done_text<R: Threads + Wait + Sync>(
    alloc: Global,
    rt: &R,
    workers: u8,
    jobs: &[Job],
) -> Result<Vec<u8>, NoMemory>
    requires workers { IsCount workers }
    requires numbered { AreNumbered jobs.now }
    ensures { IfOk result (λ text. AreDone workers jobs.now text.items) }
{
    let handled = run_jobs(alloc, rt, jobs, workers, &OpenGate)?;
    text_of_handled(alloc, jobs, &handled)
}

// Returns the text that lists the handled jobs, which are exactly `jobs`, in order of number. Uses only the length of `jobs`.
fn text_of_handled(alloc: Global, jobs: &[Job], handled: &Handled) -> Result<Vec<u8>, NoMemory>
    requires numbered { AreNumbered jobs.now }
    requires handled { Handles jobs.now handled.now.by }
    ensures { IfOk result (λ text. AreDone (length handled.now.by) jobs.now text.items) }
{
    let names = names_in_order(alloc, jobs.len(), handled)?;
    handled_text(alloc, names.as_slice())
}

// Returns the number of workers in the arguments, or `None` exactly if they aren't one number from 1 to `MOST_WORKERS`.
fn workers_of(arguments: &[String]) -> Option<u8>
    ensures asked { IfSome result (Asks (map string_bytes arguments.now)) }
    ensures wrong { IfNone result (IsWrong (map string_bytes arguments.now)) }
{
    match arguments {
        [argument] => workers_in(argument.as_str().as_bytes()),
        _ => None,
    }
}

// Returns the number of workers that an argument spells, or `None` exactly if it spells no number from 1 to `MOST_WORKERS`.
fn workers_in(argument: &[u8]) -> Option<u8>
    ensures found { IfSome result (λ workers. (argument.now ≡ decimal workers) × IsCount workers) }
    ensures none { IfNone result ((workers : ℕ) → IsCount workers → argument.now ≡ decimal workers → ⊥) }
{
    let number = read_number(argument, u64::from(MOST_WORKERS))?;
    if number == 0 {
        return None;
    }
    Some(number as u8)
}

// Returns the output with a status and its fixed text. Requires a status with a fixed text. Takes no memory.
fn fixed_output(status: FinStatus) -> Output
    requires { IsFixed status }
    ensures { (result.status ≡ status) × (text_bytes result.text ≡ fixed_text status) }
{
    let text = match status {
        FinStatus::Usage => b"usage: nmgc_fin W\n".as_slice(),
        FinStatus::ReadFault => b"read fault\n".as_slice(),
        FinStatus::TooLong => b"too long\n".as_slice(),
        FinStatus::NoMemory => b"no memory\n".as_slice(),
        _ => unreachable!(),
    };
    Output {
        status,
        text: Text::Fixed(text),
    }
}

// Returns the text that reports `line`, the number of the first bad line.
fn bad_text(alloc: Global, line: u32) -> Result<Vec<u8>, NoMemory>
    ensures { IfOk result (λ text. text.items ≡ bad_text line) }
{
    let mut text = Vec::from_slice(alloc, b"bad line ")?;
    push_number(&mut text, u64::from(line))?;
    text.push(b'\n')?;
    Ok(text)
}
