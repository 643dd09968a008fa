//! The program, except for its streams and files.
//!
//! Each argument gets a line of output, in order, also if its trace can't be read: the program goes on with the next argument.
//! The status is the gravest status of all arguments, so no argument hides the fault of another. If the output fails, the
//! remaining arguments aren't read. `specs/Program.antt` has the texts and the statuses.
//!
//! Easy to get wrong: the text for lack of memory may take none, so that line is written in parts.
ghost use Rattle.std.specs.Prelude.{◌≡◌, ◌++◌, ℕ, List, [], ◌∷◌, Option, Err, codes, map, string_bytes, IfOk, IfErr, OnOk};
ghost use Rattle.nmgc_io.specs.Text.{Rose};
ghost use Rattle.nmgc_trace_checker.specs.{Outcomes.IsFault, Program.AreAnswered, Program.IsResult, Program.Ran, Program.SaysTo, Program.SaysAll, Program.is_live, Program.status_of, Program.label_of, Shown.IsShownAs, Shown.IsPassedOn, Shown.Writes, Shown.WritesOne, Shown.WritesLive};
ghost use Rattle.nmgc_trace_checker.specs.declared.reading.TraceFault.TheVariants as fault_is;

use crate::reading::{Outcome, TraceFault, outcome_of, push_outcome};
use crate::sentence::push_text;
use crate::status::Status;
use nmgc_arguments::{Text, write_output};
use nmgc_io::{Sink, WriteEnd, write_all};
use nmgc_lists::NoMemory;
use std::alloc::Global;
use std::io::{self, BufRead};

/// The arguments after the program's name, or why there are none.
#[derive(Drop)]
pub enum Arguments {
    /// The arguments, in order.
    Given(Vec<String>),
    /// An argument is no text.
    NotText,
    /// There was no memory for the arguments.
    NoMemory,
}

/// The origin of traces: each is opened by its argument.
pub trait Traces {
    /// The type of an opened trace.
    type Reader: BufRead + Drop;

    /// The bytes of the trace that an argument names, if contracts know them.
    ghost bytes: { Self → List ℕ → Option (List ℕ) };

    /// Opens the trace that an argument names. An error is the reason why it can't be opened.
    fn open(&self, name: &str) -> Result<Self::Reader, TraceFault>
        ensures bytes { IfOk result (λ reader. Self.Reader.remaining reader ≡ bytes self.now name.now) }
        ensures fault { IfErr result (IsFault ⊥) };
}

/// Judges the trace of each argument, writes a line for each to the output, and returns the status: the gravest of all. While
/// the trace of the argument `--live` comes, each empty line of format 2 is answered by `ok` if all lines before it have
/// happened. Without arguments, or for an argument that is no text, writes the possible arguments. If the output fails, it has a
/// front of this text, the status is `Unwritten`, and `errors` gets a line. Otherwise nothing is written to `errors`. Takes
/// memory for one trace at a time (`outcome_of`), and for one line of output.
pub fn nmgc_trace<T: Traces, K: Sink, E: Sink>(
    alloc: Global,
    arguments: &Arguments,
    traces: &T,
    output: &mut K,
    errors: &mut E,
) -> Status
    ensures { Ran (T.bytes traces.now) arguments.now (K.taken output.old) (K.taken output.new) (Rose (K.faults output.old) (K.faults output.new))
        (errors.new ≡ errors.old) (E.taken errors.old) (E.taken errors.new) (Rose (E.faults errors.old) (E.faults errors.new)) result }
{
    match write_whole(alloc, arguments, traces, output) {
        Ok(status) => status,
        Err(_) => write_output(
            errors,
            Status::Unwritten,
            Status::Unwritten,
            b"nmgc_trace: can't write\n",
        ),
    }
}

// Writes the whole output, and returns the status.
fn write_whole<T: Traces, K: Sink>(
    alloc: Global,
    arguments: &Arguments,
    traces: &T,
    output: &mut K,
) -> Result<Status, WriteEnd>
    ensures { WritesOne (SaysTo (T.bytes traces.now) arguments.now) (K.taken output.old) (K.taken output.new)
        (K.faults output.old) (K.faults output.new) result }
{
    match arguments {
        Arguments::Given(words) => write_answers(alloc, words.as_slice(), traces, output),
        Arguments::NotText => write_answers(alloc, &[], traces, output),
        Arguments::NoMemory => write_fixed(output, b"no memory\n", Status::NoMemory),
    }
}

// Writes a text, and returns the status.
fn write_fixed<K: Sink>(output: &mut K, text: &[u8], status: Status) -> Result<Status, WriteEnd>
    ensures { WritesOne (λ said ss. (said ≡ text.now) × (ss ≡ status ∷ [])) (K.taken output.old) (K.taken output.new)
        (K.faults output.old) (K.faults output.new) result }
{
    write_all(output, text)?;
    Ok(status)
}

// Writes the answer to each argument, and returns the gravest status. Without arguments writes the possible arguments.
fn write_answers<T: Traces, K: Sink>(
    alloc: Global,
    words: &[String],
    traces: &T,
    output: &mut K,
) -> Result<Status, WriteEnd>
    ensures { WritesOne (SaysAll (T.bytes traces.now) (map string_bytes words.now)) (K.taken output.old) (K.taken output.new)
        (K.faults output.old) (K.faults output.new) result }
{
    if words.is_empty() {
        return write_fixed(
            output,
            b"usage: nmgc_trace FILE.. | nmgc_trace --live\n",
            Status::Usage,
        );
    }
    let mut gravest = Status::Passed;
    for word in words {
        let status = write_answer(alloc, word.as_str(), traces, output)?;
        gravest = gravest.graver(status);
    }
    Ok(gravest)
}

// Writes the answer to an argument, and returns its status.
fn write_answer<T: Traces, K: Sink>(
    alloc: Global,
    name: &str,
    traces: &T,
    output: &mut K,
) -> Result<Status, WriteEnd>
    ensures { WritesOne (AreAnswered (T.bytes traces.now) (name.now ∷ [])) (K.taken output.old) (K.taken output.new)
        (K.faults output.old) (K.faults output.new) result }
{
    let judged = judge_named(alloc, name, traces, output)?;
    let (status, text) = shown_result(alloc, &judged);
    drop(judged);
    write_line(output, name, text.bytes())?;
    Ok(status)
}

// Returns the result of the trace that an argument names. Its empty lines are answered if the argument is `--live`.
fn judge_named<T: Traces, K: Sink>(
    alloc: Global,
    name: &str,
    traces: &T,
    output: &mut K,
) -> Result<Result<Outcome, TraceFault>, WriteEnd>
    ensures { WritesLive (T.bytes traces.now name.now) (is_live name.now) (K.taken output.old) (K.taken output.new)
        (K.faults output.old) (K.faults output.new) result }
{
    match traces.open(name) {
        Ok(reader) => judge_reader(alloc, reader, is_live(name), output),
        Err(fault) => Ok(Err(fault)),
    }
}

// Returns the result of the trace that a reader gives, and drops the reader.
fn judge_reader<R: BufRead + Drop, K: Sink>(
    alloc: Global,
    mut reader: R,
    is_asked: bool,
    output: &mut K,
) -> Result<Result<Outcome, TraceFault>, WriteEnd>
    ensures { WritesLive (R.remaining reader) is_asked (K.taken output.old) (K.taken output.new) (K.faults output.old) (K.faults output.new) result }
{
    match outcome_of(alloc, &mut reader, output, is_asked) {
        Ok(outcome) => Ok(Ok(outcome)),
        Err(fault) => pass_on(fault),
    }
}

// Returns a fault as the result of a trace, unless the output is the fault.
fn pass_on(fault: TraceFault) -> Result<Result<Outcome, TraceFault>, WriteEnd>
    ensures { IsPassedOn fault result }
{
    match fault {
        TraceFault::NoMemory => Ok(Err(TraceFault::NoMemory)),
        TraceFault::Io(error) => Ok(Err(TraceFault::Io(error))),
        TraceFault::TooLong => Ok(Err(TraceFault::TooLong)),
        TraceFault::Unwritten => Err(WriteEnd::WriteFault),
    }
}

/// Whether an argument names standard input that is answered while it is written. Takes no memory.
pub fn is_live(name: &str) -> bool
    ensures { result ≡ is_live name.now }
{
    name.as_bytes() == b"--live".as_slice()
}

// Returns the status and the line of a result, or of lack of memory if the line takes more than there is.
#[tactic(auto, using(crate::proofs::Outputs::shown_as_none))]
fn shown_result(alloc: Global, judged: &Result<Outcome, TraceFault>) -> (Status, Text)
    ensures { IsShownAs judged.now result.0 result.1 }
{
    match result_line(alloc, judged) {
        Ok(shown) => shown,
        Err(_) => (Status::NoMemory, Text::Fixed(b"no memory\n")),
    }
}

// Returns the status and the line of a result.
fn result_line(
    alloc: Global,
    judged: &Result<Outcome, TraceFault>,
) -> Result<(Status, Text), NoMemory>
    ensures { IfOk result (λ shown. IsShownAs judged.now shown.0 shown.1) }
{
    let mut line = Vec::new(alloc);
    let status = push_result(alloc, &mut line, judged)?;
    push_text(&mut line, b"\n")?;
    Ok((status, Text::Made(line)))
}

// Appends the text of a result, and returns its status. A fault of memory or of the output has no text here.
#[tactic(auto, using(crate::proofs::Outputs::outcome_result, crate::proofs::Outputs::too_long_result))]
fn push_result(
    alloc: Global,
    out: &mut Vec<u8>,
    judged: &Result<Outcome, TraceFault>,
) -> Result<Status, NoMemory>
    ensures { IfOk result (λ s. (text : List ℕ) × IsResult judged.now text s × (out.new.items ≡ out.old.items ++ text)) }
{
    match judged {
        Ok(outcome) => {
            push_outcome(out, outcome)?;
            Ok(status_of(outcome))
        }
        Err(TraceFault::Io(error)) => push_error(alloc, out, error),
        Err(TraceFault::TooLong) => {
            push_text(out, b"there are too many lines")?;
            Ok(Status::Refused)
        }
        Err(TraceFault::NoMemory) | Err(TraceFault::Unwritten) => Err(NoMemory),
    }
}

// Appends the text of an error of the system, in the system's words, and returns its status.
fn push_error(alloc: Global, out: &mut Vec<u8>, error: &io::Error) -> Result<Status, NoMemory>
    ensures { IfOk result (λ s. (text : List ℕ) × IsResult (Err (fault_is.Io error.now)) text s × (out.new.items ≡ out.old.items ++ text)) }
{
    let words = format!(in alloc; "{error}")?;
    push_words(out, words.as_str().as_bytes())?;
    Ok(Status::Unread)
}

// Appends that a trace can't be read, and these words.
fn push_words(out: &mut Vec<u8>, words: &[u8]) -> Result<(), NoMemory>
    ensures { OnOk result (out.new.items ≡ out.old.items ++ (codes "can't be read: " ++ words.now)) }
{
    push_text(out, b"can't be read: ")?;
    push_text(out, words)
}

// Returns the status of an outcome.
fn status_of(outcome: &Outcome) -> Status
    ensures { result ≡ status_of outcome.now }
{
    if outcome.is_passed() {
        Status::Passed
    } else {
        Status::Refused
    }
}

// Writes the line of an argument: its label and the text.
fn write_line<K: Sink>(output: &mut K, name: &str, text: &[u8]) -> Result<(), WriteEnd>
    ensures { Writes (label_of name.now ++ text.now) (K.taken output.old) (K.taken output.new) (K.faults output.old) (K.faults output.new) result }
{
    write_label(output, name)?;
    write_all(output, text)
}

// Writes the label of an argument's line: the argument, a colon and a space, or nothing for `--live`.
fn write_label<K: Sink>(output: &mut K, name: &str) -> Result<(), WriteEnd>
    ensures { Writes (label_of name.now) (K.taken output.old) (K.taken output.new) (K.faults output.old) (K.faults output.new) result }
{
    if is_live(name) {
        return Ok(());
    }
    write_all(output, name.as_bytes())?;
    write_all(output, b": ")
}
