//! A trace, read line by line. A line is judged when read, and then forgotten, except for texts that `checker` keeps. So
//! reading takes memory for the traced heap, its longest line and the kept texts, and not for the whole trace. A runtime gets
//! its answer as soon as a line can't happen.
ghost use Rattle.std.specs.Prelude.{◌≡◌, ◌≤◌, ◌++◌, ◌&&◌, ℕ, List, [], true, codes, string_bytes, IfErr, IfOk, OnOk};
ghost use Rattle.std.specs.{Io.BufRead.strip_last, Io.KnownBytes.Appends, Option.option_map, Str.bytes_eq};
ghost use Rattle.nmgc_io.specs.Text.{Rose};
ghost use Rattle.nmgc_trace_checker.specs.{declared.reading.TraceFault.TheVariants.NoMemory as no_memory, declared.reading.TraceFault.TheVariants.Unwritten as unwritten, Outcomes.IsFault, Outcomes.IsFaultAfter, Outcomes.IsHeard, Outcomes.IsHeardUpTo, Outcomes.IsTooLong, Outcomes.IsOutcome, Outcomes.IsMarked, Outcomes.IsWatched, Outcomes.AreFields, Outcomes.AreFieldsHeard, Outcomes.is_passed_of, Outcomes.ok_to, Said.IsNextLine, Said.ahead, Said.texts_of, Sentences.outcome_text};

use crate::checker::{Answer, TraceChecker, push_answer};
use crate::field_sentence::push_field_answer;
use crate::line::line_of;
use crate::progress::Progress;
use crate::verdict::{Verdict, push_verdict, refusal, verdict_at_end};
use nmgc_field_reader::{FieldAnswer, FieldChecker};
use nmgc_io::{Sink, WriteEnd, write_all};
use nmgc_lists::NoMemory;
use std::alloc::Global;
use std::io::{self, BufRead};

/// The result for a trace.
#[derive(Drop)]
pub enum Outcome {
    /// The verdict on a trace of format 1.
    Marked(Verdict),
    /// The answer to a trace of format 2.
    Watched(Answer),
    /// The answer to a trace of format 3.
    Fields(FieldAnswer),
}

impl Outcome {
    /// Whether the trace passes. A trace of format 2 or 3 has to be whole, and in one of format 1 marking has to have ended.
    /// The program's exit status shows it. Takes no memory and constant time.
    pub fn is_passed(&self) -> bool
        ensures { result ≡ is_passed_of self.now }
    {
        match self {
            Outcome::Marked(verdict) => verdict.is_passed(),
            Outcome::Watched(answer) => answer.report.is_whole(),
            Outcome::Fields(answer) => answer.report.is_whole(),
        }
    }
}

/// Appends the verdict or the answer.
pub(crate) fn push_outcome(out: &mut Vec<u8>, outcome: &Outcome) -> Result<(), NoMemory>
    ensures { OnOk result (out.new.items ≡ out.old.items ++ outcome_text outcome.now) }
{
    match outcome {
        Outcome::Marked(verdict) => push_verdict(out, verdict),
        Outcome::Watched(answer) => push_answer(out, answer),
        Outcome::Fields(answer) => push_field_answer(out, answer),
    }
}

/// The reason why there is no outcome.
#[derive(Debug, Drop)]
pub enum TraceFault {
    /// There was no memory.
    NoMemory,
    /// The trace couldn't be opened or read, for another cause than memory.
    Io(io::Error),
    /// The trace has 2^64 - 2 lines or more, even if it ends at line 2^64 - 2.
    TooLong,
    /// An `ok` couldn't be written.
    Unwritten,
}

// A lack of memory is the fault `NoMemory`.
impl From<NoMemory> for TraceFault {
    ghost from_gives = { λ _ fault. fault ≡ no_memory };

    fn from(_error: NoMemory) -> Self {
        TraceFault::NoMemory
    }
}

impl From<WriteEnd> for TraceFault {
    ghost from_gives = { λ _ fault. fault ≡ unwritten };

    fn from(_end: WriteEnd) -> Self {
        TraceFault::Unwritten
    }
}

// An error of a stream is the fault `NoMemory` if its kind is `OutOfMemory`, and otherwise `Io`. It is never `TooLong`.
impl From<io::Error> for TraceFault {
    ghost from_gives = { λ _ fault. IsFault ⊥ fault };

    fn from(error: io::Error) -> Self {
        match error.kind() {
            io::ErrorKind::OutOfMemory => TraceFault::NoMemory,
            _ => TraceFault::Io(error),
        }
    }
}

/// Reads a trace up to its end, or to the first line that can't happen, and returns the outcome. If the reader shows contracts
/// its bytes, the judged lines are the lines of that text, in order, all or up to the refused line. The first line determines
/// the format. A line is refused, or in format 1 bad, exactly if it can't happen after the lines before it, which all can; a
/// reason is a fact there. In format 1, `Open` and `Closed` list exactly the names that the marking machine has marked after
/// all lines. The names of `Closed` are exactly the names that a cycle has to keep, by the heap and the commands alone. The
/// snapshot of this cycle is the heap that the commands before `mark` built. In format 2 the report is `Whole` exactly if each
/// line can happen and the last event is a stop. In a whole trace a cycle ended, and each cycle that ended had no debts. Beside
/// each such cycle a finished marker is possible, and each finished marker can end there. A marker that ends has marked exactly
/// the names reported as kept. In format 3 the report is `Whole` exactly if each line can happen and the last event is a stop.
/// In a whole trace a cycle ended, and each cycle that ended is exact (`nmgc_field_reader`, `specs/FieldWhole`).
///
/// If `is_asked`, each empty line of a trace of format 2 or 3 is answered by `ok` once all lines before it have happened, and no
/// other line is. Takes memory for the trace's heap, its longest line, and the commands of its longest copy or fill. A trace of
/// format 2 also takes memory for lines that made names due in the current cycle, at most one for each name and mutator. An
/// error is the reason why there is no outcome; `TooLong` means 2^64 - 2 lines or more. No clause gives `Io` its cause.
pub fn outcome_of<R: BufRead, K: Sink>(
    alloc: Global,
    reader: &mut R,
    answers: &mut K,
    is_asked: bool,
) -> Result<Outcome, TraceFault>
    ensures outcome { IfOk result (λ outcome. (said : List ℕ) × Appends (K.taken answers.old) (K.taken answers.new) said ×
        IsOutcome (R.remaining reader.old) is_asked said outcome) }
    ensures fault { IfErr result (λ fault. (said : List ℕ) × IsHeard (R.remaining reader.old) is_asked said ×
        IsFaultAfter (IsTooLong texts_of (R.remaining reader.old)) (K.taken answers.old) (K.taken answers.new)
        (Rose (K.faults answers.old) (K.faults answers.new)) said fault) }
    ensures later { K.faults answers.old ≤ K.faults answers.new }
{
    let mut text = String::new(alloc);
    let is_there = next_line(reader, &mut text)?;
    if is_watched(is_there, text.as_str()) {
        let answer = judge_watched(alloc, reader, text, answers, is_asked)?;
        return Ok(Outcome::Watched(answer));
    }
    if has_fields(is_there, text.as_str()) {
        let answer = judge_fields(alloc, reader, text, answers, is_asked)?;
        return Ok(Outcome::Fields(answer));
    }
    let verdict = judge_marked(alloc, reader, text, is_there)?;
    Ok(Outcome::Marked(verdict))
}

// Judges a trace of format 1 and returns the verdict. If `is_there`, `text` is its first line, already read; else it has
// none.
fn judge_marked<R: BufRead>(
    alloc: Global,
    reader: &mut R,
    mut text: String,
    is_there: bool,
) -> Result<Verdict, TraceFault>
    ensures lines { IfOk result (IsMarked (R.remaining reader.old) is_there (string_bytes text)) }
    ensures fault { IfErr result (IsFault (IsTooLong (ahead is_there (string_bytes text)) (R.remaining reader.old))) }
{
    let mut progress = Progress::Nothing;
    let mut goes_on = is_there;
    for number in 1..usize::MAX {
        if !goes_on {
            let meaning = verdict_at_end(progress)?;
            return Ok(meaning);
        }
        let line = line_of(alloc, without_end(text.as_str()))?;
        let next = progress.advance(alloc, &line)?;
        match next {
            Some(reached) => progress = reached,
            None => return Ok(refusal(&line, number)),
        }
        goes_on = next_line(reader, &mut text)?;
    }
    drop(progress);
    Err(TraceFault::TooLong)
}

// Judges a trace of format 2 whose first line was read, and returns the answer. `ok` answers empty lines if `is_asked`.
fn judge_watched<R: BufRead, K: Sink>(
    alloc: Global,
    reader: &mut R,
    mut text: String,
    answers: &mut K,
    is_asked: bool,
) -> Result<Answer, TraceFault>
    ensures lines { IfOk result (λ answer. (said : List ℕ) × Appends (K.taken answers.old) (K.taken answers.new) said ×
        IsWatched [] (R.remaining reader.old) is_asked said answer.report answer.counts answer.dues (option_map string_bytes answer.since)) }
    ensures fault { IfErr result (λ fault. (said : List ℕ) × IsHeardUpTo [] (R.remaining reader.old) is_asked said ×
        IsFaultAfter (IsTooLong (ahead true (string_bytes text)) (R.remaining reader.old)) (K.taken answers.old) (K.taken answers.new)
        (Rose (K.faults answers.old) (K.faults answers.new)) said fault) }
    ensures later { K.faults answers.old ≤ K.faults answers.new }
{
    let mut checker = TraceChecker::new(alloc);
    for number in 2..usize::MAX {
        if !next_line(reader, &mut text)? {
            return Ok(checker.end_answer());
        }
        let line = without_end(text.as_str());
        let refused = checker.judge_line(alloc, number, line)?;
        if let Some(refusal) = refused {
            let answer = checker.refusal_answer(alloc, number, refusal)?;
            return Ok(answer);
        }
        write_all(answers, ok_to(is_asked, line))?;
    }
    drop(checker);
    Err(TraceFault::TooLong)
}

// Judges a trace of format 3 whose first line was read, and returns the answer. `ok` answers empty lines if `is_asked`.
fn judge_fields<R: BufRead, K: Sink>(
    alloc: Global,
    reader: &mut R,
    mut text: String,
    answers: &mut K,
    is_asked: bool,
) -> Result<FieldAnswer, TraceFault>
    ensures lines { IfOk result (λ answer. (said : List ℕ) × Appends (K.taken answers.old) (K.taken answers.new) said ×
        AreFields [] (R.remaining reader.old) is_asked said answer.report answer.counts answer.dues) }
    ensures fault { IfErr result (λ fault. (said : List ℕ) × AreFieldsHeard [] (R.remaining reader.old) is_asked said ×
        IsFaultAfter (IsTooLong (ahead true (string_bytes text)) (R.remaining reader.old)) (K.taken answers.old) (K.taken answers.new)
        (Rose (K.faults answers.old) (K.faults answers.new)) said fault) }
    ensures later { K.faults answers.old ≤ K.faults answers.new }
{
    let mut checker = FieldChecker::new(alloc);
    for number in 2..usize::MAX {
        if !next_line(reader, &mut text)? {
            return Ok(checker.end_answer());
        }
        let line = without_end(text.as_str());
        let refused = checker.judge_line(number, line)?;
        if let Some(refusal) = refused {
            let answer = checker.refusal_answer(number, line, refusal)?;
            return Ok(answer);
        }
        write_all(answers, ok_to(is_asked, line))?;
    }
    drop(checker);
    Err(TraceFault::TooLong)
}

// Returns the answer to a line that happened: `ok` for an empty line if answers are asked for, and otherwise nothing.
fn ok_to(is_asked: bool, line: &str) -> &'static [u8]
    ensures { result.now ≡ ok_to is_asked line.now }
{
    if !is_asked {
        return b"";
    }
    match line.as_bytes() {
        [] => b"ok\n",
        [_, ..] => b"",
    }
}

// Replaces `text` by the next line of a trace, with its end, or by nothing if none is left. Returns whether there was one.
fn next_line<R: BufRead>(reader: &mut R, text: &mut String) -> io::Result<bool>
    ensures { IfOk result (IsNextLine (R.remaining reader.old) (R.remaining reader.new) (string_bytes text.new)) }
{
    text.clear();
    reader.read_line(text)?;
    Ok(!text.as_str().is_empty())
}

// Whether there is a first line and it begins a trace of format 2.
fn is_watched(is_there: bool, text: &str) -> bool
    ensures { result ≡ (is_there && bytes_eq (strip_last 13 (strip_last 10 text.now)) (codes "trace 2")) }
{
    is_there && is_head(without_end(text))
}

// Whether a line is the head of a trace of format 2.
fn is_head(text: &str) -> bool
    ensures { result ≡ bytes_eq text.now (codes "trace 2") }
{
    text.as_bytes() == b"trace 2".as_slice()
}

// Whether there is a first line and it begins a trace of format 3.
fn has_fields(is_there: bool, text: &str) -> bool
    ensures { result ≡ (is_there && bytes_eq (strip_last 13 (strip_last 10 text.now)) (codes "trace 3")) }
{
    is_there && is_field_head(without_end(text))
}

// Whether a line is the head of a trace of format 3.
fn is_field_head(text: &str) -> bool
    ensures { result ≡ bytes_eq text.now (codes "trace 3") }
{
    text.as_bytes() == b"trace 3".as_slice()
}

// Returns a line without a line feed at its end, if it has one, and then without a carriage return at its end.
fn without_end(text: &str) -> &str
    ensures { result.now ≡ strip_last 13 (strip_last 10 text.now) }
{
    let text = text.strip_suffix('\n').unwrap_or(text);
    text.strip_suffix('\r').unwrap_or(text)
}
