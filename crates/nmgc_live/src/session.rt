//! A session: a run whose commands come line by line, and whose report is written as it goes.
//!
//! Commands wait in a queue for each mutator (`nmgc_cycle::Session`). At a line `round` the mutators do a slice each, and a
//! stop follows. The replies, the stop's row and the rows of the cycles that ended there are written at once, before the next
//! line is read. So a program in any language can drive the heap over a pipe. No row and no answered command is kept.
//!
//! Easy to get wrong: while lines may come, commands count as left at every stop. So a full heap ends the session there.
ghost use Rattle.std.specs.Prelude.{Bool, ℕ, ◌≡◌, ◌≢◌, ◌≤◌, ◌++◌, ◌<◌, All, List, IfErr, IfOk, IsErrOf, OnOk, map, None, Some, false, length, true};
ghost use Rattle.nmgc_io.specs.Text.{Rose};
ghost use Rattle.nmgc_cli.specs.Output.{status_of};
ghost use Rattle.nmgc_journal.specs.declared.report.StopRow.{StopRow as RowSeen};
ghost use Rattle.nmgc_cycle.specs.{Shown.HasNamesOnce, Shown.report_row, Stopping.ended_by};
ghost use Rattle.nmgc_cycle.specs.Sessions.{HasSameLines, HaveRoomAll, IsSession};
ghost use Rattle.nmgc_live.specs.Lines.{IsReader, next_number};
ghost use Rattle.nmgc_live.specs.Live.{HasEndedRun, HasGivenUp, IsLive};
ghost use Rattle.nmgc_live.specs.Meanings.{HasToGive, IsJudged, IsNextJudged, IsNoLine, IsRoundJudged, IsWordFault};
ghost use Rattle.nmgc_live.specs.Steps.{DidRound, DidStop, HasAnsweredStop, HasComeToRound, HasComeToStop, HasNotAnsweredStop, HasNotComeToRound, HasNotComeToStop, HasNotReadLines, HasTakenLine, IsAfterStop, IsAtStop, IsHeapOf, IsLiveSession, WritesStop, open_after, tail_of};

use crate::head::read_head;
use crate::lines::{LineReader, NextLine};
use crate::options::Options;
use crate::prompts::{help, prompt};
use crate::refusal::{Fault, Refusal, answer_bad, write_refusal};
use crate::writer::ReportText;
use nmgc_cli::Status;
use nmgc_cycle::{EndedCycles, Event, Observer, RunFault, Session, StopEnd, StopRows};
use nmgc_io::{Sink, Source, cut, is_blank_or_comment, read_number, write_all};
use nmgc_journal::End;
use nmgc_lists::NoMemory;
use nmgc_round::OpenGate;
use nmgc_script::{Cause, LineFault, command_of_line};
use std::alloc::Global;
use std::thread::Threads;

/// Does a session: reads lines from `source`, writes the report's text to `sink` as it comes, and returns the status. Prompts
/// and help go to `prompts`; its faults are ignored.
///
/// Behind the head the text of the first stop is written, and then the replies and the stop of each round. A line `ready`
/// follows each stop while lines may come. A bad line that is passed over is answered at once. The status says how the
/// session ended:
///
/// - `Done`: the line `end` or the source's end closed the session, and its run was done. The last line is `end done`.
/// - `HeapFull`: a stop left fewer segments free than the reserve. The last line is `end heapfull ..`, behind the stop's.
/// - `BadScript`: a line is bad and isn't passed over, or the source ended in the head. The last line is `bad line L CAUSE`,
///   behind the answers to the lines before.
/// - `ReadFault`: the source failed. Each whole line that came was answered. The last line is `read fault`.
/// - `WriteFault`: the sink failed. It has a prefix of the text.
/// - `NoMemory`: there was no memory. The last line is `no memory`, behind whole answers.
pub fn live<R: Threads + Sync, S: Source, K: Sink, E: Sink>(
    alloc: Global,
    rt: &R,
    options: Options,
    source: &mut S,
    sink: &mut K,
    prompts: &mut E,
) -> Status
    ensures live { IsLive options (S.left source.old) (S.left source.new) (K.taken sink.old) (K.taken sink.new) result }
    ensures read_fault { result ≡ Status.ReadFault → Rose (S.faults source.old) (S.faults source.new) }
    ensures write_fault { result ≡ Status.WriteFault → Rose (K.faults sink.old) (K.faults sink.new) }
{
    match session(alloc, rt, options, source, sink, prompts) {
        Ok(status) => status,
        Err(refusal) => write_refusal(alloc, sink, refusal),
    }
}

// Does a session, and returns the status of its run's end, or the reason why it was given up.
fn session<R: Threads + Sync, S: Source, K: Sink, E: Sink>(
    alloc: Global,
    rt: &R,
    options: Options,
    source: &mut S,
    sink: &mut K,
    prompts: &mut E,
) -> Result<Status, Refusal>
    ensures ended { IfOk result (λ status. HasEndedRun options (S.left source.old) (S.left source.new) (K.taken sink.old) (K.taken sink.new) status) }
    ensures refused { IfErr result (λ refusal. HasGivenUp options (S.left source.old) (S.left source.new) (K.taken sink.old) (K.taken sink.new) refusal) }
    ensures reads { S.faults source.old ≤ S.faults source.new }
    ensures writes { K.faults sink.old ≤ K.faults sink.new }
    ensures read_fault { IsErrOf result Refusal.ReadFault → Rose (S.faults source.old) (S.faults source.new) }
    ensures write_fault { IsErrOf result Refusal.WriteFault → Rose (K.faults sink.old) (K.faults sink.new) }
{
    let mut live = begin(alloc, options, source, sink, prompts)?;
    for _stop in 0..u64::MAX {
        let end = live.answer_stop(alloc, rt, sink)?;
        if let Some(end) = end {
            return Ok(Status::of_end(end));
        }
        live.come_to_stop(alloc, rt, options, source, sink, prompts)?;
    }
    Err(Refusal::NoMemory)
}

// A session behind its head.
#[derive(Drop)]
struct LiveSession {
    lines: LineReader,
    heap: LineLimits,
    session: Session,
    // Whether further lines may come.
    is_open: bool,
    // The text that isn't written yet.
    report: ReportText,
}

// Lines are judged by these numbers of the heap: the words of a segment, and the mutators.
#[derive(Clone, Copy)]
struct LineLimits {
    words: u32,
    count: usize,
}

// Reads the head of a session and begins its run. The first stop comes next.
fn begin<S: Source, K: Sink, E: Sink>(
    alloc: Global,
    options: Options,
    source: &mut S,
    sink: &mut K,
    prompts: &mut E,
) -> Result<LiveSession, Refusal>
    ensures begun { IfOk result (λ live. IsAtStop options (S.left source.old) (S.left source.new) (K.taken sink.old) (K.taken sink.new) live) }
    ensures refused { IfErr result (λ refusal. HasGivenUp options (S.left source.old) (S.left source.new) (K.taken sink.old) (K.taken sink.new) refusal) }
    ensures reads { S.faults source.old ≤ S.faults source.new }
    ensures writes { K.faults sink.old ≤ K.faults sink.new }
    ensures read_fault { IsErrOf result Refusal.ReadFault → Rose (S.faults source.old) (S.faults source.new) }
    ensures write_fault { IsErrOf result Refusal.WriteFault → Rose (K.faults sink.old) (K.faults sink.new) }
{
    let mut lines = LineReader::new(alloc)?;
    let head = read_head(alloc, &mut lines, source, sink, prompts, options)?;
    let heap = LineLimits {
        words: head.config.words,
        count: head.threads.items().len(),
    };
    let session = Session::new(alloc, &head)?;
    let mut report = ReportText::new(alloc);
    report.push_line(b"report 1\n")?;
    Ok(LiveSession {
        lines,
        heap,
        session,
        is_open: true,
        report,
    })
}

impl LiveSession {
    // Does a stop, and writes the text since the last one. Returns the end of the run, or `None` if it goes on.
    fn answer_stop<R: Threads + Sync, K: Sink>(
        &mut self,
        alloc: Global,
        rt: &R,
        sink: &mut K,
    ) -> Result<Option<End>, Refusal>
        requires { IsLiveSession true self.old }
        ensures answered { IfOk result (λ end. HasAnsweredStop (K.taken sink.old) (K.taken sink.new) self.old self.new end) }
        ensures refused { IfErr result (λ refusal. HasNotAnsweredStop (K.taken sink.old) (K.taken sink.new) self.old refusal) }
        ensures writes { K.faults sink.old ≤ K.faults sink.new }
        ensures read_fault { IsErrOf result Refusal.ReadFault → ⊥ }
        ensures write_fault { IsErrOf result Refusal.WriteFault → Rose (K.faults sink.old) (K.faults sink.new) }
    {
        let end = stop(alloc, rt, &mut self.session, self.is_open, &mut self.report)?;
        write_all(sink, self.report.bytes())?;
        self.report.clear();
        Ok(end)
    }

    // Reads the lines of an open session up to its next round, and does the round. The next stop follows.
    fn come_to_stop<R: Threads + Sync, S: Source, K: Sink, E: Sink>(
        &mut self,
        alloc: Global,
        rt: &R,
        options: Options,
        source: &mut S,
        sink: &mut K,
        prompts: &mut E,
    ) -> Result<(), Refusal>
        requires { IsAfterStop self.old }
        ensures did { OnOk result (HasComeToStop options (S.left source.old) (S.left source.new) (K.taken sink.old) (K.taken sink.new) self.old self.new) }
        ensures refused { IfErr result (λ refusal. HasNotComeToStop options (S.left source.old) (S.left source.new) (K.taken sink.old) (K.taken sink.new)
            self.old refusal) }
        ensures reads { S.faults source.old ≤ S.faults source.new }
        ensures writes { K.faults sink.old ≤ K.faults sink.new }
        ensures read_fault { IsErrOf result Refusal.ReadFault → Rose (S.faults source.old) (S.faults source.new) }
        ensures write_fault { IsErrOf result Refusal.WriteFault → Rose (K.faults sink.old) (K.faults sink.new) }
    {
        let is_open = come_to_round(
            alloc,
            self.heap,
            options,
            self.is_open,
            &mut self.lines,
            &mut self.session,
            source,
            sink,
            prompts,
        )?;
        self.is_open = is_open;
        round(rt, &mut self.session, &mut self.report)?;
        Ok(())
    }
}

// Does a stop, and appends its lines: `ready` at the end while the session goes on, or the line of the run's end.
fn stop<R: Threads + Sync>(
    alloc: Global,
    rt: &R,
    session: &mut Session,
    is_open: bool,
    report: &mut ReportText,
) -> Result<Option<End>, Refusal>
    requires session { IsSession true session.old }
    requires is_open { session.old.is_open ≡ is_open }
    ensures session { OnOk result (IsSession false session.new) }
    ensures rest { OnOk result (session.new ≡ record session.old { collector = session.new.collector }) }
    ensures did { IfOk result (λ end. DidStop is_open session.old session.new report.old report.new end) }
    ensures cause { IfErr result (λ refusal. refusal ≡ Refusal.NoMemory) }
{
    let mut rows = StopRows::new(alloc);
    let answer = session.stop(rt, &mut rows)?;
    push_rows(report, rows)?;
    let end = end_of(answer);
    push_tail(report, is_open, end)?;
    Ok(end)
}

// Appends the lines of a stop and of the cycles that ended there.
fn push_rows(report: &mut ReportText, rows: StopRows) -> Result<(), RunFault>
    requires once { All HasNamesOnce rows.cycles }
    requires stop { (row : RowSeen) × (rows.stop ≡ Some row) }
    ensures { OnOk result ((row : RowSeen) → rows.stop ≡ Some row → WritesStop row (map report_row rows.cycles) report.old report.new) }
{
    let StopRows { stop, cycles } = rows;
    let cycles = EndedCycles::of(cycles);
    let Some(row) = stop else { unreachable!() };
    report.observe(Event::Stop { row, cycles })
}

// Returns the end of the run that a stop's answer means, or `None` if the run goes on.
fn end_of(answer: StopEnd) -> Option<End>
    ensures { result ≡ ended_by answer }
{
    match answer {
        StopEnd::GoOn => None,
        StopEnd::Done => Some(End::Done),
        StopEnd::HeapFull { free, reserve } => Some(End::HeapFull { free, reserve }),
    }
}

// Appends the line of the run's end, or `ready` while lines may come.
fn push_tail(report: &mut ReportText, is_open: bool, end: Option<End>) -> Result<(), NoMemory>
    ensures text { OnOk result (report.new.text.items ≡ report.old.text.items ++ tail_of is_open end) }
    ensures round { OnOk result (report.new.round ≡ report.old.round) }
{
    match end {
        Some(end) => report.push_end(end),
        None if is_open => report.push_line(b"ready\n"),
        None => Ok(()),
    }
}

// Does a round, and appends its replies.
fn round<R: Threads + Sync>(
    rt: &R,
    session: &mut Session,
    report: &mut ReportText,
) -> Result<(), Refusal>
    requires session { IsSession false session.old }
    requires goes_on { session.old.collector.answered ≡ None }
    requires room { session.old.is_open ≡ true → HaveRoomAll session.old }
    ensures session { OnOk result (IsSession true session.new) }
    ensures lines { OnOk result (HasSameLines session.old session.new) }
    ensures did { OnOk result (DidRound session.old session.new report.old report.new) }
    ensures cause { IfErr result (λ refusal. refusal ≡ Refusal.NoMemory) }
{
    let rows = session.round(rt, &OpenGate)?;
    report.observe(Event::Round(rows))?;
    Ok(())
}

// Reads the lines of an open session up to `round` or to its end, and adds their commands. A closed one reads none. Returns
// whether the session is still open.
fn come_to_round<S: Source, K: Sink, E: Sink>(
    alloc: Global,
    heap: LineLimits,
    options: Options,
    was_open: bool,
    lines: &mut LineReader,
    session: &mut Session,
    source: &mut S,
    sink: &mut K,
    prompts: &mut E,
) -> Result<bool, Refusal>
    requires reader { IsReader lines.old }
    requires session { IsSession false session.old }
    requires is_open { session.old.is_open ≡ was_open }
    requires heap { IsHeapOf heap session.old }
    ensures reader { OnOk result (IsReader lines.new) }
    ensures session { OnOk result (IsSession false session.new) }
    ensures is_open { IfOk result (λ is_open. session.new.is_open ≡ is_open) }
    ensures room { IfOk result (λ is_open. is_open ≡ true → HaveRoomAll session.new) }
    ensures collector { OnOk result (session.new.collector ≡ session.old.collector) }
    ensures heap { OnOk result (IsHeapOf heap session.new) }
    ensures read { IfOk result (λ is_open. HasComeToRound options (S.left source.old) (S.left source.new) (K.taken sink.old) (K.taken sink.new)
        lines.old lines.new session.old session.new was_open is_open) }
    ensures refused { IfErr result (λ refusal. HasNotComeToRound options (S.left source.old) (S.left source.new) (K.taken sink.old) (K.taken sink.new)
        lines.old session.old was_open refusal) }
    ensures reads { S.faults source.old ≤ S.faults source.new }
    ensures writes { K.faults sink.old ≤ K.faults sink.new }
    ensures read_fault { IsErrOf result Refusal.ReadFault → Rose (S.faults source.old) (S.faults source.new) }
    ensures write_fault { IsErrOf result Refusal.WriteFault → Rose (K.faults sink.old) (K.faults sink.new) }
{
    if !was_open {
        return Ok(false);
    }
    for _line in 0..u64::MAX {
        prompt(prompts, options);
        let turn = take_line(alloc, heap, options, lines, session, source, sink, prompts)?;
        if let Some(is_open) = turn {
            return Ok(is_open);
        }
    }
    Err(Refusal::NoMemory)
}

// Reads a line, and adds its command or answers it. Returns `None` if another line follows, and otherwise whether the session
// is still open.
fn take_line<S: Source, K: Sink, E: Sink>(
    alloc: Global,
    heap: LineLimits,
    options: Options,
    lines: &mut LineReader,
    session: &mut Session,
    source: &mut S,
    sink: &mut K,
    prompts: &mut E,
) -> Result<Option<bool>, Refusal>
    requires reader { IsReader lines.old }
    requires session { IsSession false session.old }
    requires is_open { session.old.is_open ≡ true }
    requires heap { IsHeapOf heap session.old }
    ensures reader { OnOk result (IsReader lines.new) }
    ensures session { OnOk result (IsSession false session.new) }
    ensures is_open { IfOk result (λ turn. session.new.is_open ≡ open_after turn) }
    ensures room { IfOk result (λ turn. turn ≡ Some true → HaveRoomAll session.new) }
    ensures collector { OnOk result (session.new.collector ≡ session.old.collector) }
    ensures heap { OnOk result (IsHeapOf heap session.new) }
    ensures read { IfOk result (λ turn. HasTakenLine options (S.left source.old) (S.left source.new) (K.taken sink.old) (K.taken sink.new)
        lines.old lines.new session.old session.new turn) }
    ensures refused { IfErr result (λ refusal. HasNotReadLines options (S.left source.old) (S.left source.new) (K.taken sink.old) (K.taken sink.new)
        lines.old session.old refusal) }
    ensures reads { S.faults source.old ≤ S.faults source.new }
    ensures writes { K.faults sink.old ≤ K.faults sink.new }
    ensures read_fault { IsErrOf result Refusal.ReadFault → Rose (S.faults source.old) (S.faults source.new) }
    ensures write_fault { IsErrOf result Refusal.WriteFault → Rose (K.faults sink.old) (K.faults sink.new) }
{
    match next_line(alloc, heap, options, lines, session, source)? {
        Judged::Quiet => Ok(None),
        Judged::Added => Ok(None),
        Judged::Help => {
            help(prompts);
            Ok(None)
        }
        Judged::Bad(fault) => {
            answer_bad(alloc, sink, options, lines.number(), fault)?;
            Ok(None)
        }
        Judged::Round => Ok(Some(true)),
        Judged::End => {
            session.close();
            Ok(Some(false))
        }
    }
}

// Reads a line and judges it. A command is added to its mutator's.
fn next_line<S: Source>(
    alloc: Global,
    heap: LineLimits,
    options: Options,
    lines: &mut LineReader,
    session: &mut Session,
    source: &mut S,
) -> Result<Judged, Refusal>
    requires reader { IsReader lines.old }
    requires session { IsSession false session.old }
    requires is_open { session.old.is_open ≡ true }
    requires heap { IsHeapOf heap session.old }
    ensures reader { OnOk result (IsReader lines.new) }
    ensures number { OnOk result (lines.new.number ≡ next_number lines.old.number) }
    ensures session { OnOk result (IsSession false session.new) }
    ensures judged { IfOk result (λ judged. IsNextJudged options heap lines.old lines.new (S.left source.old) (S.left source.new) session.old session.new judged) }
    ensures refused { IfErr result (λ refusal. IsNoLine lines.old (S.left source.old) (S.left source.new) refusal) }
    ensures reads { S.faults source.old ≤ S.faults source.new }
    ensures read_fault { IsErrOf result Refusal.ReadFault → Rose (S.faults source.old) (S.faults source.new) }
{
    match lines.next(source)? {
        NextLine::Whole => Ok(judge_line(alloc, heap, options.has_prompts, session, lines.line())?),
        NextLine::Long => Ok(Judged::Bad(Fault::Line)),
        NextLine::Cut => Ok(Judged::Bad(Fault::Line)),
        NextLine::End => Ok(Judged::End),
    }
}

// The fault of a line whose first token is no mutator's number.
const NO_MUTATOR: Fault = Fault::Script(Cause::Thread);

// A line behind the head means one of these.
enum Judged {
    // An empty line, or a comment.
    Quiet,
    // A command that was added.
    Added,
    Round,
    End,
    Help,
    Bad(Fault),
}

// Judges a line behind the head. A command is added to its mutator's.
fn judge_line(
    alloc: Global,
    heap: LineLimits,
    has_prompts: bool,
    session: &mut Session,
    line: &[u8],
) -> Result<Judged, NoMemory>
    requires session { IsSession false session.old }
    requires is_open { session.old.is_open ≡ true }
    requires heap { IsHeapOf heap session.old }
    ensures session { OnOk result (IsSession false session.new) }
    ensures judged { IfOk result (λ judged. IsJudged heap.words heap.count has_prompts session.old session.new line.now judged) }
{
    if is_blank_or_comment(line) {
        return Ok(Judged::Quiet);
    }
    if line == b"round".as_slice() {
        return Ok(judge_round(session));
    }
    if line == b"end".as_slice() {
        return Ok(Judged::End);
    }
    if has_prompts && line == b"help".as_slice() {
        return Ok(Judged::Help);
    }
    judge_command(alloc, heap, session, line)
}

// Judges the line `round`. It may give each mutator a pause, so each needs room for one.
fn judge_round(session: &Session) -> Judged
    ensures { IsRoundJudged session.now result }
{
    if session.has_room_all() {
        Judged::Round
    } else {
        Judged::Bad(Fault::TooMany)
    }
}

// Judges a line with a mutator's number and a command, and adds the command.
fn judge_command(
    alloc: Global,
    heap: LineLimits,
    session: &mut Session,
    line: &[u8],
) -> Result<Judged, NoMemory>
    requires session { IsSession false session.old }
    requires is_open { session.old.is_open ≡ true }
    requires heap { IsHeapOf heap session.old }
    ensures session { OnOk result (IsSession false session.new) }
    ensures judged { IfOk result (λ judged. (has_help : Bool) → HasToGive has_help line.now → IsJudged heap.words heap.count has_help session.old session.new line.now judged) }
{
    let most = (heap.count as u64).saturating_sub(1);
    let Some((number, rest)) = cut(line, b' ') else {
        return Ok(Judged::Bad(fault_of_word(line, most)));
    };
    let Some(number) = read_number(number, most) else {
        return Ok(Judged::Bad(NO_MUTATOR));
    };
    match command_of_line(alloc, rest, heap.words) {
        Ok(command) => {
            if !session.has_room(number as usize) {
                return Ok(Judged::Bad(Fault::TooMany));
            }
            session.push(number as usize, command)?;
            Ok(Judged::Added)
        }
        Err(LineFault::NoMemory) => Err(NoMemory),
        Err(LineFault::Bad(cause)) => Ok(Judged::Bad(Fault::Script(cause))),
    }
}

// Returns the fault of a line that is one word: a mutator's number lacks its command.
fn fault_of_word(word: &[u8], most: u64) -> Fault
    ensures { IsWordFault most word.now result }
{
    match read_number(word, most) {
        Some(_) => Fault::Script(Cause::Command),
        None => NO_MUTATOR,
    }
}
