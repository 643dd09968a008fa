//! The state of a trace of format 2 as its lines come. A line is judged as it comes, and its effect is kept. The text
//! of a line is kept if a later refusal may report it. Such a line made a name due that wasn't pushed, and that hadn't come
//! due by the line's mutator before in this cycle. So there is at most one text for each name and mutator, and the line of each debt is kept. Outside of a cycle there
//! are no debts, and no text is kept.
ghost use Rattle.std.specs.Prelude.{◌≡◌, ◌++◌, [], true, string_bytes, None, Contains, IfOk, OnOk};
ghost use Rattle.std.specs.Option.{option_map};
ghost use Rattle.nmgc_trace_checker.specs.{Notes.HasKept, Notes.HasTried, Notes.IsNoted, Notes.IsSinceIn, Notes.IsTextOf, Notes.IsOwedIn, Notes.KeepsLines, Outcomes.no_counts, Outcomes.with_line, Reports.report_of, Sentences.report_text, declared.checker.DueLine.DueLine as DueLineAt};
ghost use Rattle.nmgc_barrier_laws.specs.declared.debt.Debt.{Debt as DebtAt};
ghost use Rattle.nmgc_trace_checker.specs.declared.report.Begun.TheVariants as begun;
ghost use Rattle.nmgc_trace_checker.specs.declared.report.Report.TheVariants as report;

use crate::counts::{Counts, push_counts};
use crate::meaning::{Meaning, meaning_of};
use crate::report::{Begun, Refusal, Report, do_line, report_of};
use crate::sentence::{push_refusal, push_text};
use nmgc_barrier_checker::Why;
use nmgc_barrier_laws::Debt;
use nmgc_io::push_number;
use nmgc_lists::NoMemory;
use std::alloc::Global;

/// The state of a trace after the lines so far, with their counts.
#[derive(Drop)]
pub struct TraceChecker {
    begun: Begun,
    counts: Counts,
    dues: u64,
    due_lines: Vec<DueLine>,
}

// A line that made a name due.
#[derive(Drop)]
struct DueLine {
    number: usize,
    text: String,
}

/// The answer to a trace: the report, the counts up to there, and the text of the line since which a name is due, if any.
#[derive(Drop)]
pub struct Answer {
    pub report: Report,
    pub counts: Counts,
    /// How often a name came due: the number of names that each command made due, in all. At most 2^64 - 1.
    pub dues: u64,
    pub since: Option<String>,
}

impl TraceChecker {
    /// Returns the state of a trace without lines. Takes no memory.
    pub fn new(alloc: Global) -> Self
        ensures begun { result.begun ≡ begun.Nothing }
        ensures counts { result.counts ≡ no_counts }
        ensures dues { result.dues ≡ 0 }
        ensures lines { result.due_lines.items ≡ [] }
    {
        TraceChecker {
            begun: Begun::Nothing,
            counts: Counts {
                cycles: 0,
                commands: 0,
                pushes: 0,
            },
            dues: 0,
            due_lines: Vec::new(alloc),
        }
    }

    /// Judges the next line, by its number and its text without its end. Returns `None` if the line can happen, and otherwise
    /// the reason, for `refusal_answer`. After a refusal or `NoMemory` the checker may be in any state. Takes the time and
    /// memory of `Watch::step`, and memory for the text.
    pub fn judge_line(
        &mut self,
        alloc: Global,
        number: usize,
        text: &str,
    ) -> Result<Option<Refusal>, NoMemory>
        ensures { IfOk result (λ refused. HasTried number text.now self.old refused self.new) }
    {
        let meaning = meaning_of(alloc, text)?;
        let mut dues = self.dues;
        let refused = do_line(&mut self.begun, alloc, number, &meaning, &mut dues)?;
        if let Some(refusal) = refused {
            return Ok(Some(refusal));
        }
        self.dues = dues;
        self.note(alloc, number, text, &meaning)?;
        Ok(None)
    }

    // Counts a line that happened, and keeps its text if it may be reported. Drops all texts if no cycle goes on.
    #[tactic(auto, using(crate::proofs::Noted::noted_after, crate::proofs::Noted::keeps_after))]
    fn note(
        &mut self,
        alloc: Global,
        number: usize,
        text: &str,
        meaning: &Meaning,
    ) -> Result<(), NoMemory>
        ensures begun { self.new.begun ≡ self.old.begun }
        ensures counts { self.new.counts ≡ with_line self.old.counts meaning.now }
        ensures dues { self.new.dues ≡ self.old.dues }
        ensures lines { OnOk result (IsNoted number text.now self.old.due_lines.items self.new.due_lines.items) }
        ensures kept { OnOk result (KeepsLines number self.old.begun self.old.due_lines.items self.new.due_lines.items) }
    {
        self.counts.add(meaning);
        let goes_on = is_marking(&self.begun);
        let is_due = may_be_reported(&self.begun, number);
        forget_unless(&mut self.due_lines, goes_on);
        keep_if(alloc, &mut self.due_lines, is_due, number, text)
    }

    /// Returns the answer to a trace that ends here. Takes no memory.
    pub fn end_answer(self) -> Answer
        ensures report { result.report ≡ report_of self.begun }
        ensures counts { result.counts ≡ self.counts }
        ensures dues { result.dues ≡ self.dues }
        ensures since { result.since ≡ None }
    {
        let report = report_of(&self.begun);
        let counts = self.counts;
        let dues = self.dues;
        drop(self);
        Answer {
            report,
            counts,
            dues,
            since: None,
        }
    }

    /// Returns the answer to a trace whose line `number` was refused for this reason. Takes memory for a due line's text.
    pub fn refusal_answer(
        self,
        alloc: Global,
        number: usize,
        refusal: Refusal,
    ) -> Result<Answer, NoMemory>
        ensures report { IfOk result (λ answer. answer.report ≡ report.Refused number refusal) }
        ensures counts { IfOk result (λ answer. answer.counts ≡ self.counts) }
        ensures dues { IfOk result (λ answer. answer.dues ≡ self.dues) }
        ensures since { IfOk result (λ answer. IsSinceIn self.due_lines.items refusal (option_map string_bytes answer.since)) }
    {
        let since = self.due_line_text(alloc, refusal);
        let counts = self.counts;
        let dues = self.dues;
        drop(self);
        Ok(Answer {
            report: Report::Refused(number, refusal),
            counts,
            dues,
            since: since?,
        })
    }

    // Returns the text of the line since which a name is due, if the refusal is about such a name and the text was kept.
    fn due_line_text(&self, alloc: Global, refusal: Refusal) -> Result<Option<String>, NoMemory>
        ensures { IfOk result (λ since. IsSinceIn self.now.due_lines.items refusal (option_map string_bytes since)) }
    {
        match refusal {
            Refusal::Event(why) => match why {
                Why::Due(debt) => text_since(alloc, self.due_lines.as_slice(), debt),
                Why::Misplaced
                | Why::CannotApply
                | Why::Answer(_)
                | Why::NoSuchName(_)
                | Why::NotMarked(_)
                | Why::Untaken(_)
                | Why::Unscanned(_)
                | Why::NotPushed(_)
                | Why::NotOld(_)
                | Why::NotDead(_)
                | Why::NotListed(_)
                | Why::Needed(_) => Ok(None),
            },
            Refusal::Unknown | Refusal::Misplaced => Ok(None),
        }
    }
}

// Returns the text kept of the line since which a debt's name is due, if it was kept.
fn text_since(alloc: Global, lines: &[DueLine], debt: Debt) -> Result<Option<String>, NoMemory>
    ensures { IfOk result (λ since. IsTextOf lines.now debt.line (option_map string_bytes since)) }
{
    for line in lines {
        if line.number == debt.line {
            let text = String::from_str(alloc, line.text.as_str())?;
            return Ok(Some(text));
        }
    }
    Ok(None)
}

// Removes all lines, unless a cycle goes on.
#[tactic(auto, using(crate::proofs::Noted::forgotten))]
fn forget_unless(lines: &mut Vec<DueLine>, goes_on: bool)
    ensures fewer { (line : DueLineAt) → Contains lines.new.items line → Contains lines.old.items line }
    ensures same { goes_on ≡ true → lines.new.items ≡ lines.old.items }
{
    if !goes_on {
        lines.clear();
    }
}

// Adds a line with its text, or none.
#[tactic(auto, using(crate::proofs::Noted::noted_same, crate::proofs::Noted::noted_push, crate::proofs::Noted::kept_push))]
fn keep_if(
    alloc: Global,
    lines: &mut Vec<DueLine>,
    is_due: bool,
    number: usize,
    text: &str,
) -> Result<(), NoMemory>
    ensures noted { OnOk result (IsNoted number text.now lines.old.items lines.new.items) }
    ensures kept { OnOk result (HasKept is_due number lines.old.items lines.new.items) }
{
    if !is_due {
        return Ok(());
    }
    let text = String::from_str(alloc, text)?;
    lines.push(DueLine { number, text })?;
    Ok(())
}

// Whether a cycle goes on. If not, there are no debts.
fn is_marking(begun: &Begun) -> bool
    ensures { (debt : DebtAt) → IsOwedIn begun.now debt → result ≡ true }
{
    match begun {
        Begun::Nothing => false,
        Begun::Watching(watch) => watch.is_marking(),
    }
}

// Whether the last line so far, `number`, may later be reported as the line since which a name is due.
fn may_be_reported(begun: &Begun, number: usize) -> bool
    ensures { (debt : DebtAt) → IsOwedIn begun.now debt → debt.line ≡ number → result ≡ true }
{
    match begun {
        Begun::Nothing => false,
        Begun::Watching(watch) => watch.may_owe_since(number),
    }
}

/// Appends the answer as the program prints it, in one line without its end.
pub(crate) fn push_answer(out: &mut Vec<u8>, answer: &Answer) -> Result<(), NoMemory>
    ensures { OnOk result (out.new.items ≡ out.old.items ++ report_text answer.now.report answer.now.counts answer.now.dues (option_map string_bytes answer.now.since)) }
{
    match answer.report {
        Report::Refused(line, refusal) => {
            push_text(out, b"line ")?;
            push_number(out, line as u64)?;
            push_text(out, b" ")?;
            push_refusal(out, refusal, &answer.since)
        }
        Report::Unmarked => push_text(out, b"nothing is marked"),
        Report::Open => push_text(out, b"a cycle goes on"),
        Report::Cut => push_text(out, b"each line can happen, but there is no stop"),
        Report::Whole => {
            push_text(out, b"each line can happen: ")?;
            push_counts(out, answer.counts, answer.dues)
        }
    }
}
