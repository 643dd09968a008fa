//! The state of a trace of format 3 as its lines come. A line is judged as it comes, and its effect is kept. The text of a line
//! is kept while a cycle goes on, if a later refusal may report it.
ghost use Rattle.std.specs.Prelude.{◌≡◌, map, IfOk};
ghost use Rattle.nmgc_field_reader.specs.FieldTraces.{HasTaken, HasTried, HasTriedBy, nothing_yet, report_of, trace_of};
ghost use Rattle.nmgc_field_reader.specs.declared.report.FieldReport.TheVariants as report;

use crate::counts::FieldCounts;
use crate::line::event_of;
use crate::names::FieldNames;
use crate::report::{FieldAnswer, FieldRefusal, FieldReport, report_of};
use crate::unknown::first_unknown;
use nmgc_field_checker::watch::FieldPhase;
use nmgc_field_checker::{FieldEvent, FieldWatch, FieldWhy};
use nmgc_io::{cut_tokens, is_blank_or_comment};
use nmgc_lists::NoMemory;
use std::alloc::Global;

/// The state of a trace after the lines so far, with their counts.
#[derive(Drop)]
pub struct FieldChecker {
    alloc: Global,
    watch: FieldWatch,
    names: FieldNames,
    counts: FieldCounts,
    dues: u64,
    cited: Vec<CitedLine>,
}

// A line that a later refusal may report.
#[derive(Drop)]
struct CitedLine {
    number: usize,
    text: String,
}

impl FieldChecker {
    /// Returns the state of a trace without lines. Takes no memory.
    pub fn new(alloc: Global) -> Self
        ensures { trace_of result ≡ nothing_yet }
    {
        FieldChecker {
            alloc,
            watch: FieldWatch::new(alloc),
            names: FieldNames::new(alloc),
            counts: FieldCounts {
                cycles: 0,
                commands: 0,
                pushes: 0,
            },
            dues: 0,
            cited: Vec::new(alloc),
        }
    }

    /// Judges the next line, by its number and its text without its end. Returns `None` if the line can happen, and otherwise
    /// the reason, for `refusal_answer`. After a refusal the checker has the counts before the line. After `NoMemory` it may be
    /// in any state.
    pub fn judge_line(
        &mut self,
        number: usize,
        text: &str,
    ) -> Result<Option<FieldRefusal>, NoMemory>
        ensures { IfOk result (λ refused. HasTried number text.now (trace_of self.old) refused (trace_of self.new)) }
    {
        let line = text.as_bytes();
        if is_blank_or_comment(line) {
            return Ok(None);
        }
        let mut words = Vec::with_capacity(self.alloc, 8)?;
        cut_tokens(&mut words, line)?;
        let refused = self.judge_words(number, words.as_slice())?;
        if refused.is_none() {
            cite(self.alloc, &mut self.cited, &self.watch, number, text)?;
        }
        Ok(refused)
    }

    // Judges the line with these tokens.
    fn judge_words(
        &mut self,
        number: usize,
        words: &[&[u8]],
    ) -> Result<Option<FieldRefusal>, NoMemory>
        ensures { IfOk result (λ refused. HasTriedBy number (map (λ w. w.now) words.now) (trace_of self.old) refused (trace_of self.new)) }
    {
        let read = event_of(self.alloc, &self.names, words)?;
        let Some(event) = read else {
            return Ok(Some(FieldRefusal::Unknown));
        };
        let refused = self.take_event(number, words, &event)?;
        Ok(refused)
    }

    // Takes the event of the line with these tokens, or returns the reason why it can't happen.
    fn take_event(
        &mut self,
        number: usize,
        words: &[&[u8]],
        event: &FieldEvent,
    ) -> Result<Option<FieldRefusal>, NoMemory>
        ensures { IfOk result (λ refused. HasTaken number (map (λ w. w.now) words.now) event.now (trace_of self.old) refused (trace_of self.new)) }
    {
        let object = self.watch.next_object();
        let refused = self.watch.step(number, event, &mut self.dues)?;
        if let Some(why) = refused {
            return Ok(Some(FieldRefusal::Event(why)));
        }
        self.counts.add(event);
        self.names.follow(object, event, words)?;
        Ok(None)
    }

    /// Returns the answer to a trace that ends here. Takes no memory.
    pub fn end_answer(self) -> FieldAnswer
        ensures report { result.report ≡ report_of (trace_of self).watch.phase }
        ensures counts { result.counts ≡ (trace_of self).counts }
        ensures dues { result.dues ≡ (trace_of self).dues }
    {
        let answer = FieldAnswer {
            report: report_of(self.watch.phase()),
            counts: self.counts,
            dues: self.dues,
            name: Vec::new(self.alloc),
            since: None,
        };
        drop(self);
        answer
    }

    /// Returns the answer to a trace whose line `number`, with this text, was refused for this reason.
    pub fn refusal_answer(
        self,
        number: usize,
        text: &str,
        refusal: FieldRefusal,
    ) -> Result<FieldAnswer, NoMemory>
        ensures report { IfOk result (λ answer. answer.report ≡ report.Refused number refusal) }
        ensures counts { IfOk result (λ answer. answer.counts ≡ (trace_of self).counts) }
        ensures dues { IfOk result (λ answer. answer.dues ≡ (trace_of self).dues) }
    {
        let name = self.name_in(text, refusal);
        let since = self.text_in(refusal);
        let counts = self.counts;
        let dues = self.dues;
        drop(self);
        Ok(FieldAnswer {
            report: FieldReport::Refused(number, refusal),
            counts,
            dues,
            name: name?,
            since: since?,
        })
    }

    // Returns the name of the object that a refusal is about, or no bytes if it is about none.
    fn name_in(&self, text: &str, refusal: FieldRefusal) -> Result<Vec<u8>, NoMemory> {
        let FieldRefusal::Event(why) = refusal else {
            return Ok(Vec::new(self.alloc));
        };
        match why {
            FieldWhy::NoObject(_) => self.unknown_in(text),
            FieldWhy::Made(object)
            | FieldWhy::NoField { object, place: _ }
            | FieldWhy::NotListed(object)
            | FieldWhy::NotMarked(object)
            | FieldWhy::NotOld(object)
            | FieldWhy::Needed(object) => self.name_of(text, object),
            FieldWhy::Due(debt) => self.name_of(text, debt.object),
            FieldWhy::Unkept(store) => self.name_of(text, store.object),
            FieldWhy::Misplaced
            | FieldWhy::NotThere(_)
            | FieldWhy::There(_)
            | FieldWhy::Full
            | FieldWhy::Unscanned(_) => Ok(Vec::new(self.alloc)),
        }
    }

    // Returns the name of an object that a line's refusal is about. If the heap doesn't have the object, the name is the first
    // in the line that the heap doesn't have.
    fn name_of(&self, text: &str, object: u32) -> Result<Vec<u8>, NoMemory> {
        match self.names.name(object)? {
            Some(name) => Ok(name),
            None => self.unknown_in(text),
        }
    }

    // Returns the first name in a line that the heap has to have and doesn't have, or no bytes if it has all.
    fn unknown_in(&self, text: &str) -> Result<Vec<u8>, NoMemory> {
        let mut words = Vec::with_capacity(self.alloc, 8)?;
        cut_tokens(&mut words, text.as_bytes())?;
        match first_unknown(&self.names, words.as_slice()) {
            Some(word) => Ok(Vec::from_slice(self.alloc, word)?),
            None => Ok(Vec::new(self.alloc)),
        }
    }

    // Returns the text of the line that a refusal cites, if it cites one and the text was kept.
    fn text_in(&self, refusal: FieldRefusal) -> Result<Option<String>, NoMemory> {
        match refusal {
            FieldRefusal::Event(FieldWhy::Due(debt)) => self.text_of(debt.line),
            FieldRefusal::Event(FieldWhy::Unkept(store)) => self.text_of(store.line),
            _ => Ok(None),
        }
    }

    // Returns the text of a line, if it was kept.
    fn text_of(&self, number: usize) -> Result<Option<String>, NoMemory> {
        for line in self.cited.as_slice() {
            if line.number == number {
                let text = String::from_str(self.alloc, line.text.as_str())?;
                return Ok(Some(text));
            }
        }
        Ok(None)
    }
}

// Keeps the text of a line that may be reported. Drops all texts if no cycle goes on.
fn cite(
    alloc: Global,
    cited: &mut Vec<CitedLine>,
    watch: &FieldWatch,
    number: usize,
    text: &str,
) -> Result<(), NoMemory> {
    match watch.phase() {
        FieldPhase::Marking(_) => {}
        FieldPhase::Between(_) | FieldPhase::Ended(_) | FieldPhase::Stopped => {
            cited.clear();
            return Ok(());
        }
    }
    if !watch.may_report(number) {
        return Ok(());
    }
    let text = String::from_str(alloc, text)?;
    cited.push(CitedLine { number, text })?;
    Ok(())
}
