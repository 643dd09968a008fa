//! Counts of a trace's lines. A trace may pass without a test: if no name came due, any barrier passes. So dues are counted.
ghost use Rattle.std.specs.Prelude.{◌≡◌, ◌++◌, codes, decimal, OnOk};
ghost use Rattle.nmgc_trace_checker.specs.{Outcomes.with_event, Outcomes.with_line, Texts.counted_text, Texts.dues_text, Texts.counts_text};

use crate::meaning::Meaning;
use crate::sentence::push_text;
use nmgc_barrier_checker::Event;
use nmgc_io::push_number;
use nmgc_lists::NoMemory;

/// The numbers of lines of each kind that could happen. Each count stops at 2^64 - 1.
#[derive(Clone, Copy, Debug, PartialEq, Eq)]
pub struct Counts {
    /// Cycles that have ended.
    pub cycles: u64,
    /// Commands, in cycles and outside. A copy, a fill, or a value handed over is one command.
    pub commands: u64,
    /// Pushes, due or not.
    pub pushes: u64,
}

impl Counts {
    /// Counts a line that happened.
    pub fn add(&mut self, meaning: &Meaning)
        ensures { self.new ≡ with_line self.old meaning.now }
    {
        match meaning {
            Meaning::Event(event) => self.add_event(event),
            Meaning::Blank | Meaning::Mutators(_) | Meaning::Unknown => {}
        }
    }

    // Counts an event if it is a command, a push or the end of a cycle.
    fn add_event(&mut self, event: &Event)
        ensures { self.new ≡ with_event self.old event.now }
    {
        match event {
            Event::Given { .. } | Event::Rows { .. } | Event::Hand { .. } => self.commands = self
                .commands
                .saturating_add(1),
            Event::Push { .. } => self.pushes = self.pushes.saturating_add(1),
            Event::Close | Event::CloseWith { .. } => self.cycles = self.cycles.saturating_add(1),
            Event::Mark
            | Event::MarkShared
            | Event::Scan { .. }
            | Event::Exit { .. }
            | Event::Settle { .. }
            | Event::Take { .. }
            | Event::Marked { .. }
            | Event::Black { .. }
            | Event::Freed { .. }
            | Event::Stop => {}
        }
    }
}

/// Appends the counts with their nouns, and how often a name came due.
pub(crate) fn push_counts(out: &mut Vec<u8>, counts: Counts, dues: u64) -> Result<(), NoMemory>
    ensures { OnOk result (out.new.items ≡ out.old.items ++ counts_text counts dues) }
{
    push_counted(out, counts.cycles, b" cycle, ", b" cycles, ")?;
    push_counted(out, counts.commands, b" command, ", b" commands, ")?;
    push_counted(out, counts.pushes, b" push", b" pushes")?;
    push_dues(out, dues)
}

// Appends a number and a noun: `one` after 1, and otherwise `many`.
fn push_counted(out: &mut Vec<u8>, number: u64, one: &[u8], many: &[u8]) -> Result<(), NoMemory>
    ensures { OnOk result (out.new.items ≡ out.old.items ++ counted_text number one.now many.now) }
{
    push_number(out, number)?;
    if number == 1 {
        push_text(out, one)
    } else {
        push_text(out, many)
    }
}

// Appends how often a name came due.
fn push_dues(out: &mut Vec<u8>, number: u64) -> Result<(), NoMemory>
    ensures { OnOk result (out.new.items ≡ out.old.items ++ dues_text number) }
{
    if number == 0 {
        return push_text(out, b"; nothing came due, so no barrier was tried");
    }
    if number == 1 {
        return push_text(out, b"; something came due once");
    }
    push_many_dues(out, number)
}

// Appends that a name came due more than once.
fn push_many_dues(out: &mut Vec<u8>, number: u64) -> Result<(), NoMemory>
    ensures { OnOk result (out.new.items ≡ out.old.items ++ (codes "; something came due " ++ (decimal number ++ codes " times"))) }
{
    push_text(out, b"; something came due ")?;
    push_number(out, number)?;
    push_text(out, b" times")
}
