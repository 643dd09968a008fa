//! The result for a trace of format 2: the first line that can't happen, with the reason, or whether the trace is whole.
ghost use Rattle.std.specs.Prelude.{List, ◌≡◌, IfOk};
ghost use Rattle.nmgc_trace_checker.specs.{Notes.AddsOfIf, Reports.IsHappening, Reports.report_of, Reports.is_whole};
ghost use Rattle.nmgc_trace_checker.specs.declared.meaning.Meaning.TheVariants as known_is;

use crate::meaning::Meaning;
use nmgc_barrier_checker::{Watch, Why};
use nmgc_limits::MAKERS;
use nmgc_lists::NoMemory;
use std::alloc::Global;

/// The state of a trace.
#[derive(Drop)]
pub enum Begun {
    /// There are no mutators yet.
    Nothing,
    /// The runtime is being watched.
    Watching(Watch),
}

/// Why a line can't happen.
#[derive(Clone, Copy, Debug, PartialEq, Eq)]
pub enum Refusal {
    /// The text is no line of a trace.
    Unknown,
    /// No line of this kind can come here, or the number of mutators isn't allowed.
    Misplaced,
    /// The event can't have happened, for this reason.
    Event(Why),
}

/// The result for a trace. Lines are counted from 1.
#[derive(Clone, Copy, Debug, PartialEq, Eq)]
pub enum Report {
    /// The line with this number can't happen, and all lines before it can.
    Refused(usize, Refusal),
    /// Each line can happen, and no cycle has begun.
    Unmarked,
    /// Each line can happen, and a cycle goes on.
    Open,
    /// Each line can happen, and the last cycle has ended; but the trace may not be whole.
    Cut,
    /// Each line can happen, at least one cycle has ended, none goes on, and the trace is whole.
    Whole,
}

impl Report {
    /// Whether each line can happen, and the trace is whole. Takes no memory and constant time.
    pub fn is_whole(&self) -> bool
        ensures { result ≡ is_whole self.now }
    {
        match self {
            Report::Whole => true,
            Report::Refused(_, _) | Report::Unmarked | Report::Open | Report::Cut => false,
        }
    }
}

/// Does the line with this meaning and returns `None`, or returns why it can't happen. If the line happened, adds the number
/// of names that its commands made due to `dues`. After a refusal the state and `dues` may be anything.
pub(crate) fn do_line(
    begun: &mut Begun,
    alloc: Global,
    line: usize,
    meaning: &Meaning,
    dues: &mut u64,
) -> Result<Option<Refusal>, NoMemory>
    ensures happening { IfOk result (λ refused. IsHappening line begun.old meaning.now refused begun.new) }
    ensures dues { IfOk result (λ refused. AddsOfIf line begun.old meaning.now refused dues.old dues.new) }
{
    match meaning {
        Meaning::Blank => Ok(None),
        Meaning::Unknown => Ok(Some(Refusal::Unknown)),
        Meaning::Mutators(count) => start(begun, alloc, *count),
        Meaning::Event(event) => match begun {
            Begun::Nothing => Ok(Some(Refusal::Misplaced)),
            Begun::Watching(watch) => match watch.step(line, event, dues)? {
                Some(why) => Ok(Some(Refusal::Event(why))),
                None => Ok(None),
            },
        },
    }
}

// Begins with the empty heap of `count` mutators. Returns a refusal if there are mutators already or `count` isn't allowed.
fn start(begun: &mut Begun, alloc: Global, count: u8) -> Result<Option<Refusal>, NoMemory>
    ensures { IfOk result (λ refused. IsHappening 0 begun.old (known_is.Mutators count) refused begun.new) }
{
    match begun {
        Begun::Nothing => {}
        Begun::Watching(_) => return Ok(Some(Refusal::Misplaced)),
    }
    if count == 0 || count > MAKERS {
        return Ok(Some(Refusal::Misplaced));
    }
    *begun = Begun::Watching(Watch::new(alloc, count)?);
    Ok(None)
}

/// Returns the report on a trace whose lines can all happen, from the state after them.
pub(crate) fn report_of(begun: &Begun) -> Report
    ensures { result ≡ report_of begun.now }
{
    match begun {
        Begun::Nothing => Report::Unmarked,
        Begun::Watching(watch) => match watch {
            Watch::Between(_) => Report::Unmarked,
            Watch::Marking(_) => Report::Open,
            Watch::Ended(_) => Report::Cut,
            Watch::Stopped => Report::Whole,
        },
    }
}
