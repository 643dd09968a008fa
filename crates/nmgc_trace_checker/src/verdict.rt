//! The result for a trace of format 1: the first line that can't happen, or the names marked at the end.
ghost use Rattle.std.specs.Prelude.{List, ◌≡◌, ◌++◌, IfOk, OnOk};
ghost use Rattle.std.specs.List.{flat_map};
ghost use Rattle.nmgc_trace_checker.specs.{Sentences.after_space, Sentences.verdict_text, Verdicts.IsVerdictAfter, Verdicts.refusal_of};

use crate::line::Line;
use crate::progress::Progress;
use crate::sentence::push_text;
use nmgc_io::push_number;
use nmgc_journal::push_name;
use nmgc_lists::{List, NoMemory};
use nmgc_world_spec::Name;
use std::alloc::Global;

/// The result for a trace. Lines are counted from 1.
#[derive(Drop)]
pub enum Verdict {
    /// The line with this number is no line of a trace, and all lines before it can happen.
    Bad(usize),
    /// The line with this number can't happen, or not with this answer or name, and all lines before it can.
    Refused(usize),
    /// Each line can happen, and marking hasn't begun.
    Unmarked,
    /// Each line can happen, and marking goes on: the names marked so far.
    Open(List<Name>),
    /// Each line can happen, and marking has ended: the names that are kept.
    Closed(List<Name>),
}

impl Verdict {
    ghost use Rattle.nmgc_trace_checker.specs.Verdicts.{is_passed};

    /// Whether each line can happen, and marking has ended. Takes no memory and constant time.
    pub fn is_passed(&self) -> bool
        ensures { result ≡ is_passed self.now }
    {
        match self {
            Verdict::Bad(_) | Verdict::Refused(_) | Verdict::Unmarked | Verdict::Open(_) => false,
            Verdict::Closed(_) => true,
        }
    }
}

/// Appends the verdict, with the marked or kept names if it has names.
pub(crate) fn push_verdict(out: &mut Vec<u8>, verdict: &Verdict) -> Result<(), NoMemory>
    ensures { OnOk result (out.new.items ≡ out.old.items ++ verdict_text verdict.now) }
{
    match verdict {
        Verdict::Bad(line) => {
            push_text(out, b"line ")?;
            push_number(out, *line as u64)?;
            push_text(out, b" is none of a trace")
        }
        Verdict::Refused(line) => {
            push_text(out, b"line ")?;
            push_number(out, *line as u64)?;
            push_text(out, b" can't happen")
        }
        Verdict::Unmarked => push_text(out, b"nothing is marked"),
        Verdict::Open(names) => {
            push_text(out, b"marking goes on, marked")?;
            push_names(out, names.items())
        }
        Verdict::Closed(names) => {
            push_text(out, b"closed, kept")?;
            push_names(out, names.items())
        }
    }
}

// Appends each name after a space.
fn push_names(out: &mut Vec<u8>, names: &[Name]) -> Result<(), NoMemory>
    ensures { OnOk result (out.new.items ≡ out.old.items ++ flat_map after_space names.now) }
{
    for name in names {
        push_spaced(out, *name)?;
    }
    Ok(())
}

// Appends a name after a space.
fn push_spaced(out: &mut Vec<u8>, name: Name) -> Result<(), NoMemory>
    ensures { OnOk result (out.new.items ≡ out.old.items ++ after_space name) }
{
    push_text(out, b" ")?;
    push_name(out, name)
}

/// Returns the verdict on a trace whose line of this number can't happen: `Bad` if it is no line of a trace, else `Refused`.
pub(crate) fn refusal(line: &Line, number: usize) -> Verdict
    ensures { result ≡ refusal_of line.now number }
{
    match line {
        Line::Unknown => Verdict::Bad(number),
        Line::Blank
        | Line::Mutators(_)
        | Line::Mark
        | Line::Event(_)
        | Line::Take { .. }
        | Line::Drain => Verdict::Refused(number),
    }
}

/// Returns the verdict on a trace that ends with this progress, and drops the progress by a call (see `progress`).
pub(crate) fn verdict_at_end(progress: Progress) -> Result<Verdict, NoMemory>
    ensures { IfOk result (IsVerdictAfter progress) }
{
    let meaning = verdict_of(&progress);
    drop(progress);
    meaning
}

// Returns the verdict on a trace that ends with this progress.
fn verdict_of(progress: &Progress) -> Result<Verdict, NoMemory>
    ensures { IfOk result (IsVerdictAfter progress.now) }
{
    let Progress::Marking(core) = progress else {
        return Ok(Verdict::Unmarked);
    };
    let names = core.marked()?;
    if core.is_closed() {
        Ok(Verdict::Closed(names))
    } else {
        Ok(Verdict::Open(names))
    }
}
