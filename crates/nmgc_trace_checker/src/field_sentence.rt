//! The report on a trace of format 3, as text.
//!
//! Each function appends one piece to the bytes so far. After `NoMemory` a part of the piece may be in `out`, so `out` isn't
//! used again.
ghost use Rattle.std.specs.Prelude.{◌≡◌, ◌++◌, string_bytes, OnOk};
ghost use Rattle.std.specs.Option.{option_map};
ghost use Rattle.nmgc_trace_checker.specs.FieldSentences.{about_mutator, about_name, due_text, field_refusal_text, field_report_text, is_misplaced, line_text, reason_text, unkept_text};

use crate::counts::{Counts, push_counts};
use crate::sentence::{push_bracketed, push_text};
use nmgc_field_checker::{Actor, FieldDebt, FieldStore, FieldWhy};
use nmgc_field_reader::{FieldAnswer, FieldRefusal, FieldReport};
use nmgc_io::push_number;
use nmgc_lists::NoMemory;

/// Appends the answer as the program prints it, in one line without its end.
pub(crate) fn push_field_answer(out: &mut Vec<u8>, answer: &FieldAnswer) -> Result<(), NoMemory>
    ensures { OnOk result (out.new.items ≡ out.old.items ++ field_report_text answer.now.report answer.now.counts answer.now.dues answer.now.name.items (option_map string_bytes answer.now.since)) }
{
    match answer.report {
        FieldReport::Refused(line, refusal) => {
            push_text(out, b"line ")?;
            push_number(out, line as u64)?;
            push_text(out, b" ")?;
            push_field_refusal(out, refusal, answer.name.as_slice(), &answer.since)
        }
        FieldReport::Unmarked => push_text(out, b"nothing is marked"),
        FieldReport::Open => push_text(out, b"a cycle goes on"),
        FieldReport::Cut => push_text(out, b"each line can happen, but there is no stop"),
        FieldReport::Whole => {
            push_text(out, b"each line can happen: ")?;
            let counts = Counts {
                cycles: answer.counts.cycles,
                commands: answer.counts.commands,
                pushes: answer.counts.pushes,
            };
            push_counts(out, counts, answer.dues)
        }
    }
}

// Appends why a line can't happen, with the name that the reason is about and the text of the line that it cites.
fn push_field_refusal(
    out: &mut Vec<u8>,
    refusal: FieldRefusal,
    name: &[u8],
    since: &Option<String>,
) -> Result<(), NoMemory>
    ensures { OnOk result (out.new.items ≡ out.old.items ++ field_refusal_text refusal name.now (option_map string_bytes since.now)) }
{
    match refusal {
        FieldRefusal::Unknown => push_text(out, b"is none of a trace"),
        FieldRefusal::Event(why) => {
            if is_misplaced(why) {
                return push_text(out, b"can't stand there");
            }
            push_text(out, b"can't happen: ")?;
            push_reason(out, why, name, since)
        }
    }
}

// Whether the reason is that no event of its kind can happen there.
fn is_misplaced(why: FieldWhy) -> bool
    ensures { result ≡ is_misplaced why }
{
    match why {
        FieldWhy::Misplaced => true,
        FieldWhy::NotThere(_)
        | FieldWhy::There(_)
        | FieldWhy::NoObject(_)
        | FieldWhy::Made(_)
        | FieldWhy::Full
        | FieldWhy::NoField { .. }
        | FieldWhy::Unscanned(_)
        | FieldWhy::Due(_)
        | FieldWhy::Unkept(_)
        | FieldWhy::NotListed(_)
        | FieldWhy::NotMarked(_)
        | FieldWhy::NotOld(_)
        | FieldWhy::Needed(_) => false,
    }
}

// Appends the reason itself.
fn push_reason(
    out: &mut Vec<u8>,
    why: FieldWhy,
    name: &[u8],
    since: &Option<String>,
) -> Result<(), NoMemory>
    ensures { OnOk result (out.new.items ≡ out.old.items ++ reason_text why name.now (option_map string_bytes since.now)) }
{
    match why {
        FieldWhy::Misplaced => Ok(()),
        FieldWhy::NotThere(mutator) => {
            push_about_mutator(out, b"there is no mutator ", mutator, b"")
        }
        FieldWhy::There(mutator) => {
            push_about_mutator(out, b"mutator ", mutator, b" is there already")
        }
        FieldWhy::Unscanned(mutator) => {
            push_about_mutator(out, b"mutator ", mutator, b" wasn't scanned")
        }
        FieldWhy::NoObject(_) => push_about_name(out, b"the heap has no ", name, b""),
        FieldWhy::Made(_) => push_about_name(out, b"the heap has ", name, b" already"),
        FieldWhy::Full => push_text(out, b"the heap has too many objects"),
        FieldWhy::NoField { object: _, place } => {
            push_about_name(out, b"", name, b" has no field ")?;
            push_number(out, place as u64)
        }
        FieldWhy::Due(debt) => push_due(out, debt, name, since),
        FieldWhy::Unkept(store) => push_unkept(out, store, name, since),
        FieldWhy::NotListed(_) => push_about_name(out, b"", name, b" has to be marked"),
        FieldWhy::NotMarked(_) => push_about_name(
            out,
            b"",
            name,
            b" isn't kept, or was made since the cycle began",
        ),
        FieldWhy::NotOld(_) => {
            push_about_name(out, b"", name, b" was made since the cycle began")
        }
        FieldWhy::Needed(_) => push_about_name(out, b"", name, b" is needed"),
    }
}

// Appends which name is due, and since which line.
fn push_due(
    out: &mut Vec<u8>,
    debt: FieldDebt,
    name: &[u8],
    since: &Option<String>,
) -> Result<(), NoMemory>
    ensures { OnOk result (out.new.items ≡ out.old.items ++ due_text debt name.now (option_map string_bytes since.now)) }
{
    push_about_name(out, b"", name, b" is due since ")?;
    push_line(out, debt.line, since)?;
    push_text(out, b", and nobody remembered it")
}

// Appends which name isn't kept, and which line stored it.
fn push_unkept(
    out: &mut Vec<u8>,
    store: FieldStore,
    name: &[u8],
    since: &Option<String>,
) -> Result<(), NoMemory>
    ensures { OnOk result (out.new.items ≡ out.old.items ++ unkept_text store name.now (option_map string_bytes since.now)) }
{
    push_about_name(out, b"", name, b" isn't kept, but ")?;
    push_line(out, store.line, since)?;
    push_text(out, b" stored it")
}

// Appends a line's number, and its text in brackets if it is known.
fn push_line(out: &mut Vec<u8>, line: usize, text: &Option<String>) -> Result<(), NoMemory>
    ensures { OnOk result (out.new.items ≡ out.old.items ++ line_text line (option_map string_bytes text.now)) }
{
    push_text(out, b"line ")?;
    push_number(out, line as u64)?;
    push_bracketed(out, text)
}

// Appends a reason that says something before and after a name.
fn push_about_name(
    out: &mut Vec<u8>,
    before: &[u8],
    name: &[u8],
    after: &[u8],
) -> Result<(), NoMemory>
    ensures { OnOk result (out.new.items ≡ out.old.items ++ about_name before.now name.now after.now) }
{
    push_text(out, before)?;
    push_text(out, name)?;
    push_text(out, after)
}

// Appends a reason that says something before and after a mutator, which a trace calls by its number less one.
fn push_about_mutator(
    out: &mut Vec<u8>,
    before: &[u8],
    mutator: Actor,
    after: &[u8],
) -> Result<(), NoMemory>
    ensures { OnOk result (out.new.items ≡ out.old.items ++ about_mutator before.now mutator.number after.now) }
{
    push_text(out, before)?;
    push_number(out, mutator.number.saturating_sub(1))?;
    push_text(out, after)
}
