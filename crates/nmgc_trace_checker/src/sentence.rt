//! The reason why a line can't happen, as text.
//!
//! Each function appends one piece to the bytes so far. After `NoMemory` a part of the piece may be in `out`, so `out` isn't
//! used again.
ghost use Rattle.std.specs.Prelude.{◌≡◌, ◌++◌, string_bytes, OnOk};
ghost use Rattle.std.specs.Option.{option_map};
ghost use Rattle.nmgc_journal.specs.Text.{reply_text};
ghost use Rattle.nmgc_trace_checker.specs.{Sentences.debt_text, Sentences.named_text, Sentences.refusal_text, Sentences.unscanned_text, Sentences.why_text, Texts.bracketed};

use crate::report::Refusal;
use nmgc_barrier_checker::Why;
use nmgc_barrier_laws::Debt;
use nmgc_io::push_number;
use nmgc_journal::{push_name, push_value};
use nmgc_lists::NoMemory;
use nmgc_world_spec::{Name, Reply};

/// Appends bytes as they are.
pub(crate) fn push_text(out: &mut Vec<u8>, text: &[u8]) -> Result<(), NoMemory>
    ensures { OnOk result (out.new.items ≡ out.old.items ++ text.now) }
{
    out.extend_from_slice(text)?;
    Ok(())
}

/// Appends why a line can't happen, with the text of the line since which a name is due, if that text is known.
pub(crate) fn push_refusal(
    out: &mut Vec<u8>,
    refusal: Refusal,
    since: &Option<String>,
) -> Result<(), NoMemory>
    ensures { OnOk result (out.new.items ≡ out.old.items ++ refusal_text refusal (option_map string_bytes since.now)) }
{
    match refusal {
        Refusal::Unknown => push_text(out, b"is none of a trace"),
        Refusal::Misplaced => push_text(out, b"can't stand there"),
        Refusal::Event(why) => push_why(out, why, since),
    }
}

// Appends why an event can't happen.
fn push_why(out: &mut Vec<u8>, why: Why, since: &Option<String>) -> Result<(), NoMemory>
    ensures { OnOk result (out.new.items ≡ out.old.items ++ why_text why (option_map string_bytes since.now)) }
{
    match why {
        Why::Misplaced => push_text(out, b"can't stand there"),
        Why::CannotApply => push_text(out, b"can't happen: there is no such mutator or register"),
        Why::Answer(reply) => {
            push_text(out, b"can't happen: the heap answers ")?;
            push_reply(out, reply)
        }
        Why::Due(debt) => push_debt(out, debt, since),
        Why::NoSuchName(name) => push_named(out, b"the heap has no ", name, b""),
        Why::NotMarked(name) => push_named(
            out,
            b"",
            name,
            b" isn't kept, or was made since the cycle began",
        ),
        Why::Untaken(name) => push_named(out, b"nobody took ", name, b""),
        Why::Unscanned(mutator) => push_unscanned(out, mutator),
        Why::NotPushed(name) => push_named(
            out,
            b"",
            name,
            b" wasn't pushed, or was made since the cycle began",
        ),
        Why::NotOld(name) => push_named(out, b"", name, b" was made since the cycle began"),
        Why::NotDead(name) => push_named(out, b"", name, b" isn't dead"),
        Why::NotListed(name) => push_named(out, b"", name, b" has to be marked"),
        Why::Needed(name) => push_named(out, b"", name, b" is needed"),
    }
}

// Appends which name is due, and since which line.
fn push_debt(out: &mut Vec<u8>, debt: Debt, since: &Option<String>) -> Result<(), NoMemory>
    ensures { OnOk result (out.new.items ≡ out.old.items ++ debt_text debt (option_map string_bytes since.now)) }
{
    push_text(out, b"can't happen: ")?;
    push_name(out, debt.name)?;
    push_text(out, b" is due since line ")?;
    push_number(out, debt.line as u64)?;
    push_bracketed(out, since)?;
    push_text(out, b", and nobody remembered it")
}

/// Appends a text in brackets after a space, or nothing if there is no text.
pub(crate) fn push_bracketed(out: &mut Vec<u8>, text: &Option<String>) -> Result<(), NoMemory>
    ensures { OnOk result (out.new.items ≡ out.old.items ++ bracketed (option_map string_bytes text.now)) }
{
    match text {
        Some(text) => {
            push_text(out, b" (")?;
            push_text(out, text.as_str().as_bytes())?;
            push_text(out, b")")
        }
        None => Ok(()),
    }
}

// Appends a reason that says something before or after a name.
fn push_named(out: &mut Vec<u8>, before: &[u8], name: Name, after: &[u8]) -> Result<(), NoMemory>
    ensures { OnOk result (out.new.items ≡ out.old.items ++ named_text before.now name after.now) }
{
    push_text(out, b"can't happen: ")?;
    push_text(out, before)?;
    push_name(out, name)?;
    push_text(out, after)
}

// Appends that a mutator wasn't scanned.
fn push_unscanned(out: &mut Vec<u8>, mutator: u8) -> Result<(), NoMemory>
    ensures { OnOk result (out.new.items ≡ out.old.items ++ unscanned_text mutator) }
{
    push_text(out, b"can't happen: mutator ")?;
    push_number(out, mutator as u64)?;
    push_text(out, b" wasn't scanned")
}

// Appends an answer as a trace spells it.
fn push_reply(out: &mut Vec<u8>, reply: Reply) -> Result<(), NoMemory>
    ensures { OnOk result (out.new.items ≡ out.old.items ++ reply_text reply) }
{
    match reply {
        Reply::Given(value) => push_value(out, value),
        Reply::Fine => push_text(out, b"ok"),
        Reply::Yes => push_text(out, b"yes"),
        Reply::No => push_text(out, b"no"),
        Reply::Updated => push_text(out, b"updated"),
        Reply::Already => push_text(out, b"already"),
        Reply::NoPointer => push_text(out, b"nopointer"),
        Reply::NoField => push_text(out, b"nofield"),
        Reply::WrongKind => push_text(out, b"wrongkind"),
        Reply::NotOwner => push_text(out, b"notowner"),
        Reply::Fixed => push_text(out, b"fixed"),
        Reply::Dead => push_text(out, b"dead"),
        Reply::Nothing => push_text(out, b"none"),
        Reply::StackFull => push_text(out, b"stackfull"),
        Reply::StackEmpty => push_text(out, b"stackempty"),
    }
}
