//! The summary of a bench.
//!
//! It has the totals of the rows of a report: the work done, and the objects made, promoted, freed and kept. Each number is a
//! sum over the rows, which are read once and not copied (`specs/Text.antt`). The sums have 128 bits, except the number of
//! commands, which has 64 and has to be below 2^64. No list of rows is long enough for another sum to be too large, so the
//! report needn't come from a run. Easy to get wrong: the number of kept objects is the last cycle's alone, since each cycle
//! keeps a surviving object again.
ghost use Rattle.std.specs.Prelude.{◌≡◌, ◌<◌, ◌^◌, ◌++◌, codes, OnOk, IfOk};
ghost use Rattle.nmgc_journal.specs.Text.{kept_count, count_line, summary_text};
ghost use Rattle.nmgc_journal.specs.Printing.{reply_count, command_count, made_count, promoted_count, freed_count, run_lines, object_lines};

use crate::text::push_end;
use crate::tokens::push_word;
use crate::{CycleRow, MutatorEnd, Report, RoundRows, StopRow};
use itoa::Buffer;
use nmgc_lists::NoMemory;
use std::alloc::Global;

/// Returns the summary of a bench of `batches` batches, computed from the rows of its report, in the form of
/// `docs/FORMATS.md`. Requires that fewer than 2^64 commands were answered, as `nmgc_cli` proves for lawful reports of a
/// bench. No other sum can be too large. Takes time proportional to the rounds and their mutators, the stops and the cycles.
pub fn summary(alloc: Global, batches: u32, report: &Report) -> Result<Vec<u8>, NoMemory>
    requires { command_count report.now.rounds < 2 ^ 64 }
    ensures { IfOk result (λ text. text.items ≡ summary_text batches report.now) }
{
    let mut out = Vec::new(alloc);
    push_line(&mut out, b"bench ", u128::from(batches))?;
    push_run_lines(&mut out, report)?;
    push_object_lines(&mut out, report)?;
    push_end(&mut out, report.end)?;
    Ok(out)
}

// Appends the lines that count the commands answered, the rounds and the cycles.
fn push_run_lines(out: &mut Vec<u8>, report: &Report) -> Result<(), NoMemory>
    requires { command_count report.now.rounds < 2 ^ 64 }
    ensures { OnOk result (out.new.items ≡ out.old.items ++ run_lines report.now) }
{
    push_line(
        out,
        b"commands ",
        u128::from(command_count(report.rounds.items())),
    )?;
    push_line(out, b"rounds ", report.rounds.items().len() as u128)?;
    push_line(out, b"cycles ", report.cycles.items().len() as u128)
}

// Appends the lines that count the objects made, promoted, freed, and kept by the last cycle.
fn push_object_lines(out: &mut Vec<u8>, report: &Report) -> Result<(), NoMemory>
    ensures { OnOk result (out.new.items ≡ out.old.items ++ object_lines report.now) }
{
    push_line(out, b"made ", made_count(report.mutators.items()))?;
    push_line(out, b"promoted ", promoted_count(report.stops.items()))?;
    push_line(out, b"freed ", freed_count(report.cycles.items()))?;
    push_line(out, b"kept ", kept_count(report.cycles.items()))
}

// Appends a line of the token `word` and a number.
fn push_line(out: &mut Vec<u8>, word: &[u8], number: u128) -> Result<(), NoMemory>
    ensures { OnOk result (out.new.items ≡ out.old.items ++ count_line word.now number) }
{
    push_word(out, word)?;
    push_word(out, Buffer::new().format(number).as_bytes())?;
    push_word(out, b"\n")
}

// Counts the commands that were answered, in all rounds together. Requires fewer than 2^64.
fn command_count(rounds: &[RoundRows]) -> u64
    requires { command_count rounds.now < 2 ^ 64 }
    ensures { result ≡ command_count rounds.now }
{
    let mut count = 0;
    for rows in rounds {
        count += reply_count(rows);
    }
    count
}

// Counts the replies of a round.
fn reply_count(rows: &RoundRows) -> u64
    requires { reply_count rows.now < 2 ^ 64 }
    ensures { result ≡ reply_count rows.now }
{
    let replies = rows.replies.items();
    replies.iter().map(|own| own.len() as u64).sum()
}

// Counts the objects that the mutators made.
fn made_count(mutators: &[MutatorEnd]) -> u128
    ensures { result ≡ made_count mutators.now }
{
    mutators
        .iter()
        .map(|mutator| u128::from(mutator.serial))
        .sum()
}

// Counts the objects that the stops promoted.
fn promoted_count(stops: &[StopRow]) -> u128
    ensures { result ≡ promoted_count stops.now }
{
    stops.iter().map(|stop| u128::from(stop.promoted)).sum()
}

// Counts the objects that the cycles freed.
fn freed_count(cycles: &[CycleRow]) -> u128
    ensures { result ≡ freed_count cycles.now }
{
    cycles.iter().map(|cycle| cycle.freed.len() as u128).sum()
}

// Returns the number of objects that the last cycle kept, or 0 if there is no cycle.
fn kept_count(cycles: &[CycleRow]) -> u128
    ensures { result ≡ kept_count cycles.now }
{
    cycles.last().map_or(0, |cycle| u128::from(cycle.kept))
}
