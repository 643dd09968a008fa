//! The lines of a stop, and of the cycles that ended there.
//!
//! The format says "the cycles that ended at this stop", whatever their order (`specs/Text.antt`, `stop_at`), and
//! `push_stop_at` looks through all of them. If the cycles are in the order of the stops at which they ended, the cycles of a
//! stop are the first that no earlier stop has taken. So `push_next_stop` looks only at the first of the cycles left. Easy to
//! get wrong: a stop without a row has to take its cycles too. Otherwise the next stop begins at cycles that ended before.
ghost use Rattle.std.specs.Prelude.{◌≡◌, ◌≢◌, ◌↔◌, ℕ, ◌+◌, ◌<◌, ◌≤◌, ◌++◌, ◌==◌, length, take, drop, IsTrue, OnOk, IfOk};
ghost use Rattle.std.specs.List.{flat_map, take_while};
ghost use Rattle.nmgc_journal.specs.{Text.phase_text, Text.stop_line, Printing.stop_counts, Printing.stop_text, Printing.cycle_line, Printing.cycle_stops, Printing.cycle_swept, Printing.cycle_kept, Text.cycle_text, Text.name_line, Text.stop_at, Printing.ended_at};
ghost use Rattle.nmgc_journal.specs.{Stops.AreEndedFrom, Stops.IsRestAfter, Spans.span_lines};

use crate::tokens::{push_count, push_name, push_word};
use crate::{CycleRow, Phase, StopRow};
use nmgc_lists::NoMemory;
use nmgc_name_lists::{NameList, Span};
use nmgc_world_spec::Name;

/// Whether the cycles are in the order of the stops at which they ended. Takes no memory.
pub fn are_in_order(cycles: &[CycleRow]) -> bool
    ensures { IsTrue result ↔ AreEndedFrom 0 cycles.now }
{
    let mut last = 0;
    for cycle in cycles {
        if cycle.ended < last {
            return false;
        }
        last = cycle.ended;
    }
    true
}

/// Appends the lines of stop `number` and of the cycles that ended at it, or nothing if the stop has no row.
pub fn push_stop_at(
    out: &mut Vec<u8>,
    stops: &[StopRow],
    number: usize,
    cycles: &[CycleRow],
) -> Result<(), NoMemory>
    ensures { OnOk result (out.new.items ≡ out.old.items ++ stop_at stops.now cycles.now number) }
{
    if let Some(row) = stops.get(number) {
        push_stop_line(out, row)?;
        push_ended_at(out, number as u64, cycles)?;
    }
    Ok(())
}

/// Appends the lines of stop `number` and of the cycles that ended at it, or nothing if the stop has no row. In both cases
/// returns the number of these cycles, which come first. Requires `cycles` in order, and that none ended before this stop.
pub fn push_next_stop(
    out: &mut Vec<u8>,
    stops: &[StopRow],
    number: usize,
    cycles: &[CycleRow],
) -> Result<usize, NoMemory>
    requires { AreEndedFrom number cycles.now }
    ensures text { OnOk result (out.new.items ≡ out.old.items ++ stop_at stops.now cycles.now number) }
    ensures rest { IfOk result (λ count. IsRestAfter number cycles.now count) }
{
    let count = ended_count(cycles, number as u64);
    if let Some(row) = stops.get(number) {
        push_stop_line(out, row)?;
        push_cycles(out, &cycles[..count])?;
    }
    Ok(count)
}

// Counts the cycles that ended at stop `number`. Requires `cycles` in order, and that none ended before this stop.
fn ended_count(cycles: &[CycleRow], number: u64) -> usize
    requires { AreEndedFrom number cycles.now }
    ensures ended { take result cycles.now ≡ ended_at number cycles.now }
    ensures rest { IsRestAfter number cycles.now result }
{
    front_count(cycles, number)
}

// Counts the cycles in front that ended at stop `number`, up to the first that didn't.
fn front_count(cycles: &[CycleRow], number: u64) -> usize
    ensures { result ≡ length (take_while (λ cycle. cycle.ended == number) cycles.now) }
{
    cycles
        .iter()
        .take_while(|cycle| u64::from(cycle.ended) == number)
        .count()
}

// Appends the line of a stop.
fn push_stop_line(out: &mut Vec<u8>, row: &StopRow) -> Result<(), NoMemory>
    ensures { OnOk result (out.new.items ≡ out.old.items ++ stop_line row.now) }
{
    push_count(out, b"stop ", u64::from(row.number))?;
    push_word(out, phase_word(row.phase))?;
    push_stop_counts(out, row)
}

// Returns the token of a phase in the line of a stop, with the space before the token.
fn phase_word(phase: Phase) -> &'static [u8]
    ensures { result.now ≡ phase_text phase }
{
    match phase {
        Phase::Idle => b" idle",
        Phase::Marking => b" marking",
        Phase::Sweeping => b" sweeping",
    }
}

// Appends the four counts that end the line of a stop, and its line feed.
fn push_stop_counts(out: &mut Vec<u8>, row: &StopRow) -> Result<(), NoMemory>
    ensures { OnOk result (out.new.items ≡ out.old.items ++ stop_counts row.now) }
{
    push_count(out, b" free ", u64::from(row.free))?;
    push_count(out, b" filled ", u64::from(row.filled))?;
    push_count(out, b" sweep ", u64::from(row.sweep))?;
    push_count(out, b" promoted ", u64::from(row.promoted))?;
    push_word(out, b"\n")
}

/// Appends the line of a stop and the lines of `cycles`, which are those that ended at it, in order.
pub fn push_stop(out: &mut Vec<u8>, row: &StopRow, cycles: &[CycleRow]) -> Result<(), NoMemory>
    ensures { OnOk result (out.new.items ≡ out.old.items ++ stop_text row.now cycles.now) }
{
    push_stop_line(out, row)?;
    push_cycles(out, cycles)
}

// Appends the lines of the cycles that ended at stop `number`.
fn push_ended_at(out: &mut Vec<u8>, number: u64, cycles: &[CycleRow]) -> Result<(), NoMemory>
    ensures { OnOk result (out.new.items ≡ out.old.items ++ flat_map cycle_text (ended_at number cycles.now)) }
{
    for cycle in cycles {
        if u64::from(cycle.ended) == number {
            push_cycle(out, cycle)?;
        }
    }
    Ok(())
}

// Appends the lines of each of `cycles`, in order.
fn push_cycles(out: &mut Vec<u8>, cycles: &[CycleRow]) -> Result<(), NoMemory>
    ensures { OnOk result (out.new.items ≡ out.old.items ++ flat_map cycle_text cycles.now) }
{
    for cycle in cycles {
        push_cycle(out, cycle)?;
    }
    Ok(())
}

// Appends the lines of a cycle: its own line, the weak pointers that died, and the names that were freed.
fn push_cycle(out: &mut Vec<u8>, row: &CycleRow) -> Result<(), NoMemory>
    ensures { OnOk result (out.new.items ≡ out.old.items ++ cycle_text row.now) }
{
    push_cycle_line(out, row)?;
    push_names(out, b"dead ", row.dead.items())?;
    push_name_list(out, b"freed ", &row.freed)
}

// Appends a cycle's own line.
fn push_cycle_line(out: &mut Vec<u8>, row: &CycleRow) -> Result<(), NoMemory>
    ensures { OnOk result (out.new.items ≡ out.old.items ++ cycle_line row.now) }
{
    push_cycle_stops(out, row)?;
    push_cycle_swept(out, row)?;
    push_cycle_kept(out, row)
}

// Appends the first part of a cycle's line: its number, and the stops of its snapshot and its closing.
fn push_cycle_stops(out: &mut Vec<u8>, row: &CycleRow) -> Result<(), NoMemory>
    ensures { OnOk result (out.new.items ≡ out.old.items ++ cycle_stops row.now) }
{
    push_count(out, b"cycle ", u64::from(row.number))?;
    push_count(out, b" from ", u64::from(row.from))?;
    push_count(out, b" closed ", u64::from(row.closed))
}

// Appends the counts of the segments that a cycle swept, of the blocks in use there, and of the blocks that it freed.
fn push_cycle_swept(out: &mut Vec<u8>, row: &CycleRow) -> Result<(), NoMemory>
    ensures { OnOk result (out.new.items ≡ out.old.items ++ cycle_swept row.now) }
{
    push_count(out, b" swept ", row.swept.items().len() as u64)?;
    push_count(out, b" had ", row.had.len() as u64)?;
    push_count(out, b" freed ", row.freed.len() as u64)
}

// Appends the counts of the blocks that a cycle kept and of the weak pointers that died, and the line feed.
fn push_cycle_kept(out: &mut Vec<u8>, row: &CycleRow) -> Result<(), NoMemory>
    ensures { OnOk result (out.new.items ≡ out.old.items ++ cycle_kept row.now) }
{
    push_count(out, b" kept ", u64::from(row.kept))?;
    push_count(out, b" dead ", row.dead.items().len() as u64)?;
    push_word(out, b"\n")
}

// Appends a line for each name of `names`: the token `word`, and the name.
fn push_names(out: &mut Vec<u8>, word: &[u8], names: &[Name]) -> Result<(), NoMemory>
    ensures { OnOk result (out.new.items ≡ out.old.items ++ flat_map (name_line word.now) names.now) }
{
    for name in names {
        push_name_line(out, word, *name)?;
    }
    Ok(())
}

// Appends a line for each name of a list of spans: the token `word`, and the name.
fn push_name_list(out: &mut Vec<u8>, word: &[u8], names: &NameList) -> Result<(), NoMemory>
    ensures { OnOk result (out.new.items ≡ out.old.items ++ flat_map (name_line word.now) names.now) }
{
    push_spans(out, word, names.spans())
}

// Appends a line for each name of each span: the token `word`, and the name.
fn push_spans(out: &mut Vec<u8>, word: &[u8], spans: &[Span]) -> Result<(), NoMemory>
    ensures { OnOk result (out.new.items ≡ out.old.items ++ flat_map (span_lines word.now) spans.now) }
{
    for span in spans {
        push_span(out, word, span)?;
    }
    Ok(())
}

// Appends a line for each name of a span: the token `word`, and the name.
fn push_span(out: &mut Vec<u8>, word: &[u8], span: &Span) -> Result<(), NoMemory>
    ensures { OnOk result (out.new.items ≡ out.old.items ++ span_lines word.now span.now) }
{
    for at in 0..span.count() {
        push_name_line(out, word, span.name(at))?;
    }
    Ok(())
}

// Appends a line of the token `word` and a name.
fn push_name_line(out: &mut Vec<u8>, word: &[u8], name: Name) -> Result<(), NoMemory>
    ensures { OnOk result (out.new.items ≡ out.old.items ++ name_line word.now name) }
{
    push_word(out, word)?;
    push_name(out, name)?;
    push_word(out, b"\n")
}
