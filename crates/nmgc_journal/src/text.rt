//! The text of a report.
//!
//! Each function here appends one piece of the text to the bytes so far, and its contract names that piece of the format. A
//! run writes its cycles in the order of the stops at which they ended. One pass checks whether that is so. Then each stop
//! takes its cycles from the front of the cycles left. So a run of two million stops and a million cycles takes time
//! proportional to the length of its text. If a report's cycles are in another order, each stop looks through all of them,
//! which takes time proportional to stops times cycles. A vector that grows moves each time that it has doubled, and a text
//! may be as long as the script. So the room for about the whole text is taken at first.
ghost use Rattle.std.specs.Prelude.{◌≡◌, ◌+◌, ◌<◌, ◌≤◌, ◌^◌, ◌++◌, length, codes, OnOk, IfOk};
ghost use Rattle.std.specs.List.{flat_map};
ghost use Rattle.nmgc_journal.specs.Stops.{AreEndedFrom};
ghost use Rattle.nmgc_journal.specs.{Printing.reply_line, Text.replies_text, Printing.round_text, Text.rounds_text, Text.stop_at, Printing.end_counts, Printing.heap_full_line, Text.end_text, Text.report_text};

use crate::lines::push_reply_line;
use crate::stops::{are_in_order, push_next_stop, push_stop_at};
use crate::tokens::{push_count, push_word};
use crate::{End, Replies, Report, RoundRows};
use nmgc_io::push_number;
use nmgc_lists::NoMemory;
use std::alloc::Global;

// The usual number of bytes in the line of a reply, or of a name.
const NAME_BYTES: usize = 12;

// The usual number of bytes in the line of a stop or of a cycle.
const STOP_BYTES: usize = 64;

/// Returns the text of any report, in the format of `docs/FORMATS.md`. After the line of a stop come the cycles that ended at
/// it, in the order of their rows. A run writes these rows in the order of the cycles' numbers.
pub fn text(alloc: Global, report: &Report) -> Result<Vec<u8>, NoMemory>
    ensures { IfOk result (λ text. text.items ≡ report_text report.now) }
{
    let mut out = Vec::new(alloc);
    take_room(&mut out, report);
    out.extend_from_slice(b"report 1\n")?;
    push_rounds(&mut out, report)?;
    push_end(&mut out, report.end)?;
    Ok(out)
}

// Reserves about the room that the whole text needs. If there isn't enough memory for it, room is taken as the text grows.
fn take_room(out: &mut Vec<u8>, report: &Report)
    ensures { out.new.items ≡ out.old.items }
{
    let names = NAME_BYTES.saturating_mul(reply_and_freed_count(report));
    let rows = report
        .stops
        .items()
        .len()
        .saturating_add(report.cycles.items().len());
    let _ = out.reserve(names.saturating_add(STOP_BYTES.saturating_mul(rows)));
}

// Counts the replies and the freed names of a report: each has one line in the report's text.
fn reply_and_freed_count(report: &Report) -> usize {
    let mut count: usize = 0;
    for rows in report.rounds.items() {
        for replies in rows.replies.items() {
            count = count.saturating_add(replies.len());
        }
    }
    for cycle in report.cycles.items() {
        count = count.saturating_add(cycle.freed.len());
    }
    count
}

// Appends the lines of stop 0, and the lines of each round and of the stop after it.
fn push_rounds(out: &mut Vec<u8>, report: &Report) -> Result<(), NoMemory>
    ensures { OnOk result (out.new.items ≡ out.old.items ++ (stop_at report.now.stops report.now.cycles 0 ++
        rounds_text report.now.stops report.now.cycles 1 report.now.rounds)) }
{
    if are_in_order(report.cycles.items()) {
        return push_rounds_in_order(out, report);
    }
    push_rounds_in_any_order(out, report)
}

// Appends the lines of stop 0, of each round and of the stop after it. Each stop looks at all cycles, in whatever order.
fn push_rounds_in_any_order(out: &mut Vec<u8>, report: &Report) -> Result<(), NoMemory>
    ensures { OnOk result (out.new.items ≡ out.old.items ++ (stop_at report.now.stops report.now.cycles 0 ++
        rounds_text report.now.stops report.now.cycles 1 report.now.rounds)) }
{
    let cycles = report.cycles.items();
    push_stop_at(out, report.stops.items(), 0, cycles)?;
    for (place, rows) in report.rounds.items().iter().enumerate() {
        push_round(out, place as u64 + 1, rows)?;
        push_stop_at(out, report.stops.items(), place + 1, cycles)?;
    }
    Ok(())
}

// Appends the lines of stop 0, of each round and of the stop after it. Requires cycles in the order in which they ended.
fn push_rounds_in_order(out: &mut Vec<u8>, report: &Report) -> Result<(), NoMemory>
    requires { AreEndedFrom 0 report.now.cycles }
    ensures { OnOk result (out.new.items ≡ out.old.items ++ (stop_at report.now.stops report.now.cycles 0 ++
        rounds_text report.now.stops report.now.cycles 1 report.now.rounds)) }
{
    let cycles = report.cycles.items();
    let mut done = push_next_stop(out, report.stops.items(), 0, cycles)?;
    for (place, rows) in report.rounds.items().iter().enumerate() {
        push_round(out, place as u64 + 1, rows)?;
        done += push_next_stop(out, report.stops.items(), place + 1, &cycles[done..])?;
    }
    Ok(())
}

/// Appends the last line of a report, which says how the run ended.
pub fn push_end(out: &mut Vec<u8>, end: End) -> Result<(), NoMemory>
    ensures { OnOk result (out.new.items ≡ out.old.items ++ end_text end) }
{
    match end {
        End::Done => push_word(out, b"end done\n"),
        End::HeapFull { free, reserve } => push_heap_full(out, free, reserve),
    }
}

// Appends the last line of a run whose heap was full.
fn push_heap_full(out: &mut Vec<u8>, free: u32, reserve: u32) -> Result<(), NoMemory>
    ensures { OnOk result (out.new.items ≡ out.old.items ++ heap_full_line free reserve) }
{
    push_word(out, b"end heapfull")?;
    push_end_counts(out, free, reserve)
}

// Appends the end of the last line of a run whose heap was full: the counts of free segments and of the reserve.
fn push_end_counts(out: &mut Vec<u8>, free: u32, reserve: u32) -> Result<(), NoMemory>
    ensures { OnOk result (out.new.items ≡ out.old.items ++ end_counts free reserve) }
{
    push_count(out, b" free ", u64::from(free))?;
    push_count(out, b" reserve ", u64::from(reserve))?;
    push_word(out, b"\n")
}

/// Appends the lines of a round: its number, and the replies of each mutator in order.
pub fn push_round(out: &mut Vec<u8>, number: u64, rows: &RoundRows) -> Result<(), NoMemory>
    ensures { OnOk result (out.new.items ≡ out.old.items ++ round_text number rows.now) }
{
    out.extend_from_slice(b"round ")?;
    push_number(out, number)?;
    out.push(b'\n')?;
    for (mutator, replies) in rows.replies.items().iter().enumerate() {
        push_replies(out, mutator as u64, replies)?;
    }
    Ok(())
}

// Appends the lines of a mutator's replies in a round.
fn push_replies(out: &mut Vec<u8>, mutator: u64, replies: &Replies) -> Result<(), NoMemory>
    ensures { OnOk result (out.new.items ≡ out.old.items ++ flat_map (reply_line mutator) replies.now) }
{
    for at in 0..replies.len() {
        push_reply_line(out, mutator, replies.reply(at))?;
    }
    Ok(())
}
