//! The lines of a run: the task, the counts that its words determine, and the number of wrong values.
use crate::run::{Task, Totals};
use crate::sizes::SHARDS;
use nmgc_io::push_number;
use nmgc_lists::NoMemory;
use std::alloc::Global;

/// Returns the lines of a run.
pub fn lines(alloc: Global, task: Task, totals: &Totals) -> Result<Vec<u8>, NoMemory> {
    let shards = u64::from(SHARDS);
    let mut out = Vec::new(alloc);
    push_line(&mut out, b"keys ", shards * u64::from(task.sizes.keys))?;
    push_line(
        &mut out,
        b"entries ",
        shards * u64::from(task.sizes.entries),
    )?;
    push_line(&mut out, b"threads ", u64::from(task.threads))?;
    push_line(&mut out, b"seed ", task.seed)?;
    push_line(&mut out, b"operations ", u64::from(task.operations))?;
    push_line(&mut out, b"reads ", totals.tally.reads)?;
    push_line(&mut out, b"writes ", totals.tally.writes)?;
    push_line(&mut out, b"scans ", totals.tally.scans)?;
    push_line(&mut out, b"wrong ", totals.wrong)?;
    Ok(out)
}

// Appends a line with a number.
fn push_line(out: &mut Vec<u8>, words: &[u8], number: u64) -> Result<(), NoMemory> {
    out.extend_from_slice(words)?;
    push_number(out, number)?;
    out.push(b'\n')?;
    Ok(())
}
