//! The lines of a run, as the programs of `examples/beside` have them.
use crate::load::{Counts, Kind};
use nmgc_io::push_number;
use nmgc_lists::NoMemory;
use std::alloc::Global;

/// Returns the lines of the counts of a load of this kind.
pub fn lines(alloc: Global, kind: Kind, counts: &Counts) -> Result<Vec<u8>, NoMemory> {
    let mut out = Vec::new(alloc);
    match kind {
        Kind::Lists => {
            push_line(&mut out, b"cells ", counts.cells)?;
            push_line(&mut out, b"sum ", counts.sum)?;
        }
        Kind::Table => {
            push_line(&mut out, b"operations ", counts.operations)?;
            push_line(&mut out, b"wrong ", counts.wrong)?;
        }
    }
    Ok(out)
}

// Appends a line with a number.
fn push_line(out: &mut Vec<u8>, words: &[u8], number: u64) -> Result<(), NoMemory> {
    out.extend_from_slice(words)?;
    push_number(out, number)?;
    out.push(b'\n')?;
    Ok(())
}
