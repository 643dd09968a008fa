//! A report that is read in pieces.
//!
//! The loop is the one of `nmgc_io::read_all`, but each piece is given to a scan, and no byte is kept. As there, no call
//! requests more than one byte past the limit, and a text that is too long is known before its last piece is taken.
ghost use Rattle.std.specs.Prelude.{◌≡◌, ◌≢◌, ◌+◌, ℕ, List, [], vec_len, IfOk, OnOk, IsErrOf};
ghost use Rattle.nmgc_io.specs.{Text.Rose, Text.Takes, Text.TakesUpTo, declared.ends.ReadEnd.TheVariants.TooLong};
ghost use Rattle.nmgc_fin.specs.{Program.IsRead, Scan.HasScanned};

use crate::scan::Scan;
use nmgc_io::{ReadEnd, Source};
use nmgc_lists::NoMemory;
use std::alloc::Global;

/// The most bytes of a report.
pub const MAX_REPORT_BYTES: usize = 2_147_483_648;

// The number of bytes requested at a time.
const PIECE: usize = 65_536;

/// Reads `source` to its end, and gives its bytes to `scan`, piece by piece. `TooLong` means that exactly
/// `MAX_REPORT_BYTES + 1` bytes were taken, and `ReadFault` that the source failed. `NoMemory` means that there was no memory
/// for the buffer or for a job. Takes no other memory.
pub fn read_report<S: Source>(alloc: Global, source: &mut S, scan: &mut Scan) -> Result<(), ReadEnd>
    requires { HasScanned scan.old [] }
    ensures read { OnOk result ((bytes : List ℕ) × IsRead (S.left source.old) (S.left source.new) bytes × HasScanned scan.new bytes) }

    ensures too_long { IsErrOf result ReadEnd.TooLong → Takes (S.left source.old) (S.left source.new) (MAX_REPORT_BYTES + 1) }
    ensures not_too_long { result ≢ Err ReadEnd.TooLong → TakesUpTo (S.left source.old) (S.left source.new) MAX_REPORT_BYTES }

    ensures fault { IsErrOf result ReadEnd.ReadFault → Rose (S.faults source.old) (S.faults source.new) }
{
    let Ok(mut buffer) = zeros(alloc) else {
        return Err(ReadEnd::NoMemory);
    };
    let piece = buffer.as_mut_slice();
    let mut taken = 0;
    loop {
        let room = piece.len().min(MAX_REPORT_BYTES + 1 - taken);
        let Ok(count) = source.read(&mut piece[..room]) else {
            return Err(ReadEnd::ReadFault);
        };
        if count == 0 {
            return Ok(());
        }
        if taken + count > MAX_REPORT_BYTES {
            return Err(ReadEnd::TooLong);
        }
        let Ok(()) = scan.take_piece(&piece[..count]) else {
            return Err(ReadEnd::NoMemory);
        };
        taken += count;
    }
}

// Returns a new buffer of `PIECE` zeros. The clause promises only the size.
fn zeros(alloc: Global) -> Result<Vec<u8>, NoMemory>
    ensures { IfOk result (λ zeros. vec_len zeros ≡ PIECE) }
{
    let mut zeros = Vec::new(alloc);
    zeros.resize(PIECE, 0)?;
    Ok(zeros)
}
