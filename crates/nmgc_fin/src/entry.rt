//! The whole program except its streams: command line in, exit number out.
ghost use Rattle.std.specs.Prelude.{◌≡◌, ◌⊎◌};
ghost use Rattle.nmgc_io.specs.Text.{Rose};
ghost use Rattle.nmgc_fin.specs.Program.{Ran};

use crate::{FinStatus, nmgc_fin};
use nmgc_arguments::{CommandLine, arguments_of};
use nmgc_io::{Sink, Source};
use std::alloc::Global;
use std::sync::Wait;
use std::thread::Threads;

/// Runs `nmgc_fin` on a command line, and returns the exit number. If the arguments are wrong, nothing is read. If there is
/// no memory for the arguments, the number is 7 (no clause says why), and nothing is read or written. May wait for workers.
pub fn program<R: Threads + Wait + Sync, L: CommandLine, S: Source, K: Sink>(
    alloc: Global,
    rt: &R,
    line: &L,
    source: &mut S,
    sink: &mut K,
) -> u8
    ensures { Ran (L.arguments line.now) (S.left source.old) (S.left source.new) (Rose (S.faults source.old) (S.faults source.new)) (source.new ≡
        source.old) (K.taken sink.old) (K.taken sink.new) (Rose (K.faults sink.old) (K.faults sink.new)) result
        ⊎ ((result ≡ 7) × (source.new ≡ source.old) × (sink.new ≡ sink.old)) }
{
    let Ok(arguments) = arguments_of(alloc, line) else {
        return FinStatus::NoMemory.number();
    };
    nmgc_fin(alloc, rt, &arguments, source, sink).number()
}
