//! The whole program except for its streams: command line in, exit number out.
ghost use Rattle.std.specs.Prelude.{◌≡◌, ◌⊎◌};
ghost use Rattle.nmgc_io.specs.Text.{Rose};
ghost use Rattle.nmgc_cli.specs.Output.{Ran};

use crate::{Status, nmgc};
use nmgc_arguments::{CommandLine, arguments_of};
use nmgc_io::{Sink, Source};
use std::alloc::Global;
use std::thread::Threads;

/// Does the task that the command line's arguments ask for, and writes its text to the sink. Returns the number of the
/// status, with which the process ends. For wrong arguments and for a bench the source stays as it is. If there is no memory
/// for the arguments, the number is 7, and nothing is read or written (no clause gives this cause).
pub fn program<R: Threads + Sync, L: CommandLine, S: Source, K: Sink>(
    alloc: Global,
    rt: &R,
    line: &L,
    source: &mut S,
    sink: &mut K,
) -> u8
    ensures { Ran (L.arguments line.now) (S.left source.old) (S.left source.new) (Rose (S.faults source.old) (S.faults source.new)) (source.new ≡
        source.old) (K.taken sink.old) (K.taken sink.new) (Rose (K.faults sink.old) (K.faults sink.new)) result
        ⊎ ((result ≡ 7) × (source.new ≡ source.old) × (sink.new ≡ sink.old)) }
{
    let Ok(arguments) = arguments_of(alloc, line) else {
        return Status::NoMemory.number();
    };
    nmgc(alloc, rt, &arguments, source, sink).status.number()
}
