//! The reasons why a session ends before its run, and their texts.
ghost use Rattle.std.specs.Prelude.{◌≡◌, ◌≤◌, ◌⊎◌, IfErr, IfOk, OnOk, false, true};
ghost use Rattle.std.specs.Io.KnownBytes.{Appends};
ghost use Rattle.nmgc_io.specs.Text.{AppendsFront, Rose};
ghost use Rattle.nmgc_live.specs.Refusals.{WritesRefusal, GivesUp, bad_line, fault_text, read_refusal, refusal_status};
ghost use Rattle.nmgc_live.specs.declared.refusal.Refusal.TheVariants as no;

use crate::options::Options;
use nmgc_cli::{Status, cause_text};
use nmgc_cycle::RunFault;
use nmgc_io::{ReadEnd, Sink, WriteEnd, push_number, write_all};
use nmgc_lists::NoMemory;
use nmgc_script::Cause;
use std::alloc::{AllocError, AllocFailed, Global};

/// The fault of a line.
#[derive(Clone, Copy, Debug, PartialEq, Eq)]
pub enum Fault {
    /// A fault that a line of a script may have too.
    Script(Cause),
    /// The line has too many bytes, or lacks its line feed.
    Line,
    /// The mutator may get no more commands.
    TooMany,
}

/// The reason why a session is given up.
#[derive(Clone, Copy, Debug, PartialEq, Eq)]
pub enum Refusal {
    /// A line is bad: its number, from 1, and its fault.
    Bad { line: u64, fault: Fault },
    /// The source failed.
    ReadFault,
    /// The sink failed.
    WriteFault,
    /// There was no memory.
    NoMemory,
}

// In each of these four, a lack of memory becomes the refusal `NoMemory`.
impl From<NoMemory> for Refusal {
    ghost from_gives = { λ _ refusal. refusal ≡ no.NoMemory };

    fn from(_: NoMemory) -> Self {
        Refusal::NoMemory
    }
}

impl From<AllocError> for Refusal {
    ghost from_gives = { λ _ refusal. refusal ≡ no.NoMemory };

    fn from(_: AllocError) -> Self {
        Refusal::NoMemory
    }
}

impl<T: Drop> From<AllocFailed<T>> for Refusal {
    ghost from_gives = { λ _ refusal. refusal ≡ no.NoMemory };

    fn from(_: AllocFailed<T>) -> Self {
        Refusal::NoMemory
    }
}

// A text in memory fails only if there is no memory.
impl From<RunFault> for Refusal {
    ghost from_gives = { λ _ refusal. refusal ≡ no.NoMemory };

    fn from(_: RunFault) -> Self {
        Refusal::NoMemory
    }
}

impl From<ReadEnd> for Refusal {
    ghost from_gives = { λ end refusal. refusal ≡ read_refusal end };

    fn from(end: ReadEnd) -> Self {
        match end {
            ReadEnd::ReadFault => Refusal::ReadFault,
            ReadEnd::TooLong | ReadEnd::NoMemory => Refusal::NoMemory,
        }
    }
}

impl From<WriteEnd> for Refusal {
    ghost from_gives = { λ _ refusal. refusal ≡ no.WriteFault };

    fn from(_: WriteEnd) -> Self {
        Refusal::WriteFault
    }
}

/// Writes the text of a refusal after all that was written. After `WriteFault` nothing more is written. If there is no memory
/// for the text of a bad line, the refusal is `NoMemory`. Returns the refusal's status, or `WriteFault` if the sink fails.
pub fn write_refusal<K: Sink>(alloc: Global, sink: &mut K, refusal: Refusal) -> Status
    ensures written { WritesRefusal (K.taken sink.old) (K.taken sink.new) refusal result }
    ensures later { K.faults sink.old ≤ K.faults sink.new }
    ensures fault { result ≡ Status.WriteFault → (refusal ≡ Refusal.WriteFault) ⊎ Rose (K.faults sink.old) (K.faults sink.new) }
{
    match refusal {
        Refusal::Bad { line, fault } => match bad_line(alloc, line, fault) {
            Ok(text) => write_last(sink, &text, Status::BadScript),
            Err(NoMemory) => write_last(sink, b"no memory\n", Status::NoMemory),
        },
        Refusal::ReadFault => write_last(sink, b"read fault\n", Status::ReadFault),
        Refusal::NoMemory => write_last(sink, b"no memory\n", Status::NoMemory),
        Refusal::WriteFault => Status::WriteFault,
    }
}

// Writes the last text of a session, and returns the status, or `WriteFault` if the sink fails.
fn write_last<K: Sink>(sink: &mut K, text: &[u8], status: Status) -> Status
    ensures written { ((result ≡ status) × Appends (K.taken sink.old) (K.taken sink.new) text.now) ⊎
        ((result ≡ Status.WriteFault) × AppendsFront (K.taken sink.old) (K.taken sink.new) text.now) }
    ensures later { K.faults sink.old ≤ K.faults sink.new }
    ensures fault { result ≡ Status.WriteFault → (status ≡ Status.WriteFault) ⊎ Rose (K.faults sink.old) (K.faults sink.new) }
{
    match write_all(sink, text) {
        Ok(()) => status,
        Err(_) => Status::WriteFault,
    }
}

/// Answers a bad line: writes its text, if the session passes over bad lines, and otherwise gives the session up.
pub fn answer_bad<K: Sink>(
    alloc: Global,
    sink: &mut K,
    options: Options,
    line: u64,
    fault: Fault,
) -> Result<(), Refusal>
    ensures ok { OnOk result ((options.passes_over ≡ true) × Appends (K.taken sink.old) (K.taken sink.new) (bad_line line fault)) }
    ensures err { IfErr result (λ refusal. GivesUp (K.taken sink.old) (K.taken sink.new) options line fault refusal) }
    ensures later { K.faults sink.old ≤ K.faults sink.new }
    ensures fault { IfErr result (λ refusal. refusal ≡ Refusal.WriteFault → Rose (K.faults sink.old) (K.faults sink.new)) }
{
    if !options.passes_over {
        return Err(Refusal::Bad { line, fault });
    }
    let text = bad_line(alloc, line, fault)?;
    write_all(sink, &text)?;
    Ok(())
}

// Returns the text of a bad line.
fn bad_line(alloc: Global, line: u64, fault: Fault) -> Result<Vec<u8>, NoMemory>
    ensures { IfOk result (λ text. text.items ≡ bad_line line fault) }
{
    let mut text = Vec::from_slice(alloc, b"bad line ")?;
    push_number(&mut text, line)?;
    text.push(b' ')?;
    text.extend_from_slice(fault_text(fault))?;
    text.push(b'\n')?;
    Ok(text)
}

// Returns the token of a fault.
fn fault_text(fault: Fault) -> &'static [u8]
    ensures { result.now ≡ fault_text fault }
{
    match fault {
        Fault::Script(cause) => cause_text(cause),
        Fault::Line => b"line",
        Fault::TooMany => b"toomany",
    }
}
