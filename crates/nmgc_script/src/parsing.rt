//! Whole scripts: the version line, the heap line, and the sections.
//!
//! Lines are read in order. Each is cut into tokens in one vector that is reused, so the time is linear in the bytes. The
//! first fault ends the reading, so the reported line is the first bad line. Easy to get wrong: if the text ends before the
//! first section, the reported line is the line after the last, and lines that are passed over are counted too.
ghost use Rattle.std.specs.Prelude.{◌≡◌, true, false, ℕ, ◌+◌, ◌<◌, ◌≤◌, ◌^◌, length, sum_by, IfErr, IfOk, MatchResult};
ghost use Rattle.nmgc_script.specs.{Results.IsFaultOf, Spelling.IsFaultOfText, Spelling.FitsConfig, Spelling.lines_bytes, Spelling.most_bytes, Spelling.Spells, Spelling.kept_lines, declared.fault.Cause.Cause as Why, declared.script.Script.Script as Spelled, Reading.kept_after, Reading.end_after, Parts.end_of, declared.fault.ScriptFault.TheVariants.NoMemory as no_memory};
ghost use Rattle.nmgc_script.specs.Reading.{GivesAt, at_line, version_at, heap_at, programs_at, threads_at, script_at, placed};

use crate::config::heap_config;
use crate::sections::{Entry, read_entry, section};
use crate::text::Lines;
use crate::version::Version;
use crate::{Cause, Config, LineFault, Script, ScriptFault};
use nmgc_commands::PackedCommand;
use nmgc_io::cut_tokens_within;
use nmgc_lists::{List, NoMemory};
use std::alloc::Global;

// A lack of memory becomes the fault `NoMemory`.
impl From<NoMemory> for ScriptFault {
    ghost from_gives = { λ _ e. e ≡ no_memory };

    fn from(_: NoMemory) -> Self {
        ScriptFault::NoMemory
    }
}

/// Returns the script that the bytes spell. Requires at most 2^31 bytes. `Bad` reports the first bad line, from 1, and its
/// first cause. If the text ends too early, this is the line after the last. `NoMemory` says nothing about the bytes. Takes
/// time linear in the bytes.
pub fn parse(alloc: Global, bytes: &[u8]) -> Result<Script, ScriptFault>
    requires { length bytes.now ≤ 2 ^ 31 }
    // The bytes spell the script that is read, and it is within the limits.
    ensures found { IfOk result (λ script. Spells bytes.now script) }
    // A script that the bytes spell is read, unless memory runs out.
    ensures only { (script : Spelled) → Spells bytes.now script → MatchResult result (λ read. script ≡ read) (λ fault. fault ≡ ScriptFault.NoMemory) }
    // The number of the script's commands is at most the number of bytes.
    ensures few { IfOk result (λ script. sum_by (λ program. length program) script.threads ≤ length bytes.now) }
    // If the bytes spell no script, the fault is the first bad line and its first cause.
    ensures reported { IfErr result (λ fault. IsFaultOf bytes.now fault) }
{
    script(alloc, bytes)
}

/// Proves that a text spells at most one script, and that a text has at most one first bad line, with at most one first
/// cause. If a text spells a script, it has no first bad line. The function does nothing: its contract is the law.
pub fn a_text_spells_at_most_one_script(bytes: &[u8])
    ensures script { (one other : Spelled) → Spells bytes.now one → Spells bytes.now other → one ≡ other }
    ensures fault { (m n : ℕ) (c d : Why) → IsFaultOfText (end_of bytes.now) (kept_lines bytes.now) m c →
        IsFaultOfText (end_of bytes.now) (kept_lines bytes.now) n d → (m ≡ n) × (c ≡ d) }
    ensures never_both { (one : Spelled) (n : ℕ) (c : Why) → Spells bytes.now one → IsFaultOfText (end_of bytes.now) (kept_lines bytes.now) n c → ⊥ }
{}

/// Whether there are more bytes than a script that begins like them may have. Version 3 has the limit `MAX_SCRIPT_BYTES`.
/// Bytes of any other version, or of none, have the limit of version 1. Requires at most 2^31 bytes. Takes no memory.
pub fn is_too_long(bytes: &[u8]) -> bool
    requires { length bytes.now ≤ 2 ^ 31 }
    ensures long { result ≡ true → most_bytes bytes.now < length bytes.now }
    ensures short { result ≡ false → length bytes.now ≤ most_bytes bytes.now }
{
    if bytes.len() > most_bytes(bytes) {
        return true;
    }
    false
}

// Returns the greatest number of bytes that a script may have if it begins like `bytes`.
fn most_bytes(bytes: &[u8]) -> usize
    requires { length bytes.now ≤ 2 ^ 31 }
    ensures { result ≡ most_bytes bytes.now }
{
    let mut lines = Lines::new(bytes);
    take_byte_limit(&mut lines)
}

// Takes the next line, if any. Returns the most bytes of a script of version 3 if the line is `nmgc 3`, else of version 1.
#[tactic(auto, unfolding(crate::specs::Spelling::lines_bytes))]
fn take_byte_limit(lines: &mut Lines) -> usize
    ensures { result ≡ lines_bytes (kept_after lines.old.number lines.old.rest.now) }
{
    let Some((_, line)) = lines.next() else {
        return Version::first().bytes;
    };
    if line == b"nmgc 3".as_slice() {
        return Version::third().bytes;
    }
    Version::first().bytes
}

// Returns the script that the bytes spell, or the first bad line and its cause.
#[tactic(auto, unfolding(crate::specs::Reading::script_at))]
fn script(alloc: Global, bytes: &[u8]) -> Result<Script, ScriptFault>
    requires { length bytes.now ≤ 2 ^ 31 }
    ensures { GivesAt (λ s. s) result (script_at (end_of bytes.now) (kept_lines bytes.now)) }
{
    let mut lines = Lines::new(bytes);
    let mut tokens = Vec::new(alloc);
    let version = version_line(&mut lines)?;
    let config = heap_line(version, &mut lines, &mut tokens)?;
    let threads = threads(alloc, version, &config, &mut lines, &mut tokens)?;
    Ok(Script {
        version: version.number,
        config,
        threads,
    })
}

// Takes the version line from `lines`, and returns the version that the line names.
#[tactic(auto, unfolding(crate::specs::Reading::version_at))]
fn version_line(lines: &mut Lines) -> Result<Version, ScriptFault>
    ensures gives { GivesAt (λ v. (
      v,
      kept_after lines.new.number lines.new.rest.now,
    )) result
        (version_at (end_after lines.old.number lines.old.rest.now) (kept_after lines.old.number lines.old.rest.now)) }
    ensures end { end_after lines.new.number lines.new.rest.now ≡ end_after lines.old.number lines.old.rest.now }
{
    let Some((number, line)) = lines.next() else {
        return Err(ScriptFault::Bad {
            line: lines.number(),
            cause: Cause::Version,
        });
    };
    if line == b"nmgc 1".as_slice() {
        return Ok(Version::first());
    }
    if line == b"nmgc 2".as_slice() {
        return Ok(Version::second());
    }
    if line == b"nmgc 3".as_slice() {
        return Ok(Version::third());
    }
    Err(ScriptFault::Bad {
        line: number,
        cause: Cause::Version,
    })
}

// Takes the heap line from `lines`, and returns its settings.
#[tactic(auto, unfolding(crate::specs::Reading::heap_at))]
fn heap_line<'a>(
    version: Version,
    lines: &mut Lines<'a>,
    tokens: &mut Vec<&'a [u8]>,
) -> Result<Config, ScriptFault>
    ensures gives { GivesAt (λ c. (
      c,
      kept_after lines.new.number lines.new.rest.now,
    )) result
        (heap_at version (end_after lines.old.number lines.old.rest.now) (kept_after lines.old.number lines.old.rest.now)) }
    ensures end { end_after lines.new.number lines.new.rest.now ≡ end_after lines.old.number lines.old.rest.now }
    ensures fits { IfOk result (λ c. FitsConfig version.segments c) }
{
    let Some((number, line)) = lines.next() else {
        return Err(ScriptFault::Bad {
            line: lines.number(),
            cause: Cause::Heap,
        });
    };
    cut_tokens_within(tokens, line, lines.text())?;
    add_line_number(number, heap_config(version, tokens))
}

// Returns `given`, the result for line `number`, with this number added to a `Bad`. A value and `NoMemory` stay as they are.
fn add_line_number<T>(number: u32, given: Result<T, LineFault>) -> Result<T, ScriptFault>
    ensures { result ≡ placed number given }
{
    match given {
        Ok(value) => Ok(value),
        Err(LineFault::NoMemory) => Err(ScriptFault::NoMemory),
        Err(LineFault::Bad(cause)) => Err(ScriptFault::Bad {
            line: number,
            cause,
        }),
    }
}

// Reads all lines after the heap line, and returns the programs of their sections.
fn threads<'a>(
    alloc: Global,
    version: Version,
    config: &Config,
    lines: &mut Lines<'a>,
    tokens: &mut Vec<&'a [u8]>,
) -> Result<List<List<PackedCommand>>, ScriptFault>
    requires { FitsConfig version.segments config.now }
    ensures { GivesAt (λ t.
        t) result (threads_at version (end_after lines.old.number lines.old.rest.now) config.now (kept_after lines.old.number lines.old.rest.now)) }
{
    let Some((number, line)) = lines.next() else {
        return Err(ScriptFault::Bad {
            line: lines.number(),
            cause: Cause::Thread,
        });
    };
    cut_tokens_within(tokens, line, lines.text())?;
    add_line_number(number, section(version, config, 0, tokens))?;
    programs(alloc, version, config, lines, tokens)
}

// Reads all lines after the first section line, and returns the programs of all sections.
fn programs<'a>(
    alloc: Global,
    version: Version,
    config: &Config,
    lines: &mut Lines<'a>,
    tokens: &mut Vec<&'a [u8]>,
) -> Result<List<List<PackedCommand>>, ScriptFault>
    requires { FitsConfig version.segments config.now }
    ensures { GivesAt (λ t. t) result (programs_at version config.now (kept_after lines.old.number lines.old.rest.now)) }
{
    let mut threads = List::new(alloc);
    let mut program = List::new(alloc);
    let mut begun = 1;
    while let Some((number, line)) = lines.next() {
        cut_tokens_within(tokens, line, lines.text())?;
        match add_line_number(number, read_entry(alloc, version, config, begun, tokens))? {
            Entry::Section => {
                threads.push(program)?;
                program = List::new(alloc);
                begun += 1;
            }
            Entry::Command(command) => program.push(command)?,
        }
    }
    threads.push(program)?;
    Ok(threads)
}
