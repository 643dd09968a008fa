//! Sections: the line that begins a section, and the commands up to the next.
//!
//! Sections are numbered from 0 in order. Each brings a nursery, so the total of words is checked when a section begins and
//! not at the heap line. Easy to get wrong: the section that begins is counted in the total. Any line after the heap line is
//! a section line if its first token is `thread`.
ghost use Rattle.std.specs.Prelude.{◌≡◌, ◌+◌, ◌<◌, ◌≤◌, map, IfOk};
ghost use Rattle.nmgc_limits.specs.Limits.{most_segment_words};
ghost use Rattle.nmgc_script.specs.{Spelling.FitsConfig, Parts.total_words, Reading.Gives, Reading.thread_at, Reading.section_at, Reading.is_section, Reading.entry_at};

use crate::commands::command;
use crate::tokens::small_number;
use crate::version::Version;
use crate::{Cause, Config, LineFault};
use nmgc_commands::PackedCommand;
use std::alloc::Global;

/// The content of a line after the heap line.
#[derive(Drop)]
pub enum Entry {
    /// The beginning of the next thread's section.
    Section,
    /// A command of the last section that began.
    Command(PackedCommand),
}

// Returns the thread number that the tokens of a section line spell.
#[tactic(auto, unfolding(crate::specs::Reading::thread_at))]
fn thread(version: Version, tokens: &[&[u8]]) -> Result<u8, LineFault>
    ensures gives { Gives result (thread_at version (map (λ w. w.now) tokens.now)) }
    ensures within { IfOk result (λ n. n < 255) }
{
    let [name, number] = tokens else {
        return Err(LineFault::Bad(Cause::Thread));
    };
    if *name != b"thread".as_slice() {
        return Err(LineFault::Bad(Cause::Thread));
    }
    match small_number(number, version.threads.saturating_sub(1) as u32) {
        Ok(number) => Ok(number as u8),
        Err(LineFault::NoMemory) => Err(LineFault::NoMemory),
        Err(LineFault::Bad(_)) => Err(LineFault::Bad(Cause::Thread)),
    }
}

// Returns the number of words of all segments and `threads` nurseries together.
fn total_words(config: &Config, threads: u8) -> u64
    requires { config.now.words ≤ most_segment_words }
    ensures { result ≡ total_words config.now threads }
{
    config.segments as u64 * config.words as u64 + threads as u64 * config.nursery as u64
}

/// Reads the section line of thread `begun`, and returns `Entry::Section`. Requires a config within the limits
/// (`FitsConfig`). `Bad` has the first cause: `Thread` if the tokens aren't this line or the version has no such thread,
/// `Total` if the section makes the heap too large. Takes no memory.
#[tactic(auto, unfolding(crate::specs::Reading::section_at))]
pub fn section(
    version: Version,
    config: &Config,
    begun: u8,
    tokens: &[&[u8]],
) -> Result<Entry, LineFault>
    requires { FitsConfig version.segments config.now }
    ensures gives { Gives result (section_at version config.now begun (map (λ w. w.now) tokens.now)) }
    ensures within { IfOk result (λ e. begun < 255) }
{
    if thread(version, tokens)? != begun {
        return Err(LineFault::Bad(Cause::Thread));
    }
    if total_words(config, begun + 1) > u64::from(version.heap_words) {
        return Err(LineFault::Bad(Cause::Total));
    }
    Ok(Entry::Section)
}

// Whether the first token is `thread`, with which each section line begins.
fn is_section(tokens: &[&[u8]]) -> bool
    ensures { result ≡ is_section (map (λ w. w.now) tokens.now) }
{
    match tokens {
        [[b't', b'h', b'r', b'e', b'a', b'd'], ..] => true,
        _ => false,
    }
}

/// Reads a line after the first section line, with `begun` sections before it, and returns its content: the beginning of the
/// next section, or a command. Requires a config within the limits (`FitsConfig`). `Bad` has the line's first cause. Takes
/// memory only for a command's operands.
#[tactic(auto, unfolding(crate::specs::Reading::entry_at))]
pub fn read_entry(
    alloc: Global,
    version: Version,
    config: &Config,
    begun: u8,
    tokens: &[&[u8]],
) -> Result<Entry, LineFault>
    requires { FitsConfig version.segments config.now }
    ensures gives { Gives result (entry_at version config.now begun (map (λ w. w.now) tokens.now)) }
    ensures within { IfOk result (λ e. e ≡ Entry.Section → begun < 255) }
{
    if is_section(tokens) {
        return section(version, config, begun, tokens);
    }
    Ok(Entry::Command(command(alloc, version, tokens, config.words)?))
}
