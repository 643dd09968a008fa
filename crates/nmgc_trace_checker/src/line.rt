//! The meaning of a line of a trace of format 1.
ghost use Rattle.std.specs.Prelude.{◌≡◌, map, IfOk};
ghost use Rattle.nmgc_trace_checker.specs.Reading.{count_line_at, mark_line_at, push_line_at, scan_line_at, take_line_at, close_line_at, drain_line_at, marker_line_at, plain_line_at, parts_at, IsLineBy, IsLineGiven};
ghost use Rattle.nmgc_trace_checker.specs.Said.{SaysLine};

use crate::commands::{command, parts};
use crate::tokens::byte;
use nmgc_io::{cut_tokens, is_blank_or_comment};
use nmgc_journal::read_name;
use nmgc_lists::NoMemory;
use nmgc_snapshot_laws::Event;
use nmgc_world_spec::Name;
use std::alloc::Global;

/// The meaning of a line.
#[derive(Drop)]
pub enum Line {
    /// Nothing.
    Blank,
    /// The number of mutators.
    Mutators(u8),
    /// Marking begins.
    Mark,
    /// A command with its answer, a push, a scan or the end of marking.
    Event(Event),
    /// The collector took this name out of the remembered set of a mutator.
    Take { mutator: u8, name: Name },
    /// The collector scans until the queue is empty.
    Drain,
    /// The text is no line of a trace.
    Unknown,
}

/// Returns the meaning of `text`, a line of format 1 without its end: `Unknown` exactly if it has no other meaning.
pub fn line_of(alloc: Global, text: &str) -> Result<Line, NoMemory>
    ensures { IfOk result (SaysLine text.now) }
{
    let line = text.as_bytes();
    if is_blank_or_comment(line) {
        return Ok(Line::Blank);
    }
    let mut words = Vec::with_capacity(alloc, 8)?;
    cut_tokens(&mut words, line)?;
    let said = line_by(alloc, words.as_slice())?;
    Ok(said)
}

// Returns the meaning of the line with these tokens.
fn line_by(alloc: Global, words: &[&[u8]]) -> Result<Line, NoMemory>
    ensures { IfOk result (IsLineBy (plain_line_at (map (λ w. w.now) words.now)) (map (λ w. w.now) words.now)) }
{
    match keyword_line(words) {
        Some(line) => Ok(line),
        None => mutator_line(alloc, words),
    }
}

// Returns the meaning of a line that begins with a keyword, or `None` if it begins otherwise or its rest is wrong.
#[tactic(auto, unfolding(crate::specs::Reading::plain_line_at))]
fn keyword_line(words: &[&[u8]]) -> Option<Line>
    ensures { result ≡ plain_line_at (map (λ w. w.now) words.now) }
{
    let [word, rest @ ..] = words else {
        return None;
    };
    if *word == b"mutators".as_slice() {
        return count_line(rest);
    }
    if *word == b"mark".as_slice() {
        return mark_line(rest);
    }
    if *word == b"push".as_slice() {
        return push_line(rest);
    }
    marker_line(word, rest)
}

// Returns the meaning of a line that begins with `scan`, `take`, `close` or `drain`, or `None` for any other line.
#[tactic(auto, unfolding(crate::specs::Reading::marker_line_at))]
fn marker_line(word: &[u8], rest: &[&[u8]]) -> Option<Line>
    ensures { result ≡ marker_line_at word.now (map (λ w. w.now) rest.now) }
{
    if word == b"scan".as_slice() {
        return scan_line(rest);
    }
    if word == b"take".as_slice() {
        return take_line(rest);
    }
    if word == b"close".as_slice() {
        return close_line(rest);
    }
    if word == b"drain".as_slice() {
        return drain_line(rest);
    }
    None
}

// Returns the line `Mutators` with the number that the one token after `mutators` spells, or `None` for any other tokens.
#[tactic(auto, unfolding(crate::specs::Reading::count_line_at))]
fn count_line(words: &[&[u8]]) -> Option<Line>
    ensures { result ≡ count_line_at (map (λ w. w.now) words.now) }
{
    let [count] = words else {
        return None;
    };
    Some(Line::Mutators(byte(count)?))
}

// Returns the line `mark` if no token follows this word, and otherwise `None`.
#[tactic(auto, unfolding(crate::specs::Reading::mark_line_at))]
fn mark_line(words: &[&[u8]]) -> Option<Line>
    ensures { result ≡ mark_line_at (map (λ w. w.now) words.now) }
{
    let [] = words else {
        return None;
    };
    Some(Line::Mark)
}

// Returns the push by the mutator whose number the one token after `push` spells, or `None` for any other tokens.
#[tactic(auto, unfolding(crate::specs::Reading::push_line_at))]
fn push_line(words: &[&[u8]]) -> Option<Line>
    ensures { result ≡ push_line_at (map (λ w. w.now) words.now) }
{
    let [mutator] = words else {
        return None;
    };
    let mutator = byte(mutator)?;
    Some(Line::Event(Event::Push { mutator }))
}

// Returns the line `scan` if no token follows this word, and otherwise `None`.
#[tactic(auto, unfolding(crate::specs::Reading::scan_line_at))]
fn scan_line(words: &[&[u8]]) -> Option<Line>
    ensures { result ≡ scan_line_at (map (λ w. w.now) words.now) }
{
    let [] = words else {
        return None;
    };
    Some(Line::Event(Event::Scan))
}

// Returns the take from a mutator that the tokens `M NAME` after `take` spell, or `None` for any other tokens.
#[tactic(auto, unfolding(crate::specs::Reading::take_line_at))]
fn take_line(words: &[&[u8]]) -> Option<Line>
    ensures { result ≡ take_line_at (map (λ w. w.now) words.now) }
{
    let [mutator, name] = words else {
        return None;
    };
    let mutator = byte(mutator)?;
    let name = read_name(name)?;
    Some(Line::Take { mutator, name })
}

// Returns the line `close` if no token follows this word, and otherwise `None`.
#[tactic(auto, unfolding(crate::specs::Reading::close_line_at))]
fn close_line(words: &[&[u8]]) -> Option<Line>
    ensures { result ≡ close_line_at (map (λ w. w.now) words.now) }
{
    let [] = words else {
        return None;
    };
    Some(Line::Event(Event::Close))
}

// Returns the line `drain` if no token follows this word, and otherwise `None`.
#[tactic(auto, unfolding(crate::specs::Reading::drain_line_at))]
fn drain_line(words: &[&[u8]]) -> Option<Line>
    ensures { result ≡ drain_line_at (map (λ w. w.now) words.now) }
{
    let [] = words else {
        return None;
    };
    Some(Line::Drain)
}

// Returns the meaning of a line with a mutator's command and its answer, or `Unknown` for any other tokens.
fn mutator_line(alloc: Global, words: &[&[u8]]) -> Result<Line, NoMemory>
    ensures { IfOk result (IsLineGiven (parts_at (map (λ w. w.now) words.now))) }
{
    let Some((mutator, words, answer)) = parts(words) else {
        return Ok(Line::Unknown);
    };
    match command(alloc, words)? {
        Some(command) => Ok(Line::Event(Event::Command {
            mutator,
            command,
            answer,
        })),
        None => Ok(Line::Unknown),
    }
}
