//! Commands of a mutator with their answers, as both formats spell them.
//!
//! A command is spelled as in a script. So `parse` of `nmgc_script`, whose contract says which texts are scripts, reads it as
//! the only command of a script. Values are spelled as in a report, so `nmgc_journal` reads them.
//!
//! Easy to get wrong: a line feed within a command would make two lines of that script, so such a command is refused.
ghost use Rattle.std.specs.Prelude.{◌≡◌, ◌↔◌, ◌≤◌, ◌^◌, ◌++◌, ◌∷◌, [], map, codes, length, None, Some, Contains, IsTrue, IfSome, IfNone, IfOk, OnOk};
ghost use Rattle.nmgc_io.specs.{Spaced.after_spaces, Text.spaced};
ghost use Rattle.nmgc_trace_checker.specs.Reading.{done_at, refused_at, nothing_at, reply_at, answered_at, parts_at, script_head, IsCommandIf, IsSpelledIf, IsLastIf, IsLastOf};

use crate::tokens::byte;
use nmgc_commands::PackedCommand;
use nmgc_journal::read_value;
use nmgc_lists::NoMemory;
use nmgc_script::{Script, ScriptFault, parse};
use nmgc_world_spec::{Command, Reply};
use std::alloc::Global;

// The length in bytes of the longest script that is tried. Every command of a script fits, with the lines before it.
const LONGEST: usize = 131072;

/// Returns the parts of a line's tokens: a mutator, the tokens of its command, and the answer after the sign `=`. Returns
/// `None` for any other tokens. Takes no memory.
#[tactic(auto, unfolding(crate::specs::Reading::parts_at))]
pub(crate) fn parts<'w, 'a>(words: &'w [&'a [u8]]) -> Option<(u8, &'w [&'a [u8]], Reply)>
    ensures some { IfSome result (λ p. parts_at (map (λ w. w.now) words.now) ≡ Some (p.0, map (λ w. w.now) p.1.now, p.2)) }
    ensures none { IfNone result (parts_at (map (λ w. w.now) words.now) ≡ None) }
{
    let [mutator, rest @ ..] = words else {
        return None;
    };
    let mutator = byte(mutator)?;
    let (command, answer) = split_answer(rest)?;
    let answer = reply(answer)?;
    Some((mutator, command, answer))
}

// Splits tokens into the tokens of a command and the token of its answer after the sign `=`. Returns `None` for other tokens.
fn split_answer<'w, 'a>(words: &'w [&'a [u8]]) -> Option<(&'w [&'a [u8]], &'a [u8])>
    ensures some { IfSome result (λ p. answered_at (map (λ w. w.now) words.now) ≡ Some (map (λ w. w.now) p.0.now, p.1.now)) }
    ensures none { IfNone result (answered_at (map (λ w. w.now) words.now) ≡ None) }
{
    let Some((answer, front)) = words.split_last() else {
        return None;
    };
    let Some((sign, command)) = front.split_last() else {
        return None;
    };
    if *sign != b"=".as_slice() {
        return None;
    }
    Some((command, *answer))
}

// Returns the answer that a token spells, by a keyword or as the value that is given, or `None` if it spells no answer.
#[tactic(auto, unfolding(crate::specs::Reading::reply_at))]
fn reply(word: &[u8]) -> Option<Reply>
    ensures { result ≡ reply_at word.now }
{
    if let Some(reply) = done_answer(word) {
        return Some(reply);
    }
    if let Some(reply) = refused_answer(word) {
        return Some(reply);
    }
    if let Some(reply) = empty_answer(word) {
        return Some(reply);
    }
    Some(Reply::Given(read_value(word)?))
}

// Returns the answer that `ok`, `yes`, `no`, `updated` or `already` spells, and `None` for any other token.
#[tactic(auto, unfolding(crate::specs::Reading::done_at))]
fn done_answer(word: &[u8]) -> Option<Reply>
    ensures { result ≡ done_at word.now }
{
    if word == b"ok".as_slice() {
        return Some(Reply::Fine);
    }
    if word == b"yes".as_slice() {
        return Some(Reply::Yes);
    }
    if word == b"no".as_slice() {
        return Some(Reply::No);
    }
    if word == b"updated".as_slice() {
        return Some(Reply::Updated);
    }
    if word == b"already".as_slice() {
        return Some(Reply::Already);
    }
    None
}

// Returns the answer that `nopointer`, `nofield`, `wrongkind`, `notowner` or `fixed` spells, and `None` for any other token.
#[tactic(auto, unfolding(crate::specs::Reading::refused_at))]
fn refused_answer(word: &[u8]) -> Option<Reply>
    ensures { result ≡ refused_at word.now }
{
    if word == b"nopointer".as_slice() {
        return Some(Reply::NoPointer);
    }
    if word == b"nofield".as_slice() {
        return Some(Reply::NoField);
    }
    if word == b"wrongkind".as_slice() {
        return Some(Reply::WrongKind);
    }
    if word == b"notowner".as_slice() {
        return Some(Reply::NotOwner);
    }
    if word == b"fixed".as_slice() {
        return Some(Reply::Fixed);
    }
    None
}

// Returns the answer that `dead`, `none`, `stackfull` or `stackempty` spells, and `None` for any other token.
#[tactic(auto, unfolding(crate::specs::Reading::nothing_at))]
fn empty_answer(word: &[u8]) -> Option<Reply>
    ensures { result ≡ nothing_at word.now }
{
    if word == b"dead".as_slice() {
        return Some(Reply::Dead);
    }
    if word == b"none".as_slice() {
        return Some(Reply::Nothing);
    }
    if word == b"stackfull".as_slice() {
        return Some(Reply::StackFull);
    }
    if word == b"stackempty".as_slice() {
        return Some(Reply::StackEmpty);
    }
    None
}

/// Returns the command that tokens spell, or `None` exactly if they spell no command.
pub(crate) fn command(alloc: Global, words: &[&[u8]]) -> Result<Option<Command>, NoMemory>
    ensures { IfOk result (IsCommandIf (map (λ w. w.now) words.now)) }
{
    let line = join_tokens(alloc, words)?;
    let command = command_of(alloc, line.as_slice())?;
    Ok(command)
}

// Returns the line of these tokens, with single spaces between them.
fn join_tokens(alloc: Global, words: &[&[u8]]) -> Result<Vec<u8>, NoMemory>
    ensures { IfOk result (λ line. line.items ≡ spaced (map (λ w. w.now) words.now)) }
{
    let mut line = Vec::with_capacity(alloc, 64)?;
    let Some((first, rest)) = words.split_first() else {
        return Ok(line);
    };
    line.extend_from_slice(first)?;
    push_words(&mut line, rest)?;
    Ok(line)
}

// Appends tokens to a line, each after a space.
fn push_words(line: &mut Vec<u8>, words: &[&[u8]]) -> Result<(), NoMemory>
    ensures { OnOk result (line.new.items ≡ line.old.items ++ after_spaces (map (λ w. w.now) words.now)) }
{
    for word in words {
        line.push(b' ')?;
        line.extend_from_slice(word)?;
    }
    Ok(())
}

/// Returns the command that a line of a script spells, or `None` exactly if it spells no command.
pub(crate) fn command_of(alloc: Global, line: &[u8]) -> Result<Option<Command>, NoMemory>
    ensures { IfOk result (IsSpelledIf line.now) }
{
    if has_feed(line) {
        return Ok(None);
    }
    let text = script_of(alloc, line)?;
    if text.len() > LONGEST {
        return Ok(None);
    }
    command_in(alloc, parse(alloc, text.as_slice()))
}

// Whether a line has a line feed in it.
fn has_feed(line: &[u8]) -> bool
    ensures { IsTrue result ↔ Contains line.now 10 }
{
    line.contains(&b'\n')
}

// Returns the text of a script whose only command is this line.
fn script_of(alloc: Global, line: &[u8]) -> Result<Vec<u8>, NoMemory>
    ensures { IfOk result (λ text. text.items ≡ script_head ++ line.now ++ 10 ∷ []) }
{
    let mut text = Vec::with_capacity(alloc, 128)?;
    text.extend_from_slice(b"nmgc 3\nheap 128 4096 4096 4096 1048576 8\nthread 0\n")?;
    text.extend_from_slice(line)?;
    text.push(b'\n')?;
    Ok(text)
}

// Returns the last command of the script that `parse` read, or `None` if the script is bad or its last section has no
// command. If `parse` found no memory, returns the error.
fn command_in(alloc: Global, read: Result<Script, ScriptFault>) -> Result<Option<Command>, NoMemory>
    ensures { IsLastOf read result }
{
    match read {
        Ok(script) => last_command(alloc, script),
        Err(ScriptFault::NoMemory) => Err(NoMemory),
        Err(ScriptFault::Bad { .. }) => Ok(None),
    }
}

// Returns the last command of the last section of a script, or `None` if there is none.
fn last_command(alloc: Global, script: Script) -> Result<Option<Command>, NoMemory>
    ensures { IfOk result (IsLastIf script.threads) }
{
    match last_packed(script) {
        Some(packed) => Ok(Some(packed.unpack(alloc)?)),
        None => Ok(None),
    }
}

// Returns the last command of the last section, packed as it is in the script, or `None` if there is none.
fn last_packed(script: Script) -> Option<PackedCommand>
    ensures { IsLastIf script.threads result }
{
    let mut script = script;
    let Some(mut commands) = script.threads.pop() else {
        return None;
    };
    commands.pop()
}
