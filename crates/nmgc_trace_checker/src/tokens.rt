//! The meaning of the tokens of a line. Numbers and names are spelled as in a report, registers and operands as in a script.
//! Two spaces in a row make an empty token, which is neither a number nor a name.
ghost use Rattle.std.specs.Prelude.{◌≡◌, ◌≤◌, [], map, IfSome, IfOk};
ghost use Rattle.nmgc_journal.specs.Reading.{number_at, name_at};
ghost use Rattle.nmgc_trace_checker.specs.Reading.{byte_at, short_at, register_at, operand_at, each_at, no_names_at, names_at, pusher_at};

use nmgc_io::read_number;
use nmgc_journal::read_name;
use nmgc_limits::REGISTERS;
use nmgc_lists::{List, NoMemory};
use nmgc_world_spec::{Name, Operand};
use std::alloc::Global;

// Returns the number up to `limit` that a token spells, or `None`.
fn number(word: &[u8], limit: u64) -> Option<u64>
    ensures gives { result ≡ number_at limit word.now }
    ensures within { IfSome result (λ n. n ≤ limit) }
{
    read_number(word, limit)
}

/// Returns the number below 256 that a token spells, or `None`. Takes no memory.
pub(crate) fn byte(word: &[u8]) -> Option<u8>
    ensures { result ≡ byte_at word.now }
{
    Some(number(word, u64::from(u8::MAX))? as u8)
}

/// Returns the index or count, a number below 65,536, that a token spells, or `None`. Takes no memory.
pub(crate) fn short(word: &[u8]) -> Option<u32>
    ensures { result ≡ short_at word.now }
{
    Some(number(word, u64::from(u16::MAX))? as u32)
}

/// Returns the number of the register that a token spells, or `None` if no mutator has that register. Takes no memory.
#[tactic(auto, unfolding(crate::specs::Reading::register_at))]
pub(crate) fn register(word: &[u8]) -> Option<u8>
    ensures { result ≡ register_at word.now }
{
    match word {
        [b'r', digits @ ..] => Some(number(digits, u64::from(REGISTERS) - 1)? as u8),
        _ => None,
    }
}

/// Returns the operand that a token spells, `g` or a register, or `None` if it spells no operand. Takes no memory.
#[tactic(auto, unfolding(crate::specs::Reading::operand_at))]
pub(crate) fn operand(word: &[u8]) -> Option<Operand>
    ensures { result ≡ operand_at word.now }
{
    if word == b"g".as_slice() {
        return Some(Operand::Shared);
    }
    Some(Operand::Register(register(word)?))
}

/// Returns the pusher that a token spells: a mutator, or `Some(None)` for a hyphen, which is the collector itself. Returns
/// `None` for any other token. Takes no memory.
#[tactic(auto, unfolding(crate::specs::Reading::pusher_at))]
pub(crate) fn pusher(who: &[u8]) -> Option<Option<u8>>
    ensures { result ≡ pusher_at who.now }
{
    if who == b"-".as_slice() {
        return Some(None);
    }
    Some(Some(byte(who)?))
}

/// Returns the names that tokens spell, or an empty list for a single hyphen. Returns `None` for other tokens, or for none.
#[tactic(auto, unfolding(crate::specs::Reading::names_at))]
pub(crate) fn names(alloc: Global, words: &[&[u8]]) -> Result<Option<List<Name>>, NoMemory>
    ensures { IfOk result (λ names. names ≡ names_at (map (λ w. w.now) words.now)) }
{
    let [word, rest @ ..] = words else {
        return Ok(None);
    };
    if *word == b"-".as_slice() {
        return Ok(no_names(alloc, rest));
    }
    each_name(alloc, words)
}

// Returns an empty list of names if there are no tokens, and otherwise `None`.
#[tactic(auto, unfolding(crate::specs::Reading::no_names_at))]
fn no_names(alloc: Global, words: &[&[u8]]) -> Option<List<Name>>
    ensures { result ≡ no_names_at (map (λ w. w.now) words.now) }
{
    match words {
        [] => Some(List::new(alloc)),
        _ => None,
    }
}

// Returns the names that tokens spell, one each, or `None` if one of the tokens is no name.
fn each_name(alloc: Global, words: &[&[u8]]) -> Result<Option<List<Name>>, NoMemory>
    ensures { IfOk result (λ names. names ≡ each_at name_at (map (λ w. w.now) words.now)) }
{
    let mut names = List::new(alloc);
    for word in words {
        let Some(name) = read_name(word) else {
            return Ok(None);
        };
        names.push(name)?;
    }
    Ok(Some(names))
}
