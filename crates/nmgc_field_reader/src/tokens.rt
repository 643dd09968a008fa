//! The meaning of the tokens of a line of format 3: mutators, actors, numbers, and the objects of names.
ghost use Rattle.std.specs.Prelude.{◌≡◌, ◌≤◌, [], map, IfSome, IfOk};
ghost use Rattle.nmgc_field_reader.specs.FieldLines.{known_by};
ghost use Rattle.nmgc_field_reader.specs.FieldReading.{actor_at, each_at, mutator_at, no_objects_at, number_at, object_named, objects_at, short_at, value_named};

use crate::names::{FieldNames, NO_OBJECT, is_name};
use nmgc_field_checker::Actor;
use nmgc_io::read_number;
use nmgc_lists::{List, NoMemory};
use std::alloc::Global;

// The greatest number of a mutator.
const MOST: u64 = (1 << 62) - 1;

// Returns the number up to `limit` that a token spells, or `None`.
fn number(word: &[u8], limit: u64) -> Option<u64>
    ensures gives { result ≡ number_at limit word.now }
    ensures within { IfSome result (λ n. n ≤ limit) }
{
    read_number(word, limit)
}

/// Returns the mutator that a token spells, or `None`.
#[tactic(auto, unfolding(crate::specs::FieldReading::mutator_at))]
pub(crate) fn mutator_of(word: &[u8]) -> Option<Actor>
    ensures { result ≡ mutator_at word.now }
{
    let mutator = number(word, MOST)?;
    Some(Actor {
        number: mutator + 1,
    })
}

/// Returns the actor that a token spells, a mutator or a hyphen for the runtime itself, or `None`.
#[tactic(auto, unfolding(crate::specs::FieldReading::actor_at))]
pub(crate) fn actor_of(word: &[u8]) -> Option<Actor>
    ensures { result ≡ actor_at word.now }
{
    if word == b"-".as_slice() {
        return Some(Actor { number: 0 });
    }
    mutator_of(word)
}

/// Returns the number below 2^32 that a token spells, or `None`.
pub(crate) fn short(word: &[u8]) -> Option<u32>
    ensures { result ≡ short_at word.now }
{
    Some(number(word, u64::from(u32::MAX))? as u32)
}

/// Returns the object of a name, `NO_OBJECT` if the heap has none, or `None` if the token is no name.
#[tactic(auto, unfolding(crate::specs::FieldReading::object_named))]
pub(crate) fn object_of(names: &FieldNames, word: &[u8]) -> Option<u32>
    ensures { result ≡ object_named (known_by names.now) word.now }
{
    if !is_name(word) {
        return None;
    }
    Some(names.object(word).unwrap_or(NO_OBJECT))
}

/// Returns the value that a token spells: the object of a name, or nothing for a hyphen. Returns `None` for other tokens.
#[tactic(auto, unfolding(crate::specs::FieldReading::value_named))]
pub(crate) fn field_of(names: &FieldNames, word: &[u8]) -> Option<Option<u32>>
    ensures { result ≡ value_named (known_by names.now) word.now }
{
    if word == b"-".as_slice() {
        return Some(None);
    }
    Some(Some(object_of(names, word)?))
}

/// Returns the objects of these names, or none for a single hyphen. Returns `None` for other tokens, or if there are none.
#[tactic(auto, unfolding(crate::specs::FieldReading::objects_at))]
pub(crate) fn objects_of(
    alloc: Global,
    names: &FieldNames,
    words: &[&[u8]],
) -> Result<Option<List<u32>>, NoMemory>
    ensures { IfOk result (λ objects. objects ≡ objects_at (known_by names.now) (map (λ w. w.now) words.now)) }
{
    let [word, rest @ ..] = words else {
        return Ok(None);
    };
    if *word == b"-".as_slice() {
        return Ok(no_objects(alloc, rest));
    }
    each_object(alloc, names, words)
}

// Returns an empty list of objects if there are no tokens, and otherwise `None`.
#[tactic(auto, unfolding(crate::specs::FieldReading::no_objects_at))]
fn no_objects(alloc: Global, words: &[&[u8]]) -> Option<List<u32>>
    ensures { result ≡ no_objects_at (map (λ w. w.now) words.now) }
{
    match words {
        [] => Some(List::new(alloc)),
        _ => None,
    }
}

// Returns the objects of these names, or `None` if one of the tokens is no name.
fn each_object(
    alloc: Global,
    names: &FieldNames,
    words: &[&[u8]],
) -> Result<Option<List<u32>>, NoMemory>
    ensures { IfOk result (λ objects. objects ≡ each_at (object_named (known_by names.now)) (map (λ w. w.now) words.now)) }
{
    let mut objects = List::new(alloc);
    for word in words {
        let Some(object) = object_of(names, word) else {
            return Ok(None);
        };
        objects.push(object)?;
    }
    Ok(Some(objects))
}

/// Returns the values that tokens spell, a name or a hyphen each, or `None` if one of them spells none.
pub(crate) fn fields_of(
    alloc: Global,
    names: &FieldNames,
    words: &[&[u8]],
) -> Result<Option<List<Option<u32>>>, NoMemory>
    ensures { IfOk result (λ fields. fields ≡ each_at (value_named (known_by names.now)) (map (λ w. w.now) words.now)) }
{
    let mut fields = List::new(alloc);
    for word in words {
        let Some(field) = field_of(names, word) else {
            return Ok(None);
        };
        fields.push(field)?;
    }
    Ok(Some(fields))
}
