//! The event of a line of format 3. An event has the number of the object with a name. To a name that the heap doesn't have, it
//! has a number that no object has, and so the event is refused.
ghost use Rattle.std.specs.Prelude.{◌≡◌, map, IfOk};
ghost use Rattle.nmgc_field_reader.specs.FieldLines.{known_by};
ghost use Rattle.nmgc_field_reader.specs.FieldReading.{acted_at, began_at, black_at, close_at, ended_at, ending_at, event_at, freed_at, handed_at, made_at, mark_at, marked_at, new_at, owed_at, push_at, scan_at, settle_at, stop_at, verb_at, written_at};

use crate::names::{FieldNames, is_name};
use crate::tokens::{actor_of, fields_of, mutator_of, object_of, objects_of, short};
use nmgc_field_checker::{Actor, FieldEvent};
use nmgc_lists::{List, NoMemory};
use std::alloc::Global;

/// Returns the event of a line with these tokens, or `None` if they are no line of a trace.
#[tactic(auto, unfolding(crate::specs::FieldReading::event_at))]
pub(crate) fn event_of(
    alloc: Global,
    names: &FieldNames,
    words: &[&[u8]],
) -> Result<Option<FieldEvent>, NoMemory>
    ensures { IfOk result (λ event. event ≡ event_at (known_by names.now) (map (λ w. w.now) words.now)) }
{
    let [word, rest @ ..] = words else {
        return Ok(None);
    };
    if *word == b"began".as_slice() {
        return Ok(began_event(rest));
    }
    if *word == b"ended".as_slice() {
        return Ok(ended_event(rest));
    }
    if *word == b"mark".as_slice() {
        return mark_event(alloc, names, rest);
    }
    if *word == b"scan".as_slice() {
        return scan_event(alloc, names, rest);
    }
    if *word == b"push".as_slice() {
        return Ok(push_event(names, rest));
    }
    if *word == b"settle".as_slice() {
        return Ok(settle_event(rest));
    }
    ending_event(alloc, names, word, rest)
}

// Returns the event of a line that ends a cycle or the trace, or reports on the last cycle, or else of a line of an actor.
#[tactic(auto, unfolding(crate::specs::FieldReading::ending_at))]
fn ending_event(
    alloc: Global,
    names: &FieldNames,
    word: &[u8],
    rest: &[&[u8]],
) -> Result<Option<FieldEvent>, NoMemory>
    ensures { IfOk result (λ event. event ≡ ending_at (known_by names.now) word.now (map (λ w. w.now) rest.now)) }
{
    if word == b"close".as_slice() {
        return Ok(close_event(rest));
    }
    if word == b"marked".as_slice() {
        return marked_event(alloc, names, rest);
    }
    if word == b"black".as_slice() {
        return black_event(alloc, names, rest);
    }
    if word == b"freed".as_slice() {
        return freed_event(alloc, names, rest);
    }
    if word == b"stop".as_slice() {
        return Ok(stop_event(rest));
    }
    actor_event(alloc, names, word, rest)
}

// Returns the beginning of the mutator that the one token after `began` spells, or `None` for any other tokens.
#[tactic(auto, unfolding(crate::specs::FieldReading::began_at))]
fn began_event(words: &[&[u8]]) -> Option<FieldEvent>
    ensures { result ≡ began_at (map (λ w. w.now) words.now) }
{
    let [mutator] = words else {
        return None;
    };
    let mutator = mutator_of(mutator)?;
    Some(FieldEvent::Began { mutator })
}

// Returns the end of the mutator that the one token after `ended` spells, or `None` for any other tokens.
#[tactic(auto, unfolding(crate::specs::FieldReading::ended_at))]
fn ended_event(words: &[&[u8]]) -> Option<FieldEvent>
    ensures { result ≡ ended_at (map (λ w. w.now) words.now) }
{
    let [mutator] = words else {
        return None;
    };
    let mutator = mutator_of(mutator)?;
    Some(FieldEvent::Ended { mutator })
}

// Returns the settle of the mutator that the one token after `settle` spells, or `None` for any other tokens.
#[tactic(auto, unfolding(crate::specs::FieldReading::settle_at))]
fn settle_event(words: &[&[u8]]) -> Option<FieldEvent>
    ensures { result ≡ settle_at (map (λ w. w.now) words.now) }
{
    let [mutator] = words else {
        return None;
    };
    let mutator = mutator_of(mutator)?;
    Some(FieldEvent::Settle { mutator })
}

// Returns the push that the tokens `ACTOR NAME` after `push` spell, or `None` for any other tokens.
#[tactic(auto, unfolding(crate::specs::FieldReading::push_at))]
fn push_event(names: &FieldNames, words: &[&[u8]]) -> Option<FieldEvent>
    ensures { result ≡ push_at (known_by names.now) (map (λ w. w.now) words.now) }
{
    let [actor, name] = words else {
        return None;
    };
    let actor = actor_of(actor)?;
    let object = object_of(names, name)?;
    Some(FieldEvent::Push { actor, object })
}

// Returns the mark with the roots that the tokens after `mark` spell, or `None`.
#[tactic(auto, unfolding(crate::specs::FieldReading::mark_at))]
fn mark_event(
    alloc: Global,
    names: &FieldNames,
    words: &[&[u8]],
) -> Result<Option<FieldEvent>, NoMemory>
    ensures { IfOk result (λ event. event ≡ mark_at (known_by names.now) (map (λ w. w.now) words.now)) }
{
    let Some(roots) = objects_of(alloc, names, words)? else {
        return Ok(None);
    };
    Ok(Some(FieldEvent::Mark { roots }))
}

// Returns the scan with the mutator and the roots that the tokens after `scan` spell, or `None`.
#[tactic(auto, unfolding(crate::specs::FieldReading::scan_at))]
fn scan_event(
    alloc: Global,
    names: &FieldNames,
    words: &[&[u8]],
) -> Result<Option<FieldEvent>, NoMemory>
    ensures { IfOk result (λ event. event ≡ scan_at (known_by names.now) (map (λ w. w.now) words.now)) }
{
    let [mutator, rest @ ..] = words else {
        return Ok(None);
    };
    let Some(mutator) = mutator_of(mutator) else {
        return Ok(None);
    };
    let Some(roots) = objects_of(alloc, names, rest)? else {
        return Ok(None);
    };
    Ok(Some(FieldEvent::Scan { mutator, roots }))
}

// Returns the close if no token follows `close`, and otherwise `None`.
#[tactic(auto, unfolding(crate::specs::FieldReading::close_at))]
fn close_event(words: &[&[u8]]) -> Option<FieldEvent>
    ensures { result ≡ close_at (map (λ w. w.now) words.now) }
{
    let [] = words else {
        return None;
    };
    Some(FieldEvent::Close)
}

// Returns the report of marked objects that the tokens after `marked` spell, or `None`.
#[tactic(auto, unfolding(crate::specs::FieldReading::marked_at))]
fn marked_event(
    alloc: Global,
    names: &FieldNames,
    words: &[&[u8]],
) -> Result<Option<FieldEvent>, NoMemory>
    ensures { IfOk result (λ event. event ≡ marked_at (known_by names.now) (map (λ w. w.now) words.now)) }
{
    let Some(objects) = objects_of(alloc, names, words)? else {
        return Ok(None);
    };
    Ok(Some(FieldEvent::Marked { objects }))
}

// Returns the report of marked objects that the tokens after `black` spell, or `None`. Objects made since `mark` may be there.
#[tactic(auto, unfolding(crate::specs::FieldReading::black_at))]
fn black_event(
    alloc: Global,
    names: &FieldNames,
    words: &[&[u8]],
) -> Result<Option<FieldEvent>, NoMemory>
    ensures { IfOk result (λ event. event ≡ black_at (known_by names.now) (map (λ w. w.now) words.now)) }
{
    let Some(objects) = objects_of(alloc, names, words)? else {
        return Ok(None);
    };
    Ok(Some(FieldEvent::Black { objects }))
}

// Returns the report of freed objects that the tokens after `freed` spell, or `None`.
#[tactic(auto, unfolding(crate::specs::FieldReading::freed_at))]
fn freed_event(
    alloc: Global,
    names: &FieldNames,
    words: &[&[u8]],
) -> Result<Option<FieldEvent>, NoMemory>
    ensures { IfOk result (λ event. event ≡ freed_at (known_by names.now) (map (λ w. w.now) words.now)) }
{
    let Some(objects) = objects_of(alloc, names, words)? else {
        return Ok(None);
    };
    Ok(Some(FieldEvent::Freed { objects }))
}

// Returns the event `Stop` if no token follows `stop`, and otherwise `None`.
#[tactic(auto, unfolding(crate::specs::FieldReading::stop_at))]
fn stop_event(words: &[&[u8]]) -> Option<FieldEvent>
    ensures { result ≡ stop_at (map (λ w. w.now) words.now) }
{
    let [] = words else {
        return None;
    };
    Some(FieldEvent::Stop)
}

// Returns the event of a line that begins with its actor, or `None` if it is no such line.
#[tactic(auto, unfolding(crate::specs::FieldReading::acted_at))]
fn actor_event(
    alloc: Global,
    names: &FieldNames,
    word: &[u8],
    words: &[&[u8]],
) -> Result<Option<FieldEvent>, NoMemory>
    ensures { IfOk result (λ event. event ≡ acted_at (known_by names.now) word.now (map (λ w. w.now) words.now)) }
{
    let [verb, name, rest @ ..] = words else {
        return Ok(None);
    };
    let Some(actor) = actor_of(word) else {
        return Ok(None);
    };
    verb_event(alloc, names, actor, verb, name, rest)
}

// Returns the event of an actor's line with this verb about a name, or `None` if it is no such line.
#[tactic(auto, unfolding(crate::specs::FieldReading::verb_at))]
fn verb_event(
    alloc: Global,
    names: &FieldNames,
    actor: Actor,
    verb: &[u8],
    name: &[u8],
    rest: &[&[u8]],
) -> Result<Option<FieldEvent>, NoMemory>
    ensures { IfOk result (λ event. event ≡ verb_at (known_by names.now) actor verb.now name.now (map (λ w. w.now) rest.now)) }
{
    if verb == b"new".as_slice() {
        return made_event(alloc, names, actor, name, rest);
    }
    if verb == b"write".as_slice() {
        return written_event(alloc, names, actor, name, rest);
    }
    if verb == b"hand".as_slice() {
        return Ok(handed_event(names, actor, name, rest));
    }
    if verb == b"owes".as_slice() {
        return Ok(owed_event(names, actor, name, rest));
    }
    Ok(None)
}

// Returns the making of an object with this name, a count of fields and values, or `None` if the tokens are no such line.
#[tactic(auto, unfolding(crate::specs::FieldReading::made_at))]
fn made_event(
    alloc: Global,
    names: &FieldNames,
    actor: Actor,
    name: &[u8],
    words: &[&[u8]],
) -> Result<Option<FieldEvent>, NoMemory>
    ensures { IfOk result (λ event. event ≡ made_at (known_by names.now) actor name.now (map (λ w. w.now) words.now)) }
{
    let [count, values @ ..] = words else {
        return Ok(None);
    };
    if !is_name(name) {
        return Ok(None);
    }
    let Some(count) = short(count) else {
        return Ok(None);
    };
    let Some(fields) = fields_of(alloc, names, values)? else {
        return Ok(None);
    };
    Ok(new_object(actor, names.object(name), count, fields))
}

// Returns the making of an object, or `None` if it has more values than fields.
#[tactic(auto, unfolding(crate::specs::FieldReading::new_at))]
fn new_object(
    actor: Actor,
    taken: Option<u32>,
    count: u32,
    fields: List<Option<u32>>,
) -> Option<FieldEvent>
    ensures { result ≡ new_at actor taken count fields }
{
    if (count as usize) < fields.items().len() {
        return None;
    }
    Some(FieldEvent::Made {
        actor,
        taken,
        count,
        fields,
    })
}

// Returns the store of values into the fields of the object with this name, or `None` if the tokens are no such line.
#[tactic(auto, unfolding(crate::specs::FieldReading::written_at))]
fn written_event(
    alloc: Global,
    names: &FieldNames,
    actor: Actor,
    name: &[u8],
    words: &[&[u8]],
) -> Result<Option<FieldEvent>, NoMemory>
    ensures { IfOk result (λ event. event ≡ written_at (known_by names.now) actor name.now (map (λ w. w.now) words.now)) }
{
    let [place, values @ ..] = words else {
        return Ok(None);
    };
    let [_, ..] = values else {
        return Ok(None);
    };
    let Some(object) = object_of(names, name) else {
        return Ok(None);
    };
    let Some(place) = short(place) else {
        return Ok(None);
    };
    let Some(fields) = fields_of(alloc, names, values)? else {
        return Ok(None);
    };
    Ok(Some(FieldEvent::Written {
        actor,
        object,
        place,
        fields,
    }))
}

// Returns the line by which a mutator hands an object to the mutator that the one token spells, or `None`.
#[tactic(auto, unfolding(crate::specs::FieldReading::handed_at))]
fn handed_event(
    names: &FieldNames,
    giver: Actor,
    name: &[u8],
    words: &[&[u8]],
) -> Option<FieldEvent>
    ensures { result ≡ handed_at (known_by names.now) giver name.now (map (λ w. w.now) words.now) }
{
    let [taker] = words else {
        return None;
    };
    if giver.number == 0 {
        return None;
    }
    let object = object_of(names, name)?;
    let taker = mutator_of(taker)?;
    Some(FieldEvent::Handed {
        giver,
        object,
        taker,
    })
}

// Returns the line by which an object comes out of a weak pointer or a table, or `None` if tokens follow the name.
#[tactic(auto, unfolding(crate::specs::FieldReading::owed_at))]
fn owed_event(names: &FieldNames, actor: Actor, name: &[u8], words: &[&[u8]]) -> Option<FieldEvent>
    ensures { result ≡ owed_at (known_by names.now) actor name.now (map (λ w. w.now) words.now) }
{
    let [] = words else {
        return None;
    };
    let object = object_of(names, name)?;
    Some(FieldEvent::Owed { actor, object })
}
