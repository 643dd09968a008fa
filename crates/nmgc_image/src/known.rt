//! The names that count as declared while a text is read: at first all, since node lines may come later. Then the mentioned
//! names are looked up. If one has no node line, the text is read again, and the first line to mention such a name is bad.
ghost use Rattle.std.specs.{Prelude.◌≡◌, Prelude.true, List.list_all, Option.option_to_list};
ghost use Rattle.nmgc_world_spec.specs.World.{shared_name, held_by};
ghost use Rattle.nmgc_image.specs.{Known.test_of, Reading.is_declared, Reading.is_own_in, Reading.is_object_in, Reading.AreMentionsIn};

use crate::declared::Declared;
use crate::image::{Entry, Held, ImageMutator};
use crate::reader::Reader;
use nmgc_world_spec::{Name, Node, Value};

/// The names that count as declared: every name, or the names of a set.
#[derive(Drop)]
pub(crate) enum Known {
    Every,
    Of(Declared),
}

/// Whether a name counts as declared. Takes no memory.
pub(crate) fn is_known(known: &Known, name: Name) -> bool
    ensures { result ≡ test_of known.now name }
{
    match known {
        Known::Of(declared) => declared.has(name),
        Known::Every => true,
    }
}

/// Whether the name that a value refers to counts as declared. True if the value refers to no name. Takes no memory.
pub(crate) fn is_value_known(known: &Known, value: Value) -> bool
    ensures { result ≡ is_declared (test_of known.now) value }
{
    match value {
        Value::Ref(name) => is_known(known, name),
        _ => true,
    }
}

/// Whether each name that a node mentions counts as declared. Takes no memory.
pub(crate) fn is_node_known(known: &Known, node: &Node) -> bool
    ensures { result ≡ list_all (is_declared (test_of known.now)) (held_by node.now) }
{
    match node {
        Node::Con { values, .. } | Node::Arr { values } | Node::Stack { values, .. } => {
            are_values_known(known, values.items())
        }
        Node::Var { value } => is_value_known(known, *value),
        Node::Thunk { free, result } => {
            is_result_known(known, *result) && are_values_known(known, free.items())
        }
        Node::Weak { parts: None } => true,
        Node::Weak { parts: Some(parts) } => {
            is_value_known(known, parts.key)
                && is_value_known(known, parts.value)
                && is_value_known(known, parts.finaliser)
        }
    }
}

// Whether the name in a thunk's result counts as declared. True without a result, or without a name in it.
fn is_result_known(known: &Known, outcome: Option<Value>) -> bool
    ensures { result ≡ list_all (is_declared (test_of known.now)) (option_to_list outcome) }
{
    match outcome {
        Some(value) => is_value_known(known, value),
        None => true,
    }
}

// Whether each name to which these values refer counts as declared.
fn are_values_known(known: &Known, values: &[Value]) -> bool
    ensures { result ≡ list_all (is_declared (test_of known.now)) values.now }
{
    values.iter().all(|value| is_value_known(known, *value))
}

// Whether each name to which these registers refer counts as declared.
fn are_registers_known(known: &Known, registers: &[Held]) -> bool
    ensures { result ≡ list_all (λ held. is_declared (test_of known.now) held.value) registers.now }
{
    registers
        .iter()
        .all(|held| is_value_known(known, held.value))
}

// Whether each name in a mutator's registers and queue counts as declared.
fn is_own_known(known: &Known, own: &ImageMutator) -> bool
    ensures { result ≡ is_own_in (test_of known.now) own.now }
{
    are_registers_known(known, own.registers.items()) && are_values_known(known, own.queue.items())
}

// Whether each name in the registers and queues of these mutators counts as declared.
fn are_owns_known(known: &Known, owns: &[ImageMutator]) -> bool
    ensures { result ≡ list_all (is_own_in (test_of known.now)) owns.now }
{
    owns.iter().all(|own| is_own_known(known, own))
}

// Whether each name in the current mutator's registers and queue counts as declared. True without a current mutator.
fn is_current_known(known: &Known, current: &Option<ImageMutator>) -> bool
    ensures { result ≡ list_all (is_own_in (test_of known.now)) (option_to_list current.now) }
{
    match current {
        Some(own) => is_own_known(known, own),
        None => true,
    }
}

// Whether each name that the nodes of these objects mention counts as declared.
fn are_objects_known(known: &Known, nodes: &[Entry]) -> bool
    ensures { result ≡ list_all (is_object_in (test_of known.now)) nodes.now }
{
    nodes.iter().all(|entry| is_node_known(known, &entry.node))
}

// Whether g counts as declared. True if the end line wasn't read.
fn is_end_known(known: &Known, ended: bool) -> bool
    ensures { result ≡ true → ended ≡ true → test_of known.now shared_name ≡ true }
{
    !ended || is_known(known, Name::SHARED)
}

/// Whether each name mentioned in the lines read counts as declared. The end line mentions g. Takes no memory.
pub(crate) fn are_mentions_known(known: &Known, reader: &Reader) -> bool
    ensures { result ≡ true → AreMentionsIn (test_of known.now) reader.now }
{
    if !are_owns_known(known, reader.done.items()) {
        return false;
    }
    if !is_current_known(known, &reader.current) {
        return false;
    }
    if !are_objects_known(known, reader.nodes.items()) {
        return false;
    }
    is_end_known(known, reader.ended)
}
