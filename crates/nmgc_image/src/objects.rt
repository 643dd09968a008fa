//! Objects read from the words of a heap after the last write.
//!
//! The field words of an object are copied to one buffer, which the whole search reuses. The kind determines which words
//! represent values. A thunk with a result has dropped its free variables, a dead weak pointer all its parts, and a stack the
//! slots above its depth. Nothing is known of the other words. They are copied too, but not taken as values.
ghost use Rattle.std.specs.Prelude.{◌≡◌, ◌+◌, ◌^◌, ◌≤◌, ◌<◌, ◌/◌, length, map, take, drop, All, IfOk, OnOk, IfSome, IfNone, IsTrue, true, false};
ghost use Rattle.nmgc_object.specs.{declared.size.TheConstants.HEADER_WORDS as header_words, declared.words.Header.Header as HeaderOf};
ghost use Rattle.nmgc_image.specs.Objects.{IsNamedAt, IsObjectAt, IsReadable, name_in, value_in, is_pointer, leading, value_words, thunk_words, weak_words, fields_at, value_words_at, begins_unset, made_of, var_of, thunk_of, weak_of, node_read};

use nmgc_journal::FinalWords;
use nmgc_lists::{List, NoMemory};
use nmgc_object::words::{FieldWord, Header, header_of, name_of};
use nmgc_object::{HEADER_WORDS, NAME_OFFSET};
use nmgc_world_spec::{Kind, Name, Node, Parts, Value};
use std::alloc::Global;

/// Returns the name of the object at an address. Takes no memory.
pub(crate) fn name_at(words: &FinalWords, at: u32) -> Name
    requires { IsNamedAt words.now at }
    ensures { result ≡ name_in words.now at }
{
    name_of(words.word((at + NAME_OFFSET) as usize))
}

// Returns the header of the object at an address.
fn header_at(words: &FinalWords, at: u32) -> Header
    requires { IsObjectAt words.now at }
    ensures { (object : IsObjectAt words.now at) → result ≡ object.header }
{
    header_of(words.word(at as usize))
}

/// Returns the address that a field word points to, or `None` exactly if the word is no pointer.
pub(crate) fn place_in(word: u64) -> Option<u64>
    ensures some { IfSome result (λ at. (is_pointer word ≡ true) × (at ≡ word / 2)) }
    ensures none { IfNone result (is_pointer word ≡ false) }
{
    let at = FieldWord(word).place()?;
    if at == 0 {
        return None;
    }
    Some(at)
}

// Returns the value that a field word represents.
fn value_of(words: &FinalWords, word: u64) -> Value
    requires { IsReadable words.now word }
    ensures { result ≡ value_in words.now word }
{
    if let Some(at) = FieldWord(word).place() {
        return Value::Ref(name_at(words, at as u32));
    }
    match FieldWord(word).number() {
        Some(number) => Value::Number(number),
        None => Value::Nil,
    }
}

/// Returns the values that field words represent.
pub(crate) fn values_of(
    alloc: Global,
    words: &FinalWords,
    fields: &[u64],
) -> Result<List<Value>, NoMemory>
    requires { All (IsReadable words.now) fields.now }
    ensures { IfOk result (λ values. values ≡ map (value_in words.now) fields.now) }
{
    let mut values = List::new(alloc);
    for word in fields {
        values.push(value_of(words, *word))?;
    }
    Ok(values)
}

/// Replaces the content of `buffer` by the field words of the object at an address, and returns the object's header.
pub(crate) fn copy_fields(
    words: &FinalWords,
    at: u32,
    buffer: &mut Vec<u64>,
) -> Result<Header, NoMemory>
    requires { IsObjectAt words.now at }
    ensures header { (object : IsObjectAt words.now at) → IfOk result (λ header. header ≡ object.header) }
    ensures fields { (object : IsObjectAt words.now at) → OnOk result (buffer.new.items ≡ fields_at words.now at object.header) }
{
    let header = header_at(words, at);
    copy_words(words, at + HEADER_WORDS, header.fields, buffer)?;
    Ok(header)
}

// Replaces the content of `buffer` by the `count` words from an address on.
fn copy_words(
    words: &FinalWords,
    from: u32,
    count: u32,
    buffer: &mut Vec<u64>,
) -> Result<(), NoMemory>
    requires within { from + count ≤ length words.now }
    requires small { from + count < 2 ^ 32 }
    ensures { OnOk result (buffer.new.items ≡ take count (drop from words.now)) }
{
    buffer.clear();
    for place in 0..count {
        buffer.push(words.word((from + place) as usize))?;
    }
    Ok(())
}

/// Returns the field words of an object that represent values. Takes no memory.
pub(crate) fn value_words(kind: Kind, fields: &[u64]) -> &[u64]
    ensures { result.now ≡ value_words kind fields.now }
{
    match kind {
        Kind::Con | Kind::Var | Kind::Arr => fields,
        Kind::Thunk => value_words_of_thunk(fields),
        Kind::Weak => value_words_of_weak(fields),
        Kind::Stack => value_words_of_stack(fields),
    }
}

// Returns the field words of a thunk that represent values: its result or, if the result is unset, its free variables.
fn value_words_of_thunk(fields: &[u64]) -> &[u64]
    ensures { result.now ≡ thunk_words fields.now }
{
    match fields {
        [] => &[],
        [result, free @ ..] => { if *result == 0 { free } else { &fields[..1] } }
    }
}

// Returns the field words of a weak pointer that represent values: all three, or none if it is dead or hasn't three fields.
fn value_words_of_weak(fields: &[u64]) -> &[u64]
    ensures { result.now ≡ weak_words fields.now }
{
    match fields {
        [_, value, _] => { if *value == 0 { &[] } else { fields } }
        _ => &[],
    }
}

// Returns the field words of a stack that represent values: those before the first 0, which are the slots below its depth.
fn value_words_of_stack(fields: &[u64]) -> &[u64]
    ensures { result.now ≡ leading fields.now }
{
    let mut depth = 0;
    while depth < fields.len() && fields[depth] != 0 {
        depth += 1;
    }
    &fields[..depth]
}

// Whether the first field word is unset, which is 0. False if there is no field.
fn begins_unset(fields: &[u64]) -> bool
    ensures { result ≡ begins_unset fields.now }
{
    match fields {
        [] => false,
        [first, ..] => *first == 0,
    }
}

/// Returns the node of the object at an address, as an image shows it: a thunk with a result has no free variables any more.
pub(crate) fn node_at(
    alloc: Global,
    words: &FinalWords,
    at: u32,
    buffer: &mut Vec<u64>,
) -> Result<Node, NoMemory>
    requires object { IsObjectAt words.now at }
    requires readable { (object : IsObjectAt words.now at) → All (IsReadable words.now) (value_words_at words.now at object.header) }
    ensures { (object : IsObjectAt words.now at) → IfOk result (λ node. node ≡ node_read words.now at object.header) }
{
    let header = copy_fields(words, at, buffer)?;
    let fields = buffer.as_slice();
    let values = values_of(alloc, words, value_words(header.kind, fields))?;
    make_node(alloc, header, begins_unset(fields), values)
}

// Returns the node of an object, made from its header, from whether its first field is unset, and from its values.
fn make_node(
    alloc: Global,
    header: Header,
    unset: bool,
    values: List<Value>,
) -> Result<Node, NoMemory>
    ensures { IfOk result (λ node. node ≡ made_of header.kind header unset values) }
{
    let Header { kind, tag, fields } = header;
    Ok(match kind {
        Kind::Con => Node::Con { tag, values },
        Kind::Var => make_var(values.items()),
        Kind::Arr => Node::Arr { values },
        Kind::Thunk => make_thunk(alloc, unset, values),
        Kind::Weak => make_weak(values.items()),
        Kind::Stack => Node::Stack {
            size: fields,
            values,
        },
    })
}

// Returns the variable with the first of these values, or with nil if there is none.
fn make_var(values: &[Value]) -> Node
    ensures { result ≡ var_of values.now }
{
    match values {
        [value, ..] => Node::Var { value: *value },
        [] => Node::Var { value: Value::Nil },
    }
}

// Returns a thunk: these values are its free variables if its result is unset. Otherwise the first, if any, is its result.
fn make_thunk(alloc: Global, unset: bool, values: List<Value>) -> Node
    ensures { result ≡ thunk_of unset values }
{
    if unset {
        return Node::Thunk {
            free: values,
            result: None,
        };
    }
    Node::Thunk {
        free: List::new(alloc),
        result: values.items().first().copied(),
    }
}

// Returns a weak pointer: alive with three values, its key, value and finaliser, and dead with any other number.
fn make_weak(values: &[Value]) -> Node
    ensures { result ≡ weak_of values.now }
{
    match values {
        [key, value, finaliser] => Node::Weak {
            parts: Some(Parts {
                key: *key,
                value: *value,
                finaliser: *finaliser,
            }),
        },
        _ => Node::Weak { parts: None },
    }
}
