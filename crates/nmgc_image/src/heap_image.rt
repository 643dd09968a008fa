//! The parts of the image that shows the heap of a report. An image has no addresses: its objects are in order of names, and
//! each field that points to an address refers to the name there.
//!
//! Each object is read from the words and written at once, so no two nodes are in memory at the same time.
ghost use Rattle.std.specs.Prelude.{◌≡◌, ◌↔◌, ◌++◌, ℕ, ◌≤◌, length, map, slice_get, Some, All, IfOk, IsPermutation, IsTrue, OnOk};
ghost use Rattle.std.specs.List.Sorted.{IsNonDecreasingBy};
ghost use Rattle.nmgc_limits.specs.declared.mutators.TheConstants.{REGISTERS};
ghost use Rattle.nmgc_journal.specs.declared.report.MutatorEnd.{MutatorEnd as EndOf};
ghost use Rattle.nmgc_image.specs.{declared.image.ImageMutator.ImageMutator as ShownOf, declared.heap_image.Keyed.Keyed as KeyedOf, Shown.IsReadableObject, Shown.CanShowOwn, Shown.ShowsOwn, Shown.PrintsObjects, Shown.comes_after, Shown.keyed_at, Image.ListsHeld};

use crate::declared::key;
use crate::image::{Entry, Held, ImageMutator};
use crate::objects::{name_at, node_at, values_of};
use crate::reader::is_before;
use crate::write::push_entry;
use nmgc_journal::{FinalWords, MutatorEnd};
use nmgc_lists::{List, NoMemory};
use nmgc_world_spec::{Name, Value};
use std::alloc::Global;

/// An object: its name as a number, and its address.
#[derive(Clone, Copy)]
pub(crate) struct Keyed {
    pub(crate) key: u64,
    pub(crate) at: u32,
}

/// Returns an image's mutators: for each mutator of a report its serial, its queue and its registers that aren't nil.
pub(crate) fn mutators_of(
    alloc: Global,
    words: &FinalWords,
    mutators: &[MutatorEnd],
) -> Result<List<ImageMutator>, NoMemory>
    requires { All (CanShowOwn words.now) mutators.now }
    ensures count { IfOk result (λ shown. length shown ≡ length mutators.now) }
    ensures shown { IfOk result (λ shown. (m : ℕ) (own : EndOf) (image : ShownOf) → slice_get mutators.now m ≡ Some own →
        slice_get shown m ≡ Some image → ShowsOwn words.now own image) }
{
    let mut shown = List::new(alloc);
    for own in mutators {
        shown.push(own_of(alloc, words, own)?)?;
    }
    Ok(shown)
}

// Returns a report's mutator as an image shows it: its serial, its queue and its registers that aren't nil.
fn own_of(alloc: Global, words: &FinalWords, own: &MutatorEnd) -> Result<ImageMutator, NoMemory>
    requires { CanShowOwn words.now own.now }
    ensures { IfOk result (λ image. ShowsOwn words.now own.now image) }
{
    let registers = values_of(alloc, words, own.registers.items())?;
    Ok(ImageMutator {
        serial: own.serial,
        registers: held_of(alloc, registers.items())?,
        queue: values_of(alloc, words, own.queue.items())?,
    })
}

// Returns the registers that aren't nil, each with its number, in order of numbers.
fn held_of(alloc: Global, registers: &[Value]) -> Result<List<Held>, NoMemory>
    requires { length registers.now ≤ REGISTERS }
    ensures { IfOk result (λ held. ListsHeld registers.now held) }
{
    let mut held = List::new(alloc);
    for (register, value) in registers.iter().enumerate() {
        if !is_nil(*value) {
            held.push(Held {
                register: register as u8,
                value: *value,
            })?;
        }
    }
    Ok(held)
}

// Whether a value is nil.
fn is_nil(value: Value) -> bool
    ensures { IsTrue result ↔ (value ≡ Value.Nil) }
{
    matches!(value, Value::Nil)
}

/// Appends the node lines of the objects at these addresses, in order of names and each name once. Takes 16 bytes for each
/// address, and gives them back before the first line is made.
pub(crate) fn push_objects_at(
    alloc: Global,
    out: &mut Vec<u8>,
    words: &FinalWords,
    places: Vec<u32>,
) -> Result<(), NoMemory>
    requires { All (IsReadableObject words.now) places.items }
    ensures { OnOk result (PrintsObjects words.now places.items out.old.items out.new.items) }
{
    let mut places = places;
    put_in_order(alloc, words, &mut places)?;
    push_objects(alloc, out, words, &places)
}

// Puts addresses in the order of the names of the objects there.
fn put_in_order(alloc: Global, words: &FinalWords, places: &mut Vec<u32>) -> Result<(), NoMemory>
    requires { All (IsReadableObject words.now) places.old.items }
    ensures sorted { OnOk result (IsNonDecreasingBy (λ (object : KeyedOf). object.key) (map (keyed_at words.now) places.new.items)) }
    ensures same { OnOk result (IsPermutation places.old.items places.new.items) }
{
    let mut keyed = keyed_of(alloc, words, places.as_slice())?;
    keyed.sort_unstable_by_key(|object| object.key);
    places.clear();
    push_places(places, &keyed)
}

// Appends the objects' addresses.
fn push_places(places: &mut Vec<u32>, keyed: &[Keyed]) -> Result<(), NoMemory>
    ensures { OnOk result (places.new.items ≡ places.old.items ++ map (λ (object : KeyedOf). object.at) keyed.now) }
{
    for object in keyed {
        places.push(object.at)?;
    }
    Ok(())
}

// Returns each of these addresses with the name of the object there, as a number.
fn keyed_of(alloc: Global, words: &FinalWords, places: &[u32]) -> Result<Vec<Keyed>, NoMemory>
    requires { All (IsReadableObject words.now) places.now }
    ensures { IfOk result (λ keyed. keyed.items ≡ map (keyed_at words.now) places.now) }
{
    let mut keyed = Vec::with_capacity(alloc, places.len())?;
    for at in places {
        let key = key(name_at(words, *at));
        keyed.push(Keyed { key, at: *at })?;
    }
    Ok(keyed)
}

// Appends the node lines of the objects at these addresses, each name once. Requires that they are in order of names.
fn push_objects(
    alloc: Global,
    out: &mut Vec<u8>,
    words: &FinalWords,
    places: &[u32],
) -> Result<(), NoMemory>
    requires sorted { IsNonDecreasingBy (λ (object : KeyedOf). object.key) (map (keyed_at words.now) places.now) }
    requires readable { All (IsReadableObject words.now) places.now }
    ensures { OnOk result (PrintsObjects words.now places.now out.old.items out.new.items) }
{
    let mut last = None;
    let mut buffer = Vec::new(alloc);
    for at in places {
        let name = name_at(words, *at);
        if comes_after(last, name) {
            let node = node_at(alloc, words, *at, &mut buffer)?;
            push_entry(out, &Entry { name, node })?;
            last = Some(name);
        }
    }
    Ok(())
}

// Whether a name comes after the last name. True if there is no last name.
fn comes_after(last: Option<Name>, name: Name) -> bool
    ensures { result ≡ comes_after last name }
{
    match last {
        Some(last) => is_before(last, name),
        None => true,
    }
}
