//! The objects of the snapshot that a line stores or removes, in the fields that it changes.
ghost use Rattle.std.specs.Prelude.{◌≡◌, ◌≢◌, ◌↔◌, ◌<◌, ℕ, length, Some, IfOk};
ghost use Rattle.nmgc_field_checker.specs.{Fields.AreBroken, Fields.AreStored, Fields.IsBrokenAt, Fields.IsStoredAt, Fields.Refers, Heaps.Has};

use crate::heap::{FieldHeap, has_target};
use nmgc_lists::{List, NoMemory};

/// Returns the objects that a store removes from fields which were unchanged since the snapshot, for each field. The store
/// puts `fields` into the fields of `object`, from the field `place` on.
pub(crate) fn broken_by(
    snapshot: &FieldHeap,
    heap: &FieldHeap,
    object: u32,
    place: u32,
    fields: &[Option<u32>],
) -> Result<List<u32>, NoMemory>
    ensures { IfOk result (AreBroken snapshot.now heap.now object place fields.now) }
{
    let mut broken = List::new(heap.alloc());
    for at in 0..fields.len() {
        match broken_at(snapshot, heap, object, place, fields, at) {
            Some(target) => broken.push(target)?,
            None => {}
        }
    }
    Ok(broken)
}

// Returns the object that a store removes from one field, if the field was unchanged since the snapshot.
fn broken_at(
    snapshot: &FieldHeap,
    heap: &FieldHeap,
    object: u32,
    place: u32,
    fields: &[Option<u32>],
    at: usize,
) -> Option<u32>
    requires { at < length fields.now }
    ensures { (target : ℕ) → (result ≡ Some target) ↔ IsBrokenAt snapshot.now heap.now object place fields.now at target }
{
    match heap.target(object, place as usize + at) {
        Some(target) => broken_target(snapshot, object, place as usize + at, fields[at], target),
        None => None,
    }
}

// Returns the target of a field if the store puts another value there, and the snapshot has the target in that field too.
fn broken_target(
    snapshot: &FieldHeap,
    object: u32,
    place: usize,
    field: Option<u32>,
    target: u32,
) -> Option<u32>
    ensures { (other : ℕ) → (result ≡ Some other) ↔ ((other ≡ target) × (field ≢ Some other) × Has snapshot.now other × Refers snapshot.now object place other) }
{
    if has_target(field, target) {
        return None;
    }
    if !snapshot.has(target) {
        return None;
    }
    if !snapshot.refers(object, place, target) {
        return None;
    }
    Some(target)
}

/// Returns the objects of the snapshot that a store puts into fields, for each field. The store puts `fields` into the fields of
/// `object`, from the field `place` on. A field that had the object already stores nothing.
pub(crate) fn stored_by(
    snapshot: &FieldHeap,
    heap: &FieldHeap,
    object: u32,
    place: u32,
    fields: &[Option<u32>],
) -> Result<List<u32>, NoMemory>
    ensures { IfOk result (AreStored snapshot.now heap.now object place fields.now) }
{
    let mut stored = List::new(heap.alloc());
    for at in 0..fields.len() {
        match stored_at(snapshot, heap, object, place, fields, at) {
            Some(target) => stored.push(target)?,
            None => {}
        }
    }
    Ok(stored)
}

// Returns the object of the snapshot that a store puts into one field, if the field didn't have it.
fn stored_at(
    snapshot: &FieldHeap,
    heap: &FieldHeap,
    object: u32,
    place: u32,
    fields: &[Option<u32>],
    at: usize,
) -> Option<u32>
    requires { at < length fields.now }
    ensures { (target : ℕ) → (result ≡ Some target) ↔ IsStoredAt snapshot.now heap.now object place fields.now at target }
{
    match fields[at] {
        Some(target) => stored_target(snapshot, heap, object, place as usize + at, target),
        None => None,
    }
}

// Returns the target if the snapshot has it, and the field doesn't refer to it.
fn stored_target(
    snapshot: &FieldHeap,
    heap: &FieldHeap,
    object: u32,
    place: usize,
    target: u32,
) -> Option<u32>
    ensures { (other : ℕ) → (result ≡ Some other) ↔ ((other ≡ target) × Has snapshot.now other × (Refers heap.now object place other → ⊥)) }
{
    if !snapshot.has(target) {
        return None;
    }
    if heap.refers(object, place, target) {
        return None;
    }
    Some(target)
}
