//! The names that a command makes due. A command breaks a field of the snapshot if the world has the field before the command
//! and not after it. A command changes at most one object, at few positions: the field that `set` or `cas` writes, the top
//! that `pop` removes, or a thunk's positions that `update` gives up. So the fields that both worlds have at these positions
//! are noted before the command (`common_fields`), and those that the world doesn't have after it are found
//! (`missing_fields`). The names that a finalised weak pointer kept are read in the snapshot.
//!
//! A mutator whose registers aren't read yet also makes the names due that it stores. A command writes at most one field,
//! which is noted if the world doesn't have it before the command (`coming_field`), or makes one object. After the command
//! the field is there or not (`push_came`), and the names in the new object are read (`names_in`).
//!
//! Easy to get wrong: a field of the snapshot that was broken is whole again only if its target is written back to the same
//! position of the same object. Another field with the same target is no field of the snapshot.
ghost use Rattle.std.specs.Prelude.{◌≡◌, ◌+◌, ◌<◌, ◌≤◌, ◌++◌, take, true, false, length, filter, not, option_to_list, Some, IfOk, OnOk, Contains};
ghost use Rattle.std.specs.List.Sorted.{IsPermutation};
ghost use Rattle.nmgc_world_spec.specs.{World.node_of, Reach.Counts, Reach.names_among, Known.HasRegisters};
ghost use Rattle.nmgc_world_laws.specs.{Holds.strong_at, Stored.place_written, Stored.value_written};
ghost use Rattle.nmgc_snapshot_laws.specs.Machine.{is_pushed_in};
ghost use Rattle.nmgc_barrier_checker.specs.{declared.due.Field.Field as FieldAt, Dues.strong_in, Dues.is_ref_to, Dues.stands_in, Dues.first_place, Dues.end_place, Dues.IsStanding, Dues.IsComing, Dues.came_in, Dues.kept_then, Dues.stored_values, Dues.values_in, Dues.AreSorted, Dues.added, Dues.once};
ghost use Rattle.nmgc_world_spec.specs.declared.node.Node.TheVariants as NodeIs;
ghost use Rattle.nmgc_world_spec.specs.declared.value.Value.TheVariants as ValueIs;

use nmgc_graph::World;
use nmgc_graph::opened::names_among;
use nmgc_lists::{List, NoMemory};
use nmgc_world_spec::{Change, Command, Name, Node, Value};
use std::alloc::Global;
use std::slice;

/// A strong field that refers to a target: the object, the position in it, and the target.
#[derive(Clone, Copy, Debug, PartialEq, Eq)]
pub struct Field {
    pub name: Name,
    pub place: usize,
    pub target: Name,
}

// Returns the value in an object's strong field at a position, if there is such a field.
fn strong_at(node: &Node, place: usize) -> Option<Value>
    ensures { result ≡ strong_at node.now place }
{
    let fields = match node {
        Node::Con { tag: _, values } | Node::Arr { values } => values.items(),
        Node::Stack { size: _, values } => values.items(),
        Node::Var { value } => slice::from_ref(value),
        Node::Thunk { free, result } => return thunk_at(free.items(), *result, place),
        Node::Weak { parts: _ } => return None,
    };
    fields.get(place).copied()
}

// Returns a thunk's strong field at `place`, if any: its result at 0, and its free variables from 1 on until it has a result.
fn thunk_at(free: &[Value], answer: Option<Value>, place: usize) -> Option<Value>
    ensures { result ≡ strong_at (NodeIs.Thunk free.now answer) place }
{
    if place == 0 {
        return answer;
    }
    match answer {
        Some(_) => None,
        None => free.get(place - 1).copied(),
    }
}

// Returns the value in the strong field of a name's object at a position, if there is such a field.
fn strong_in(world: &World, name: Name, place: usize) -> Option<Value>
    ensures { result ≡ strong_in (node_of world.now name) place }
{
    match world.node(name) {
        Some(node) => strong_at(node, place),
        None => None,
    }
}

// Whether a value is a reference to the target.
fn is_ref_to(target: Name, value: Option<Value>) -> bool
    ensures { result ≡ is_ref_to target value }
{
    match value {
        Some(Value::Ref(name)) => name.maker == target.maker && name.serial == target.serial,
        _ => false,
    }
}

/// Whether a world has this field: the strong field at its position refers to its target. Takes no memory and constant time.
pub fn has_field(world: &World, field: Field) -> bool
    ensures { result ≡ stands_in world.now field }
{
    is_ref_to(field.target, strong_in(world, field.name, field.place))
}

// Returns the first position at which a change of an object may overwrite or remove a field, or 0 if there is none.
fn first_place(change: Change, node: &Node) -> usize
    ensures { result ≡ first_place change node.now }
{
    match change {
        Change::Set { index, value: _ } => index as usize,
        Change::Exchange {
            index,
            expected: _,
            value: _,
        } => index as usize,
        Change::Pop { mutator: _ } => match node {
            Node::Stack { size: _, values } => values.items().len().saturating_sub(1),
            _ => 0,
        },
        _ => 0,
    }
}

// Returns the position after the last position at which a change of an object may overwrite or remove a field; 0 for none.
fn end_place(change: Change, node: &Node) -> usize
    ensures { result ≡ end_place change node.now }
{
    match change {
        Change::Set { index, value: _ } => index as usize + 1,
        Change::Exchange {
            index,
            expected: _,
            value: _,
        } => index as usize + 1,
        Change::Pop { mutator: _ } => match node {
            Node::Stack { size: _, values } => values.items().len(),
            _ => 0,
        },
        Change::Update { value: _ } => match node {
            Node::Thunk { free, result: _ } => free.items().len() + 1,
            _ => 0,
        },
        Change::Push {
            mutator: _,
            value: _,
        }
        | Change::Finalise => 0,
    }
}

// Returns the field at a position of a name's object if both the snapshot and the world have it.
fn field_at(snapshot: &World, world: &World, name: Name, place: usize) -> Option<Field>
    ensures some { (f : FieldAt) → result ≡ Some f → (f.name ≡ name) × (f.place ≡ place) × (stands_in snapshot.now f ≡ true) × (stands_in world.now f ≡ true) }
    ensures all { (f : FieldAt) → f.name ≡ name → f.place ≡ place → stands_in snapshot.now f ≡ true → stands_in world.now f ≡ true → result ≡ Some f }
{
    let Some(Value::Ref(target)) = strong_in(snapshot, name, place) else {
        return None;
    };
    let field = Field {
        name,
        place,
        target,
    };
    if has_field(world, field) {
        Some(field)
    } else {
        None
    }
}

// Returns the fields that both worlds have in a name's object, at the positions from `first` on that are below `end`.
fn fields_at(
    snapshot: &World,
    world: &World,
    name: Name,
    first: usize,
    end: usize,
) -> Result<List<Field>, NoMemory>
    ensures sound { IfOk result (λ fields. (f : FieldAt) → Contains fields f → (stands_in snapshot.now f ≡ true) × (stands_in world.now f ≡ true)) }
    ensures all { IfOk result (λ fields. (f : FieldAt) → f.name ≡ name → first ≤ f.place → f.place < end → stands_in snapshot.now f ≡ true →
        stands_in world.now f ≡ true → Contains fields f) }
{
    let mut fields = List::new(world.alloc());
    for place in first..end {
        note(&mut fields, field_at(snapshot, world, name, place))?;
    }
    Ok(fields)
}

// Adds a field to the list, if one was found.
fn note(fields: &mut List<Field>, found: Option<Field>) -> Result<(), NoMemory>
    ensures { OnOk result (fields.new ≡ fields.old ++ option_to_list found) }
{
    match found {
        Some(field) => fields.push(field),
        None => Ok(()),
    }
}

/// Returns the fields that both worlds have at positions at which a command may overwrite or remove a field. Requires that
/// the mutator and the command's registers exist. Takes constant time for each position.
pub(crate) fn common_fields(
    snapshot: &World,
    world: &World,
    mutator: u8,
    command: &Command,
) -> Result<List<Field>, NoMemory>
    requires mutator { mutator < length world.now.mutators }
    requires registers { HasRegisters command.now }
    ensures { IfOk result (IsStanding snapshot.now world.now mutator command.now) }
{
    match world.asked_change(mutator, command) {
        Some((Value::Ref(name), change)) => match world.node(name) {
            Some(node) => fields_at(
                snapshot,
                world,
                name,
                first_place(change, node),
                end_place(change, node),
            ),
            None => Ok(List::new(world.alloc())),
        },
        _ => Ok(List::new(world.alloc())),
    }
}

/// Returns the fields of the list that the world doesn't have.
pub(crate) fn missing_fields(world: &World, fields: &[Field]) -> Result<List<Field>, NoMemory>
    ensures { IfOk result (λ gone. gone ≡ filter (λ f. not (stands_in world.now f)) fields.now) }
{
    let mut gone = List::new(world.alloc());
    for field in fields {
        if !has_field(world, *field) {
            gone.push(*field)?;
        }
    }
    Ok(gone)
}

/// Returns, for each of `weaks` that is alive in the snapshot, its name and the names in its value and its finaliser.
pub(crate) fn kept_by_weaks(snapshot: &World, weaks: &[Name]) -> Result<Vec<Name>, NoMemory>
    ensures { IfOk result (λ names. names.items ≡ kept_then snapshot.now weaks.now) }
{
    let mut names = Vec::new(snapshot.alloc());
    for weak in weaks {
        if let Some(parts) = snapshot.parts(*weak) {
            let kept = names_among(
                snapshot.alloc(),
                &[Value::Ref(*weak), parts.value, parts.finaliser],
            )?;
            names.extend_from_slice(kept.as_slice())?;
        }
    }
    Ok(names)
}

// Returns the position of the field that a change of an object writes, if it writes one.
fn place_written(change: Change, node: &Node) -> Option<usize>
    ensures { result ≡ place_written change node.now }
{
    match change {
        Change::Set { index, value: _ } => Some(index as usize),
        Change::Exchange {
            index,
            expected: _,
            value: _,
        } => Some(index as usize),
        Change::Update { value: _ } => Some(0),
        Change::Push {
            mutator: _,
            value: _,
        } => match node {
            Node::Stack { size: _, values } => Some(values.items().len()),
            _ => None,
        },
        Change::Pop { mutator: _ } | Change::Finalise => None,
    }
}

// Returns the value that a change writes, if it writes one.
fn value_written(change: Change) -> Option<Value>
    ensures { result ≡ value_written change }
{
    match change {
        Change::Set { index: _, value } => Some(value),
        Change::Exchange {
            index: _,
            expected: _,
            value,
        } => Some(value),
        Change::Update { value } => Some(value),
        Change::Push { mutator: _, value } => Some(value),
        Change::Pop { mutator: _ } | Change::Finalise => None,
    }
}

// Returns the field that a change of an object writes, if it writes a reference and the world doesn't have the field yet.
fn written_field(world: &World, name: Name, change: Change, node: &Node) -> Option<Field>
    ensures some { (f : FieldAt) → result ≡ Some f → stands_in world.now f ≡ false }
    ensures all { (f : FieldAt) → f.name ≡ name → place_written change node.now ≡ Some f.place →
        value_written change ≡ Some (ValueIs.Ref f.target) → stands_in world.now f ≡ false → result ≡ Some f }
{
    let place = place_written(change, node)?;
    let Some(Value::Ref(target)) = value_written(change) else {
        return None;
    };
    let field = Field {
        name,
        place,
        target,
    };
    if has_field(world, field) {
        None
    } else {
        Some(field)
    }
}

/// Returns the field that a command may write, if it writes a reference and the world doesn't have the field yet. Takes no
/// memory and constant time.
pub(crate) fn coming_field(world: &World, mutator: u8, command: &Command) -> Option<Field>
    requires mutator { mutator < length world.now.mutators }
    requires registers { HasRegisters command.now }
    ensures { IsComing world.now mutator command.now result }
{
    match world.asked_change(mutator, command) {
        Some((Value::Ref(name), change)) => match world.node(name) {
            Some(node) => written_field(world, name, change, node),
            None => None,
        },
        _ => None,
    }
}

/// Appends the target of the field that came, if there is such a field and the world has it.
pub(crate) fn push_came(
    names: &mut Vec<Name>,
    world: &World,
    coming: Option<Field>,
) -> Result<(), NoMemory>
    ensures { OnOk result (names.new.items ≡ names.old.items ++ option_to_list (came_in world.now coming)) }
{
    match came(world, coming) {
        Some(target) => {
            names.push(target)?;
            Ok(())
        }
        None => Ok(()),
    }
}

// Returns the target of the field that came, if there is such a field and the world has it.
fn came(world: &World, coming: Option<Field>) -> Option<Name>
    ensures { result ≡ came_in world.now coming }
{
    let field = coming?;
    if has_field(world, field) {
        Some(field.target)
    } else {
        None
    }
}

/// Returns the names that an object stores, in strong fields or as parts of a weak pointer; none if there is no object.
pub(crate) fn names_in(world: &World, name: Name) -> Result<Vec<Name>, NoMemory>
    ensures { IfOk result (λ names. names.items ≡ names_among (values_in (node_of world.now name))) }
{
    match world.node(name) {
        Some(node) => stored_names(world.alloc(), node),
        None => names_among(world.alloc(), &[]),
    }
}

// Returns the names that a node stores, in strong fields or as parts of a weak pointer.
fn stored_names(alloc: Global, node: &Node) -> Result<Vec<Name>, NoMemory>
    ensures { IfOk result (λ names. names.items ≡ names_among (stored_values node.now)) }
{
    match node {
        Node::Con { tag: _, values } | Node::Arr { values } => names_among(alloc, values.items()),
        Node::Stack { size: _, values } => names_among(alloc, values.items()),
        Node::Var { value } => names_among(alloc, &[*value]),
        Node::Thunk { free, result } => match *result {
            Some(value) => names_among(alloc, &[value]),
            None => names_among(alloc, free.items()),
        },
        Node::Weak { parts } => match *parts {
            Some(parts) => names_among(alloc, &[parts.key, parts.value, parts.finaliser]),
            None => names_among(alloc, &[]),
        },
    }
}

/// Returns those names that may be due.
pub(crate) fn owable_names(snapshot: &World, names: &[Name]) -> Result<Vec<Name>, NoMemory>
    ensures { IfOk result (λ owable. owable.items ≡ filter (is_pushed_in snapshot.now) names.now) }
{
    let mut owable = Vec::new(snapshot.alloc());
    for name in names {
        if is_owable(snapshot, *name) {
            owable.push(*name)?;
        }
    }
    Ok(owable)
}

/// Returns the number of names in the list that may be due. A name that is there twice counts once. Takes memory for the
/// names, and the time of a sort.
pub(crate) fn count_due(snapshot: &World, names: &[Name]) -> Result<u64, NoMemory>
    ensures { IfOk result (Counts (Contains (filter (is_pushed_in snapshot.now) names.now))) }
{
    let owable = put_in_order(owable_names(snapshot, names)?);
    Ok(count_sorted(owable.as_slice()))
}

// Returns the names in order.
fn put_in_order(names: Vec<Name>) -> Vec<Name>
    ensures permutation { IsPermutation names.items result.items }
    ensures sorted { AreSorted result.items }
{
    let mut names = names;
    sort(names.as_mut_slice());
    names
}

// Puts names in order, in place.
fn sort(names: &mut [Name])
    ensures permutation { IsPermutation names.old names.new }
    ensures sorted { AreSorted names.new }
{
    names.sort_unstable_by_key(|name| (name.maker, name.serial));
}

// Returns the number of different names in a sorted list.
fn count_sorted(names: &[Name]) -> u64
    ensures { result ≡ length (once names.now) }
{
    let mut count = 0_u64;
    for place in 0..names.len() {
        if is_other(names, place) {
            count += 1;
        }
    }
    count
}

// Whether the name at a position is the first, or differs from the name before it.
fn is_other(names: &[Name], place: usize) -> bool
    requires { place < length names.now }
    ensures { length (once (take (place + 1) names.now)) ≡ added result (length (once (take place names.now))) }
{
    if place == 0 {
        return true;
    }
    names[place - 1] != names[place]
}

/// Whether a name may come due: it is in the snapshot and isn't g. Takes no memory and constant time.
pub fn is_owable(snapshot: &World, name: Name) -> bool
    ensures { result ≡ is_pushed_in snapshot.now name }
{
    snapshot.node(name).is_some() && name != Name::SHARED
}
