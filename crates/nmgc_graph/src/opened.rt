//! The names that a command opens, and the weak pointer that it kills: for the marking machine and the barrier checker.
//!
//! A mutator that reads a weak pointer's value, or finalises a weak pointer, may get a reference to an object that was
//! reachable in no other way. The command *opens* the names in such values: they count as live from then on. The collector
//! doesn't kill a finalised weak pointer again.
ghost use Rattle.std.specs.Prelude.{◌≡◌, ◌<◌, length, IfOk, option_and_then};
ghost use Rattle.nmgc_world_spec.specs.{Known.HasRegisters, Known.IsOperand, Reach.names_among, Reach.opened_by, Reach.finalised_by, World.value_for, World.object_of};
ghost use Rattle.nmgc_graph.specs.Search.{parts_in};

use crate::World;
use nmgc_lists::NoMemory;
use nmgc_world_spec::{Command, Name, Operand, Parts, Value};
use std::alloc::Global;

/// Returns the names, at most two, that a mutator's command would open in this world. `deref` opens the name in the value
/// that it reads. `finalise` opens the names in the value and the finaliser of the weak pointer that it kills. After
/// `NoMemory` there is no answer. Takes constant time.
pub fn opened_by(world: &World, mutator: u8, command: &Command) -> Result<Vec<Name>, NoMemory>
    requires mutator { mutator < length world.now.mutators }
    requires registers { HasRegisters command.now }
    ensures { IfOk result (λ names. names.items ≡ opened_by world.now mutator command.now) }
{
    let alloc = world.alloc();
    match command {
        Command::Deref { dest: _, object } => match parts_of(world, mutator, *object) {
            Some(parts) => names_among(alloc, &[parts.value]),
            None => names_among(alloc, &[]),
        },
        Command::Finalise { dest: _, object } => match parts_of(world, mutator, *object) {
            Some(parts) => names_among(alloc, &[parts.value, parts.finaliser]),
            None => names_among(alloc, &[]),
        },
        _ => names_among(alloc, &[]),
    }
}

/// Returns the weak pointer that a mutator's command would kill in this world, as a list, which is empty if it kills none.
/// Only `finalise` kills. After `NoMemory` there is no answer. Takes constant time.
pub fn finalised_by(world: &World, mutator: u8, command: &Command) -> Result<Vec<Name>, NoMemory>
    requires mutator { mutator < length world.now.mutators }
    requires registers { HasRegisters command.now }
    ensures { IfOk result (λ names. names.items ≡ finalised_by world.now mutator command.now) }
{
    let alloc = world.alloc();
    match command {
        Command::Finalise { dest: _, object } => match parts_of(world, mutator, *object) {
            Some(_) => names_among(alloc, &[world.value(mutator, *object)]),
            None => names_among(alloc, &[]),
        },
        _ => names_among(alloc, &[]),
    }
}

// Returns the parts of the weak pointer to which an operand refers, and `None` if it refers to no weak pointer that is alive.
fn parts_of(world: &World, mutator: u8, object: Operand) -> Option<Parts>
    requires mutator { mutator < length world.now.mutators }
    requires operand { IsOperand object }
    ensures { result ≡ option_and_then parts_in (object_of world.now (value_for world.now mutator object)) }
{
    match world.value(mutator, object) {
        Value::Ref(name) => world.parts(name),
        _ => None,
    }
}

/// Returns the names that values refer to, in the order of the values. After `NoMemory` there is no answer.
pub fn names_among(alloc: Global, values: &[Value]) -> Result<Vec<Name>, NoMemory>
    ensures { IfOk result (λ names. names.items ≡ names_among values.now) }
{
    let mut names = Vec::new(alloc);
    for value in values {
        if let Value::Ref(name) = value {
            names.push(*name)?;
        }
    }
    Ok(names)
}
