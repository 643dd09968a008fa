//! Several commands in one line, as tasks: a copy of many fields, and a fill. A copy goes field by field through a register:
//! each field is loaded, and then stored. It happens only if each command is done, and each may make a name due. A runtime that copies within one object goes downwards if the fields move up, and otherwise upwards.
//!
//! Easy to get wrong: an index above the greatest number becomes the greatest, which no object has, so the heap refuses it.
ghost use Rattle.std.specs.Prelude.{◌≡◌, ◌<◌, ◌++◌, true, false, IfOk, OnOk};
ghost use Rattle.nmgc_barrier_checker.specs.Rows.{is_done, Suits, task_of, turn_place, index_at, load_of, store_of, write_of, copied, filled, emptied};

use nmgc_limits::REGISTERS;
use nmgc_lists::{List, NoMemory};
use nmgc_world_spec::{Command, Operand, Reply};
use std::alloc::Global;

/// A command in a line of several, and the answer that the line gives to it. If the line gives none, the command has to be
/// done: its answer is a value, or there is none to give. An exchange that answers yes doesn't count as done.
#[derive(Drop)]
pub struct Task {
    pub command: Command,
    pub answer: Option<Reply>,
}

/// A copy of `count` fields of `from`, from the field `first` on, to the fields of `to` from the field `place` on. Each field
/// goes through the register `via`. If `down`, the copy goes from the last field to the first.
#[derive(Clone, Copy, Debug, PartialEq, Eq)]
pub struct Copying {
    pub from: Operand,
    pub first: u32,
    pub to: Operand,
    pub place: u32,
    pub count: u32,
    pub via: u8,
    pub down: bool,
}

/// A store of one value into `count` fields of an object, from the field `first` on.
#[derive(Clone, Copy, Debug, PartialEq, Eq)]
pub struct Filling {
    pub object: Operand,
    pub first: u32,
    pub count: u32,
    pub value: Operand,
}

/// Returns the tasks of a copy, in order: a load and a store for each field. Takes time and memory for each field.
pub fn copy_tasks(alloc: Global, copying: Copying) -> Result<List<Task>, NoMemory>
    ensures { IfOk result (λ tasks. tasks ≡ copied copying copying.count) }
{
    let mut tasks = List::new(alloc);
    for turn in 0..copying.count {
        tasks.push(copy_load(copying, turn))?;
        tasks.push(copy_store(copying, turn))?;
    }
    Ok(tasks)
}

/// Returns the tasks of a fill: a store for each field. Takes time and memory for each field.
pub fn fill_tasks(alloc: Global, filling: Filling) -> Result<List<Task>, NoMemory>
    ensures { IfOk result (λ tasks. tasks ≡ filled filling filling.count) }
{
    let mut tasks = List::new(alloc);
    add_fill(&mut tasks, filling)?;
    Ok(tasks)
}

/// Appends the tasks of a fill. Takes time and memory for each field. After `NoMemory` some may have been appended.
pub fn add_fill(tasks: &mut List<Task>, filling: Filling) -> Result<(), NoMemory>
    ensures { OnOk result (tasks.new ≡ tasks.old ++ filled filling filling.count) }
{
    for turn in 0..filling.count {
        tasks.push(fill_store(filling, turn))?;
    }
    Ok(())
}

/// Returns the tasks that empty all registers of a mutator, in order. Takes time and memory for each register.
#[tactic(auto, unfolding(crate::specs::Rows::emptied))]
pub fn nil_tasks(alloc: Global) -> Result<List<Task>, NoMemory>
    ensures { IfOk result (λ tasks. tasks ≡ emptied REGISTERS) }
{
    let mut tasks = List::new(alloc);
    for register in 0..REGISTERS {
        tasks.push(task_of(Command::Nil { dest: register }))?;
    }
    Ok(tasks)
}

/// Returns the task of a command that has to be done, whatever it gives.
pub fn task_of(command: Command) -> Task
    ensures { result ≡ task_of command }
{
    Task {
        command,
        answer: None,
    }
}

// Returns the load in step `turn` of a copy. Requires that the copy has that step, from 0 on.
fn copy_load(copying: Copying, turn: u32) -> Task
    requires { turn < copying.count }
    ensures { result ≡ load_of copying turn }
{
    task_of(Command::Get {
        dest: copying.via,
        object: copying.from,
        index: index_at(copying.first, turn_place(copying, turn)),
    })
}

// Returns the store in step `turn` of a copy. Requires that the copy has that step, from 0 on.
fn copy_store(copying: Copying, turn: u32) -> Task
    requires { turn < copying.count }
    ensures { result ≡ store_of copying turn }
{
    task_of(Command::Set {
        object: copying.to,
        index: index_at(copying.place, turn_place(copying, turn)),
        value: Operand::Register(copying.via),
    })
}

// Returns the store in step `turn` of a fill.
fn fill_store(filling: Filling, turn: u32) -> Task
    ensures { result ≡ write_of filling turn }
{
    task_of(Command::Set {
        object: filling.object,
        index: index_at(filling.first, turn),
        value: filling.value,
    })
}

// Returns the position, among the fields to be copied, of the field that step `turn` copies. Requires such a step.
fn turn_place(copying: Copying, turn: u32) -> u32
    requires { turn < copying.count }
    ensures { result ≡ turn_place copying turn }
{
    if copying.down {
        copying.count - 1 - turn
    } else {
        turn
    }
}

// Returns the index of the field `place` positions after the field `first`, or 2^32 - 1 if that index is greater.
fn index_at(first: u32, place: u32) -> u32
    ensures { result ≡ index_at first place }
{
    first.saturating_add(place)
}

/// Whether this answer means that a command was done: `Given` or `Fine`. No other answer counts, even if the command wrote.
pub(crate) fn is_done(answer: Reply) -> bool
    ensures { result ≡ is_done answer }
{
    match answer {
        Reply::Given(_) | Reply::Fine => true,
        _ => false,
    }
}

/// Whether an answer suits a task. If the task has an answer, it is the same; if not, it means that the command was done.
pub(crate) fn suits(wanted: Option<Reply>, answer: Reply) -> bool
    ensures yes { result ≡ true → Suits wanted answer }
    ensures no { result ≡ false → Suits wanted answer → ⊥ }
{
    match wanted {
        Some(wanted) => answer == wanted,
        None => is_done(answer),
    }
}
