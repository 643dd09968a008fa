//! Lines with values that no register of the runtime holds: an exchange, a copy without a register, and a fill with a number or
//! nil. Such a line borrows registers that it doesn't name. Its tasks are commands with these registers, and afterwards the
//! registers get their values back (`nmgc_barrier_checker`, `Event::Rows`). So each line has the meaning of commands.
//!
//! Easy to get wrong: an exchange reads its new value before its register changes, so `swap r1 g 0 r1` exchanges the two. A
//! refused exchange leaves its register as it is.
ghost use Rattle.std.specs.Prelude.{◌≡◌, ◌++◌, ◌∷◌, [], Some, map, IfOk, OnOk};
ghost use Rattle.nmgc_world_spec.specs.declared.command.Operand.TheVariants as operand;
ghost use Rattle.nmgc_trace_checker.specs.Borrowing.{is_register, is_spare, spare, plain_of, plain_at, stored_at, loads, lent, refuses, exchanged, unexchanged, swapped, swap_register, swap_rows, swap_at, copy_rows, plain_copy_at, fill_rows, plain_fill_at, if_fine, borrowing_at};

use crate::meaning::place_of;
use crate::tokens::{operand, register, short};
use nmgc_barrier_checker::rows::{add_fill, copy_tasks, task_of};
use nmgc_barrier_checker::{Copying, Filling, Task};
use nmgc_journal::read_value;
use nmgc_lists::{List, NoMemory};
use nmgc_world_spec::{Command, Operand, Reply, Value};
use std::alloc::Global;

/// Several commands in one line: the registers that it borrows, and its tasks.
#[derive(Drop)]
pub struct Rows {
    pub borrowed: List<u8>,
    pub tasks: List<Task>,
}

/// A value that a line stores: an operand, with the number or nil that has to be loaded into it first, if any.
#[derive(Clone, Copy, Debug, PartialEq, Eq)]
pub struct Stored {
    pub operand: Operand,
    pub load: Option<Value>,
}

/// An exchange of the field `index` of `object` with `value`. The old value goes into the register `dest`.
#[derive(Clone, Copy, Debug, PartialEq, Eq)]
pub struct Swapping {
    pub dest: u8,
    pub object: Operand,
    pub index: u32,
    pub value: Operand,
}

/// Returns the registers and tasks of a line that borrows registers, by the tokens after its mutator and its answer. Returns
/// `None` for any other line.
#[tactic(auto, unfolding(crate::specs::Borrowing::borrowing_at))]
pub(crate) fn borrowing(
    alloc: Global,
    answer: Reply,
    words: &[&[u8]],
) -> Result<Option<Rows>, NoMemory>
    ensures { IfOk result (λ rows. rows ≡ borrowing_at answer (map (λ w. w.now) words.now)) }
{
    let [verb, rest @ ..] = words else {
        return Ok(None);
    };
    if *verb == b"swap".as_slice() {
        return swap(alloc, answer, rest);
    }
    if *verb == b"copy".as_slice() {
        return copy_if_fine(alloc, answer, rest);
    }
    if *verb == b"fill".as_slice() {
        return fill_if_fine(alloc, answer, rest);
    }
    Ok(None)
}

// Returns the copy that the five tokens after `copy` spell, or `None`; also `None` if the answer isn't `Fine`.
fn copy_if_fine(alloc: Global, answer: Reply, words: &[&[u8]]) -> Result<Option<Rows>, NoMemory>
    ensures { IfOk result (λ rows. rows ≡ if_fine answer (plain_copy_at (map (λ w. w.now) words.now))) }
{
    match answer {
        Reply::Fine => plain_copy(alloc, words),
        _ => Ok(None),
    }
}

// Returns the fill with a number or nil that the tokens after `fill` spell, or `None`; also `None` if the answer isn't `Fine`.
fn fill_if_fine(alloc: Global, answer: Reply, words: &[&[u8]]) -> Result<Option<Rows>, NoMemory>
    ensures { IfOk result (λ rows. rows ≡ if_fine answer (plain_fill_at (map (λ w. w.now) words.now))) }
{
    match answer {
        Reply::Fine => plain_fill(alloc, words),
        _ => Ok(None),
    }
}

// Returns the exchange that the four tokens after `swap` spell (register, object, index, value), or `None`.
#[tactic(auto, unfolding(crate::specs::Borrowing::swap_at))]
fn swap(alloc: Global, answer: Reply, words: &[&[u8]]) -> Result<Option<Rows>, NoMemory>
    ensures { IfOk result (λ rows. rows ≡ swap_at answer (map (λ w. w.now) words.now)) }
{
    let [dest, object, index, value] = words else {
        return Ok(None);
    };
    let Some(dest) = register(dest) else {
        return Ok(None);
    };
    let Some((object, index)) = place_of(object, index) else {
        return Ok(None);
    };
    let lender = spare(Operand::Register(dest), object, Operand::Shared);
    let Some(new) = stored_value(lender, value) else {
        return Ok(None);
    };
    let rows = swap_rows(alloc, answer, dest, (object, index), lender, new)?;
    Ok(Some(rows))
}

// Returns the registers and tasks of an exchange with this answer: of the register `dest` and the field at `place`. The new
// value is loaded into the register `lender` first, if it is a number or nil.
fn swap_rows(
    alloc: Global,
    answer: Reply,
    dest: u8,
    place: (Operand, u32),
    lender: u8,
    new: Stored,
) -> Result<Rows, NoMemory>
    ensures { IfOk result (λ rows. rows ≡ swap_rows answer dest place lender new) }
{
    let swapping = Swapping {
        dest,
        object: place.0,
        index: place.1,
        value: new.operand,
    };
    let via = swap_register(swapping);
    let mut borrowed = List::new(alloc);
    add_lent(&mut borrowed, lender, new.load)?;
    borrowed.push(via)?;
    let mut tasks = List::new(alloc);
    add_load(&mut tasks, lender, new.load)?;
    add_swap(&mut tasks, swapping, via, answer)?;
    Ok(Rows { borrowed, tasks })
}

// Appends the tasks of an exchange with this answer, by the borrowed register `via`.
fn add_swap(
    tasks: &mut List<Task>,
    swapping: Swapping,
    via: u8,
    answer: Reply,
) -> Result<(), NoMemory>
    ensures { OnOk result (tasks.new ≡ tasks.old ++ swapped swapping via answer) }
{
    if refuses(answer) {
        return add_refused(tasks, swapping, answer);
    }
    tasks.push(Task {
        command: Command::Get {
            dest: via,
            object: swapping.object,
            index: swapping.index,
        },
        answer: Some(answer),
    })?;
    tasks.push(task_of(Command::Set {
        object: swapping.object,
        index: swapping.index,
        value: swapping.value,
    }))?;
    tasks.push(task_of(Command::Mov {
        dest: swapping.dest,
        value: Operand::Register(via),
    }))
}

// Appends the task of an exchange that is refused with this answer.
fn add_refused(tasks: &mut List<Task>, swapping: Swapping, answer: Reply) -> Result<(), NoMemory>
    ensures { OnOk result (tasks.new ≡ tasks.old ++ unexchanged swapping answer) }
{
    tasks.push(Task {
        command: Command::Set {
            object: swapping.object,
            index: swapping.index,
            value: swapping.value,
        },
        answer: Some(answer),
    })
}

// Whether the answer refuses an exchange.
fn refuses(answer: Reply) -> bool
    ensures { result ≡ refuses answer }
{
    match answer {
        Reply::NoPointer | Reply::NoField | Reply::WrongKind | Reply::Fixed => true,
        _ => false,
    }
}

// Returns the register that an exchange borrows for the old value.
fn swap_register(swapping: Swapping) -> u8
    ensures { result ≡ swap_register swapping }
{
    spare(
        Operand::Register(swapping.dest),
        swapping.object,
        swapping.value,
    )
}

// Returns the copy that five tokens spell (target, index, source, index, count), or `None`.
#[tactic(auto, unfolding(crate::specs::Borrowing::plain_copy_at))]
fn plain_copy(alloc: Global, words: &[&[u8]]) -> Result<Option<Rows>, NoMemory>
    ensures { IfOk result (λ rows. rows ≡ plain_copy_at (map (λ w. w.now) words.now)) }
{
    let [to, place, from, first, count] = words else {
        return Ok(None);
    };
    let Some(to) = place_of(to, place) else {
        return Ok(None);
    };
    let Some(from) = place_of(from, first) else {
        return Ok(None);
    };
    let Some(count) = short(count) else {
        return Ok(None);
    };
    let rows = copy_rows(alloc, to, from, count)?;
    Ok(Some(rows))
}

// Returns the registers and tasks of a copy through a borrowed register. It goes downwards if its fields move up.
fn copy_rows(
    alloc: Global,
    to: (Operand, u32),
    from: (Operand, u32),
    count: u32,
) -> Result<Rows, NoMemory>
    ensures { IfOk result (λ rows. rows ≡ copy_rows to from count) }
{
    let via = spare(to.0, from.0, Operand::Shared);
    let mut borrowed = List::new(alloc);
    borrowed.push(via)?;
    let tasks = copy_tasks(
        alloc,
        Copying {
            from: from.0,
            first: from.1,
            to: to.0,
            place: to.1,
            count,
            via,
            down: from.1 < to.1,
        },
    )?;
    Ok(Rows { borrowed, tasks })
}

// Returns the fill that four tokens spell (object, index, count, number or nil), or `None`.
#[tactic(auto, unfolding(crate::specs::Borrowing::plain_fill_at))]
fn plain_fill(alloc: Global, words: &[&[u8]]) -> Result<Option<Rows>, NoMemory>
    ensures { IfOk result (λ rows. rows ≡ plain_fill_at (map (λ w. w.now) words.now)) }
{
    let [object, first, count, value] = words else {
        return Ok(None);
    };
    let Some(place) = place_of(object, first) else {
        return Ok(None);
    };
    let Some(count) = short(count) else {
        return Ok(None);
    };
    let Some(value) = plain(value) else {
        return Ok(None);
    };
    let rows = fill_rows(alloc, place, count, value)?;
    Ok(Some(rows))
}

// Returns the registers and tasks of a fill with a value that is loaded into a borrowed register first.
fn fill_rows(
    alloc: Global,
    place: (Operand, u32),
    count: u32,
    value: Value,
) -> Result<Rows, NoMemory>
    ensures { IfOk result (λ rows. rows ≡ fill_rows place count value) }
{
    let lender = spare(place.0, Operand::Shared, Operand::Shared);
    let mut borrowed = List::new(alloc);
    borrowed.push(lender)?;
    let mut tasks = List::new(alloc);
    add_load(&mut tasks, lender, Some(value))?;
    add_fill(
        &mut tasks,
        Filling {
            object: place.0,
            first: place.1,
            count,
            value: Operand::Register(lender),
        },
    )?;
    Ok(Rows { borrowed, tasks })
}

// Returns the operand that a token spells. If it spells a number or nil, returns the register `lender`, with that value.
// Returns `None` for any other token.
#[tactic(auto, unfolding(crate::specs::Borrowing::stored_at))]
fn stored_value(lender: u8, word: &[u8]) -> Option<Stored>
    ensures { result ≡ stored_at lender word.now }
{
    if let Some(operand) = operand(word) {
        return Some(Stored {
            operand,
            load: None,
        });
    }
    let value = plain(word)?;
    Some(Stored {
        operand: Operand::Register(lender),
        load: Some(value),
    })
}

/// Returns the number or nil that a token spells, or `None` for any other token. Takes no memory.
#[tactic(auto, unfolding(crate::specs::Borrowing::plain_at))]
pub(crate) fn plain(word: &[u8]) -> Option<Value>
    ensures { result ≡ plain_at word.now }
{
    plain_of(read_value(word)?)
}

// Returns the value if it is no reference, and otherwise `None`.
fn plain_of(value: Value) -> Option<Value>
    ensures { result ≡ plain_of value }
{
    match value {
        Value::Ref(_) => None,
        Value::Nil | Value::Number(_) => Some(value),
    }
}

/// Appends the task that loads a number or nil into a register, if there is one to load.
pub(crate) fn add_load(
    tasks: &mut List<Task>,
    register: u8,
    load: Option<Value>,
) -> Result<(), NoMemory>
    ensures { OnOk result (tasks.new ≡ tasks.old ++ loads register load) }
{
    match load {
        Some(Value::Nil) => tasks.push(task_of(Command::Nil { dest: register })),
        Some(Value::Number(number)) => tasks.push(task_of(Command::Num {
            dest: register,
            number,
        })),
        _ => Ok(()),
    }
}

// Appends the register if a value is loaded into it.
fn add_lent(borrowed: &mut List<u8>, register: u8, load: Option<Value>) -> Result<(), NoMemory>
    ensures { OnOk result (borrowed.new ≡ borrowed.old ++ lent register load) }
{
    match load {
        Some(_) => borrowed.push(register),
        None => Ok(()),
    }
}

// Returns the last register that none of three operands is: 63, 62, 61 or 60.
fn spare(a: Operand, b: Operand, c: Operand) -> u8
    ensures { result ≡ spare a b c }
{
    if is_spare(63, a, b, c) {
        return 63;
    }
    if is_spare(62, a, b, c) {
        return 62;
    }
    if is_spare(61, a, b, c) {
        return 61;
    }
    60
}

// Whether none of three operands is the register with this number.
fn is_spare(number: u8, a: Operand, b: Operand, c: Operand) -> bool
    ensures { result ≡ is_spare number a b c }
{
    !is_register(number, a) && !is_register(number, b) && !is_register(number, c)
}

// Whether an operand is the register with this number.
fn is_register(number: u8, operand: Operand) -> bool
    ensures { result ≡ is_register number operand }
{
    match operand {
        Operand::Register(register) => register == number,
        Operand::Shared => false,
    }
}
