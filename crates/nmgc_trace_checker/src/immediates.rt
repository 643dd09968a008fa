//! Commands with immediates: numbers or nil as operands. The line borrows a register for each of them. Its tasks load these
//! registers, and do the command that names them. Afterwards the registers get their values back (`nmgc_barrier_checker`,
//! `Event::Rows`). So each line has the meaning of commands.
//!
//! Easy to get wrong: an index, a tag and a size are numbers that no register holds, so they stay. A register may be borrowed
//! only if no token names it, neither before nor after.
ghost use Rattle.std.specs.Prelude.{◌≡◌, ◌++◌, ◌∷◌, [], Some, map, IfOk, OnOk};
ghost use Rattle.nmgc_trace_checker.specs.Immediates.{is_read, made_places, loaded_places, bare_places, places_of, immediate_at, is_same, is_named, spare_below, verb_alone, with_word, with_register, without_register, with_immediate, with_token, with_tokens, rewritten, written_in, rows_of, IsRewrittenIf};

use crate::borrowing::{Rows, add_load, plain};
use crate::commands::command_of;
use crate::tokens::register;
use nmgc_barrier_checker::Task;
use nmgc_io::push_number;
use nmgc_limits::REGISTERS;
use nmgc_lists::{List, NoMemory};
use nmgc_world_spec::{Command, Reply, Value};
use std::alloc::Global;

/// The places of a command's tokens after its verb at which an operand is read.
#[derive(Clone, Copy, Debug, PartialEq, Eq)]
pub enum Places {
    /// None.
    Absent,
    /// All.
    All,
    /// All but the second, which is an index.
    AroundIndex,
    /// The second, with a register before and an index behind.
    BeforeIndex,
    /// All after the first, which is a register.
    AfterRegister,
    /// All after the second, which is a number.
    AfterNumber,
}

/// A command that names registers for immediates, as far as it is written: its text, the tasks that load the registers, and
/// the borrowed registers. The next register to be borrowed is below `bound`.
#[derive(Drop)]
pub struct Rewriting {
    pub text: Vec<u8>,
    pub tasks: List<Task>,
    pub borrowed: List<u8>,
    pub bound: u8,
}

/// Returns the registers and tasks of a line that is a command with a register for each immediate, by the tokens after its
/// mutator and its answer. Returns `None` exactly if no command is spelled so.
pub(crate) fn immediate_rows(
    alloc: Global,
    answer: Reply,
    words: &[&[u8]],
) -> Result<Option<Rows>, NoMemory>
    ensures { IfOk result (IsRewrittenIf answer (map (λ w. w.now) words.now)) }
{
    let rewriting = rewrite(alloc, words)?;
    let Some(command) = command_of(alloc, rewriting.text.as_slice())? else {
        return Ok(None);
    };
    let rows = rows_of(rewriting, command, answer)?;
    Ok(Some(rows))
}

// Returns the registers and tasks of a command that was rewritten: the loads, and then the command with the line's answer.
fn rows_of(rewriting: Rewriting, command: Command, answer: Reply) -> Result<Rows, NoMemory>
    ensures { IfOk result (λ rows. rows ≡ rows_of (written_in rewriting) command answer) }
{
    let mut tasks = rewriting.tasks;
    tasks.push(Task {
        command,
        answer: Some(answer),
    })?;
    Ok(Rows {
        borrowed: rewriting.borrowed,
        tasks,
    })
}

// Returns the command that tokens become: a register for each immediate.
fn rewrite(alloc: Global, words: &[&[u8]]) -> Result<Rewriting, NoMemory>
    ensures { IfOk result (λ rewriting. written_in rewriting ≡ rewritten (map (λ w. w.now) words.now)) }
{
    let [verb, rest @ ..] = words else {
        return begin(alloc, b"");
    };
    let mut rewriting = begin(alloc, verb)?;
    add_tokens(&mut rewriting, places_of(verb), rest)?;
    Ok(rewriting)
}

// Returns the beginning of a command: its verb, and no register borrowed.
fn begin(alloc: Global, verb: &[u8]) -> Result<Rewriting, NoMemory>
    ensures { IfOk result (λ rewriting. written_in rewriting ≡ verb_alone verb.now) }
{
    let mut text = Vec::with_capacity(alloc, 64)?;
    text.extend_from_slice(verb)?;
    Ok(Rewriting {
        text,
        tasks: List::new(alloc),
        borrowed: List::new(alloc),
        bound: REGISTERS,
    })
}

// Appends the tokens after the verb, with registers for immediates.
fn add_tokens(rewriting: &mut Rewriting, places: Places, words: &[&[u8]]) -> Result<(), NoMemory>
    ensures { OnOk result (written_in rewriting.new ≡ with_tokens (map (λ w. w.now) words.now) places 0 (map (λ w. w.now) words.now) (written_in rewriting.old)) }
{
    for (place, word) in words.iter().enumerate() {
        let value = immediate(places, place, word);
        add_token(rewriting, words, value, word)?;
    }
    Ok(())
}

// Returns the number or nil that the token at this place spells, or `None` if it is no operand or spells something else.
fn immediate(places: Places, place: usize, word: &[u8]) -> Option<Value>
    ensures { result ≡ immediate_at places place word.now }
{
    if is_read(places, place) {
        return plain(word);
    }
    None
}

// Appends a token: a register if it is an immediate with this value, and otherwise the token. `all` are all tokens after the
// verb.
fn add_token(
    rewriting: &mut Rewriting,
    all: &[&[u8]],
    value: Option<Value>,
    word: &[u8],
) -> Result<(), NoMemory>
    ensures { OnOk result (written_in rewriting.new ≡ with_token (map (λ w. w.now) all.now) value word.now (written_in rewriting.old)) }
{
    let Some(value) = value else {
        return add_word(rewriting, word);
    };
    match spare_below(all, rewriting.bound) {
        Some(register) => add_register(rewriting, register, value),
        None => add_unserved(rewriting, word),
    }
}

// Appends a token as it is.
fn add_word(rewriting: &mut Rewriting, word: &[u8]) -> Result<(), NoMemory>
    ensures { OnOk result (written_in rewriting.new ≡ with_word word.now (written_in rewriting.old)) }
{
    rewriting.text.push(b' ')?;
    rewriting.text.extend_from_slice(word)?;
    Ok(())
}

// Appends the token of a register, and borrows the register for this value.
fn add_register(rewriting: &mut Rewriting, register: u8, value: Value) -> Result<(), NoMemory>
    ensures { OnOk result (written_in rewriting.new ≡ with_register register value (written_in rewriting.old)) }
{
    rewriting.text.extend_from_slice(b" r")?;
    push_number(&mut rewriting.text, u64::from(register))?;
    add_load(&mut rewriting.tasks, register, Some(value))?;
    rewriting.borrowed.push(register)?;
    rewriting.bound = register;
    Ok(())
}

// Appends an immediate as it is, since no register is left for it. No later immediate gets a register either.
fn add_unserved(rewriting: &mut Rewriting, word: &[u8]) -> Result<(), NoMemory>
    ensures { OnOk result (written_in rewriting.new ≡ without_register word.now (written_in rewriting.old)) }
{
    add_word(rewriting, word)?;
    rewriting.bound = 0;
    Ok(())
}

// Returns the last register below `bound` that none of the tokens names, or `None`.
fn spare_below(words: &[&[u8]], bound: u8) -> Option<u8>
    ensures { result ≡ spare_below (map (λ w. w.now) words.now) bound }
{
    let mut spare = bound;
    while spare > 0 {
        spare -= 1;
        if !is_named(spare, words) {
            return Some(spare);
        }
    }
    None
}

// Whether one of the tokens is the register with this number.
fn is_named(number: u8, words: &[&[u8]]) -> bool
    ensures { result ≡ is_named number (map (λ w. w.now) words.now) }
{
    for word in words {
        if is_same(number, register(word)) {
            return true;
        }
    }
    false
}

// Whether this register was read from a token.
fn is_same(number: u8, read: Option<u8>) -> bool
    ensures { result ≡ is_same number read }
{
    match read {
        Some(register) => register == number,
        None => false,
    }
}

// Whether the token at this place after the verb is an operand that is read. The first place is 0.
fn is_read(places: Places, place: usize) -> bool
    ensures { result ≡ is_read places place }
{
    match places {
        Places::Absent => false,
        Places::All => true,
        Places::AroundIndex => place != 1,
        Places::BeforeIndex => place == 1,
        Places::AfterRegister => place > 0,
        Places::AfterNumber => place > 1,
    }
}

// Returns the places of the operands of the command with this verb.
#[tactic(auto, unfolding(crate::specs::Immediates::places_of))]
fn places_of(verb: &[u8]) -> Places
    ensures { result ≡ places_of verb.now }
{
    if verb == b"set".as_slice() {
        return Places::AroundIndex;
    }
    if verb == b"cas".as_slice() {
        return Places::AroundIndex;
    }
    if verb == b"get".as_slice() {
        return Places::BeforeIndex;
    }
    if verb == b"con".as_slice() {
        return Places::AfterNumber;
    }
    if verb == b"arr".as_slice() {
        return Places::AfterNumber;
    }
    bare_places(verb)
}

// Returns the places of the operands of a command whose tokens are all operands, or as `loaded_places`.
#[tactic(auto, unfolding(crate::specs::Immediates::bare_places))]
fn bare_places(verb: &[u8]) -> Places
    ensures { result ≡ bare_places verb.now }
{
    if verb == b"update".as_slice() {
        return Places::All;
    }
    if verb == b"push".as_slice() {
        return Places::All;
    }
    if verb == b"show".as_slice() {
        return Places::All;
    }
    if verb == b"same".as_slice() {
        return Places::All;
    }
    loaded_places(verb)
}

// Returns the places of the operands of a command that reads an object into a register, or as `made_places`.
#[tactic(auto, unfolding(crate::specs::Immediates::loaded_places))]
fn loaded_places(verb: &[u8]) -> Places
    ensures { result ≡ loaded_places verb.now }
{
    if verb == b"force".as_slice() {
        return Places::AfterRegister;
    }
    if verb == b"pop".as_slice() {
        return Places::AfterRegister;
    }
    if verb == b"deref".as_slice() {
        return Places::AfterRegister;
    }
    if verb == b"finalise".as_slice() {
        return Places::AfterRegister;
    }
    if verb == b"tag".as_slice() {
        return Places::AfterRegister;
    }
    made_places(verb)
}

// Returns the places of the operands of a command that makes an object of them, or moves one. Other verbs have none.
#[tactic(auto, unfolding(crate::specs::Immediates::made_places))]
fn made_places(verb: &[u8]) -> Places
    ensures { result ≡ made_places verb.now }
{
    if verb == b"mov".as_slice() {
        return Places::AfterRegister;
    }
    if verb == b"var".as_slice() {
        return Places::AfterRegister;
    }
    if verb == b"rec".as_slice() {
        return Places::AfterRegister;
    }
    if verb == b"thunk".as_slice() {
        return Places::AfterRegister;
    }
    if verb == b"weak".as_slice() {
        return Places::AfterRegister;
    }
    Places::Absent
}
