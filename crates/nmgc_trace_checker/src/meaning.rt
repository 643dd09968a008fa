//! The meaning of a line of format 2. Commands, answers and names are spelled as in format 1 (`line`). A push has the pushed
//! name. There is no marker: no line scans an object or drains. A take only reports a name that the runtime's own marker took,
//! `scan` only that a mutator's registers are read, and `ended` that they are gone.
ghost use Rattle.std.specs.Prelude.{◌≡◌, map, IfOk};
ghost use Rattle.nmgc_trace_checker.specs.Reading.{shared_mark_at, scan_at, exit_at, black_at, short_at, place_at, span_at, copying_of, copy_at, copying_at, fill_at, filling_at, hand_words_at, hand_at, rows_at, rows_if, mutators_at, mark_at, push_at, settle_at, take_at, close_at, marked_at, freed_at, stop_at, ending_at, plain_at, parts_at};
ghost use Rattle.nmgc_trace_checker.specs.{Borrowing.borrowing_at, Meanings.IsMeaningBy, Meanings.IsMeaningOfBorrowing, Meanings.IsMeaningOfImmediates, Meanings.IsMeaningOfRow, Meanings.IsMeaningOfRows, Said.Says};

use crate::borrowing::borrowing;
use crate::commands::{command, parts};
use crate::immediates::immediate_rows;
use crate::tokens::{byte, names, operand, pusher, register, short};
use nmgc_barrier_checker::rows::{copy_tasks, fill_tasks};
use nmgc_barrier_checker::{Copying, Event, Filling, Hand, Task};
use nmgc_io::{cut_tokens, is_blank_or_comment};
use nmgc_journal::read_name;
use nmgc_lists::{List, NoMemory};
use nmgc_world_spec::{Operand, Reply};
use std::alloc::Global;

/// The meaning of a line.
#[derive(Drop)]
pub enum Meaning {
    /// Nothing.
    Blank,
    /// The number of mutators.
    Mutators(u8),
    /// A step of the runtime, or a report on its last cycle.
    Event(Event),
    /// The text is no line of a trace.
    Unknown,
}

/// Returns the meaning of `text`, a line of format 2 without its end: `Unknown` exactly if it has no other meaning.
pub fn meaning_of(alloc: Global, text: &str) -> Result<Meaning, NoMemory>
    ensures { IfOk result (Says text.now) }
{
    let line = text.as_bytes();
    if is_blank_or_comment(line) {
        return Ok(Meaning::Blank);
    }
    let mut words = Vec::with_capacity(alloc, 8)?;
    cut_tokens(&mut words, line)?;
    let meaning = meaning_by(alloc, words.as_slice())?;
    Ok(meaning)
}

// Returns the meaning of the line with these tokens.
fn meaning_by(alloc: Global, words: &[&[u8]]) -> Result<Meaning, NoMemory>
    ensures { IfOk result (IsMeaningBy (plain_at (map (λ w. w.now) words.now)) (map (λ w. w.now) words.now)) }
{
    let plain = keyword_meaning(alloc, words)?;
    match plain {
        Some(meaning) => Ok(meaning),
        None => mutator_meaning(alloc, words),
    }
}

// Returns the meaning of a line that begins with a keyword, or `None` if it begins otherwise or its rest is wrong.
#[tactic(auto, unfolding(crate::specs::Reading::plain_at))]
fn keyword_meaning(alloc: Global, words: &[&[u8]]) -> Result<Option<Meaning>, NoMemory>
    ensures { IfOk result (λ meaning. meaning ≡ plain_at (map (λ w. w.now) words.now)) }
{
    let [word, rest @ ..] = words else {
        return Ok(None);
    };
    if *word == b"mutators".as_slice() {
        return Ok(mutators_meaning(rest));
    }
    if *word == b"mark".as_slice() {
        return Ok(mark_meaning(rest));
    }
    if *word == b"push".as_slice() {
        return Ok(push_meaning(rest));
    }
    if *word == b"settle".as_slice() {
        return Ok(settle_meaning(rest));
    }
    if *word == b"take".as_slice() {
        return Ok(take_meaning(rest));
    }
    if *word == b"scan".as_slice() {
        return Ok(scan_meaning(rest));
    }
    if *word == b"ended".as_slice() {
        return Ok(exit_meaning(rest));
    }
    ending_meaning(alloc, word, rest)
}

// Returns the meaning of a line that begins with `close`, `marked`, `black`, `freed` or `stop`, or `None` for any other line.
#[tactic(auto, unfolding(crate::specs::Reading::ending_at))]
fn ending_meaning(alloc: Global, word: &[u8], rest: &[&[u8]]) -> Result<Option<Meaning>, NoMemory>
    ensures { IfOk result (λ meaning. meaning ≡ ending_at word.now (map (λ w. w.now) rest.now)) }
{
    if word == b"close".as_slice() {
        return close_meaning(alloc, rest);
    }
    if word == b"marked".as_slice() {
        return marked_meaning(alloc, rest);
    }
    if word == b"black".as_slice() {
        return black_meaning(alloc, rest);
    }
    if word == b"freed".as_slice() {
        return freed_meaning(alloc, rest);
    }
    if word == b"stop".as_slice() {
        return Ok(stop_meaning(rest));
    }
    Ok(None)
}

// Returns the meaning `Mutators` with the number that the one token after `mutators` spells, or `None` for any other tokens.
#[tactic(auto, unfolding(crate::specs::Reading::mutators_at))]
fn mutators_meaning(words: &[&[u8]]) -> Option<Meaning>
    ensures { result ≡ mutators_at (map (λ w. w.now) words.now) }
{
    let [count] = words else {
        return None;
    };
    Some(Meaning::Mutators(byte(count)?))
}

// Returns the event `Mark` if no token follows `mark`, `MarkShared` if one token follows and is `g`, and otherwise `None`.
#[tactic(auto, unfolding(crate::specs::Reading::mark_at))]
fn mark_meaning(words: &[&[u8]]) -> Option<Meaning>
    ensures { result ≡ mark_at (map (λ w. w.now) words.now) }
{
    if let [shared] = words {
        return shared_mark_meaning(shared);
    }
    let [] = words else {
        return None;
    };
    Some(Meaning::Event(Event::Mark))
}

// Returns the event `MarkShared` if the token after `mark` is `g`, and otherwise `None`.
#[tactic(auto, unfolding(crate::specs::Reading::shared_mark_at))]
fn shared_mark_meaning(word: &[u8]) -> Option<Meaning>
    ensures { result ≡ shared_mark_at word.now }
{
    if word == b"g".as_slice() {
        return Some(Meaning::Event(Event::MarkShared));
    }
    None
}

// Returns the scan of the mutator whose number the one token after `scan` spells, or `None` for any other tokens.
#[tactic(auto, unfolding(crate::specs::Reading::scan_at))]
fn scan_meaning(words: &[&[u8]]) -> Option<Meaning>
    ensures { result ≡ scan_at (map (λ w. w.now) words.now) }
{
    let [mutator] = words else {
        return None;
    };
    let mutator = byte(mutator)?;
    Some(Meaning::Event(Event::Scan { mutator }))
}

// Returns the end of the mutator whose number the one token after `ended` spells, or `None` for any other tokens.
#[tactic(auto, unfolding(crate::specs::Reading::exit_at))]
fn exit_meaning(words: &[&[u8]]) -> Option<Meaning>
    ensures { result ≡ exit_at (map (λ w. w.now) words.now) }
{
    let [mutator] = words else {
        return None;
    };
    let mutator = byte(mutator)?;
    Some(Meaning::Event(Event::Exit { mutator }))
}

// Returns the push that the tokens `WHO NAME` after `push` spell, or `None`. Only the name is in the event, not the pusher.
#[tactic(auto, unfolding(crate::specs::Reading::push_at))]
fn push_meaning(words: &[&[u8]]) -> Option<Meaning>
    ensures { result ≡ push_at (map (λ w. w.now) words.now) }
{
    let [who, name] = words else {
        return None;
    };
    let _who = pusher(who)?;
    let name = read_name(name)?;
    Some(Meaning::Event(Event::Push { name }))
}

// Returns the settle of the mutator whose number the one token after `settle` spells, or `None` for any other tokens.
#[tactic(auto, unfolding(crate::specs::Reading::settle_at))]
fn settle_meaning(words: &[&[u8]]) -> Option<Meaning>
    ensures { result ≡ settle_at (map (λ w. w.now) words.now) }
{
    let [mutator] = words else {
        return None;
    };
    let mutator = byte(mutator)?;
    Some(Meaning::Event(Event::Settle { mutator }))
}

// Returns the take of the name that the one token after `take` spells, or `None` for any other tokens.
#[tactic(auto, unfolding(crate::specs::Reading::take_at))]
fn take_meaning(words: &[&[u8]]) -> Option<Meaning>
    ensures { result ≡ take_at (map (λ w. w.now) words.now) }
{
    let [name] = words else {
        return None;
    };
    let name = read_name(name)?;
    Some(Meaning::Event(Event::Take { name }))
}

// Returns the close that the tokens after `close` spell, or `None`. Without tokens, the close reports no deaths.
#[tactic(auto, unfolding(crate::specs::Reading::close_at))]
fn close_meaning(alloc: Global, words: &[&[u8]]) -> Result<Option<Meaning>, NoMemory>
    ensures { IfOk result (λ meaning. meaning ≡ close_at (map (λ w. w.now) words.now)) }
{
    let [_, ..] = words else {
        return Ok(Some(Meaning::Event(Event::Close)));
    };
    let Some(dead) = names(alloc, words)? else {
        return Ok(None);
    };
    Ok(Some(Meaning::Event(Event::CloseWith { dead })))
}

// Returns the report of marked names that the tokens after `marked` spell, or `None`.
#[tactic(auto, unfolding(crate::specs::Reading::marked_at))]
fn marked_meaning(alloc: Global, words: &[&[u8]]) -> Result<Option<Meaning>, NoMemory>
    ensures { IfOk result (λ meaning. meaning ≡ marked_at (map (λ w. w.now) words.now)) }
{
    let Some(names) = names(alloc, words)? else {
        return Ok(None);
    };
    Ok(Some(Meaning::Event(Event::Marked { names })))
}

// Returns the report of marked names that the tokens after `black` spell, or `None`. Names made since `mark` may be there.
#[tactic(auto, unfolding(crate::specs::Reading::black_at))]
fn black_meaning(alloc: Global, words: &[&[u8]]) -> Result<Option<Meaning>, NoMemory>
    ensures { IfOk result (λ meaning. meaning ≡ black_at (map (λ w. w.now) words.now)) }
{
    let Some(names) = names(alloc, words)? else {
        return Ok(None);
    };
    Ok(Some(Meaning::Event(Event::Black { names })))
}

// Returns the report of freed names that the tokens after `freed` spell, or `None`.
#[tactic(auto, unfolding(crate::specs::Reading::freed_at))]
fn freed_meaning(alloc: Global, words: &[&[u8]]) -> Result<Option<Meaning>, NoMemory>
    ensures { IfOk result (λ meaning. meaning ≡ freed_at (map (λ w. w.now) words.now)) }
{
    let Some(names) = names(alloc, words)? else {
        return Ok(None);
    };
    Ok(Some(Meaning::Event(Event::Freed { names })))
}

// Returns the event `Stop` if no token follows `stop`, and otherwise `None`.
#[tactic(auto, unfolding(crate::specs::Reading::stop_at))]
fn stop_meaning(words: &[&[u8]]) -> Option<Meaning>
    ensures { result ≡ stop_at (map (λ w. w.now) words.now) }
{
    let [] = words else {
        return None;
    };
    Some(Meaning::Event(Event::Stop))
}

// Returns the meaning of a line with a mutator's command, copy or fill and its answer, or `Unknown` for any other tokens.
fn mutator_meaning(alloc: Global, words: &[&[u8]]) -> Result<Meaning, NoMemory>
    ensures { IfOk result (IsMeaningOfRow (parts_at (map (λ w. w.now) words.now))) }
{
    let Some((mutator, words, answer)) = parts(words) else {
        return Ok(Meaning::Unknown);
    };
    if let Some(hand) = hand(mutator, words) {
        return Ok(Meaning::Event(Event::Hand { hand, answer }));
    }
    let meaning = commands_meaning(alloc, mutator, words, answer)?;
    Ok(meaning)
}

// Returns the meaning of a mutator's tokens with their answer: the tasks of a copy or a fill, or as `command_meaning`.
fn commands_meaning(
    alloc: Global,
    mutator: u8,
    words: &[&[u8]],
    answer: Reply,
) -> Result<Meaning, NoMemory>
    ensures { IfOk result (IsMeaningOfRows mutator (map (λ w. w.now) words.now) answer (rows_if answer (map (λ w. w.now) words.now))) }
{
    if let Some(tasks) = rows_if(alloc, answer, words)? {
        return Ok(Meaning::Event(Event::Rows {
            mutator,
            borrowed: List::new(alloc),
            tasks,
        }));
    }
    let meaning = command_meaning(alloc, mutator, words, answer)?;
    Ok(meaning)
}

// Returns the meaning of a mutator's tokens with their answer: a line that borrows registers, a command, or as
// `immediate_meaning`.
fn command_meaning(
    alloc: Global,
    mutator: u8,
    words: &[&[u8]],
    answer: Reply,
) -> Result<Meaning, NoMemory>
    ensures { IfOk result (IsMeaningOfBorrowing mutator (map (λ w. w.now) words.now) answer (borrowing_at answer (map (λ w. w.now) words.now))) }
{
    if let Some(rows) = borrowing(alloc, answer, words)? {
        return Ok(Meaning::Event(Event::Rows {
            mutator,
            borrowed: rows.borrowed,
            tasks: rows.tasks,
        }));
    }
    match command(alloc, words)? {
        Some(command) => Ok(Meaning::Event(Event::Given {
            mutator,
            command,
            answer,
        })),
        None => immediate_meaning(alloc, mutator, words, answer),
    }
}

// Returns the meaning of a mutator's tokens with their answer: a command with a register for each immediate, or `Unknown`.
fn immediate_meaning(
    alloc: Global,
    mutator: u8,
    words: &[&[u8]],
    answer: Reply,
) -> Result<Meaning, NoMemory>
    ensures { IfOk result (IsMeaningOfImmediates mutator (map (λ w. w.now) words.now) answer) }
{
    match immediate_rows(alloc, answer, words)? {
        Some(rows) => Ok(Meaning::Event(Event::Rows {
            mutator,
            borrowed: rows.borrowed,
            tasks: rows.tasks,
        })),
        None => Ok(Meaning::Unknown),
    }
}

// Returns the value that a mutator hands over by these tokens, or `None`.
#[tactic(auto, unfolding(crate::specs::Reading::hand_at))]
fn hand(mutator: u8, words: &[&[u8]]) -> Option<Hand>
    ensures { result ≡ hand_at mutator (map (λ w. w.now) words.now) }
{
    let [verb, rest @ ..] = words else {
        return None;
    };
    if *verb != b"hand".as_slice() {
        return None;
    }
    hand_of(mutator, rest)
}

// Returns the value that a mutator hands over by the three tokens after `hand` (value, mutator, register), or `None`.
#[tactic(auto, unfolding(crate::specs::Reading::hand_words_at))]
fn hand_of(mutator: u8, words: &[&[u8]]) -> Option<Hand>
    ensures { result ≡ hand_words_at mutator (map (λ w. w.now) words.now) }
{
    let [value, taker, dest] = words else {
        return None;
    };
    let value = operand(value)?;
    let taker = byte(taker)?;
    let dest = register(dest)?;
    Some(Hand {
        giver: mutator,
        value,
        taker,
        dest,
    })
}

// Returns the tasks of the copy or the fill that tokens spell, or `None`; also `None` if the answer isn't `Fine`.
fn rows_if(alloc: Global, answer: Reply, words: &[&[u8]]) -> Result<Option<List<Task>>, NoMemory>
    ensures { IfOk result (λ rows. rows ≡ rows_if answer (map (λ w. w.now) words.now)) }
{
    match answer {
        Reply::Fine => rows(alloc, words),
        _ => Ok(None),
    }
}

// Returns the tasks of the copy or the fill that tokens spell, or `None`.
#[tactic(auto, unfolding(crate::specs::Reading::rows_at))]
fn rows(alloc: Global, words: &[&[u8]]) -> Result<Option<List<Task>>, NoMemory>
    ensures { IfOk result (λ rows. rows ≡ rows_at (map (λ w. w.now) words.now)) }
{
    let [verb, rest @ ..] = words else {
        return Ok(None);
    };
    if *verb == b"copy".as_slice() {
        let Some(copying) = copying(rest) else {
            return Ok(None);
        };
        return Ok(Some(copy_tasks(alloc, copying)?));
    }
    if *verb == b"fill".as_slice() {
        let Some(filling) = filling(rest) else {
            return Ok(None);
        };
        return Ok(Some(fill_tasks(alloc, filling)?));
    }
    Ok(None)
}

// Returns the copy that seven tokens after `copy` spell (target, index, source, index, count, `via`, register), or `None`.
#[tactic(auto, unfolding(crate::specs::Reading::copying_at))]
fn copying(words: &[&[u8]]) -> Option<Copying>
    ensures { result ≡ copying_at (map (λ w. w.now) words.now) }
{
    let [to, place, from, first, count, word, via] = words else {
        return None;
    };
    if *word != b"via".as_slice() {
        return None;
    }
    copy(to, place, from, first, count, via)
}

// Returns the copy that six tokens spell, or `None`. The copy goes downwards if its fields move up, and otherwise upwards.
#[tactic(auto, unfolding(crate::specs::Reading::copy_at))]
fn copy(
    to: &[u8],
    place: &[u8],
    from: &[u8],
    first: &[u8],
    count: &[u8],
    via: &[u8],
) -> Option<Copying>
    ensures { result ≡ copy_at to.now place.now from.now first.now count.now via.now }
{
    let (to, place) = place_of(to, place)?;
    let (from, first) = place_of(from, first)?;
    let (count, via) = span(count, via)?;
    Some(Copying {
        from,
        first,
        to,
        place,
        count,
        via,
        down: first < place,
    })
}

/// Returns the object and the index of a field that two tokens spell, or `None`. Takes no memory.
#[tactic(auto, unfolding(crate::specs::Reading::place_at))]
pub(crate) fn place_of(object: &[u8], index: &[u8]) -> Option<(Operand, u32)>
    ensures { result ≡ place_at object.now index.now }
{
    let object = operand(object)?;
    let index = short(index)?;
    Some((object, index))
}

// Returns the number of fields and the register that two tokens spell, or `None`.
#[tactic(auto, unfolding(crate::specs::Reading::span_at))]
fn span(count: &[u8], via: &[u8]) -> Option<(u32, u8)>
    ensures { result ≡ span_at count.now via.now }
{
    let count = short(count)?;
    let via = register(via)?;
    Some((count, via))
}

// Returns the fill that the four tokens after `fill` spell (object, first index, count, value), or `None`.
#[tactic(auto, unfolding(crate::specs::Reading::filling_at))]
fn filling(words: &[&[u8]]) -> Option<Filling>
    ensures { result ≡ filling_at (map (λ w. w.now) words.now) }
{
    let [object, first, count, value] = words else {
        return None;
    };
    fill(object, first, count, value)
}

// Returns the fill that these four tokens spell, or `None` if they spell none.
#[tactic(auto, unfolding(crate::specs::Reading::fill_at))]
fn fill(object: &[u8], first: &[u8], count: &[u8], value: &[u8]) -> Option<Filling>
    ensures { result ≡ fill_at object.now first.now count.now value.now }
{
    let (object, first) = place_of(object, first)?;
    let count = short(count)?;
    let value = operand(value)?;
    Some(Filling {
        object,
        first,
        count,
        value,
    })
}
