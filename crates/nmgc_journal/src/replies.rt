//! The replies of one mutator in one round, packed into half a word each.
//!
//! A report keeps every reply of a run. As values of 24 bytes they would be the largest part of a long run's report. A reply
//! is a number, an object's name or one of fifteen others, so it can be packed into a word (`specs/Packed.antt`). The upper
//! half of the word is 0, except for numbers of 2^31 or more and names with a serial of 2^22 or more. If a list has neither,
//! only the lower halves are kept. A reader of a report unpacks one reply at a time. The packing is no part of the value,
//! since contracts see the replies, and no format has it. It pays, since new memory takes a large part of a long run's time.
//! Easy to get wrong: a number of 2^63 or more doesn't fit beside the bit that marks a number. No heap has such a number, but
//! a list of replies may have one, and is then kept unpacked as a whole.
ghost use Rattle.std.specs.Prelude.{◌≡◌, ◌<◌, IfOk, IfSome, length, slice_get, slice_index_or, Some};
ghost use Rattle.nmgc_world_spec.specs.{declared.command.Reply.TheVariants.Fine, declared.command.Reply.TheVariants.Given, declared.value.Value.TheVariants.Number, declared.value.Value.TheVariants.Ref};
ghost use Rattle.nmgc_journal.specs.{Packed.name_in, Packed.plain_replies, Packed.reply_in, Reading.HasWord};

use nmgc_lists::NoMemory;
use nmgc_world_spec::{Name, Reply, Value};
use std::alloc::Global;
use std::marker::Model;

/// Replies in order, which can be read and not written.
#[derive(Drop)]
pub struct Replies {
    form: Form,
}

impl Model for Replies {
    ghost use Rattle.std.specs.Prelude.{List};
    ghost use Rattle.nmgc_world_spec.specs.declared.command.Reply.{Reply};
    ghost use Rattle.nmgc_journal.specs.Packed.{replies_of};

    ghost Value = { List Reply };

    ghost view = { λ r. replies_of r.form };
}

// The storage of the replies: half a word each, a word each, or unpacked.
#[derive(Drop)]
enum Form {
    Halves(Vec<u32>),
    Packed(Vec<u64>),
    Whole(Vec<Reply>),
}

impl Replies {
    /// Makes a list of `replies`. Takes memory for half a word for each reply. If a reply doesn't fit, takes memory for a
    /// word each too, and if a number is 2^63 or more, also for the unpacked replies. Unused memory is given back.
    pub fn from_slice(alloc: Global, replies: &[Reply]) -> Result<Replies, NoMemory>
        ensures { IfOk result (λ own. own ≡ replies.now) }
    {
        let mut words = Vec::with_capacity(alloc, replies.len())?;
        for reply in replies {
            let Some(word) = pack_into_half(*reply) else {
                return Replies::pack_into_words(alloc, replies);
            };
            words.push_reserved(word);
        }
        Ok(Replies {
            form: Form::Halves(words),
        })
    }

    // Makes a list of `replies`: packed into a word each if all fit, and otherwise unpacked.
    fn pack_into_words(alloc: Global, replies: &[Reply]) -> Result<Replies, NoMemory>
        ensures { IfOk result (λ own. own ≡ replies.now) }
    {
        let mut words = Vec::with_capacity(alloc, replies.len())?;
        for reply in replies {
            let Some(word) = pack_into_word(*reply) else {
                return Replies::keep_unpacked(alloc, replies);
            };
            words.push_reserved(word);
        }
        Ok(Replies {
            form: Form::Packed(words),
        })
    }

    // Makes a list of `replies`, unpacked.
    fn keep_unpacked(alloc: Global, replies: &[Reply]) -> Result<Replies, NoMemory>
        ensures { IfOk result (λ own. own ≡ replies.now) }
    {
        Ok(Replies {
            form: Form::Whole(Vec::from_slice(alloc, replies)?),
        })
    }

    /// Returns the number of replies.
    pub fn len(&self) -> usize
        ensures { result ≡ length self.now }
    {
        match &self.form {
            Form::Halves(words) => words.len(),
            Form::Packed(words) => words.len(),
            Form::Whole(replies) => replies.len(),
        }
    }

    /// Returns the reply at position `at`.
    pub fn reply(&self, at: usize) -> Reply
        requires { at < length self.now }
        ensures { slice_get self.now at ≡ Some result }
    {
        match &self.form {
            Form::Halves(words) => reply_in(u64::from(words[at])),
            Form::Packed(words) => reply_in(words[at]),
            Form::Whole(replies) => replies[at],
        }
    }
}

// Packs a reply into half a word, or returns `None` if it doesn't fit.
fn pack_into_half(reply: Reply) -> Option<u32>
    ensures { IfSome result (λ word. reply_in word ≡ reply) }
{
    let word = pack_into_word(reply)?;
    if word > u64::from(u32::MAX) {
        return None;
    }
    Some(word as u32)
}

// Packs a reply into a word, or returns `None` if it doesn't fit.
fn pack_into_word(reply: Reply) -> Option<u64>
    ensures { IfSome result (λ word. reply_in word ≡ reply) }
{
    match reply {
        Reply::Given(value) => packed_value(value),
        other => Some(packed_plain(other)),
    }
}

// Packs a reply that gives `value` into a word, or returns `None` if it doesn't fit.
fn packed_value(value: Value) -> Option<u64>
    ensures { IfSome result (λ word. reply_in word ≡ Given value) }
{
    match value {
        Value::Nil => Some(4 * NIL_PLACE),
        Value::Number(number) => packed_number(number),
        Value::Ref(name) => Some(packed_name(name)),
    }
}

// Packs a reply that gives a number into a word, which is odd. Returns `None` if the number doesn't fit.
fn packed_number(number: u64) -> Option<u64>
    ensures { IfSome result (λ word. reply_in word ≡ Given (Number number)) }
{
    if number <= u64::MAX / 2 {
        Some(2 * number + 1)
    } else {
        None
    }
}

// Packs a reply that gives an object into a word, which is twice an odd number.
fn packed_name(name: Name) -> u64
    ensures { reply_in result ≡ Given (Ref name) }
{
    4 * (u64::from(name.maker) + 256 * u64::from(name.serial)) + 2
}

// Packs a reply into a word: four times the reply's position among the plain replies. Requires a reply that gives no value.
fn packed_plain(reply: Reply) -> u64
    requires { HasWord reply }
    ensures { reply_in result ≡ reply }
{
    match reply {
        Reply::Fine => 0,
        Reply::Yes => 4,
        Reply::No => 8,
        Reply::Updated => 12,
        Reply::Already => 16,
        Reply::Given(_) => unreachable!(),
        Reply::NoPointer => 20,
        Reply::NoField => 24,
        Reply::WrongKind => 28,
        Reply::NotOwner => 32,
        Reply::Fixed => 36,
        Reply::Dead => 40,
        Reply::Nothing => 44,
        Reply::StackFull => 48,
        Reply::StackEmpty => 52,
    }
}

// The position of nil among the plain replies.
const NIL_PLACE: u64 = 14;

// Returns the reply that a word represents.
fn reply_in(word: u64) -> Reply
    ensures { result ≡ reply_in word }
{
    if word % 2 == 1 {
        return Reply::Given(Value::Number(word / 2));
    }
    let code = word / 4;
    if word % 4 == 2 {
        return Reply::Given(Value::Ref(name_in(code)));
    }
    plain_at(code)
}

// Returns the name that a code represents: the code, modulo 2^40, is 256 times the serial, plus the maker.
fn name_in(code: u64) -> Name
    ensures { result ≡ name_in code }
{
    Name {
        maker: (code % 256) as u8,
        serial: (code / 256 % 4294967296) as u32,
    }
}

// Returns the plain reply at position `place`, or `Fine` past the last position.
fn plain_at(place: u64) -> Reply
    ensures { result ≡ slice_index_or plain_replies place Fine }
{
    match place {
        1 => Reply::Yes,
        2 => Reply::No,
        3 => Reply::Updated,
        4 => Reply::Already,
        5 => Reply::NoPointer,
        6 => Reply::NoField,
        7 => Reply::WrongKind,
        8 => Reply::NotOwner,
        9 => Reply::Fixed,
        10 => Reply::Dead,
        11 => Reply::Nothing,
        12 => Reply::StackFull,
        13 => Reply::StackEmpty,
        NIL_PLACE => Reply::Given(Value::Nil),
        _ => Reply::Fine,
    }
}
