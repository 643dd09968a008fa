//! The line of a reply: the mutator, a space and the reply.
//!
//! A report may have millions of such lines, and nearly all give a name or a number. The line of a number, or of a name other
//! than g, is written into a buffer from its end backwards. The digits of a number are computed from the last one. It is
//! appended to the text as a whole. Easy to get wrong: the line of a name has one number more than the line of a number. But
//! its numbers have 8 and 32 bits, so the longest line has a mutator and a number of 20 digits each.
ghost use Rattle.std.specs.Prelude.{◌≡◌, ◌+◌, ◌<◌, ◌≤◌, [], ◌∷◌, ◌++◌, decimal, drop, length, OnOk};
ghost use Rattle.nmgc_world_spec.specs.{declared.command.Reply.TheVariants.Given, declared.value.Value.TheVariants.Number, declared.value.Value.TheVariants.Ref};
ghost use Rattle.nmgc_journal.specs.{Printing.reply_line, Text.reply_text, Reading.HasWord};

use itoa::write_digits;
use nmgc_io::push_number;
use nmgc_limits::SHARED_MAKER;
use nmgc_lists::NoMemory;
use nmgc_world_spec::{Name, Reply, Value};

// The size of the buffer: more bytes than any line has.
const LINE: usize = 64;

// Writes `number` and then `byte` into the buffer, so that `byte` is just before position `end`. Requires that both fit
// there. Returns the position of the first digit. The bytes from `end` on stay.
#[inline(always)]
fn write_before(line: &mut [u8; LINE], end: usize, number: u64, byte: u8) -> usize
    requires room { length (decimal number) < end }
    requires inside { end ≤ LINE }
    ensures from { result + length (decimal number) + 1 ≡ end }
    ensures text { drop result line.new ≡ decimal number ++ byte ∷ drop end line.old }
{
    line[end - 1] = byte;
    write_digits(number, line, end - 1)
}

/// Appends the line of a mutator's reply.
pub fn push_reply_line(out: &mut Vec<u8>, mutator: u64, reply: Reply) -> Result<(), NoMemory>
    ensures { OnOk result (out.new.items ≡ out.old.items ++ reply_line mutator reply) }
{
    match reply {
        Reply::Given(value) => push_value_line(out, mutator, value),
        other => push_word_line(out, mutator, reply_token(other)),
    }
}

// Appends the line of a reply that gives a value.
fn push_value_line(out: &mut Vec<u8>, mutator: u64, value: Value) -> Result<(), NoMemory>
    ensures { OnOk result (out.new.items ≡ out.old.items ++ reply_line mutator (Given value)) }
{
    match value {
        Value::Nil => push_word_line(out, mutator, b"nil"),
        Value::Number(number) => push_number_line(out, mutator, number),
        Value::Ref(name) => push_name_line(out, mutator, name),
    }
}

// Appends the line of a reply that gives an object.
fn push_name_line(out: &mut Vec<u8>, mutator: u64, name: Name) -> Result<(), NoMemory>
    ensures { OnOk result (out.new.items ≡ out.old.items ++ reply_line mutator (Given (Ref name))) }
{
    if name.maker == SHARED_MAKER && name.serial == 0 {
        return push_word_line(out, mutator, b"g");
    }
    push_dotted_line(out, mutator, name)
}

// Appends the line of a reply that gives an object other than the shared array.
fn push_dotted_line(out: &mut Vec<u8>, mutator: u64, name: Name) -> Result<(), NoMemory>
    ensures { OnOk result (out.new.items ≡ out.old.items ++ (decimal mutator ++ 32 ∷ (decimal name.maker ++ 46 ∷ decimal name.serial) ++ 10 ∷ [])) }
{
    let mut line = [0u8; LINE];
    let serial = write_before(&mut line, LINE, name.serial as u64, b'\n');
    let maker = write_before(&mut line, serial, name.maker as u64, b'.');
    let from = write_before(&mut line, maker, mutator, b' ');
    out.extend_from_slice(&line[from..])?;
    Ok(())
}

// Appends the line of a reply that gives a number.
fn push_number_line(out: &mut Vec<u8>, mutator: u64, number: u64) -> Result<(), NoMemory>
    ensures { OnOk result (out.new.items ≡ out.old.items ++ reply_line mutator (Given (Number number))) }
{
    let mut line = [0u8; LINE];
    let text = write_before(&mut line, LINE, number, b'\n');
    let from = write_before(&mut line, text, mutator, b' ');
    out.extend_from_slice(&line[from..])?;
    Ok(())
}

// Appends the line of a mutator's reply whose text is the token `word`.
fn push_word_line(out: &mut Vec<u8>, mutator: u64, word: &[u8]) -> Result<(), NoMemory>
    ensures { OnOk result (out.new.items ≡ out.old.items ++ (decimal mutator ++ 32 ∷ word.now ++ 10 ∷ [])) }
{
    push_number(out, mutator)?;
    out.push(b' ')?;
    out.extend_from_slice(word)?;
    out.push(b'\n')?;
    Ok(())
}

// Returns the token of a reply. Requires a reply that gives no value.
fn reply_token(reply: Reply) -> &'static [u8]
    requires { HasWord reply }
    ensures { result.now ≡ reply_text reply }
{
    match reply {
        Reply::Fine => b"ok",
        Reply::Yes => b"yes",
        Reply::No => b"no",
        Reply::Updated => b"updated",
        Reply::Already => b"already",
        Reply::Given(_) => unreachable!(),
        Reply::NoPointer => b"nopointer",
        Reply::NoField => b"nofield",
        Reply::WrongKind => b"wrongkind",
        Reply::NotOwner => b"notowner",
        Reply::Fixed => b"fixed",
        Reply::Dead => b"dead",
        Reply::Nothing => b"none",
        Reply::StackFull => b"stackfull",
        Reply::StackEmpty => b"stackempty",
    }
}
