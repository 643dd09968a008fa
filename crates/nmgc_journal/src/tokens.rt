//! The parts of a line: tokens, numbers, names and values.
//!
//! Each function appends one piece to the bytes so far, so no piece is written twice or moved.
ghost use Rattle.std.specs.Prelude.{◌≡◌, ◌++◌, decimal, OnOk};
ghost use Rattle.nmgc_journal.specs.Text.{name_text, value_text};

use nmgc_io::push_number;
use nmgc_limits::SHARED_MAKER;
use nmgc_lists::NoMemory;
use nmgc_world_spec::{Name, Value};

/// Appends the bytes of `word`, which is a token or other text, as they are.
pub fn push_word(out: &mut Vec<u8>, word: &[u8]) -> Result<(), NoMemory>
    ensures { OnOk result (out.new.items ≡ out.old.items ++ word.now) }
{
    out.extend_from_slice(word)?;
    Ok(())
}

/// Appends the token `word` and the decimal text of `number`.
pub fn push_count(out: &mut Vec<u8>, word: &[u8], number: u64) -> Result<(), NoMemory>
    ensures { OnOk result (out.new.items ≡ out.old.items ++ (word.now ++ decimal number)) }
{
    out.extend_from_slice(word)?;
    push_number(out, number)
}

/// Appends the text of a value: `nil`, a number's digits, or a name. After `NoMemory` a part of the text may be in `out`.
pub fn push_value(out: &mut Vec<u8>, value: Value) -> Result<(), NoMemory>
    ensures { OnOk result (out.new.items ≡ out.old.items ++ value_text value) }
{
    match value {
        Value::Nil => push_word(out, b"nil"),
        Value::Number(number) => push_number(out, number),
        Value::Ref(name) => push_name(out, name),
    }
}

/// Appends the text of a name: its maker and its serial with a full stop between, or `g` for the shared array. After
/// `NoMemory` a part of the text may be in `out`.
pub fn push_name(out: &mut Vec<u8>, name: Name) -> Result<(), NoMemory>
    ensures { OnOk result (out.new.items ≡ out.old.items ++ name_text name) }
{
    if name.maker == SHARED_MAKER && name.serial == 0 {
        out.push(b'g')?;
        return Ok(());
    }
    push_number(out, u64::from(name.maker))?;
    out.push(b'.')?;
    push_number(out, u64::from(name.serial))
}
