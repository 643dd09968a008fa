//! Node lines that are read in one pass. Most objects are constructors. So nearly all of their lines, which are most lines of
//! a long image, are read once, byte by byte, without being cut into tokens. `front` takes all other lines by their tokens:
//! of another kind, bad, or a constructor's with `g` or a number of more than eighteen digits. Easy to get wrong: a number
//! with a leading zero is the text of no number.
ghost use Rattle.std.specs.Prelude.{◌≡◌, ◌+◌, ◌^◌, ◌<◌, ◌++◌, ◌∷◌, codes, decimal, length, map, All, IfOk, IfSome, OnOk};
ghost use Rattle.nmgc_journal.specs.Text.{IsValue, name_text, value_text};
ghost use Rattle.nmgc_object.specs.Words.{IsName};
ghost use Rattle.nmgc_io.specs.Spaced.{after_spaces};
ghost use Rattle.nmgc_image.specs.{Plain.IsPlain, Plain.IsPlainNode};

use crate::LineFault;
use crate::image::Entry;
use nmgc_limits::SHARED_MAKER;
use nmgc_lists::List;
use nmgc_object::MAX_FIELDS;
use nmgc_object::words::TAGS;
use nmgc_world_spec::{Name, Node, Value};
use std::alloc::Global;

/// The least number after which no further digit is read.
const MANY: u64 = 100_000_000_000_000_000;

/// A position in a text. `Bad` means that the next part can't be read in one pass. The position may have moved then.
#[derive(Drop)]
pub(crate) struct Cursor<'a> {
    pub(crate) rest: &'a [u8],
}

impl<'a> Cursor<'a> {
    /// Returns the position at the beginning of a text. Takes no memory.
    pub(crate) fn new(bytes: &'a [u8]) -> Self
        ensures { result.rest.now ≡ bytes.now }
    {
        Cursor { rest: bytes }
    }

    /// Reads the node line of a constructor, with its line feed, and returns the object.
    pub(crate) fn entry(&mut self, alloc: Global) -> Result<Entry, LineFault>
        ensures { IfOk result (λ entry. IsPlain self.old.rest.now entry self.new.rest.now) }
    {
        self.pass_node()?;
        let name = self.name()?;
        let node = self.con(alloc)?;
        Ok(Entry { name, node })
    }

    // Reads the tokens of a constructor from `con` on, with the space before and the line feed, and returns the node.
    fn con(&mut self, alloc: Global) -> Result<Node, LineFault>
        ensures { IfOk result (λ node. IsPlainNode self.old.rest.now node self.new.rest.now) }
    {
        self.pass_con()?;
        let tag = self.number()?;
        if tag >= TAGS {
            return Err(LineFault::Bad);
        }
        let values = self.values(alloc)?;
        if values.items().len() > MAX_FIELDS as usize {
            return Err(LineFault::Bad);
        }
        Ok(Node::Con {
            tag: tag as u8,
            values,
        })
    }

    // Reads values, each behind a space, and the line feed, and returns the values. Two values take no memory (`List::pair`).
    fn values(&mut self, alloc: Global) -> Result<List<Value>, LineFault>
        ensures text { IfOk result (λ values. self.old.rest.now ≡ after_spaces (map value_text values) ++ 10 ∷ self.new.rest.now) }
        ensures valid { IfOk result (λ values. All IsValue values) }
    {
        let mut cursor = Cursor::new(self.rest);
        if let Ok(values) = cursor.pair(alloc) {
            self.rest = cursor.rest;
            return Ok(values);
        }
        self.any_values(alloc)
    }

    // Reads two values, each behind a space, and the line feed, and returns the values.
    fn pair(&mut self, alloc: Global) -> Result<List<Value>, LineFault>
        ensures text { IfOk result (λ values. self.old.rest.now ≡ after_spaces (map value_text values) ++ 10 ∷ self.new.rest.now) }
        ensures valid { IfOk result (λ values. All IsValue values) }
    {
        let first = self.spaced_value()?;
        let second = self.spaced_value()?;
        self.pass(b'\n')?;
        Ok(List::pair(alloc, first, second))
    }

    // Reads any number of values, each behind a space, and the line feed, and returns the values.
    fn any_values(&mut self, alloc: Global) -> Result<List<Value>, LineFault>
        ensures text { IfOk result (λ values. self.old.rest.now ≡ after_spaces (map value_text values) ++ 10 ∷ self.new.rest.now) }
        ensures valid { IfOk result (λ values. All IsValue values) }
    {
        let mut values = List::new(alloc);
        'more: while begins(self.rest, b' ') {
            let value = self.spaced_value()?;
            values.push(value)?;
        }
        self.pass(b'\n')?;
        Ok(values)
    }

    // Reads a space and a value, and returns the value.
    fn spaced_value(&mut self) -> Result<Value, LineFault>
        ensures text { IfOk result (λ value. self.old.rest.now ≡ 32 ∷ (value_text value ++ self.new.rest.now)) }
        ensures valid { IfOk result (λ value. IsValue value) }
    {
        self.pass(b' ')?;
        self.value()
    }

    // Reads and returns a value: `nil`, a number, or the name of an object that a mutator made.
    fn value(&mut self) -> Result<Value, LineFault>
        ensures text { IfOk result (λ value. self.old.rest.now ≡ value_text value ++ self.new.rest.now) }
        ensures valid { IfOk result (λ value. IsValue value) }
    {
        if begins(self.rest, b'n') {
            self.pass_nil()?;
            return Ok(Value::Nil);
        }
        let number = self.number()?;
        if begins(self.rest, b'.') {
            let name = self.name_of(number)?;
            return Ok(Value::Ref(name));
        }
        Ok(Value::Number(number))
    }

    // Reads and returns the name of an object that a mutator made: maker, dot and serial.
    fn name(&mut self) -> Result<Name, LineFault>
        ensures text { IfOk result (λ name. self.old.rest.now ≡ name_text name ++ self.new.rest.now) }
        ensures valid { IfOk result (λ name. IsName name) }
    {
        let maker = self.number()?;
        self.name_of(maker)
    }

    // Reads the dot and the serial of a name after its maker, and returns the name.
    fn name_of(&mut self, maker: u64) -> Result<Name, LineFault>
        ensures text { IfOk result (λ name. decimal maker ++ self.old.rest.now ≡ name_text name ++ self.new.rest.now) }
        ensures valid { IfOk result (λ name. IsName name) }
    {
        if maker >= u64::from(SHARED_MAKER) {
            return Err(LineFault::Bad);
        }
        self.pass(b'.')?;
        let serial = self.number()?;
        if serial > u64::from(u32::MAX) {
            return Err(LineFault::Bad);
        }
        Ok(Name {
            maker: maker as u8,
            serial: serial as u32,
        })
    }

    // Reads and returns a number. `Bad` also means a leading zero, or more than eighteen digits, which are rare.
    fn number(&mut self) -> Result<u64, LineFault>
        ensures text { IfOk result (λ number. self.old.rest.now ≡ decimal number ++ self.new.rest.now) }
        ensures small { IfOk result (λ number. number < 10 ^ 18) }
    {
        let Some((first, after)) = digit(self.rest) else {
            return Err(LineFault::Bad);
        };
        self.rest = after;
        self.number_from(first)
    }

    // Reads the rest of a number after its first digit, and returns the number.
    fn number_from(&mut self, first: u64) -> Result<u64, LineFault>
        requires { first < 10 }
        ensures text { IfOk result (λ number. decimal first ++ self.old.rest.now ≡ decimal number ++ self.new.rest.now) }
        ensures small { IfOk result (λ number. number < 10 ^ 18) }
    {
        let mut number = first;
        while let Some((next, after)) = digit(self.rest) {
            if number == 0 {
                return Err(LineFault::Bad);
            }
            if number >= MANY {
                return Err(LineFault::Bad);
            }
            number = number * 10 + next;
            self.rest = after;
        }
        Ok(number)
    }

    // Passes the token `node` and the space after it, or returns `Bad`.
    fn pass_node(&mut self) -> Result<(), LineFault>
        ensures { OnOk result (self.old.rest.now ≡ codes "node " ++ self.new.rest.now) }
    {
        let [b'n', b'o', b'd', b'e', b' ', after @ ..] = self.rest else {
            return Err(LineFault::Bad);
        };
        self.rest = after;
        Ok(())
    }

    // Passes the token `con` between spaces, or returns `Bad`.
    fn pass_con(&mut self) -> Result<(), LineFault>
        ensures { OnOk result (self.old.rest.now ≡ codes " con " ++ self.new.rest.now) }
    {
        let [b' ', b'c', b'o', b'n', b' ', after @ ..] = self.rest else {
            return Err(LineFault::Bad);
        };
        self.rest = after;
        Ok(())
    }

    // Passes the token `nil`, or returns `Bad`.
    fn pass_nil(&mut self) -> Result<(), LineFault>
        ensures { OnOk result (self.old.rest.now ≡ codes "nil" ++ self.new.rest.now) }
    {
        let [b'n', b'i', b'l', after @ ..] = self.rest else {
            return Err(LineFault::Bad);
        };
        self.rest = after;
        Ok(())
    }

    // Passes the next byte if it is `byte`, and otherwise returns `Bad`.
    #[inline(always)]
    fn pass(&mut self, byte: u8) -> Result<(), LineFault>
        ensures { OnOk result (self.old.rest.now ≡ byte ∷ self.new.rest.now) }
    {
        let [first, after @ ..] = self.rest else {
            return Err(LineFault::Bad);
        };
        if *first != byte {
            return Err(LineFault::Bad);
        }
        self.rest = after;
        Ok(())
    }
}

// Whether `bytes` begin with `byte`.
#[inline(always)]
fn begins(bytes: &[u8], byte: u8) -> bool {
    match bytes {
        [first, ..] => *first == byte,
        [] => false,
    }
}

// Returns the value of the first byte as a digit, and the bytes after it. Returns `None` if no digit comes first.
#[inline(always)]
fn digit(bytes: &[u8]) -> Option<(u64, &[u8])>
    ensures digit { IfSome result (λ parts. parts.0 < 10) }
    ensures parts { IfSome result (λ parts. bytes.now ≡ (48 + parts.0) ∷ parts.1.now) }
    ensures less { IfSome result (λ parts. length parts.1.now < length bytes.now) }
{
    let [first, after @ ..] = bytes else {
        return None;
    };
    if !first.is_ascii_digit() {
        return None;
    }
    Some((u64::from(*first - b'0'), after))
}
