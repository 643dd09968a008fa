//! Headers, names and fields as words.
//!
//! Each of the three has its own code, and the address shows which to expect. An object has a header, a name, and then its
//! fields. Header and name never change once the object is made, so no order among threads is needed to read them.
//!
//! A field's code separates words that the collector follows from words that it ignores. A word of 0 is an unset field, or a
//! dead weak pointer's value. Other even words are pointers, odd words nil or numbers. Only `FieldWord` decodes them.
//!
//! Easy to get wrong: a header's word may be invalid although its kind, tag and number of fields are each in range. Only
//! constructors have tags, and the number of fields depends on the kind, so decoding tests them together.
ghost use Rattle.std.specs.Prelude.{◌≡◌, ◌≢◌, ◌↔◌, ◌+◌, ◌*◌, ◌%◌, ◌<◌, ◌≤◌, IfSome, IfNone, IsTrue};
ghost use Rattle.nmgc_world_spec.specs.{declared.value.Name.Name, declared.node.Kind.Kind};
ghost use Rattle.nmgc_object.specs.{Words.kind_number, Words.header_word, Words.name_word, Fields.field_word, Words.IsHeader, Words.IsName, Fields.IsField, declared.words.TheConstants.NUMBER_LIMIT, declared.words.TheConstants.NIL_WORD, declared.words.TheConstants.ZERO_WORD, declared.words.Header.Header, declared.words.Field.Field};

use nmgc_limits::SHARED_MAKER;
use nmgc_world_spec::{Kind, Name};

/// The number of tags. A header's tag is below it.
pub const TAGS: u64 = 256;

/// The most fields that an object may have.
pub const MAX_FIELDS: u32 = 4094;

/// The most fields of a thunk: its result and its free variables.
pub const MAX_THUNK_FIELDS: u32 = 9;

/// The fields of a variable.
pub const VAR_FIELDS: u32 = 1;

/// The fields of a weak pointer: key, value, finaliser.
pub const WEAK_FIELDS: u32 = 3;

/// The limit of the numbers in fields: each number is less.
pub const NUMBER_LIMIT: u64 = 1 << 62;

/// The weight of the tag in a header word. The kind is below it.
pub const TAG_UNIT: u64 = 8;

/// The weight of the number of fields in a header word.
pub const FIELDS_UNIT: u64 = 2048;

/// The weight of the serial in a name word. The maker is below it.
pub const SERIAL_UNIT: u64 = 64;

/// The field word of nil.
pub const NIL_WORD: u64 = 1;

/// The field word of the number 0. A number n has the word `2 * n + 3`.
pub const ZERO_WORD: u64 = 3;

/// The address of a word in the heap, at least 1. Word 0 is unused, so that no pointer has the word of an unset field.
#[derive(Clone, Copy, Debug, PartialEq, Eq)]
pub struct Address(pub u32);

/// The contents of an object's first word.
#[derive(Clone, Copy, Debug, PartialEq, Eq)]
pub struct Header {
    pub kind: Kind,
    pub tag: u8,
    pub fields: u32,
}

/// The contents of a field. `Unset`: a thunk without a result, a slot above a stack's depth, or a dead weak pointer's value.
#[derive(Clone, Copy, Debug, PartialEq, Eq)]
pub enum Field {
    Unset,
    Nil,
    Number(u64),
    Pointer(Address),
}

/// The word of a field. Only this type encodes and decodes such words. An even word is twice an address: 0 if the field is
/// unset (as a dead weak pointer's value), otherwise the address of the object to which it points. An odd word is nil or a
/// number. `place` and `number` accept any word, also a word without meaning.
#[derive(Clone, Copy, Debug, PartialEq, Eq)]
pub struct FieldWord(pub u64);

impl FieldWord {
    /// Returns the word of a pointer to the address `at`. Takes no memory.
    #[inline]
    pub fn of_place(at: u32) -> FieldWord
        ensures { result.0 ≡ 2 * at }
    {
        FieldWord(2 * u64::from(at))
    }

    /// Returns the word of a number. Requires that the number is below `NUMBER_LIMIT`. Takes no memory.
    #[inline]
    pub fn of_number(number: u64) -> FieldWord
        requires { number < NUMBER_LIMIT }
        ensures { result.0 ≡ 2 * number + ZERO_WORD }
    {
        FieldWord(2 * number + ZERO_WORD)
    }

    /// Returns half the word if the word is even: the address of a pointer, or 0 for an unset field. Returns `None` exactly
    /// if the word is odd. If the word has no meaning, its half may be beyond the heap, and beyond 32 bits. Takes no memory.
    #[inline]
    pub fn place(self) -> Option<u64>
        ensures some { IfSome result (λ at. self.0 ≡ 2 * at) }
        ensures none { IfNone result (self.0 % 2 ≡ 1) }
    {
        if self.0 % 2 == 0 {
            Some(self.0 / 2)
        } else {
            None
        }
    }

    /// Returns the number that the word represents. Returns `None` exactly if the word is nil or even. Takes no memory.
    #[inline]
    pub fn number(self) -> Option<u64>
        ensures some { IfSome result (λ number. self.0 ≡ 2 * number + ZERO_WORD) }
        ensures none { IfNone result (self.0 % 2 ≡ 1 → self.0 ≡ NIL_WORD) }
    {
        if self.0 % 2 == 0 || self.0 == NIL_WORD {
            return None;
        }
        Some((self.0 - ZERO_WORD) / 2)
    }
}

impl Header {
    /// Whether an object of the header's kind may have the header's tag and number of fields. `decode_header` checks this.
    pub fn is_valid(&self) -> bool
        ensures { IsTrue result ↔ IsHeader self.now }
    {
        let Header { kind, tag, fields } = *self;
        match kind {
            Kind::Con => fields <= MAX_FIELDS,
            Kind::Arr | Kind::Stack => tag == 0 && fields <= MAX_FIELDS,
            Kind::Var => tag == 0 && fields == VAR_FIELDS,
            Kind::Weak => tag == 0 && fields == WEAK_FIELDS,
            Kind::Thunk => tag == 0 && 1 <= fields && fields <= MAX_THUNK_FIELDS,
        }
    }
}

// Returns the number that represents a kind in a header word.
fn number_of_kind(kind: Kind) -> u64
    ensures { result ≡ kind_number kind }
{
    match kind {
        Kind::Con => 1,
        Kind::Var => 2,
        Kind::Arr => 3,
        Kind::Thunk => 4,
        Kind::Weak => 5,
        Kind::Stack => 6,
    }
}

// Returns the kind that a number represents in a header word, or `None` exactly if there is no such kind.
fn kind_of_number(number: u64) -> Option<Kind>
    ensures some { IfSome result (λ kind. kind_number kind ≡ number) }
    ensures none { IfNone result ((kind : Kind) → kind_number kind ≢ number) }
{
    match number {
        1 => Some(Kind::Con),
        2 => Some(Kind::Var),
        3 => Some(Kind::Arr),
        4 => Some(Kind::Thunk),
        5 => Some(Kind::Weak),
        6 => Some(Kind::Stack),
        _ => None,
    }
}

/// Returns the word of a valid header. Takes no memory.
pub fn encode_header(header: Header) -> u64
    requires { IsHeader header }
    ensures { result ≡ header_word header }
{
    number_of_kind(header.kind)
        + TAG_UNIT * u64::from(header.tag)
        + FIELDS_UNIT * u64::from(header.fields)
}

/// Returns the valid header that has this word. Returns `None` exactly if no valid header has it. Takes no memory.
#[inline]
pub fn decode_header(word: u64) -> Option<Header>
    ensures some { IfSome result (λ header. IsHeader header × (header_word header ≡ word)) }
    ensures none { IfNone result ((header : Header) → IsHeader header → header_word header ≢ word) }
{
    let fields = word / FIELDS_UNIT;
    if fields > u64::from(MAX_FIELDS) {
        return None;
    }
    let kind = kind_of_number(word % TAG_UNIT)?;
    let header = Header {
        kind,
        tag: (word / TAG_UNIT % TAGS) as u8,
        fields: fields as u32,
    };
    if header.is_valid() {
        Some(header)
    } else {
        None
    }
}

/// Returns the valid header that has this word. Requires that there is one, and tests nothing. Takes no memory.
#[inline]
pub fn header_of(word: u64) -> Header
    requires { (header : Header) × IsHeader header × (header_word header ≡ word) }
    ensures { (header : Header) → IsHeader header → header_word header ≡ word → result ≡ header }
{
    let Some(kind) = kind_of_number(word % TAG_UNIT) else {
        unreachable!();
    };
    Header {
        kind,
        tag: (word / TAG_UNIT % TAGS) as u8,
        fields: (word / FIELDS_UNIT) as u32,
    }
}

/// Returns the number of fields of the valid header with this word, which must exist. Tests nothing. Takes no memory.
#[inline]
pub fn fields_of(word: u64) -> u32
    requires { (header : Header) × IsHeader header × (header_word header ≡ word) }
    ensures { (header : Header) → IsHeader header → header_word header ≡ word → result ≡ header.fields }
{
    (word / FIELDS_UNIT) as u32
}

/// Returns the word of a name. Requires a maker up to `SHARED_MAKER`, and serial 0 for `SHARED_MAKER`. Takes no memory.
pub fn encode_name(name: Name) -> u64
    requires { IsName name }
    ensures { result ≡ name_word name }
{
    SERIAL_UNIT * u64::from(name.serial) + u64::from(name.maker)
}

/// Returns the valid name that has this word. Returns `None` exactly if no valid name has it. Takes no memory.
#[inline]
pub fn decode_name(word: u64) -> Option<Name>
    ensures some { IfSome result (λ name. IsName name × (name_word name ≡ word)) }
    ensures none { IfNone result ((name : Name) → IsName name → name_word name ≢ word) }
{
    let maker = (word % SERIAL_UNIT) as u8;
    let serial = word / SERIAL_UNIT;
    if serial > u64::from(u32::MAX)
        || maker > SHARED_MAKER
        || (maker == SHARED_MAKER && serial > 0)
    {
        return None;
    }
    Some(Name {
        maker,
        serial: serial as u32,
    })
}

/// Returns the valid name that has this word. Requires that there is one, and tests nothing. Takes no memory.
#[inline]
pub fn name_of(word: u64) -> Name
    requires { (name : Name) × IsName name × (name_word name ≡ word) }
    ensures { (name : Name) → IsName name → name_word name ≡ word → result ≡ name }
{
    Name {
        maker: (word % SERIAL_UNIT) as u8,
        serial: (word / SERIAL_UNIT) as u32,
    }
}

/// Returns the word of a valid field: a number is below `NUMBER_LIMIT`, and a pointer's address isn't 0. Takes no memory.
pub fn encode_value(field: Field) -> u64
    requires { IsField field }
    ensures { result ≡ field_word field }
{
    match field {
        Field::Unset => 0,
        Field::Nil => NIL_WORD,
        Field::Number(number) => FieldWord::of_number(number).0,
        Field::Pointer(at) => FieldWord::of_place(at.0).0,
    }
}

/// Returns the valid field that has this word. Returns `None` exactly if no valid field has it. Takes no memory.
pub fn decode_value(word: u64) -> Option<Field>
    ensures some { IfSome result (λ field. IsField field × (field_word field ≡ word)) }
    ensures none { IfNone result ((field : Field) → IsField field → field_word field ≢ word) }
{
    if let Some(at) = FieldWord(word).place() {
        if at == 0 {
            return Some(Field::Unset);
        }
        if at > u64::from(u32::MAX) {
            return None;
        }
        return Some(Field::Pointer(Address(at as u32)));
    }
    let Some(number) = FieldWord(word).number() else {
        return Some(Field::Nil);
    };
    if number < NUMBER_LIMIT {
        Some(Field::Number(number))
    } else {
        None
    }
}
