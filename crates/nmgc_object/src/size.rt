//! The words of an object, and the classes of blocks.
//!
//! Blocks have 4 to 16 words, one class for each size, and then 32, 64 and so on, up to a whole segment. An object is placed
//! in a block of the least class that holds it. An object of 4 to 16 words fills its block, a larger one more than half.
//!
//! Easy to get wrong: if a block's words aren't a power of two, some words of a segment lie after its last block and are
//! unused. So a segment full of objects has fewer words of objects than it has words.
ghost use Rattle.std.specs.Prelude.{ℕ, ◌≡◌, ◌<◌, ◌≤◌};
ghost use Rattle.nmgc_object.specs.{Fields.object_size, Fields.word_count, Words.IsHeader, Words.block_size};

use crate::words::{Header, MAX_FIELDS, VAR_FIELDS, WEAK_FIELDS};
use nmgc_limits::MAX_SEGMENT_WORDS;
use nmgc_world_spec::Kind;

/// The words before an object's fields: the header and the name.
pub const HEADER_WORDS: u32 = 2;

/// The distance of an object's name from its first word, which is the header.
pub const NAME_OFFSET: u32 = 1;

/// The most parts for which `words_of` is called: the most fields of an object.
pub const MAX_PARTS: u32 = MAX_FIELDS;

/// The words of a block of class 0.
pub const MIN_BLOCK_WORDS: u32 = 4;

/// The greatest dense class. From class to class, blocks grow by one word up to this class, and double in size above it.
pub const DENSE_CLASS: u8 = 12;

/// The words of a block of the greatest dense class.
pub const DENSE_WORDS: u32 = 16;

/// The greatest class. Its blocks are as large as the largest segment.
pub const MAX_CLASS: u8 = 20;

/// The words of a block of the greatest class, which is the largest segment.
pub const MAX_BLOCK_WORDS: u32 = MAX_SEGMENT_WORDS;

const _: () = prove!(DENSE_WORDS == MIN_BLOCK_WORDS + DENSE_CLASS as u32);

const _: () = prove!(MAX_BLOCK_WORDS == DENSE_WORDS << (MAX_CLASS - DENSE_CLASS));

const _: () = prove!(MAX_BLOCK_WORDS == HEADER_WORDS + MAX_FIELDS);

/// Returns the number of words of an object of this kind with `parts` parts. The parts are the values of a constructor or
/// array, the free variables of a thunk, or the slots of a stack. A thunk has one word more for its result. A variable and a
/// weak pointer have a fixed size. Takes no memory.
pub fn words_of(kind: Kind, parts: u32) -> u32
    requires { parts ≤ MAX_PARTS }
    ensures { result ≡ word_count kind parts }
{
    let fields = match kind {
        Kind::Con | Kind::Arr | Kind::Stack => parts,
        Kind::Var => VAR_FIELDS,
        Kind::Weak => WEAK_FIELDS,
        Kind::Thunk => parts + 1,
    };
    HEADER_WORDS + fields
}

/// Returns the number of words of an object with this valid header. Takes no memory.
pub fn object_words(header: Header) -> u32
    requires { IsHeader header }
    ensures size { result ≡ object_size header }
    ensures most { result ≤ MAX_BLOCK_WORDS }
{
    HEADER_WORDS + header.fields
}

/// Returns the number of words of a block of this class. Takes no memory.
pub fn block_words(class: u8) -> u32
    requires { class ≤ MAX_CLASS }
    ensures size { result ≡ block_size class }
    ensures least { MIN_BLOCK_WORDS ≤ result }
    ensures most { result ≤ MAX_BLOCK_WORDS }
{
    if class <= DENSE_CLASS {
        MIN_BLOCK_WORDS + u32::from(class)
    } else {
        DENSE_WORDS << (class - DENSE_CLASS)
    }
}

/// Returns the least class whose blocks hold `words` words. Above 16 words a block's words double from class to class. So the
/// class is then the greatest dense class plus the number of binary digits of `(words - 1) / 16`. Constant time, no memory.
pub fn class_of(words: u32) -> u8
    requires least { 2 ≤ words }
    requires most { words ≤ MAX_BLOCK_WORDS }
    ensures holds { words ≤ block_size result }
    ensures least { (class : ℕ) → class < result → block_size class < words }
    ensures most { result ≤ MAX_CLASS }
{
    if words <= DENSE_WORDS {
        return words.saturating_sub(MIN_BLOCK_WORDS) as u8;
    }
    let full = (words - 1) / DENSE_WORDS;
    DENSE_CLASS + (u32::BITS - full.leading_zeros()) as u8
}
