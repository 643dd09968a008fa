//! Laws of the definitions of words and addresses, for every value. Each function does nothing; its contract is the law.
ghost use Rattle.std.specs.Prelude.{ℕ, ◌≡◌, ◌↔◌, ◌+◌, ◌*◌, ◌^◌, ◌<◌, ◌≤◌};
ghost use Rattle.nmgc_world_spec.specs.declared.value.Name.{Name};
ghost use Rattle.nmgc_object.specs.{Words.header_word, Words.name_word, Words.IsHeader, Words.IsName, Words.name_place, Words.block_size, Words.IsClassOf, Words.InSegment, Words.InNursery, Words.class_count, Fields.field_word, Fields.IsField, Fields.header_place, Fields.field_place, Fields.object_size, Layouts.IsLayout, Layouts.InHeap, Layouts.left_over, declared.words.Header.Header, declared.words.Field.Field, declared.layout.Layout.Layout};

use crate::layout::{FIRST_PLACE, SHARED_PLACE};
use crate::size::{
    DENSE_CLASS, DENSE_WORDS, HEADER_WORDS, MAX_BLOCK_WORDS, MAX_CLASS, MAX_PARTS, MIN_BLOCK_WORDS,
    NAME_OFFSET,
};
use crate::words::{
    FIELDS_UNIT, MAX_FIELDS, MAX_THUNK_FIELDS, NIL_WORD, NUMBER_LIMIT, SERIAL_UNIT, TAG_UNIT, TAGS,
    VAR_FIELDS, WEAK_FIELDS, ZERO_WORD,
};

/// Proves the value of each public constant of this crate (codes, sizes, addresses). Contracts use the constants by name.
pub fn constants_are_these()
    ensures tags { TAGS ≡ 256 }
    ensures fields { (MAX_FIELDS ≡ 4094) × (MAX_PARTS ≡ 4094) }
    ensures fixed_fields { (VAR_FIELDS ≡ 1) × (WEAK_FIELDS ≡ 3) × (MAX_THUNK_FIELDS ≡ 9) }
    ensures numbers { NUMBER_LIMIT ≡ 2 ^ 62 }
    ensures units { (TAG_UNIT ≡ 8) × (FIELDS_UNIT ≡ 2048) × (SERIAL_UNIT ≡ 64) }
    ensures words { (NIL_WORD ≡ 1) × (ZERO_WORD ≡ 3) }
    ensures sizes { (HEADER_WORDS ≡ 2) × (NAME_OFFSET ≡ 1) × (MIN_BLOCK_WORDS ≡ 4) × (DENSE_WORDS ≡ 16) × (MAX_BLOCK_WORDS ≡ 4096) }
    ensures classes { (DENSE_CLASS ≡ 12) × (MAX_CLASS ≡ 20) }
    ensures places { (SHARED_PLACE ≡ 1) × (FIRST_PLACE ≡ 32) }
{}

/// Proves that two valid headers with the same word are equal. The same holds for valid names and for valid fields. So a
/// decoder that returns a valid value with the given word returns the value that was encoded.
pub fn words_differ()
    ensures headers { (a b : Header) → IsHeader a → IsHeader b → header_word a ≡ header_word b → a ≡ b }
    ensures names { (a b : Name) → IsName a → IsName b → name_word a ≡ name_word b → a ≡ b }
    ensures fields { (a b : Field) → IsField a → IsField b → field_word a ≡ field_word b → a ≡ b }
{}

/// Proves that, in a layout within the limits, no word is in two segments, in two nurseries, or in a segment and a nursery.
/// Each word of a segment or nursery is a word of the heap above g.
pub fn places_lie_apart()
    ensures segments { (layout : Layout) (a b at : ℕ) → IsLayout layout → InSegment layout a at → InSegment layout b at → a ≡ b }
    ensures nurseries { (layout : Layout) (a b at : ℕ) → IsLayout layout → InNursery layout a at → InNursery layout b at → a ≡ b }
    ensures both { (layout : Layout) (a b at : ℕ) → IsLayout layout → InSegment layout a at → InNursery layout b at → ⊥ }
    ensures segment_in_heap { (layout : Layout) (a at : ℕ) → IsLayout layout → InSegment layout a at → InHeap layout at }
    ensures nursery_in_heap { (layout : Layout) (a at : ℕ) → IsLayout layout → InNursery layout a at → InHeap layout at }
{}

/// Proves that the header, the name and each field of an object are different words, all within the object.
pub fn parts_lie_apart()
    ensures name { (header : Header) (at : ℕ) → (header_place at < name_place at) × (name_place at < at + object_size header) }
    ensures field { (header : Header) (at field : ℕ) → field < header.fields → (name_place at < field_place at field) ×
        (field_place at field < at + object_size header) }
    ensures fields { (at a b : ℕ) → field_place at a ≡ field_place at b → a ≡ b }
{}

/// Proves, for a layout within the limits, that exactly the blocks of its classes fit into a segment. The class of an object
/// that fits into a segment is one of these classes. An object with a valid header has 2 to `MAX_BLOCK_WORDS` words. Let an
/// object of 2 or more words fit into a segment. Then twice its words are at least its block's words plus the words left over
/// in a segment of such blocks.
pub fn objects_have_classes()
    ensures fits { (layout : Layout) (words class : ℕ) → IsLayout layout → words ≤ layout.words → IsClassOf words class →
        (block_size class ≤ layout.words) × (class < class_count layout) }
    ensures object { (header : Header) → IsHeader header → (2 ≤ object_size header) × (object_size header ≤ MAX_BLOCK_WORDS) }
    ensures half { (layout : Layout) (words class : ℕ) → IsLayout layout → 2 ≤ words → words ≤ layout.words → IsClassOf words class →
        left_over layout class + block_size class ≤ 2 * words }
    ensures classes { (layout : Layout) (class : ℕ) → IsLayout layout → (class < class_count layout) ↔ (block_size class ≤ layout.words) }
{}
