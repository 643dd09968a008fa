//! The third pass: pointers are changed by the table of new addresses, and objects are copied.
//!
//! Easy to get wrong: words without meaning are forwarded too, such as the free variables of a thunk that has its result, and
//! they may have any value. So `forward_word` has no condition on its word, and leaves words that don't point into the table.
ghost use Rattle.std.specs.Prelude.{ℕ, ◌≡◌, ◌+◌, ◌<◌, ◌≤◌, length, slice_index, set, map, Contains};
ghost use Rattle.std.specs.List.{flat_map};
ghost use Rattle.nmgc_stop_spec.specs.Strong.{HasHeader};
ghost use Rattle.nmgc_minor.specs.{Placing.IsSharedSlot, Placing.HasHeaderWord, Forwarding.forward_word, Forwarding.ForwardsAt, Forwarding.CopiesFields, Forwarding.CopiesObject, Forwarding.CanCopyAll, Forwarding.CopiesAll};
ghost use Rattle.nmgc_object.specs.{declared.layout.TheConstants.FIRST_PLACE, declared.words.Header.Header, declared.size.TheConstants.HEADER_WORDS as HEADERS};

use crate::placing::Move;
use nmgc_heap_spec::{HeapWords, MutatorRoots};
use nmgc_limits::SHARED_SLOTS;
use nmgc_object::laws::words_differ;
use nmgc_object::{Address, FieldWord, HEADER_WORDS, SHARED_PLACE, fields_of};

/// Returns the word that replaces `word` once objects have moved. If `word` points to an object with a new address in the
/// table, this is a pointer to the new address, and otherwise it is `word` itself.
pub fn forward_word(table: &[u32], base: u32, word: u64) -> u64
    ensures { result ≡ forward_word table.now base word }
{
    let Some(at) = FieldWord(word).place() else {
        return word;
    };
    let base = u64::from(base);
    if at < base {
        return word;
    }
    let index = (at - base) as usize;
    if index >= table.len() {
        return word;
    }
    let to = table[index];
    if to == 0 {
        word
    } else {
        FieldWord::of_place(to).0
    }
}

/// Changes each word that points to a moved object into a pointer to the object's new address. Other words stay.
pub fn forward_words(table: &[u32], base: u32, words: &mut [u64])
    ensures { words.new ≡ map (forward_word table.now base) words.old }
{
    for word in words.iter_mut() {
        *word = forward_word(table, base, *word);
    }
}

// Stores a word at an address, unless the address has this word already. In a run's heap a store costs several loads, and a
// block that is used again often gets the words that it had.
fn store_if_changed<W: HeapWords>(words: &mut W, at: usize, word: u64)
    requires { at < length (W.words words.old) }
    ensures { W.words words.new ≡ set (W.words words.old) at word }
{
    if words.load(at) != word {
        words.store(at, word);
    }
}

// Changes the word at an address into a pointer to the object's new address, if it points to a moved object. Otherwise
// nothing is stored, since a store costs several loads in a run's heap.
fn forward_at<W: HeapWords>(table: &[u32], base: u32, words: &mut W, at: usize)
    requires { at < length (W.words words.old) }
    ensures { W.words words.new ≡ set (W.words words.old) at (forward_word table.now base (slice_index (W.words words.old) at)) }
{
    let word = words.load(at);
    let now = forward_word(table, base, word);
    if now != word {
        words.store(at, now);
    }
}

/// Forwards the slots of g: each slot that points to a moved object is changed to point to the new address.
pub fn forward_shared<W: HeapWords>(table: &[u32], base: u32, words: &mut W)
    requires { FIRST_PLACE ≤ length (W.words words.old) }
    ensures { ForwardsAt (forward_word table.now base) (W.words words.old) (W.words words.new) IsSharedSlot }
{
    let first = (SHARED_PLACE + HEADER_WORDS) as usize;
    for i in first..first + usize::from(SHARED_SLOTS) {
        forward_at(table, base, words, i);
    }
}

// Forwards the fields at the addresses in `recorded`. An address may occur twice. New addresses have to lie below `base`.
fn forward_places<W: HeapWords>(table: &[u32], base: u32, words: &mut W, recorded: &[Address])
    requires inside { (at : Address) → Contains recorded.now at → at.0 < length (W.words words.old) }
    requires small { (k : ℕ) → slice_index table.now k < base }
    ensures { ForwardsAt (forward_word table.now base) (W.words words.old) (W.words words.new) (λ i. Contains recorded.now (record { 0 = i })) }
{
    for at in recorded {
        forward_at(table, base, words, at.0 as usize);
    }
}

/// Forwards the fields that the mutators recorded. A field may occur twice. New addresses have to lie below `base`.
pub fn forward_recorded<W: HeapWords, M: MutatorRoots>(
    table: &[u32],
    base: u32,
    words: &mut W,
    mutators: &[M],
)
    requires inside { (at : Address) → Contains (flat_map M.recorded mutators.now) at → at.0 < length (W.words words.old) }
    requires small { (k : ℕ) → slice_index table.now k < base }
    ensures { ForwardsAt (forward_word table.now base) (W.words words.old) (W.words words.new) (λ i.
        Contains (flat_map M.recorded mutators.now) (record { 0 = i })) }
{
    for mutator in mutators {
        forward_places(table, base, words, mutator.recorded());
    }
}

// Copies `count` fields of the object at `from` to the object at `to`, each forwarded. The copy has to lie below the object.
fn copy_fields<W: HeapWords>(
    table: &[u32],
    base: u32,
    words: &mut W,
    from: u32,
    to: u32,
    count: u32,
)
    requires inside { from + HEADERS + count ≤ length (W.words words.old) }
    requires apart { to + HEADERS + count ≤ from }
    ensures { CopiesFields (forward_word table.now base) (W.words words.old) (W.words words.new) (from + HEADERS) (to + HEADERS) count }
{
    let source = from as usize + HEADER_WORDS as usize;
    let target = to as usize + HEADER_WORDS as usize;
    for i in 0..count as usize {
        let word = words.load(source + i);
        store_if_changed(words, target + i, forward_word(table, base, word));
    }
}

// Returns the number of fields of the object at `from`.
fn field_count<W: HeapWords>(words: &mut W, from: u32) -> u32
    requires { HasHeader (W.words words.old) from }
    ensures count { (header : Header) → HasHeaderWord (W.words words.old) from header → result ≡ header.fields }
    ensures same { W.words words.new ≡ W.words words.old }
{
    fields_of(words.load(from as usize))
}

// Copies the word at address `from` to address `to`.
fn copy_word<W: HeapWords>(words: &mut W, from: usize, to: usize)
    requires from { from < length (W.words words.old) }
    requires to { to < length (W.words words.old) }
    ensures { W.words words.new ≡ set (W.words words.old) to (slice_index (W.words words.old) from) }
{
    let word = words.load(from);
    store_if_changed(words, to, word);
}

// Copies the object at `from` to the address `to`, with its fields forwarded. The copy has to end below `from`.
fn copy_object<W: HeapWords>(table: &[u32], base: u32, words: &mut W, from: u32, to: u32)
    requires header { HasHeader (W.words words.old) from }
    requires apart { (header : Header) → HasHeaderWord (W.words words.old) from header → to + HEADERS + header.fields ≤ from }
    ensures { CopiesObject (forward_word table.now base) (W.words words.old) (W.words words.new) from to }
{
    words_differ();
    let count = field_count(words, from);
    copy_fields(table, base, words, from, to, count);
    copy_word(words, from as usize, to as usize);
    copy_word(words, from as usize + 1, to as usize + 1);
}

/// Copies each moved object, its fields forwarded. The objects have to lie from `base` on, the copies below `base` and apart.
pub fn copy_all<W: HeapWords>(table: &[u32], base: u32, words: &mut W, moves: &[Move])
    requires { CanCopyAll base (W.words words.old) moves.now }
    ensures { CopiesAll (forward_word table.now base) (W.words words.old) (W.words words.new) moves.now }
{
    for moved in moves {
        copy_object(table, base, words, moved.from.0, moved.to.0);
    }
}
