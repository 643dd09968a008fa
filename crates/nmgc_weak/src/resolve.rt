//! The steps of a closing: some weak pointers are kept (marked with their values and finalisers), and the rest die.
//!
//! A key counts as marked if it is nil, a number, g, or marked. Nothing here decides liveness. Once a pass over the list
//! marks nothing, a key is live exactly if it counts as marked. The proof shows that this is the marking machine's closing,
//! step by step: each step leads to the same machine with more marks (`specs/Steps.antt`).
//!
//! A kept weak pointer may revive the key of any other, even of an earlier one in the list. So weak pointers without a marked
//! key are filed by the addresses of their keys, and each address marked from then on is looked up in that file. However they
//! revive one another, this takes time for the weak pointers and the objects that become marked, times a logarithm, and for
//! these objects' fields. But `keep_ahead` only promises marks that the closing has too. Passes over the list follow, and the
//! last, which marks nothing, shows that nothing is left (`pass_until_none`).
//!
//! Easy to get wrong: the finalisers of the dying may reach their own keys. So the dying are found before any finaliser is
//! marked. Their value words become 0 last: the words have to represent the world in which the marker follows fields.
ghost use Rattle.std.specs.Prelude.{ℕ, ◌≡◌, ◌↔◌, ◌*◌, ◌^◌, ◌+◌, ◌<◌, ◌≤◌, List, length, slice_index, vec_len, vec_capacity, Contains, IsTrue, IfSome, IfNone, [], ◌∷◌};
ghost use Rattle.nmgc_world_spec.specs.declared.value.Name.{Name};
ghost use Rattle.nmgc_segment.specs.Marks.{IsEpoch};
ghost use Rattle.nmgc_alloc.specs.{Blocks.IsSnapshotAt, Blocks.IsMarkedAt, Segments.IsBlockAt};
ghost use Rattle.nmgc_heap_spec.specs.Objects.{Place};
ghost use Rattle.nmgc_round.specs.{View.Opening, Marking.Marks, Marking.with_name, Marking.name_meant};
ghost use Rattle.nmgc_mark.specs.{Marker.HasRoomToMark, Marker.HasMarked, Tie.IsTied};
ghost use Rattle.nmgc_weak.specs.{Resolve.CanResolve, Weaks.IsWithin, Weaks.AreWithin, Weaks.key_place, Weaks.place_of, Weaks.places_of, Weaks.names_of, Weaks.deaths_of, Weaks.without_values};
ghost use Rattle.nmgc_weak.specs.Steps.{IsKeyMarkedWord, IsLostAt, CanKeep, HasKept, HasPassed, GoesOn, HasRevived, CanRescue, AreLost, HasRescued};

use crate::weaks::{Death, FINALISER, OldWeak, VALUE};
use nmgc_alloc::Segments;
use nmgc_heap_spec::HeapWords;
use nmgc_mark::Marker;
use nmgc_object::{Address, FieldWord, HEADER_WORDS, SHARED_PLACE};

// Returns the numbers of the segment and the block that begins at an address, if it is a block of the snapshot, else `None`.
fn snapshot_block(segments: &Segments, at: Address) -> Option<(u32, u32)>
    ensures some { IfSome result (λ p. IsBlockAt segments.now p.0 p.1 at.0 × IsSnapshotAt segments.now at.0) }
    ensures none { IfNone result (IsSnapshotAt segments.now at.0 → ⊥) }
{
    // Note [Lines that do nothing] in `nmgc_alloc`: this gives the prover that all segments are sound.
    let _ = segments.layout();
    let (number, block) = segments.block_at(at)?;
    if segments.in_snapshot(number, block) {
        return Some((number, block));
    }
    None
}

// Whether a block of the snapshot begins at an address.
fn is_of_snapshot(segments: &Segments, at: Address) -> bool
    ensures { IsTrue result ↔ IsSnapshotAt segments.now at.0 }
{
    snapshot_block(segments, at).is_some()
}

// Whether a block begins at an address and is marked with `epoch`.
fn is_marked(segments: &Segments, at: Address, epoch: u8) -> bool
    requires { IsEpoch epoch }
    ensures { IsTrue result ↔ IsMarkedAt segments.now epoch at.0 }
{
    let _ = segments.layout();
    match segments.block_at(at) {
        Some((number, block)) => segments.is_marked(number, block, epoch),
        None => false,
    }
}

// Whether a key counts as marked: it is nil, a number, g, or marked.
fn is_key_marked(segments: &Segments, key: u64, epoch: u8) -> bool
    requires epoch { IsEpoch epoch }
    requires small { (to : ℕ) → key ≡ 2 * to → to < 2 ^ 32 }
    ensures { IsTrue result ↔ IsKeyMarkedWord segments.now epoch key }
{
    let Some(at) = FieldWord(key).place() else {
        return true;
    };
    let to = at as u32;
    to == SHARED_PLACE || is_marked(segments, Address(to), epoch)
}

// Whether the key of the weak pointer at `at` counts as marked (`is_key_marked`).
fn has_marked_key<W: HeapWords>(
    marker: &Marker,
    words: &mut W,
    segments: &Segments,
    at: Address,
) -> bool
    requires { IsWithin (W.words words.old) at.0 }
    ensures words { W.words words.new ≡ W.words words.old }
    ensures marked { IsTrue result ↔ IsKeyMarkedWord segments.now marker.now.epoch (slice_index (W.words words.old) (key_place at.0)) }
    ensures epoch { IsEpoch marker.now.epoch }
{
    let key = words.load(at.0 as usize + HEADER_WORDS as usize);
    is_key_marked(segments, key, marker.epoch())
}

// Whether the weak pointer at `at` is lost by the marks so far: it is in the snapshot, and its key doesn't count as marked.
fn is_lost<W: HeapWords>(marker: &Marker, words: &mut W, segments: &Segments, at: Address) -> bool
    requires { IsWithin (W.words words.old) at.0 }
    ensures words { W.words words.new ≡ W.words words.old }
    ensures lost { IsTrue result ↔ IsLostAt segments.now marker.now.epoch at.0 (slice_index (W.words words.old) (key_place at.0)) }
    ensures epoch { IsEpoch marker.now.epoch }
{
    let key_marked = has_marked_key(marker, words, segments, at);
    is_of_snapshot(segments, at) && !key_marked
}

// Keeps the weak pointer in the block at `at`: marks it, its value, its finaliser, and all that is reachable from these.
fn keep<W: HeapWords>(
    marker: &mut Marker,
    words: &mut W,
    segments: &mut Segments,
    at: Address,
    number: u32,
    block: u32,
)
    requires room { HasRoomToMark segments.old marker.old }
    requires begins { IsBlockAt segments.old number block at.0 }
    requires within { IsWithin (W.words words.old) at.0 }
    requires can { (o : Opening) × (weaks : List Place) × (weak : Name) × CanKeep o (W.words words.old) segments.old marker.old weaks at.0 weak }
    ensures words { W.words words.new ≡ W.words words.old }
    ensures marked { (count : ℕ) × HasMarked segments.old segments.new marker.old marker.new count }
    ensures turns { marker.new.turns ≡ marker.old.turns }
    ensures kept { (o : Opening) (weaks : List Place) (weak : Name) → CanKeep o (W.words words.old) segments.old marker.old weaks at.0 weak →
        HasKept o (W.words words.old) segments.new marker.new weaks weak }
{
    let first = at.0 as usize;
    let value = words.load(first + VALUE);
    let finaliser = words.load(first + FINALISER);
    marker.mark_block(segments, at, number, block);
    marker.mark_word(segments, value);
    marker.mark_word(segments, finaliser);
    marker.finish(words, segments);
}

// Keeps a listed weak pointer (`keep`), if it is in the snapshot and its key counts as marked. Otherwise nothing changes.
fn keep_if_key_marked<W: HeapWords>(
    marker: &mut Marker,
    words: &mut W,
    segments: &mut Segments,
    weak: OldWeak,
)
    requires room { HasRoomToMark segments.old marker.old }
    requires within { IsWithin (W.words words.old) weak.at.0 }
    requires can { (o : Opening) × (weaks : List Place) × CanResolve o (W.words words.old) segments.old marker.old weaks × Contains weaks (place_of weak) }
    ensures words { W.words words.new ≡ W.words words.old }
    ensures marked { (count : ℕ) × HasMarked segments.old segments.new marker.old marker.new count }
    ensures turns { marker.new.turns ≡ marker.old.turns }
    ensures passed { (o : Opening) (weaks : List Place) → CanResolve o (W.words words.old) segments.old marker.old weaks →
        Contains weaks (place_of weak) → HasPassed o (W.words words.old) segments.new marker.new weaks (weak.weak ∷ []) }
{
    let Some((number, block)) = snapshot_block(segments, weak.at) else {
        return;
    };
    if !has_marked_key(marker, words, segments, weak.at) {
        return;
    }
    keep(marker, words, segments, weak.at, number, block);
}

// Goes through the list once, in order. Keeps (`keep`) each weak pointer that is in the snapshot and whose key counts as
// marked by then.
fn pass<W: HeapWords>(list: &[OldWeak], marker: &mut Marker, words: &mut W, segments: &mut Segments)
    requires room { HasRoomToMark segments.old marker.old }
    requires within { AreWithin (W.words words.old) list.now }
    requires can { (o : Opening) × CanResolve o (W.words words.old) segments.old marker.old (places_of list.now) }
    ensures words { W.words words.new ≡ W.words words.old }
    ensures marked { (count : ℕ) × HasMarked segments.old segments.new marker.old marker.new count }
    ensures turns { marker.new.turns ≡ marker.old.turns }
    ensures passed { (o : Opening) → CanResolve o (W.words words.old) segments.old marker.old (places_of list.now) →
        HasPassed o (W.words words.old) segments.new marker.new (places_of list.now) (names_of list.now) }
{
    for weak in list {
        keep_if_key_marked(marker, words, segments, *weak);
    }
}

// Repeats `pass` until it marks nothing. Then each listed weak pointer of the snapshot with a marked key has marked parts.
fn pass_until_none<W: HeapWords>(
    list: &[OldWeak],
    marker: &mut Marker,
    words: &mut W,
    segments: &mut Segments,
)
    requires room { HasRoomToMark segments.old marker.old }
    requires within { AreWithin (W.words words.old) list.now }
    requires can { (o : Opening) × CanResolve o (W.words words.old) segments.old marker.old (places_of list.now) }
    ensures words { W.words words.new ≡ W.words words.old }
    ensures marked { (count : ℕ) × HasMarked segments.old segments.new marker.old marker.new count }
    ensures turns { marker.new.turns ≡ marker.old.turns }
    ensures revived { (o : Opening) → CanResolve o (W.words words.old) segments.old marker.old (places_of list.now) →
        HasRevived o (W.words words.old) segments.new marker.new (places_of list.now) }
{
    loop {
        let before = marker.marked();
        pass(list, marker, words, segments);
        if marker.marked() == before {
            break;
        }
    }
}

/// A weak pointer that waits for its key: the address of the key, and the position of the weak pointer in the list.
#[derive(Clone, Copy, Debug, PartialEq, Eq)]
pub(crate) struct Waiter {
    key: u32,
    place: usize,
}

// Returns the address to which a weak pointer's key points, or `None` if the key is no pointer. No clause says so.
fn key_of<W: HeapWords>(words: &mut W, at: Address) -> Option<u32>
    requires { IsWithin (W.words words.old) at.0 }
    ensures { W.words words.new ≡ W.words words.old }
{
    let key = words.load(at.0 as usize + HEADER_WORDS as usize);
    u32::try_from(FieldWord(key).place()?).ok()
}

// Files a weak pointer in `waiting`, by its key and its position, if it is lost by the marks so far. `waiting` needs room.
fn file_one<W: HeapWords>(
    weak: OldWeak,
    place: usize,
    waiting: &mut Vec<Waiter>,
    marker: &Marker,
    words: &mut W,
    segments: &Segments,
)
    requires room { vec_len waiting.old < vec_capacity waiting.old }
    requires within { IsWithin (W.words words.old) weak.at.0 }
    ensures words { W.words words.new ≡ W.words words.old }
    ensures capacity { vec_capacity waiting.new ≡ vec_capacity waiting.old }
    ensures few { vec_len waiting.new ≤ vec_len waiting.old + 1 }
{
    if !is_lost(marker, words, segments, weak.at) {
        return;
    }
    let Some(key) = key_of(words, weak.at) else {
        return;
    };
    waiting.push_reserved(Waiter { key, place });
}

// Files in the empty list `waiting`, by keys, the listed weak pointers that are lost by the marks so far. No clause says so.
fn file_waiting<W: HeapWords>(
    list: &[OldWeak],
    waiting: &mut Vec<Waiter>,
    marker: &Marker,
    words: &mut W,
    segments: &Segments,
)
    requires none { vec_len waiting.old ≡ 0 }
    requires room { length list.now ≤ vec_capacity waiting.old }
    requires within { AreWithin (W.words words.old) list.now }
    ensures words { W.words words.new ≡ W.words words.old }
    ensures capacity { vec_capacity waiting.new ≡ vec_capacity waiting.old }
{
    for (place, weak) in list.iter().enumerate() {
        file_one(*weak, place, waiting, marker, words, segments);
    }
    waiting.sort_unstable_by_key(|waiter| waiter.key);
}

// Returns the first position in the sorted list `waiting` that has at least this key, or its length. No clause says so.
fn first_at_least(waiting: &[Waiter], key: u32) -> usize {
    let mut low = 0;
    let mut high = waiting.len();
    while low < high {
        let middle = low + (high - low) / 2;
        if waiting[middle].key < key {
            low = middle + 1;
        } else {
            high = middle;
        }
    }
    low
}

// Keeps (`keep`) the weak pointer at position `place`, if there is one, it is in the snapshot, and its key counts as marked.
fn keep_at<W: HeapWords>(
    list: &[OldWeak],
    place: usize,
    marker: &mut Marker,
    words: &mut W,
    segments: &mut Segments,
)
    requires room { HasRoomToMark segments.old marker.old }
    requires within { AreWithin (W.words words.old) list.now }
    requires can { (o : Opening) × CanResolve o (W.words words.old) segments.old marker.old (places_of list.now) }
    ensures words { W.words words.new ≡ W.words words.old }
    ensures marked { (count : ℕ) × HasMarked segments.old segments.new marker.old marker.new count }
    ensures turns { marker.new.turns ≡ marker.old.turns }
    ensures goes { GoesOn (W.words words.old) segments.old segments.new marker.old marker.new (places_of list.now) }
{
    if place >= list.len() {
        return;
    }
    keep_if_key_marked(marker, words, segments, list[place]);
}

// Keeps (`keep`) the weak pointers that wait for the object at address `key`, if this object is marked.
fn keep_waiting<W: HeapWords>(
    list: &[OldWeak],
    waiting: &[Waiter],
    key: u32,
    marker: &mut Marker,
    words: &mut W,
    segments: &mut Segments,
)
    requires room { HasRoomToMark segments.old marker.old }
    requires within { AreWithin (W.words words.old) list.now }
    requires can { (o : Opening) × CanResolve o (W.words words.old) segments.old marker.old (places_of list.now) }
    ensures words { W.words words.new ≡ W.words words.old }
    ensures marked { (count : ℕ) × HasMarked segments.old segments.new marker.old marker.new count }
    ensures turns { marker.new.turns ≡ marker.old.turns }
    ensures goes { GoesOn (W.words words.old) segments.old segments.new marker.old marker.new (places_of list.now) }
{
    let mut next = first_at_least(waiting, key);
    while next < waiting.len() && waiting[next].key == key {
        keep_at(list, waiting[next].place, marker, words, segments);
        next += 1;
    }
}

// Keeps (`keep`) the weak pointers that wait for blocks marked after the first `from` blocks, before or during this call.
fn follow_marks<W: HeapWords>(
    list: &[OldWeak],
    waiting: &[Waiter],
    from: u32,
    marker: &mut Marker,
    words: &mut W,
    segments: &mut Segments,
)
    requires room { HasRoomToMark segments.old marker.old }
    requires within { AreWithin (W.words words.old) list.now }
    requires can { (o : Opening) × CanResolve o (W.words words.old) segments.old marker.old (places_of list.now) }
    ensures words { W.words words.new ≡ W.words words.old }
    ensures marked { (count : ℕ) × HasMarked segments.old segments.new marker.old marker.new count }
    ensures turns { marker.new.turns ≡ marker.old.turns }
    ensures goes { GoesOn (W.words words.old) segments.old segments.new marker.old marker.new (places_of list.now) }
{
    let mut number = from;
    while let Some(at) = marker.nth_marked(number) {
        keep_waiting(list, waiting, at.0, marker, words, segments);
        number += 1;
    }
}

// Keeps (`keep`) weak pointers whose keys are or become marked. No clause says that none is left: passes find the rest.
fn keep_ahead<W: HeapWords>(
    list: &[OldWeak],
    waiting: &mut Vec<Waiter>,
    marker: &mut Marker,
    words: &mut W,
    segments: &mut Segments,
)
    requires none { vec_len waiting.old ≡ 0 }
    requires wait { length list.now ≤ vec_capacity waiting.old }
    requires room { HasRoomToMark segments.old marker.old }
    requires within { AreWithin (W.words words.old) list.now }
    requires can { (o : Opening) × CanResolve o (W.words words.old) segments.old marker.old (places_of list.now) }
    ensures words { W.words words.new ≡ W.words words.old }
    ensures capacity { vec_capacity waiting.new ≡ vec_capacity waiting.old }
    ensures marked { (count : ℕ) × HasMarked segments.old segments.new marker.old marker.new count }
    ensures turns { marker.new.turns ≡ marker.old.turns }
    ensures goes { GoesOn (W.words words.old) segments.old segments.new marker.old marker.new (places_of list.now) }
{
    file_waiting(list, waiting, marker, words, segments);
    let from = marker.marked();
    pass(list, marker, words, segments);
    follow_marks(list, waiting.as_slice(), from, marker, words, segments);
}

/// Keeps (`keep`) each listed weak pointer that is in the snapshot and has a marked key, until no further key becomes marked.
/// The weak pointers that wait for keys are filed in `waiting`, which has to be empty, with room for the list.
pub(crate) fn revive<W: HeapWords>(
    list: &[OldWeak],
    waiting: &mut Vec<Waiter>,
    marker: &mut Marker,
    words: &mut W,
    segments: &mut Segments,
)
    requires none { vec_len waiting.old ≡ 0 }
    requires wait { length list.now ≤ vec_capacity waiting.old }
    requires room { HasRoomToMark segments.old marker.old }
    requires within { AreWithin (W.words words.old) list.now }
    requires can { (o : Opening) × CanResolve o (W.words words.old) segments.old marker.old (places_of list.now) }
    ensures words { W.words words.new ≡ W.words words.old }
    ensures capacity { vec_capacity waiting.new ≡ vec_capacity waiting.old }
    ensures marked { (count : ℕ) × HasMarked segments.old segments.new marker.old marker.new count }
    ensures turns { marker.new.turns ≡ marker.old.turns }
    ensures revived { (o : Opening) → CanResolve o (W.words words.old) segments.old marker.old (places_of list.now) →
        HasRevived o (W.words words.old) segments.new marker.new (places_of list.now) }
{
    keep_ahead(list, waiting, marker, words, segments);
    pass_until_none(list, marker, words, segments);
}

/// Fills `dying`, which has to be empty, with the listed weak pointers of the snapshot that have no marked key, in order.
pub(crate) fn find_dying<W: HeapWords>(
    list: &[OldWeak],
    dying: &mut Vec<OldWeak>,
    marker: &Marker,
    words: &mut W,
    segments: &Segments,
)
    requires empty { dying.old.items ≡ [] }
    requires none { vec_len dying.old ≡ 0 }
    requires room { length list.now ≤ vec_capacity dying.old }
    requires within { AreWithin (W.words words.old) list.now }
    ensures words { W.words words.new ≡ W.words words.old }
    ensures found { (o : Opening) → CanResolve o (W.words words.old) segments.now marker.now (places_of list.now) →
        AreLost o (places_of list.now) dying.new.items }
    ensures capacity { vec_capacity dying.new ≡ vec_capacity dying.old }
    ensures few { vec_len dying.new ≤ length list.now }
{
    for weak in list {
        if is_lost(marker, words, segments, weak.at) {
            dying.push_reserved(*weak);
        }
    }
}

/// Lists each dying weak pointer and its finaliser in `deaths`, and marks the finalisers and all that is reachable from them.
/// Requires that `dying` has all that die (`CanRescue`), and that `deaths` is empty, with room for them.
pub(crate) fn save_finalisers<W: HeapWords>(
    dying: &[OldWeak],
    deaths: &mut Vec<Death>,
    marker: &mut Marker,
    words: &mut W,
    segments: &mut Segments,
)
    requires empty { deaths.old.items ≡ [] }
    requires few { length dying.now ≤ vec_capacity deaths.old }
    requires room { HasRoomToMark segments.old marker.old }
    requires within { AreWithin (W.words words.old) dying.now }
    requires can { (o : Opening) × (weaks : List Place) × CanRescue o (W.words words.old) segments.old marker.old weaks dying.now }
    ensures words { W.words words.new ≡ W.words words.old }
    ensures deaths { deaths.new.items ≡ deaths_of (W.words words.old) dying.now }
    ensures capacity { vec_capacity deaths.new ≡ vec_capacity deaths.old }
    ensures marked { (count : ℕ) × HasMarked segments.old segments.new marker.old marker.new count }
    ensures turns { marker.new.turns ≡ marker.old.turns }
    ensures empty { marker.new.queue ≡ [] }
    ensures saved { (o : Opening) (weaks : List Place) → CanRescue o (W.words words.old) segments.old marker.old weaks dying.now →
        HasRescued o segments.new marker.new dying.now }
{
    for weak in dying {
        let finaliser = words.load(weak.at.0 as usize + FINALISER);
        deaths.push_reserved(Death {
            weak: weak.weak,
            finaliser,
        });
        marker.mark_word(segments, finaliser);
    }
    marker.finish(words, segments);
}

/// Sets the value words of the dying weak pointers to 0, and changes no other word.
pub(crate) fn clear_values<W: HeapWords>(dying: &[OldWeak], words: &mut W)
    requires { AreWithin (W.words words.old) dying.now }
    ensures { W.words words.new ≡ without_values (W.words words.old) dying.now }
{
    for weak in dying {
        words.store(weak.at.0 as usize + VALUE, 0);
    }
}
