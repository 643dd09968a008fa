//! The second pass: each found object is given a block, in order of names. This is the table's order, so nothing is sorted.
ghost use Rattle.std.specs.Prelude.{ℕ, ◌≡◌, ◌+◌, ◌<◌, ◌≤◌, ◌*◌, ◌++◌, List, length, slice_index};
ghost use Rattle.nmgc_object.specs.{Words.block_size, Words.name_word, declared.words.Header.Header, declared.size.TheConstants.HEADER_WORDS as HEADERS, declared.size.TheConstants.MAX_BLOCK_WORDS};
ghost use Rattle.nmgc_alloc.specs.{Reserve.KeepsReserve, Segments.IsSegments, Segments.IsMutator, Segments.IsClass, Segments.HasRoom};
ghost use Rattle.nmgc_stop_spec.specs.Strong.{HasHeader};
ghost use Rattle.nmgc_minor.specs.Placing.{CanPlace, PlacesOne, HasHeaderWord};

use nmgc_alloc::Segments;
use nmgc_heap_spec::HeapWords;
use nmgc_lists::Room;
use nmgc_object::{Address, HEADER_WORDS, class_of, fields_of, name_of};
use nmgc_world_spec::Name;

/// A moved object: its name, its address in the nursery, and its address in a segment.
#[derive(Clone, Copy, Debug, PartialEq, Eq)]
pub struct Move {
    pub name: Name,
    pub from: Address,
    pub to: Address,
}

/// Returns the number of words of the object at `from`, header and name included. No word changes.
pub fn object_words<W: HeapWords>(words: &mut W, from: u32) -> u32
    requires { HasHeader (W.words words.old) from }
    ensures holds { (header : Header) → HasHeaderWord (W.words words.old) from header → result ≡ HEADERS + header.fields }
    ensures least { HEADERS ≤ result }
    ensures most { result ≤ MAX_BLOCK_WORDS }
    ensures same { W.words words.new ≡ W.words words.old }
{
    HEADER_WORDS + fields_of(words.load(from as usize))
}

/// Allocates the block to which `maker`'s nursery object at `from` will move, and returns the move. The block is of the
/// smallest class that holds the object's `size` words. The maker needs room for each class (`HasRoom`). No word changes.
pub fn place_object<W: HeapWords>(
    words: &mut W,
    segments: &mut Segments,
    maker: u8,
    from: u32,
    size: u32,
) -> Move
    requires sound { IsSegments segments.old }
    requires maker { IsMutator segments.old.layout maker }
    requires object { CanPlace segments.old.layout maker (W.words words.old) from }
    requires size { (header : Header) → HasHeaderWord (W.words words.old) from header → size ≡ HEADERS + header.fields }
    requires room { (class : ℕ) → IsClass segments.old.layout class → HasRoom segments.old maker class }
    ensures from { result.from.0 ≡ from }
    ensures sound { IsSegments segments.new }
    ensures layout { segments.new.layout ≡ segments.old.layout }
    ensures places { PlacesOne segments.old segments.new (W.words words.old) maker result }
    ensures same { W.words words.new ≡ W.words words.old }
{
    let class = class_of(size);
    let name = name_of(words.load(from as usize + 1));
    let to = segments.allocate(maker, class);
    // Note [Lines that do nothing] in `nmgc_alloc`: this gives the prover that all segments are sound.
    let _ = segments.layout();
    Move {
        name,
        from: Address(from),
        to,
    }
}
