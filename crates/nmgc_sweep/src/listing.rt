//! The names in a segment that is about to be swept: all of them, and the names that the sweep frees. Only before the sweep
//! is it known which blocks in use aren't marked with its epoch: it frees these blocks.
ghost use Rattle.std.specs.Prelude.{◌+◌, ◌*◌, ◌≤◌};
ghost use Rattle.nmgc_object.specs.declared.size.TheConstants.{MIN_BLOCK_WORDS as LEAST};
ghost use Rattle.nmgc_segment.specs.{Marks.IsEpoch, Segment.InUse, Segment.block_count};
ghost use Rattle.nmgc_alloc.specs.{AllocState.nth, AllocState.HasNumber, Segments.IsWaiting};
ghost use Rattle.nmgc_sweep.specs.{Listing.ListsBlocks, Listing.IsLost, NameTable.HaveEntries, NameTable.named_at};

use crate::name_table::NameTable;
use nmgc_alloc::Segments;
use nmgc_name_lists::NameRoom;
use nmgc_object::{Address, block_words};

/// Adds to `had` the names that `names` has for the blocks in use of a waiting segment. Adds to `freed` the names of the
/// blocks among them that aren't marked with the epoch. Requires an entry for each block, and room in both lists for a
/// segment's blocks. Takes time proportional to the number of blocks.
pub(crate) fn list_segment(
    names: &NameTable,
    segments: &Segments,
    number: u32,
    epoch: u8,
    had: &mut NameRoom,
    freed: &mut NameRoom,
)
    requires exists { HasNumber segments.now number }
    requires waits { IsWaiting segments.now number }
    requires epoch { IsEpoch epoch }
    requires entries { HaveEntries segments.now.layout names.now }
    requires had { segments.now.layout.words ≤ LEAST * had.old.spare }
    requires freed { segments.now.layout.words ≤ LEAST * freed.old.spare }
    ensures had { ListsBlocks (InUse (nth segments.now.segments number))
        (named_at segments.now.layout names.now number (nth segments.now.segments number).class) (block_count (nth segments.now.segments number))
        had.old.names had.new.names }
    ensures had_room { LEAST * had.old.spare ≤ LEAST * had.new.spare + segments.now.layout.words }
    ensures freed { ListsBlocks (IsLost (nth segments.now.segments number) epoch)
        (named_at segments.now.layout names.now number (nth segments.now.segments number).class) (block_count (nth segments.now.segments number))
        freed.old.names freed.new.names }
    ensures freed_room { LEAST * freed.old.spare ≤ LEAST * freed.new.spare + segments.now.layout.words }
{
    let base = segments.layout().segment_base(number);
    let segment = segments.segment(number);
    let size = block_words(segment.class());
    let blocks = segment.blocks();
    for block in 0..blocks {
        if segment.in_use(block) {
            let name = names.name_at(Address(base + block * size));
            had.add(name);
            if !segment.is_marked(block, epoch) {
                freed.add(name);
            }
        }
    }
}
