//! The limits of the size of a heap and of the numbers of a run.
//!
//! The limits keep every address in the heap within 32 bits, and the whole heap within 2 GiB. Each number is written twice:
//! in `specs/Limits.antt`, which every contract cites, and in the constants below, which the code uses.
//! `limits_are_as_specified` proves that the two are equal. So the proof fails if a constant is changed alone, or if a crate
//! compares with another number.
//!
//! Easy to get wrong: a config alone can't keep the limit of the whole heap, since there is a nursery for each thread.
#![tactic(auto)]

mod mutators;

ghost use Rattle.std.specs.Prelude.{◌≡◌};
ghost use Rattle.nmgc_limits.specs.Limits.{least_segment_words, most_heap_words, most_nursery_words, most_quota, most_script_bytes, most_segment_words, most_segments, most_slice, most_trigger};

pub use mutators::{MAKERS, REGISTERS, SHARED_MAKER, SHARED_SLOTS, constants_are_these};

/// The most segments.
pub const MAX_SEGMENTS: u32 = 65_536;

/// The fewest words of a segment.
pub const MIN_SEGMENT_WORDS: u32 = 16;

/// The most words of a segment.
pub const MAX_SEGMENT_WORDS: u32 = 4096;

/// The most words of a nursery.
pub const MAX_NURSERY_WORDS: u32 = 4_194_304;

/// The most words of all segments and nurseries together. A version of scripts may allow fewer.
pub const MAX_HEAP_WORDS: u32 = 268_435_456;

/// The most commands of a slice.
pub const MAX_SLICE: u32 = 65_536;

/// The most objects that are marked in a round, and the most segments that are swept in a round.
pub const MAX_QUOTA: u32 = 1_048_576;

/// The most filled segments that a trigger may wait for.
pub const MAX_TRIGGER: u32 = 65_536;

/// The most bytes of a script. A version of scripts may allow fewer.
pub const MAX_SCRIPT_BYTES: usize = 67_108_864;

/// Does nothing, and proves that each constant of this module equals the number that `specs/Limits.antt` defines for it.
pub fn limits_are_as_specified()
    ensures segments { MAX_SEGMENTS ≡ most_segments }
    ensures least_words { MIN_SEGMENT_WORDS ≡ least_segment_words }
    ensures most_words { MAX_SEGMENT_WORDS ≡ most_segment_words }
    ensures nursery { MAX_NURSERY_WORDS ≡ most_nursery_words }
    ensures heap { MAX_HEAP_WORDS ≡ most_heap_words }
    ensures slice { MAX_SLICE ≡ most_slice }
    ensures quota { MAX_QUOTA ≡ most_quota }
    ensures trigger { MAX_TRIGGER ≡ most_trigger }
    ensures script { MAX_SCRIPT_BYTES ≡ most_script_bytes }
{}
