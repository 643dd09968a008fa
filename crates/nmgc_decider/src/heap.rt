//! The sizes of a heap with a given number of segments.
//!
//! Segments have the greatest number of words, so an array may have up to 4,094 fields. Easy to get wrong: the reserve isn't
//! for objects. If a full cycle at a stop leaves fewer free segments, the run ends. So the reserve is added to the segments that a
//! program needs.
ghost use Rattle.std.specs.Prelude.{◌≡◌, ◌<◌, ◌≤◌, ◌+◌, ◌*◌, IfNone, IfSome};
ghost use Rattle.nmgc_decider.specs.Heap.{IsHeap};

use nmgc_limits::{
    MAKERS, MAX_HEAP_WORDS, MAX_QUOTA, MAX_SEGMENT_WORDS, MAX_SEGMENTS, MAX_SLICE, MAX_TRIGGER,
};
use nmgc_script::Config;

/// The number of words of a nursery: the words of 16 segments.
pub const NURSERY_WORDS: u32 = 16 * MAX_SEGMENT_WORDS;

// The number of classes of blocks in segments of `MAX_SEGMENT_WORDS` words.
const CLASSES: u64 = 21;

// The number of segments that the reserve has for each mutator: the nursery's segments twice, and one for each class.
const RESERVED: u64 = 2 * 16 + CLASSES;

// The number of objects that the collector marks in a round for each mutator, at most. A nursery holds at most half of these.
const QUOTA: u32 = 65_536;

// Returns the number of objects that the collector marks in a round, at most. With up to 16 mutators it is at least twice the
// number of objects that they can make in a round. No clause promises that marking ends before the heap is full.
fn quota_of(threads: u8) -> u32
    requires { 0 < threads }
    ensures { (1 ≤ result) × (result ≤ MAX_QUOTA) }
{
    (u32::from(threads) * QUOTA).min(MAX_QUOTA)
}

/// Returns the sizes of a heap with `segments` segments beside its reserve, for `threads` mutators, in which a cycle begins once
/// `trigger` segments were filled. The reserve has 53 segments for each mutator. Returns `None` only if `segments` is 0,
/// `segments + 69 * threads` or `trigger` is past 65,536, or `threads` isn't from 1 to `MAKERS`. Takes no memory.
pub fn heap_of(segments: u32, trigger: u32, threads: u8) -> Option<Config>
    ensures is { IfSome result (IsHeap threads) }
    ensures none { IfNone result (0 < segments → segments + 69 * threads ≤ 65536 → trigger ≤ 65536 → 0 < threads → threads ≤ MAKERS → ⊥) }
    ensures sizes { IfSome result (λ c. (c.segments ≡ segments + 53 * threads) × (c.trigger ≡ trigger)) }
{
    if threads == 0 || threads > MAKERS {
        return None;
    }
    let quota = quota_of(threads);
    let threads = u64::from(threads);
    let all = u64::from(segments) + RESERVED * threads;
    if segments == 0 || all > MAX_SEGMENTS as u64 || trigger > MAX_TRIGGER {
        return None;
    }
    let words = all * MAX_SEGMENT_WORDS as u64 + threads * NURSERY_WORDS as u64;
    if words > MAX_HEAP_WORDS as u64 {
        return None;
    }
    Some(Config {
        segments: all as u32,
        words: MAX_SEGMENT_WORDS,
        nursery: NURSERY_WORDS,
        slice: MAX_SLICE,
        quota,
        trigger,
    })
}
