//! The parts of the heap: the shared array, segments and nurseries.
//!
//! Nothing uses word 0. The shared array g has the words from `SHARED_PLACE`; the rest below `FIRST_PLACE` is unused. Then
//! follow the segments, one after the other, and then a nursery for each mutator. Every part of the collector takes its
//! addresses from here, so that no two of them ever write the same word: `laws` has the promise that the parts lie apart.
ghost use Rattle.std.specs.Prelude.{ℕ, ◌≡◌, ◌↔◌, ◌+◌, ◌-◌, ◌<◌, ◌≤◌};
ghost use Rattle.nmgc_object.specs.{Words.block_size, Words.segment_place, Words.nursery_place, Words.word_total, Words.class_count, Words.reserve_count, Layouts.IsLayout};

use crate::size::{HEADER_WORDS, class_of};
use nmgc_limits::SHARED_SLOTS;

/// The address of the shared array.
pub const SHARED_PLACE: u32 = 1;

/// The address of the first segment.
pub const FIRST_PLACE: u32 = 32;

const _: () = prove!(SHARED_PLACE + HEADER_WORDS + SHARED_SLOTS as u32 <= FIRST_PLACE);

/// The sizes of a heap: the number of segments, the words of each, the words of each nursery, and the number of mutators.
#[derive(Clone, Copy, Debug, PartialEq, Eq)]
pub struct Layout {
    pub segments: u32,
    pub words: u32,
    pub nursery: u32,
    pub mutators: u8,
}

/// A mutator's nursery: the words from `base` on and below `end`. The words from `top` on are unused.
#[derive(Clone, Copy, Debug, PartialEq, Eq)]
pub struct Nursery {
    pub base: u32,
    pub top: u32,
    pub end: u32,
}

impl Layout {
    /// Returns the address of a segment's first word. Takes no memory.
    pub fn segment_base(&self, segment: u32) -> u32
        requires layout { IsLayout self.now }
        requires segment { segment < self.now.segments }
        ensures { result ≡ segment_place self.now segment }
    {
        FIRST_PLACE + segment * self.words
    }

    /// Returns the address of the first word of a mutator's nursery. Takes no memory.
    pub fn nursery_base(&self, mutator: u8) -> u32
        requires layout { IsLayout self.now }
        requires mutator { mutator < self.now.mutators }
        ensures { result ≡ nursery_place self.now mutator }
    {
        FIRST_PLACE + self.segments * self.words + u32::from(mutator) * self.nursery
    }

    /// Returns the number of words of the heap. Takes no memory.
    pub fn total(&self) -> u32
        requires { IsLayout self.now }
        ensures { result ≡ word_total self.now }
    {
        FIRST_PLACE + self.segments * self.words + u32::from(self.mutators) * self.nursery
    }

    /// Returns the number of classes whose blocks fit into a segment. Takes no memory.
    pub fn classes(&self) -> u8
        requires { IsLayout self.now }
        ensures count { result ≡ class_count self.now }
        ensures fitting { (class : ℕ) → class < result ↔ block_size class ≤ self.now.words }
    {
        class_of(self.words) + 1
    }

    /// Returns the reserve: the number of free segments that suffices to promote full nurseries (`reserve_suffices` in
    /// `nmgc_alloc`). It is twice all nurseries' words, divided by a segment's words and rounded down, plus one for each
    /// class of each mutator. Takes no memory.
    pub fn reserve(&self) -> u32
        requires { IsLayout self.now }
        ensures { result ≡ reserve_count self.now }
    {
        let mutators = u32::from(self.mutators);
        let twice = 2 * u64::from(mutators) * u64::from(self.nursery);
        (twice / u64::from(self.words)) as u32 + u32::from(self.classes()) * mutators
    }
}

impl Nursery {
    /// Returns the number of unused words of the nursery. Takes no memory.
    pub fn left(&self) -> u32
        requires { self.now.top ≤ self.now.end }
        ensures { result ≡ self.now.end - self.now.top }
    {
        self.end - self.top
    }
}
