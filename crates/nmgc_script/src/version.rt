//! Versions of the grammar.
//!
//! A script's first line names its version. All differences between versions are in one value, a `Version`, which the
//! functions that read a line receive. It has the most threads, segments, words of the heap and bytes, and the number of
//! registers that a command can name. An old version may allow fewer than there are, and lack new commands (`has`). The laws of versions are about any
//! usable version (`specs/laws/Versions.antt`). So a fourth version is a constant and a line that is read.
ghost use Rattle.std.specs.Prelude.{◌≡◌};
ghost use Rattle.nmgc_script.specs.{Spelling.version_1, Spelling.version_2, Spelling.version_3, Reading.has_verb};

use crate::verbs::Verb;
use nmgc_limits::{MAKERS, MAX_HEAP_WORDS, MAX_SCRIPT_BYTES, REGISTERS};

/// The limits of a version.
#[derive(Clone, Copy, Debug, PartialEq, Eq)]
pub struct Version {
    /// The number in the first line.
    pub number: u8,
    /// The greatest number of threads.
    pub threads: u8,
    /// The number of registers that can be named, from 0.
    pub registers: u8,
    /// The greatest number of segments.
    pub segments: u32,
    /// The most words of all segments and nurseries together.
    pub heap_words: u32,
    /// The most bytes of a script.
    pub bytes: usize,
}

impl Version {
    /// Returns version 1. Takes no memory.
    pub fn first() -> Version
        ensures { result ≡ version_1 }
    {
        Version {
            number: 1,
            threads: 8,
            registers: 16,
            segments: 65_536,
            heap_words: 4_194_304,
            bytes: 16_777_216,
        }
    }

    /// Returns version 2. Takes no memory.
    pub fn second() -> Version
        ensures { result ≡ version_2 }
    {
        Version {
            number: 2,
            threads: MAKERS,
            registers: REGISTERS,
            segments: 65_536,
            heap_words: 4_194_304,
            bytes: 16_777_216,
        }
    }

    /// Returns version 3. Takes no memory.
    pub fn third() -> Version
        ensures { result ≡ version_3 }
    {
        let second = Version::second();
        Version {
            number: 3,
            heap_words: MAX_HEAP_WORDS,
            bytes: MAX_SCRIPT_BYTES,
            ..second
        }
    }

    /// Returns whether the version has the verb: `tag` and `rec` are new in version 3. Takes no memory.
    pub fn has(self, verb: Verb) -> bool
        ensures { result ≡ has_verb self verb }
    {
        match verb {
            Verb::Rec | Verb::Tag => self.number >= 3,
            _ => true,
        }
    }
}
