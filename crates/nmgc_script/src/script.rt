//! A script, and the numbers of its heap.
//!
//! `specs/Spelling.antt` says which scripts are within the limits; the numbers are defined in `nmgc_limits`. A configuration
//! alone can't keep the limit of the whole heap. There is one nursery for each thread, so the total is a limit of the script.
//! Easy to get wrong: the least nursery depends on the words of a segment, since a nursery must have room for any object.
ghost use Rattle.std.specs.Prelude.{◌≡◌};
ghost use Rattle.nmgc_script.specs.Spelling.{FitsScript, upgraded};
ghost use Rattle.nmgc_script.specs.Parts.{upgraded_number};

use crate::version::Version;
use nmgc_commands::PackedCommand;
use nmgc_lists::List;

/// The numbers of the heap line. Segments and nurseries are measured in words.
#[derive(Clone, Copy, Debug, PartialEq, Eq)]
pub struct Config {
    /// The number of segments.
    pub segments: u32,
    /// The number of words of a segment: a power of two.
    pub words: u32,
    /// The number of words of a nursery.
    pub nursery: u32,
    /// The greatest number of commands that a mutator gives in a round.
    pub slice: u32,
    /// The greatest number of objects that the collector marks, or segments that it sweeps, in a round.
    pub quota: u32,
    /// The number of filled segments after which a cycle begins by itself; 0 means never.
    pub trigger: u32,
}

/// The sizes of a heap, and a program for each mutator.
#[derive(Drop)]
pub struct Script {
    pub version: u8,
    pub config: Config,
    pub threads: List<List<PackedCommand>>,
}

/// Returns `script`, with version 2 in place of version 1. Scripts of other versions are returned as they are. If `script` is
/// within the limits, so is the result. Takes no memory.
pub fn upgrade(script: Script) -> Script
    ensures is { result ≡ upgraded script }
    ensures fits { FitsScript script → FitsScript result }
{
    Script {
        version: upgraded_number(script.version),
        config: script.config,
        threads: script.threads,
    }
}

// Returns the version number that an upgrade gives a script of version `number`: 2 in place of 1, and otherwise `number`.
fn upgraded_number(number: u8) -> u8
    ensures { result ≡ upgraded_number number }
{
    if number == Version::first().number {
        return Version::second().number;
    }
    number
}
