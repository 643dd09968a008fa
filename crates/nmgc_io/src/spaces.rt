//! The spaces of a short line, marked by bits.
//!
//! A line of at most sixteen bytes is compared with a space once. The result has a bit for each byte, which is 1 exactly if
//! the byte is a space (`MarksSpaces`), and each cut takes the lowest of these bits. Easy to get wrong: sixteen bytes are
//! compared even if the line is shorter. So bits beyond the line mark spaces of the text after it, and they make no cut.
ghost use Rattle.std.specs.Prelude.{◌≡◌, ◌≢◌, ◌+◌, ◌<◌, ◌≤◌, ◌++◌, ◌∷◌, All, IfSome, IfNone, length, take};
ghost use Rattle.nmgc_io.specs.Spaces.{MarksSpaces};

use crate::cutting::LANES;
use std::simd::prelude::*;

/// Marks the spaces among the first `LANES` bytes of `text` by one comparison. Requires that `text` isn't shorter.
#[inline(always)]
pub(crate) fn space_marks(text: &[u8]) -> u64
    requires { LANES ≤ length text.now }
    ensures { MarksSpaces result (take LANES text.now) }
{
    u8x16::from_slice(text)
        .simd_eq(u8x16::splat(b' '))
        .to_bitmask()
}

/// Splits `line` at the first space, which is the lowest bit of `marks` that is 1. Returns the bytes before the space, the
/// bytes after it, and the marks of the latter. Returns `None` exactly if `line` has no space. Takes no memory.
#[inline(always)]
pub(crate) fn cut_marked(line: &[u8], marks: u64) -> Option<(&[u8], &[u8], u64)>
    requires short { length line.now ≤ LANES }
    requires marks { MarksSpaces marks line.now }
    ensures parts { IfSome result (λ parts. line.now ≡ parts.0.now ++ 32 ∷ parts.1.now) }
    ensures first { IfSome result (λ parts. All (λ b. b ≢ 32) parts.0.now) }
    ensures less { IfSome result (λ parts. length parts.1.now < length line.now) }
    ensures marks { IfSome result (λ parts. MarksSpaces parts.2 parts.1.now) }
    ensures none { IfNone result (All (λ b. b ≢ 32) line.now) }
{
    let run = marks.trailing_zeros() as usize;
    if run >= line.len() {
        return None;
    }
    Some((&line[..run], &line[run + 1..], marks >> (run + 1)))
}
