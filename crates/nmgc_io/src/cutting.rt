//! Bytes cut at their first separator.
//!
//! Scripts, images, names and journals are cut into lines and tokens here. To find the end of a line, each of its bytes is
//! compared. So sixteen bytes are compared at once while sixteen are left, and the rest one by one. Easy to get wrong: if the
//! separator isn't found, nothing is cut, and only the caller knows whether the rest is a last part.
ghost use Rattle.std.specs.Prelude.{◌≡◌, ◌≢◌, ℕ, ◌+◌, ◌<◌, ◌≤◌, ◌==◌, not, ◌++◌, ◌∷◌, All, IfSome, IfNone, length, slice_index, take, drop};
ghost use Rattle.std.specs.{List.prefix_len, Simd.Lanes.chunk};

use std::simd::prelude::*;

/// The number of bytes that are compared at once.
pub(crate) const LANES: usize = 16;

// Counts the bytes before the first `byte` in the `LANES` bytes from position `at` on. Returns `LANES` if none is `byte`.
#[inline(always)]
fn run_before(bytes: &[u8], at: usize, byte: u8) -> usize
    requires { at + LANES ≤ length bytes.now }
    ensures { result ≡ prefix_len (λ b. not (b == byte)) (chunk at LANES bytes.now) }
{
    let found = u8x16::from_slice(&bytes[at..])
        .simd_eq(u8x16::splat(byte))
        .to_bitmask();
    if found == 0 {
        LANES
    } else {
        found.trailing_zeros() as usize
    }
}

// Returns the position of the first `byte` in `bytes`, or the number of bytes if `byte` doesn't occur.
#[inline(always)]
fn position_of(bytes: &[u8], byte: u8) -> usize
    ensures within { result ≤ length bytes.now }
    ensures before { (k : ℕ) → k < result → slice_index bytes.now k ≢ byte }
    ensures found { result < length bytes.now → slice_index bytes.now result ≡ byte }
{
    let mut at: usize = 0;
    while bytes.len() - at >= LANES {
        let run = run_before(bytes, at, byte);
        if run < LANES {
            return at + run;
        }
        at += LANES;
    }
    for rest in at..bytes.len() {
        if bytes[rest] == byte {
            return rest;
        }
    }
    bytes.len()
}

/// Splits `bytes` at the first `byte` into the bytes before it and the bytes after it. Returns `None` exactly if `byte`
/// doesn't occur. Takes no memory, and time proportional to the bytes up to the cut.
#[inline]
pub fn cut(bytes: &[u8], byte: u8) -> Option<(&[u8], &[u8])>
    ensures parts { IfSome result (λ parts. bytes.now ≡ parts.0.now ++ byte ∷ parts.1.now) }
    ensures first { IfSome result (λ parts. All (λ b. b ≢ byte) parts.0.now) }
    ensures less { IfSome result (λ parts. length parts.1.now < length bytes.now) }
    ensures none { IfNone result (All (λ b. b ≢ byte) bytes.now) }
{
    let at = position_of(bytes, byte);
    if at == bytes.len() {
        return None;
    }
    Some((&bytes[..at], &bytes[at + 1..]))
}

/// Splits `part` at the first `byte`, as `cut` does. Requires that `whole` has the bytes of `part` from position `from` on. A
/// single comparison suffices if `part` has at most sixteen bytes, and `whole` has sixteen or more from `from` on.
#[inline]
pub fn cut_within<'a>(
    whole: &[u8],
    from: usize,
    part: &'a [u8],
    byte: u8,
) -> Option<(&'a [u8], &'a [u8])>
    requires inside { from + length part.now ≤ length whole.now }
    requires part { part.now ≡ take (length part.now) (drop from whole.now) }
    ensures parts { IfSome result (λ parts. part.now ≡ parts.0.now ++ byte ∷ parts.1.now) }
    ensures first { IfSome result (λ parts. All (λ b. b ≢ byte) parts.0.now) }
    ensures less { IfSome result (λ parts. length parts.1.now < length part.now) }
    ensures none { IfNone result (All (λ b. b ≢ byte) part.now) }
{
    if part.len() > LANES || whole.len() - from < LANES {
        return cut(part, byte);
    }
    let run = run_before(whole, from, byte);
    if run >= part.len() {
        return None;
    }
    Some((&part[..run], &part[run + 1..]))
}
