//! Loops over mark bytes, sixteen at a time (a vector), and byte by byte over the rest. A segment has up to 1,024 mark bytes,
//! and a sweep of the segment goes through all of them. So does each closing, unless the segment is free or waits to be
//! swept. A loop that changes bytes takes two vectors in each step while two are left. With one in each step, the loop's
//! overhead would double the cost.
//!
//! Easy to get wrong: a search that advances by the result of `run_before` waits for each vector's result before it loads the
//! next. So the search advances by sixteen, and uses the result only at the end.
//!
//! # Note [Why two epochs are enough]
//!
//! A mark byte is 0 or a cycle's epoch. Epochs are 1 and 2 in turn. No byte stays that would look marked two cycles later:
//! - A `sweep` clears every byte that isn't the cycle's epoch. All waiting segments are swept before the next cycle begins.
//! - Other segments keep their blocks. A closing's `carry` gives the epoch to each byte except 0. It can't clear it: at or
//!   above `next_free` only such a byte says that the block is in use, and at or above `snap` that it is in the snapshot.
//! - The bytes of a free segment are 0, and so is the byte of each block allocated since the snapshot.
//!
//! So between cycles every byte is 0 or the last epoch (`AreSettled` in `nmgc_alloc`), never the next: a cycle begins without
//! clearing marks. While it marks, a byte of the other epoch is an unmarked block that an earlier cycle kept.
ghost use Rattle.std.specs.Prelude.{◌≡◌, ◌≢◌, ℕ, ◌↔◌, ◌+◌, ◌<◌, ◌≤◌, ◌==◌, not, map, length, slice_index, IsTrue};
ghost use Rattle.std.specs.{List.prefix_len, Simd.Lanes.chunk, Simd.Lanes.put_chunk};
ghost use Rattle.nmgc_segment.specs.{Marks.IsEpoch, Segment.carried, Marks.swept, Marks.IsFirst, Marks.IsFirstUnmarked, Kept.ShowsMarked};

use std::simd::prelude::*;

// The number of mark bytes in a vector.
const LANES: usize = 16;

// A sweep uses vectors from this number of mark bytes on, and below two vectors' bytes. In between, the plain loop is faster,
// as compiled.
const SWEPT_BY_LANES: usize = 512;

// The corresponding number for carrying marks over, which is smaller.
const CARRIED_BY_LANES: usize = 128;

// Returns how many bytes of the vector at `at` come before the first that equals `byte`, or `LANES` if no byte equals it.
#[inline(always)]
fn run_before(marks: &[u8], at: usize, byte: u8) -> usize
    requires { at + LANES ≤ length marks.now }
    ensures { result ≡ prefix_len (λ mark. not (mark == byte)) (chunk at LANES marks.now) }
{
    let found = u8x16::from_slice(&marks[at..])
        .simd_eq(u8x16::splat(byte))
        .to_bitmask();
    if found == 0 {
        LANES
    } else {
        found.trailing_zeros() as usize
    }
}

// Returns the position of the first byte from `from` on and below `to` that equals `byte`, or `to` if there is none.
fn first_of(marks: &[u8], from: usize, to: usize, byte: u8) -> usize
    requires from { from ≤ to }
    requires to { to ≤ length marks.now }
    ensures { IsFirst byte marks.now from to result }
{
    let mut at = from;
    while to - at >= LANES {
        let run = run_before(marks, at, byte);
        if run < LANES {
            return at + run;
        }
        at += LANES;
    }
    for rest in at..to {
        if marks[rest] == byte {
            return rest;
        }
    }
    to
}

/// Returns the first block from `from` on whose mark byte is 0, or `blocks`, the number of blocks, if there is none.
pub fn first_unmarked(marks: &[u8], from: u32, blocks: u32) -> u32
    requires from { from ≤ blocks }
    requires blocks { blocks ≤ length marks.now }
    ensures { IsFirstUnmarked marks.now from blocks result }
{
    // Most segments are filled from their beginning on, and then the next block is unmarked.
    if from < blocks && marks[from as usize] == 0 {
        return from;
    }
    first_of(marks, from as usize, blocks as usize, 0) as u32
}

// Whether any mark byte is the epoch.
fn has_mark(marks: &[u8], epoch: u8) -> bool
    ensures { IsTrue result ↔ ((b : ℕ) × (b < length marks.now) × (slice_index marks.now b ≡ epoch)) }
{
    marks.contains(&epoch)
}

/// Whether any mark byte isn't 0. Requires that each byte is 0 or the epoch, as after a sweep, and that block 0 is marked if
/// `first`, the first unmarked block, isn't 0. Reads bytes only if `first` is 0.
pub fn is_any_marked(marks: &[u8], first: u32, epoch: u8) -> bool
    requires epoch { IsEpoch epoch }
    requires swept { (b : ℕ) → slice_index marks.now b ≢ 0 → slice_index marks.now b ≡ epoch }
    requires before { first ≢ 0 → slice_index marks.now 0 ≢ 0 }
    ensures { ShowsMarked marks.now result }
{
    first != 0 || has_mark(marks, epoch)
}

// Sets each byte of the vector at `at` to the epoch, unless the byte is 0.
#[inline(always)]
fn carry_lanes(marks: &mut [u8], at: usize, epoch: u8)
    requires { at + LANES ≤ length marks.old }
    ensures { marks.new ≡ put_chunk at marks.old (map (carried epoch) (chunk at LANES marks.old)) }
{
    let unmarked = u8x16::splat(0);
    u8x16::from_slice(&marks[at..])
        .simd_eq(unmarked)
        .select(unmarked, u8x16::splat(epoch))
        .copy_to_slice(&mut marks[at..]);
}

// Returns a mark byte carried over: 0 stays 0, and any other byte becomes the epoch.
fn carry_mark(mark: u8, epoch: u8) -> u8
    ensures { result ≡ carried epoch mark }
{
    if mark == 0 { 0 } else { epoch }
}

// Sets each mark byte to the epoch, byte by byte, unless the byte is 0.
fn carry_rest(marks: &mut [u8], epoch: u8)
    ensures { marks.new ≡ map (carried epoch) marks.old }
{
    for mark in marks.iter_mut() {
        *mark = carry_mark(*mark, epoch);
    }
}

// Sets each mark byte to the epoch, unless the byte is 0: by vectors, and the rest byte by byte.
fn carry_by_lanes(marks: &mut [u8], epoch: u8)
    ensures { marks.new ≡ map (carried epoch) marks.old }
{
    let mut at: usize = 0;
    while marks.len() - at >= 2 * LANES {
        carry_lanes(marks, at, epoch);
        carry_lanes(marks, at + LANES, epoch);
        at += 2 * LANES;
    }
    while marks.len() - at >= LANES {
        carry_lanes(marks, at, epoch);
        at += LANES;
    }
    carry_rest(&mut marks[at..], epoch);
}

/// Sets each mark byte to the epoch, unless the byte is 0.
pub fn carry_marks(marks: &mut [u8], epoch: u8)
    ensures { marks.new ≡ map (carried epoch) marks.old }
{
    if 2 * LANES <= marks.len() && marks.len() < CARRIED_BY_LANES {
        carry_rest(marks, epoch);
    } else {
        carry_by_lanes(marks, epoch);
    }
}

// Clears each byte of the vector at `at`, unless the byte is the epoch.
#[inline(always)]
fn sweep_lanes(marks: &mut [u8], at: usize, epoch: u8)
    requires { at + LANES ≤ length marks.old }
    ensures { marks.new ≡ put_chunk at marks.old (map (swept epoch) (chunk at LANES marks.old)) }
{
    let lanes = u8x16::from_slice(&marks[at..]);
    lanes
        .simd_eq(u8x16::splat(epoch))
        .select(lanes, u8x16::splat(0))
        .copy_to_slice(&mut marks[at..]);
}

// Returns a mark byte after a sweep: the byte itself if it is the epoch, and otherwise 0.
fn sweep_mark(mark: u8, epoch: u8) -> u8
    ensures { result ≡ swept epoch mark }
{
    if mark == epoch { mark } else { 0 }
}

// Clears each mark byte, byte by byte, unless the byte is the epoch.
fn sweep_rest(marks: &mut [u8], epoch: u8)
    ensures { marks.new ≡ map (swept epoch) marks.old }
{
    for mark in marks.iter_mut() {
        *mark = sweep_mark(*mark, epoch);
    }
}

// Clears each mark byte, unless the byte is the epoch: by vectors, and the rest byte by byte.
fn sweep_by_lanes(marks: &mut [u8], epoch: u8)
    ensures { marks.new ≡ map (swept epoch) marks.old }
{
    let mut at: usize = 0;
    while marks.len() - at >= 2 * LANES {
        sweep_lanes(marks, at, epoch);
        sweep_lanes(marks, at + LANES, epoch);
        at += 2 * LANES;
    }
    while marks.len() - at >= LANES {
        sweep_lanes(marks, at, epoch);
        at += LANES;
    }
    sweep_rest(&mut marks[at..], epoch);
}

/// Clears each mark byte, unless the byte is the epoch.
pub fn sweep_marks(marks: &mut [u8], epoch: u8)
    ensures { marks.new ≡ map (swept epoch) marks.old }
{
    if 2 * LANES <= marks.len() && marks.len() < SWEPT_BY_LANES {
        sweep_rest(marks, epoch);
    } else {
        sweep_by_lanes(marks, epoch);
    }
}
