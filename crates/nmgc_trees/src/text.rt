//! The lines of a run's counts, as the benchmarks game has them, and whether the counts are right.
use crate::plan::{FIRST_DEPTH, nodes_of, small_trees};
use crate::run::Counts;
use nmgc_io::push_number;
use nmgc_lists::NoMemory;
use std::alloc::Global;

// Returns the depths of the small trees, each with its place among the counts.
fn small_depth(place: usize) -> u8 {
    (place.min(64) as u8)
        .saturating_mul(2)
        .saturating_add(FIRST_DEPTH)
}

// Returns the nodes that all small trees of this depth have.
fn right_small(depth: u8, small: u8) -> u64 {
    u64::from(small_trees(depth, small)).saturating_mul(nodes_of(small))
}

/// Returns whether each count is the number of nodes that its trees have by their depths, and all together the objects made.
pub fn are_right(depth: u8, counts: &Counts) -> bool {
    let mut nodes = counts.first.saturating_add(counts.kept);
    for (place, sum) in counts.small.iter().enumerate() {
        let small = small_depth(place);
        let right = if small <= depth {
            right_small(depth, small)
        } else {
            0
        };
        if *sum != right {
            return false;
        }
        nodes = nodes.saturating_add(right);
    }
    counts.is_done
        && counts.made == nodes
        && counts.refused == 0
        && counts.first == nodes_of(depth.saturating_add(1))
        && counts.kept == nodes_of(depth)
}

/// Returns the lines of the counts.
pub fn lines(alloc: Global, depth: u8, counts: &Counts) -> Result<Vec<u8>, NoMemory> {
    let mut out = Vec::new(alloc);
    push_large(
        &mut out,
        b"stretch tree of depth ",
        depth.saturating_add(1),
        counts.first,
    )?;
    for (place, sum) in counts.small.iter().enumerate() {
        let small = small_depth(place);
        if small <= depth {
            push_small(&mut out, depth, small, *sum)?;
        }
    }
    push_large(&mut out, b"long lived tree of depth ", depth, counts.kept)?;
    Ok(out)
}

// Appends the line of the first or the second tree.
fn push_large(out: &mut Vec<u8>, words: &[u8], depth: u8, nodes: u64) -> Result<(), NoMemory> {
    out.extend_from_slice(words)?;
    push_number(out, u64::from(depth))?;
    push_check(out, nodes)
}

// Appends the line of the small trees of one depth.
fn push_small(out: &mut Vec<u8>, depth: u8, small: u8, nodes: u64) -> Result<(), NoMemory> {
    push_number(out, u64::from(small_trees(depth, small)))?;
    out.extend_from_slice(b"\t trees of depth ")?;
    push_number(out, u64::from(small))?;
    push_check(out, nodes)
}

// Appends the end of a line.
fn push_check(out: &mut Vec<u8>, nodes: u64) -> Result<(), NoMemory> {
    out.extend_from_slice(b"\t check: ")?;
    push_number(out, nodes)?;
    out.push(b'\n')?;
    Ok(())
}
