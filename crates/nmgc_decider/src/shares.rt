//! The parts of a count that is shared by all mutators.

/// Returns a mutator's part of `count`: an equal part for each of `threads` mutators, and one more for each of the first mutators
/// if a rest is left. With no mutator it is `count`.
pub fn share(count: u32, threads: u8, mutator: u8) -> u32 {
    let threads = u32::from(threads.max(1));
    let more = if u32::from(mutator) < count % threads {
        1
    } else {
        0
    };
    (count / threads).saturating_add(more)
}
