//! The turns that mutators got at the rings, and a check of their sums.
//!
//! Each ring has a count, which mutators raise by `cas`. The number before is the turn of the mutator that raised it. A lost raise
//! gives two mutators one turn, so the sum of all turns is too small for their number. Easy to get wrong: other turns than 0, 1
//! and so on may have the same sum.

// The number of rings.
const RINGS: usize = 8;

/// For each ring, how often a mutator got a turn, and the sum of its turns.
#[derive(Clone, Copy, Debug, PartialEq, Eq)]
pub struct Turns {
    counts: [u64; RINGS],
    sums: [u64; RINGS],
}

impl Turns {
    /// No turns.
    pub const NONE: Turns = Turns {
        counts: [0; RINGS],
        sums: [0; RINGS],
    };

    /// Adds a turn at a ring.
    pub fn take(&mut self, ring: u8, turn: u64) {
        if let Some(count) = self.counts.get_mut(usize::from(ring)) {
            *count = count.saturating_add(1);
        }
        if let Some(sum) = self.sums.get_mut(usize::from(ring)) {
            *sum = sum.saturating_add(turn);
        }
    }

    /// Adds the turns of another mutator.
    pub fn add(&mut self, other: &Turns) {
        for (count, more) in self.counts.iter_mut().zip(other.counts) {
            *count = count.saturating_add(more);
        }
        for (sum, more) in self.sums.iter_mut().zip(other.sums) {
            *sum = sum.saturating_add(more);
        }
    }

    /// Returns whether the sum of each ring's turns is the sum of 0, 1 and so on, up to their number.
    pub fn have_their_sum(&self) -> bool {
        for (count, sum) in self.counts.iter().zip(self.sums) {
            let twice = count.saturating_mul(count.saturating_sub(1));
            if sum.saturating_mul(2) != twice {
                return false;
            }
        }
        true
    }
}
