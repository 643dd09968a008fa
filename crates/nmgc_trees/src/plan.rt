//! The trees of a mutator, by the greatest depth and the number of mutators.
//!
//! With the greatest depth N, the first tree has depth N + 1 and the second one depth N. Of each even depth D from 4 to N there
//! are 2^(N - D + 4) small trees, over all mutators. So all depths have about the same number of nodes.

/// The least greatest depth.
pub const LEAST_DEPTH: u8 = 6;

/// The most that the greatest depth may be.
pub const MOST_DEPTH: u8 = 18;

/// The depth of the smallest trees.
pub const FIRST_DEPTH: u8 = 4;

/// The trees of one mutator.
#[derive(Clone, Copy, Debug, PartialEq, Eq)]
pub struct Plan {
    /// The greatest depth.
    pub depth: u8,
    /// The number of mutators.
    pub threads: u8,
    /// The mutator's number.
    pub mutator: u8,
}

/// Returns the number of nodes of a tree of this depth, in which all leaves have that depth. A depth past 40 counts as 40.
pub fn nodes_of(depth: u8) -> u64 {
    (2u64 << depth.min(40)).saturating_sub(1)
}

/// Returns the number of small trees of depth `small` over all mutators, if `depth` is the greatest.
pub fn small_trees(depth: u8, small: u8) -> u32 {
    1 << depth
        .saturating_sub(small)
        .saturating_add(FIRST_DEPTH)
        .min(31)
}

impl Plan {
    /// Returns whether this mutator has the first and the second tree.
    pub fn has_large(&self) -> bool {
        self.mutator == 0
    }

    /// Returns the number of small trees of depth `small` that this mutator has.
    pub fn share(&self, small: u8) -> u32 {
        let all = small_trees(self.depth, small);
        let threads = u32::from(self.threads.max(1));
        let more = if u32::from(self.mutator) < all % threads {
            1
        } else {
            0
        };
        (all / threads).saturating_add(more)
    }

    /// Returns the number of commands that the plan takes. There is the first command. Each tree takes one for each node, and
    /// its count takes one more for each leaf and two for each other node.
    pub fn commands(&self) -> u64 {
        let mut all = 1u64;
        if self.has_large() {
            all = all
                .saturating_add(tree_commands(self.depth.saturating_add(1)))
                .saturating_add(tree_commands(self.depth));
        }
        for small in FIRST_DEPTH..=self.depth {
            if small % 2 == 0 {
                let trees = u64::from(self.share(small));
                all = all.saturating_add(trees.saturating_mul(tree_commands(small)));
            }
        }
        all
    }
}

// Returns the number of commands that make and count a tree of this depth.
fn tree_commands(depth: u8) -> u64 {
    let nodes = nodes_of(depth);
    let leaves = nodes / 2 + 1;
    nodes.saturating_mul(3).saturating_sub(leaves)
}
