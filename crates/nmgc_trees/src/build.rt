//! The commands that make one tree, from the leaves up.
//!
//! Trees that wait for their sibling lie in registers, one above the other. A leaf goes into the next register. After each leaf
//! the two upper trees become one, as often as the number of leaves has zeros at its end in binary. Easy to get wrong: a tree's
//! register is overwritten by its parent, so the root ends in the first register.
ghost use Rattle.std.specs.Prelude.{IfSome};
ghost use Rattle.nmgc_commands.specs.Fitting.{FitsAny};

use crate::node::node_above;
use crate::trees::NIL;
use nmgc_commands::{PackedCommand, Register};

/// A tree that is being made.
#[derive(Clone, Copy, Debug, PartialEq, Eq)]
pub struct Build {
    // The register of the root.
    first: Register,
    // The number of leaves of the whole tree.
    wanted: u32,
    // The number of leaves that were made.
    leaves: u32,
    // The number of trees in registers.
    height: u8,
    // The number of pairs to be made before the next leaf.
    pairs: u32,
}

impl Build {
    /// Begins a tree of this depth, whose root will be in register `first`. A depth past 31 counts as 31.
    pub fn new(first: Register, depth: u8) -> Self {
        Build {
            first,
            wanted: 1 << depth.min(31),
            leaves: 0,
            height: 0,
            pairs: 0,
        }
    }

    /// Returns whether a node was made.
    pub fn is_begun(&self) -> bool {
        self.leaves > 0
    }

    /// Returns the command that makes the next node, or `None` once the tree is whole, or higher than there are registers. The
    /// clause says only that it fits.
    pub fn next(&mut self) -> Option<PackedCommand>
        ensures { IfSome result FitsAny }
    {
        if self.pairs > 0 {
            self.pairs -= 1;
            return self.parent();
        }
        if self.leaves >= self.wanted {
            return None;
        }
        self.leaves += 1;
        self.pairs = self.leaves.trailing_zeros();
        let leaf = node_above(self.first, self.height)?;
        self.height = self.height.saturating_add(1);
        Some(leaf.make(&[NIL, NIL]))
    }

    // Returns the command that makes one tree of the two upper trees.
    fn parent(&mut self) -> Option<PackedCommand>
        ensures { IfSome result FitsAny }
    {
        self.height = self.height.saturating_sub(1);
        let right = node_above(self.first, self.height)?;
        let left = node_above(self.first, self.height.saturating_sub(1))?;
        Some(left.make(&[left.register, right.register]))
    }
}
