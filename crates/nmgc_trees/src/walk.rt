//! The commands that count the nodes of one tree, by their replies.
//!
//! The node at each depth of the path is in a register of its own. A node with nil as its left child is a leaf. A bit for each
//! depth says whether the path goes through the right child there. Easy to get wrong: on the way up the walk asks for a right
//! child only once, so the bit is set before.
ghost use Rattle.std.specs.Prelude.{◌<◌, IfSome};
ghost use Rattle.nmgc_commands.specs.Fitting.{FitsAny};

use crate::node::{Node, node_above};
use nmgc_commands::{PackedCommand, Register};
use nmgc_world_spec::{Reply, Value};

/// A tree that is being counted.
#[derive(Clone, Copy, Debug, PartialEq, Eq)]
pub struct Walk {
    // The register of the root.
    first: Register,
    // The depth of the node whose child is read.
    depth: u8,
    // For each depth, whether the path goes through the right child.
    rights: u64,
    // The number of nodes that were seen.
    nodes: u64,
}

impl Walk {
    /// Begins at the root in register `first`.
    pub fn new(first: Register) -> Self {
        Walk {
            first,
            depth: 0,
            rights: 0,
            nodes: 1,
        }
    }

    /// Returns the number of nodes seen so far. Once `next` returned `None`, the tree has this number of nodes.
    pub fn nodes(&self) -> u64 {
        self.nodes
    }

    /// Returns the command that reads the left child of the node that was found last, or `None` if the tree is deeper than there
    /// are registers. The clause says only that it fits.
    pub fn left(&self) -> Option<PackedCommand>
        ensures { IfSome result FitsAny }
    {
        self.child(Node::LEFT)
    }

    /// Takes the child that was read, and returns the command that reads the next one, or `None` once all were read. A reply
    /// that is no reference counts as a missing child. The clause says only that the command fits.
    pub fn next(&mut self, reply: Reply) -> Option<PackedCommand>
        ensures { IfSome result FitsAny }
    {
        if let Reply::Given(Value::Ref(_)) = reply {
            self.nodes = self.nodes.saturating_add(1);
            self.depth = self.depth.saturating_add(1);
            self.rights &= !self.bit();
            return self.left();
        }
        self.up()
    }

    // Goes up to the first node whose right child wasn't read, and returns the command that reads it.
    fn up(&mut self) -> Option<PackedCommand>
        ensures { IfSome result FitsAny }
    {
        for depth in (0..self.depth).rev() {
            self.depth = depth;
            if self.rights & self.bit() == 0 {
                self.rights |= self.bit();
                return self.child(Node::RIGHT);
            }
        }
        None
    }

    // Returns the bit of this depth.
    fn bit(&self) -> u64 {
        1 << (self.depth % 64)
    }

    // Returns the command that reads a child of the node at this depth into the register of the next depth.
    fn child(&self, field: u16) -> Option<PackedCommand>
        requires { field < 2 }
        ensures { IfSome result FitsAny }
    {
        let node = node_above(self.first, self.depth)?;
        let child = node_above(node.register, 1)?;
        Some(node.get(child.register, field))
    }
}
