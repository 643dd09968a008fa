//! The nodes of trees: pairs of children, which are nodes or nil.
use nmgc_commands::Register;
use nmgc_decider::{Obj, Shape};

/// The shape of a node.
#[derive(Clone, Copy, Debug, PartialEq, Eq)]
pub struct Node;

impl Shape for Node {
    const TAG: u8 = 0;

    ghost TAG = { 0 };

    const FIELDS: u16 = 2;

    ghost FIELDS = { 2 };
}

impl Node {
    /// The field of the left child.
    pub const LEFT: u16 = 0;

    /// The field of the right child.
    pub const RIGHT: u16 = 1;
}

/// Returns the node in the register that is `height` above the first one, or `None` if there is no such register.
pub fn node_above(first: Register, height: u8) -> Option<Obj<Node>> {
    let number = first.number().checked_add(height)?;
    Some(Obj::at(Register::new(number)?))
}
