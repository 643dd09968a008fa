//! The part of a world that belongs to one mutator.
use crate::{Node, Value};
use nmgc_lists::{List, Queue};

/// The registers and the finaliser queue of a mutator, and the objects that it made.
///
/// A node's position in `nodes` is its serial. So the next serial is the number of nodes, a look-up of a name takes constant
/// time, and the order of the list is the order of names.
pub struct MutatorState {
    pub registers: List<Value>,
    pub queue: Queue<Value>,
    pub nodes: List<Node>,
}

// Written by hand, so that each drop of a state calls this. A derived drop is written out, and proved, at each drop.
impl Drop for MutatorState {
    fn drop(self) {
        let MutatorState {
            registers,
            queue,
            nodes,
        } = self;
        drop(registers);
        drop(queue);
        drop(nodes);
    }
}
