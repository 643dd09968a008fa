//! Nodes: the objects of the world, each at a name.
//!
//! Six kinds differ in the changes that mutators make; the collector allows for each. Constructors never change. Variables
//! and arrays change field by field. Thunks are updated once. Weak pointers die once. Only its maker changes a stack.
ghost use Rattle.std.specs.Prelude.{◌≡◌};

use crate::Value;
use nmgc_lists::List;
use std::slice;

/// The kind of an object. It never changes.
#[derive(Clone, Copy, Debug, PartialEq, Eq)]
pub enum Kind {
    Con,
    Var,
    Arr,
    Thunk,
    Weak,
    Stack,
}

/// The parts of a weak pointer that is alive.
#[derive(Clone, Copy, Debug, PartialEq, Eq)]
pub struct Parts {
    pub key: Value,
    pub value: Value,
    pub finaliser: Value,
}

/// An object of the reference heap.
pub enum Node {
    /// A constructor, whose values never change.
    Con {
        tag: u8,
        values: List<Value>,
    },
    /// A variable, with one field.
    Var {
        value: Value,
    },
    /// An array.
    Arr {
        values: List<Value>,
    },
    /// A thunk: its free variables, and its result after an update.
    Thunk {
        free: List<Value>,
        result: Option<Value>,
    },
    /// A weak pointer. It is dead if it has no parts.
    Weak {
        parts: Option<Parts>,
    },
    /// A stack of at most `size` values, in order from the bottom up.
    Stack {
        size: u32,
        values: List<Value>,
    },
}

// Written by hand, so that each drop of a node calls this. A derived drop is written out, and proved, at each drop.
impl Drop for Node {
    fn drop(self) {
        match self {
            Node::Con { tag: _, values } => drop(values),
            Node::Var { value: _ } => {}
            Node::Arr { values } => drop(values),
            Node::Thunk { free, result: _ } => drop(free),
            Node::Weak { parts: _ } => {}
            Node::Stack { size: _, values } => drop(values),
        }
    }
}

impl Node {
    ghost use Rattle.nmgc_world_spec.specs.Written.{field_in};

    /// Returns the field at `index` of a constructor, a variable or an array, and `None` exactly if the node is of another
    /// kind or has no such field. `get`, `cas`, the barrier and a scan all use it. Takes no memory, and constant time.
    pub fn field(&self, index: usize) -> Option<Value>
        ensures { result ≡ field_in self.now index }
    {
        let fields = match self {
            Node::Con { tag: _, values } | Node::Arr { values } => values.items(),
            Node::Var { value } => slice::from_ref(value),
            _ => return None,
        };
        fields.get(index).copied()
    }
}
