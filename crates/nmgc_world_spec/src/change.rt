//! The change that a command asks of the one object that it names, with the values of its operands.
use crate::Value;

/// A change of one object, with the values of the operands.
#[derive(Clone, Copy, Debug, PartialEq, Eq)]
pub enum Change {
    /// A field of a variable or an array takes a value.
    Set {
        index: u32,
        value: Value,
    },
    /// A field of a variable or an array takes a value if it holds the expected one.
    Exchange {
        index: u32,
        expected: Value,
        value: Value,
    },
    /// A thunk without a result gets one.
    Update {
        value: Value,
    },
    /// A value goes on top of a stack that this mutator made.
    Push {
        mutator: u8,
        value: Value,
    },
    /// The top goes off a stack that this mutator made.
    Pop {
        mutator: u8,
    },
    /// A weak pointer that is alive dies.
    Finalise,
}
