//! Commands and their replies.
ghost use Rattle.std.specs.Prelude.{◌≡◌, ◌<◌};
ghost use Rattle.nmgc_world_spec.specs.{Known.IsMaking, World.words_made};

use crate::Value;
use nmgc_lists::List;

/// The source of a value for a command: a register, or the reference to the shared array.
#[derive(Clone, Copy, Debug, PartialEq, Eq)]
pub enum Operand {
    Register(u8),
    Shared,
}

/// A command of a mutator. `dest` is the register that gets the result.
pub enum Command {
    /// Puts a number into `dest`.
    Num {
        dest: u8,
        number: u64,
    },
    /// Puts nil into `dest`.
    Nil {
        dest: u8,
    },
    /// Puts a value into `dest`.
    Mov {
        dest: u8,
        value: Operand,
    },
    /// Makes a constructor.
    Con {
        dest: u8,
        tag: u8,
        fields: List<Operand>,
    },
    /// Makes a variable.
    Var {
        dest: u8,
        value: Operand,
    },
    /// Makes an array of `count` copies of a value.
    Arr {
        dest: u8,
        count: u32,
        value: Operand,
    },
    /// Makes an array of these values.
    Rec {
        dest: u8,
        fields: List<Operand>,
    },
    /// Makes a thunk without a result.
    Thunk {
        dest: u8,
        free: List<Operand>,
    },
    /// Makes a weak pointer that is alive.
    Weak {
        dest: u8,
        key: Operand,
        value: Operand,
        finaliser: Operand,
    },
    /// Makes an empty stack for at most `size` values.
    Stack {
        dest: u8,
        size: u32,
    },
    /// Reads a field of a constructor, a variable or an array.
    Get {
        dest: u8,
        object: Operand,
        index: u32,
    },
    /// Reads a constructor's tag as a number.
    Tag {
        dest: u8,
        object: Operand,
    },
    /// Writes a field of a variable or an array.
    Set {
        object: Operand,
        index: u32,
        value: Operand,
    },
    /// Writes a field of a variable or an array if the field equals `expected`.
    Cas {
        object: Operand,
        index: u32,
        expected: Operand,
        value: Operand,
    },
    /// Gives a result to a thunk that has none.
    Update {
        object: Operand,
        value: Operand,
    },
    /// Reads a thunk's result.
    Force {
        dest: u8,
        object: Operand,
    },
    /// Puts a value on a stack that this mutator made.
    Push {
        object: Operand,
        value: Operand,
    },
    /// Takes the top off a stack that this mutator made.
    Pop {
        dest: u8,
        object: Operand,
    },
    /// Reads the value of a weak pointer that is alive.
    Deref {
        dest: u8,
        object: Operand,
    },
    /// Kills a weak pointer that is alive, and puts its finaliser into `dest`.
    Finalise {
        dest: u8,
        object: Operand,
    },
    /// Moves the first finaliser of the mutator's queue into `dest`.
    NextFin {
        dest: u8,
    },
    /// Replies with a value.
    Show {
        value: Operand,
    },
    /// Replies whether two values are the same.
    Same {
        left: Operand,
        right: Operand,
    },
    /// Ends the slice.
    Yield,
    /// Ends the slice and asks for a cycle.
    Collect,
    /// Ends the slice and asks for a full cycle.
    Full,
}

// Written by hand, so that each drop of a command calls this. A derived drop is written out, and proved, at each drop.
impl Drop for Command {
    fn drop(self) {
        match self {
            Command::Num { dest: _, number: _ } => {}
            Command::Nil { dest: _ } => {}
            Command::Mov { dest: _, value: _ } => {}
            Command::Con {
                dest: _,
                tag: _,
                fields,
            } => drop(fields),
            Command::Var { dest: _, value: _ } => {}
            Command::Arr {
                dest: _,
                count: _,
                value: _,
            } => {}
            Command::Rec { dest: _, fields } => drop(fields),
            Command::Thunk { dest: _, free } => drop(free),
            Command::Weak {
                dest: _,
                key: _,
                value: _,
                finaliser: _,
            } => {}
            Command::Stack { dest: _, size: _ } => {}
            Command::Get {
                dest: _,
                object: _,
                index: _,
            } => {}
            Command::Tag { dest: _, object: _ } => {}
            Command::Set {
                object: _,
                index: _,
                value: _,
            } => {}
            Command::Cas {
                object: _,
                index: _,
                expected: _,
                value: _,
            } => {}
            Command::Update {
                object: _,
                value: _,
            } => {}
            Command::Force { dest: _, object: _ } => {}
            Command::Push {
                object: _,
                value: _,
            } => {}
            Command::Pop { dest: _, object: _ } => {}
            Command::Deref { dest: _, object: _ } => {}
            Command::Finalise { dest: _, object: _ } => {}
            Command::NextFin { dest: _ } => {}
            Command::Show { value: _ } => {}
            Command::Same { left: _, right: _ } => {}
            Command::Yield => {}
            Command::Collect => {}
            Command::Full => {}
        }
    }
}

impl Command {
    /// Returns the number of words of the object that the command makes: a header, a name, and a word for each part. It is 0
    /// exactly if no object is made. Slices and scripts count by the same definition. Takes no memory, and constant time.
    pub fn words_made(&self) -> usize
        ensures words { result ≡ words_made self.now }
        ensures making { 0 < result → IsMaking self.now }
    {
        match self {
            Command::Con { fields, .. } => 2 + fields.items().len(),
            Command::Var { .. } => 3,
            Command::Arr { count, .. } => 2 + *count as usize,
            Command::Rec { fields, .. } => 2 + fields.items().len(),
            Command::Thunk { free, .. } => 3 + free.items().len(),
            Command::Weak { .. } => 5,
            Command::Stack { size, .. } => 2 + *size as usize,
            _ => 0,
        }
    }
}

/// The reply to a command. A command that was refused changed nothing.
#[derive(Clone, Copy, Debug, PartialEq, Eq)]
pub enum Reply {
    /// The command was done.
    Fine,
    /// `cas` wrote, or the values of `same` are the same.
    Yes,
    /// `cas` found another value, or the values of `same` differ.
    No,
    /// The thunk has its result now.
    Updated,
    /// Refused: the thunk had a result.
    Already,
    /// The value asked for, or the name of the new object.
    Given(Value),
    /// Refused: the object operand is nil or a number.
    NoPointer,
    /// Refused: the object has no such field.
    NoField,
    /// Refused: the object is of another kind.
    WrongKind,
    /// Refused: another mutator made the stack.
    NotOwner,
    /// Refused: a constructor never changes.
    Fixed,
    /// Refused: the weak pointer is dead.
    Dead,
    /// Refused: there is no result, or no finaliser is queued.
    Nothing,
    /// Refused: the stack is full.
    StackFull,
    /// Refused: the stack is empty.
    StackEmpty,
}
