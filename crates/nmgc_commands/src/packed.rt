//! A command in 16 bytes.
//!
//! A `Form` is the command as it lies in memory: the cases of `nmgc_world_spec::Command`. The three cases with a list of
//! operands occur twice, once for a few operands and once for more. Code that has to distinguish commands matches on the
//! form. For contracts a `PackedCommand` is the command itself (`specs/Packed.antt`).
ghost use Rattle.std.specs.Prelude.{◌≡◌, ◌<◌, IfOk};
ghost use Rattle.nmgc_world_spec.specs.{declared.command.Command.TheVariants.Con, declared.command.Command.TheVariants.Rec, declared.command.Command.TheVariants.Thunk, Known.IsMaking, World.words_made};
ghost use Rattle.nmgc_commands.specs.Packed.{command_of};

use crate::operands::{FixedOperands, Held, ManyOperands, Operands};
use nmgc_lists::{List, NoMemory};
use nmgc_world_spec::{Command, Operand};
use std::alloc::Global;
use std::marker::Model;

/// A command as it lies in memory, with the fields of the `Command` of its name.
pub enum Form {
    Num {
        dest: u8,
        number: u64,
    },
    Nil {
        dest: u8,
    },
    Mov {
        dest: u8,
        value: Operand,
    },
    /// A constructor with a few operands.
    Con {
        dest: u8,
        tag: u8,
        fields: FixedOperands,
    },
    /// A constructor whose operands lie in a vector.
    LongCon {
        dest: u8,
        tag: u8,
        fields: ManyOperands,
    },
    Var {
        dest: u8,
        value: Operand,
    },
    Arr {
        dest: u8,
        count: u32,
        value: Operand,
    },
    /// An array with a few operands.
    Rec {
        dest: u8,
        fields: FixedOperands,
    },
    /// An array whose operands lie in a vector.
    LongRec {
        dest: u8,
        fields: ManyOperands,
    },
    /// A thunk with a few operands.
    Thunk {
        dest: u8,
        free: FixedOperands,
    },
    /// A thunk whose operands lie in a vector.
    LongThunk {
        dest: u8,
        free: ManyOperands,
    },
    Weak {
        dest: u8,
        key: Operand,
        value: Operand,
        finaliser: Operand,
    },
    Stack {
        dest: u8,
        size: u32,
    },
    Get {
        dest: u8,
        object: Operand,
        index: u32,
    },
    Tag {
        dest: u8,
        object: Operand,
    },
    Set {
        object: Operand,
        index: u32,
        value: Operand,
    },
    Cas {
        object: Operand,
        index: u32,
        expected: Operand,
        value: Operand,
    },
    Update {
        object: Operand,
        value: Operand,
    },
    Force {
        dest: u8,
        object: Operand,
    },
    Push {
        object: Operand,
        value: Operand,
    },
    Pop {
        dest: u8,
        object: Operand,
    },
    Deref {
        dest: u8,
        object: Operand,
    },
    Finalise {
        dest: u8,
        object: Operand,
    },
    NextFin {
        dest: u8,
    },
    Show {
        value: Operand,
    },
    Same {
        left: Operand,
        right: Operand,
    },
    Yield,
    Collect,
    Full,
}

// Drops a list of operands. It stands apart, so that the drop of a command without a list is a test of its form.
#[cold]
#[inline(never)]
fn drop_list(operands: ManyOperands) {
    drop(operands)
}

// Written by hand, so that each drop of a form calls this. A derived drop is written out, and proved, at each drop.
impl Drop for Form {
    #[inline]
    fn drop(self) {
        match self {
            Form::Num { dest: _, number: _ } => {}
            Form::Nil { dest: _ } => {}
            Form::Mov { dest: _, value: _ } => {}
            Form::Con {
                dest: _,
                tag: _,
                fields,
            } => drop(fields),
            Form::LongCon {
                dest: _,
                tag: _,
                fields,
            } => drop_list(fields),
            Form::Var { dest: _, value: _ } => {}
            Form::Arr {
                dest: _,
                count: _,
                value: _,
            } => {}
            Form::Rec { dest: _, fields } => drop(fields),
            Form::LongRec { dest: _, fields } => drop_list(fields),
            Form::Thunk { dest: _, free } => drop(free),
            Form::LongThunk { dest: _, free } => drop_list(free),
            Form::Weak {
                dest: _,
                key: _,
                value: _,
                finaliser: _,
            } => {}
            Form::Stack { dest: _, size: _ } => {}
            Form::Get {
                dest: _,
                object: _,
                index: _,
            } => {}
            Form::Tag { dest: _, object: _ } => {}
            Form::Set {
                object: _,
                index: _,
                value: _,
            } => {}
            Form::Cas {
                object: _,
                index: _,
                expected: _,
                value: _,
            } => {}
            Form::Update {
                object: _,
                value: _,
            } => {}
            Form::Force { dest: _, object: _ } => {}
            Form::Push {
                object: _,
                value: _,
            } => {}
            Form::Pop { dest: _, object: _ } => {}
            Form::Deref { dest: _, object: _ } => {}
            Form::Finalise { dest: _, object: _ } => {}
            Form::NextFin { dest: _ } => {}
            Form::Show { value: _ } => {}
            Form::Same { left: _, right: _ } => {}
            Form::Yield => {}
            Form::Collect => {}
            Form::Full => {}
        }
    }
}

impl Form {
    // Returns the number of words of the object that the command makes, or 0 if the command makes no object.
    fn words_made(&self) -> usize
        ensures words { result ≡ words_made (command_of self.now) }
        ensures making { 0 < result → IsMaking (command_of self.now) }
    {
        match self {
            Form::Con { fields, .. } => 2 + fields.items().len(),
            Form::LongCon { fields, .. } => 2 + fields.items().len(),
            Form::Var { .. } => 3,
            Form::Arr { count, .. } => 2 + *count as usize,
            Form::Rec { fields, .. } => 2 + fields.items().len(),
            Form::LongRec { fields, .. } => 2 + fields.items().len(),
            Form::Thunk { free, .. } => 3 + free.items().len(),
            Form::LongThunk { free, .. } => 3 + free.items().len(),
            Form::Weak { .. } => 5,
            Form::Stack { size, .. } => 2 + *size as usize,
            _ => 0,
        }
    }
}

/// A command of a program. Contracts see it as a `Command`. Code that makes a command writes its form. Code that reads a
/// command calls `form`; its contract says which command the form represents.
pub struct PackedCommand {
    pub form: Form,
}

// The memory that a program takes for each of its commands.
const _: () = prove!(size_of::<PackedCommand>() == 16);

// Written by hand, as the drop of `Form` is: each drop of a packed command calls this.
impl Drop for PackedCommand {
    #[inline]
    fn drop(self) {
        let PackedCommand { form } = self;
        drop(form);
    }
}

impl Model for PackedCommand {
    ghost use Rattle.nmgc_world_spec.specs.declared.command.Command.{Command};
    ghost use Rattle.nmgc_commands.specs.Packed.{command_of};

    ghost Value = { Command };

    ghost view = { λ p. command_of p.form };
}

// Converts a command to a form, or a form to a command, by a match. The caller gives the arms for lists of operands.
macro_rules! convert {
    ($command:ident: $from:ident => $to:ident { $($arms:tt)* }) => {
        match $command {
            $from::Num { dest, number } => Ok($to::Num { dest: *dest, number: *number }),
            $from::Nil { dest } => Ok($to::Nil { dest: *dest }),
            $from::Mov { dest, value } => Ok($to::Mov { dest: *dest, value: *value }),
            $from::Var { dest, value } => Ok($to::Var { dest: *dest, value: *value }),
            $from::Arr { dest, count, value } => {
                Ok($to::Arr { dest: *dest, count: *count, value: *value })
            }
            $from::Weak { dest, key, value, finaliser } => {
                Ok($to::Weak { dest: *dest, key: *key, value: *value, finaliser: *finaliser })
            }
            $from::Stack { dest, size } => Ok($to::Stack { dest: *dest, size: *size }),
            $from::Get { dest, object, index } => {
                Ok($to::Get { dest: *dest, object: *object, index: *index })
            }
            $from::Tag { dest, object } => Ok($to::Tag { dest: *dest, object: *object }),
            $from::Set { object, index, value } => {
                Ok($to::Set { object: *object, index: *index, value: *value })
            }
            $from::Cas { object, index, expected, value } => {
                Ok($to::Cas { object: *object, index: *index, expected: *expected, value: *value })
            }
            $from::Update { object, value } => Ok($to::Update { object: *object, value: *value }),
            $from::Force { dest, object } => Ok($to::Force { dest: *dest, object: *object }),
            $from::Push { object, value } => Ok($to::Push { object: *object, value: *value }),
            $from::Pop { dest, object } => Ok($to::Pop { dest: *dest, object: *object }),
            $from::Deref { dest, object } => Ok($to::Deref { dest: *dest, object: *object }),
            $from::Finalise { dest, object } => Ok($to::Finalise { dest: *dest, object: *object }),
            $from::NextFin { dest } => Ok($to::NextFin { dest: *dest }),
            $from::Show { value } => Ok($to::Show { value: *value }),
            $from::Same { left, right } => Ok($to::Same { left: *left, right: *right }),
            $from::Yield => Ok($to::Yield),
            $from::Collect => Ok($to::Collect),
            $from::Full => Ok($to::Full),
            $($arms)*
        }
    };
}

// Returns a list with a copy of the operands. Two operands take no memory.
fn list_of(alloc: Global, operands: &[Operand]) -> Result<List<Operand>, NoMemory>
    ensures { IfOk result (λ list. list ≡ operands.now) }
{
    if let [first, second] = operands {
        return Ok(List::pair(alloc, *first, *second));
    }
    List::from_vec(Vec::from_slice(alloc, operands)?)
}

// Returns a copy of the operands for a packed command. Two operands take no memory. Any other number lies in a vector.
fn operands_of(alloc: Global, operands: &[Operand]) -> Result<Operands, NoMemory>
    ensures { IfOk result (λ own. own ≡ operands.now) }
{
    if let [first, second] = operands {
        return Ok(Operands::pair(*first, *second));
    }
    Operands::from_vec(alloc, Vec::from_slice(alloc, operands)?)
}

// Makes the form of a constructor: `Con` if its operands lie in the command, and `LongCon` if they lie in a vector.
fn con_form(dest: u8, tag: u8, fields: Operands) -> Form
    ensures { command_of result ≡ Con dest tag fields }
{
    match fields.into_held() {
        Held::Few(fields) => Form::Con { dest, tag, fields },
        Held::Many(fields) => Form::LongCon { dest, tag, fields },
    }
}

// Makes the form of an array: `Rec` if its operands lie in the command, and `LongRec` if they lie in a vector.
fn rec_form(dest: u8, fields: Operands) -> Form
    ensures { command_of result ≡ Rec dest fields }
{
    match fields.into_held() {
        Held::Few(fields) => Form::Rec { dest, fields },
        Held::Many(fields) => Form::LongRec { dest, fields },
    }
}

// Makes the form of a thunk: `Thunk` if its operands lie in the command, and `LongThunk` if they lie in a vector.
fn thunk_form(dest: u8, free: Operands) -> Form
    ensures { command_of result ≡ Thunk dest free }
{
    match free.into_held() {
        Held::Few(free) => Form::Thunk { dest, free },
        Held::Many(free) => Form::LongThunk { dest, free },
    }
}

// Returns the form of a command, with a copy of its operands.
fn packed_form(alloc: Global, command: &Command) -> Result<Form, NoMemory>
    ensures { IfOk result (λ form. command_of form ≡ command.now) }
{
    convert!(command: Command => Form {
        Command::Con { dest, tag, fields } => {
            let fields = operands_of(alloc, fields.items())?;
            Ok(con_form(*dest, *tag, fields))
        }
        Command::Rec { dest, fields } => {
            let fields = operands_of(alloc, fields.items())?;
            Ok(rec_form(*dest, fields))
        }
        Command::Thunk { dest, free } => {
            let free = operands_of(alloc, free.items())?;
            Ok(thunk_form(*dest, free))
        }
    })
}

// Returns the command that a form represents, with a copy of its operands.
fn command_in(alloc: Global, form: &Form) -> Result<Command, NoMemory>
    ensures { IfOk result (λ command. command ≡ command_of form.now) }
{
    convert!(form: Form => Command {
        Form::Con { dest, tag, fields } => {
            let fields = list_of(alloc, fields.items())?;
            Ok(Command::Con { dest: *dest, tag: *tag, fields })
        }
        Form::LongCon { dest, tag, fields } => {
            let fields = list_of(alloc, fields.items())?;
            Ok(Command::Con { dest: *dest, tag: *tag, fields })
        }
        Form::Rec { dest, fields } => {
            let fields = list_of(alloc, fields.items())?;
            Ok(Command::Rec { dest: *dest, fields })
        }
        Form::LongRec { dest, fields } => {
            let fields = list_of(alloc, fields.items())?;
            Ok(Command::Rec { dest: *dest, fields })
        }
        Form::Thunk { dest, free } => {
            let free = list_of(alloc, free.items())?;
            Ok(Command::Thunk { dest: *dest, free })
        }
        Form::LongThunk { dest, free } => {
            let free = list_of(alloc, free.items())?;
            Ok(Command::Thunk { dest: *dest, free })
        }
    })
}

impl PackedCommand {
    /// Makes the command `Con` of operands, which makes a constructor. Takes no memory.
    #[inline]
    pub fn con_of(dest: u8, tag: u8, fields: Operands) -> Self
        ensures { result ≡ Con dest tag fields }
    {
        PackedCommand {
            form: con_form(dest, tag, fields),
        }
    }

    /// Makes the command `Rec` of operands, which makes an array of given values. Takes no memory.
    #[inline]
    pub fn rec_of(dest: u8, fields: Operands) -> Self
        ensures { result ≡ Rec dest fields }
    {
        PackedCommand {
            form: rec_form(dest, fields),
        }
    }

    /// Makes the command `Thunk` of operands, which makes a thunk without a result. Takes no memory.
    #[inline]
    pub fn thunk_of(dest: u8, free: Operands) -> Self
        ensures { result ≡ Thunk dest free }
    {
        PackedCommand {
            form: thunk_form(dest, free),
        }
    }

    /// Returns a command in packed form. Takes memory only for a `Con`, `Rec` or `Thunk`, if the number
    /// of operands isn't two.
    pub fn pack(alloc: Global, command: &Command) -> Result<Self, NoMemory>
        ensures { IfOk result (λ packed. packed ≡ command.now) }
    {
        Ok(PackedCommand {
            form: packed_form(alloc, command)?,
        })
    }

    /// Returns the command, with its operands in a list. Takes memory only for the operands of a `Con`, `Rec` or `Thunk`.
    pub fn unpack(&self, alloc: Global) -> Result<Command, NoMemory>
        ensures { IfOk result (λ command. command ≡ self.now) }
    {
        command_in(alloc, &self.form)
    }

    /// Returns the command's form, on which a caller can match to distinguish commands. Takes no memory, and constant time.
    #[inline]
    pub fn form(&self) -> &Form
        ensures { self.now ≡ command_of result.now }
    {
        &self.form
    }

    /// Returns the number of words of the object that the command makes: a header, a name, and a word for each part. The
    /// number is 0 exactly if the command makes no object. Takes no memory, and constant time.
    pub fn words_made(&self) -> usize
        ensures words { result ≡ words_made self.now }
        ensures making { 0 < result → IsMaking self.now }
    {
        self.form.words_made()
    }
}
