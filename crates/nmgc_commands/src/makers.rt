//! A maker for each command, from registers and numbers of types that can't be wrong.
//!
//! Each command fits every heap (`FitsAny`). For arrays and stacks a clause gives the words that a segment needs. An object may
//! lack the field: then the reply says so. Operands lie in registers, except in calls whose name
//! ends with `_shared`. `shared` puts the reference to the shared array, g, into a register.
ghost use Rattle.std.specs.Prelude.{ℕ, ◌≡◌, ◌≤◌, ◌+◌, [], ◌∷◌, length, map};
ghost use Rattle.nmgc_commands.specs.Packed.{command_of};
ghost use Rattle.nmgc_commands.specs.Fitting.{FitsAny};
ghost use Rattle.nmgc_world_spec.specs.World.{Fits};
ghost use Rattle.nmgc_world_spec.specs.declared.command.Operand.TheVariants as operand;
ghost use Rattle.nmgc_world_spec.specs.declared.command.Command.TheVariants as made;

use crate::operands::{FEW_OPERANDS, FixedOperands};
use crate::packed::{Form, PackedCommand};
use crate::registers::{Number, Register};
use nmgc_world_spec::Operand;

// Returns the command of a form.
#[inline]
fn of(form: Form) -> PackedCommand
    ensures { result ≡ command_of form }
{
    PackedCommand { form }
}

impl PackedCommand {
    /// Makes `num`, which puts a number into a register.
    #[inline]
    pub fn num(dest: Register, number: Number) -> Self
        ensures is { result ≡ made.Num dest number }
        ensures fits { FitsAny result }
    {
        of(Form::Num {
            dest: dest.number(),
            number: number.value(),
        })
    }

    /// Makes `nil`, which puts nil into a register.
    #[inline]
    pub fn nil(dest: Register) -> Self
        ensures is { result ≡ made.Nil dest }
        ensures fits { FitsAny result }
    {
        of(Form::Nil {
            dest: dest.number(),
        })
    }

    /// Makes `mov`, which copies the value of a register.
    #[inline]
    pub fn mov(dest: Register, value: Register) -> Self
        ensures is { result ≡ made.Mov dest (operand.Register value) }
        ensures fits { FitsAny result }
    {
        of(Form::Mov {
            dest: dest.number(),
            value: value.operand(),
        })
    }

    /// Makes `mov` of the reference to the shared array, g.
    #[inline]
    pub fn shared(dest: Register) -> Self
        ensures is { result ≡ made.Mov dest operand.Shared }
        ensures fits { FitsAny result }
    {
        of(Form::Mov {
            dest: dest.number(),
            value: Operand::Shared,
        })
    }

    /// Makes `con`, which makes a constructor. Requires at most `FEW_OPERANDS` fields.
    #[inline]
    pub fn con(dest: Register, tag: u8, fields: &[Register]) -> Self
        requires { length fields.now ≤ FEW_OPERANDS }
        ensures is { result ≡ made.Con dest tag (map operand.Register fields.now) }
        ensures fits { FitsAny result }
    {
        of(Form::Con {
            dest: dest.number(),
            tag,
            fields: FixedOperands::of_registers(fields),
        })
    }

    /// Makes `con` with two fields, which makes a pair.
    #[inline]
    pub fn pair(dest: Register, tag: u8, first: Register, second: Register) -> Self
        ensures is { result ≡ made.Con dest tag (operand.Register first ∷ operand.Register second ∷ []) }
        ensures fits { FitsAny result }
    {
        of(Form::Con {
            dest: dest.number(),
            tag,
            fields: FixedOperands::pair(first.operand(), second.operand()),
        })
    }

    /// Makes `var`, which makes a variable.
    #[inline]
    pub fn var(dest: Register, value: Register) -> Self
        ensures is { result ≡ made.Var dest (operand.Register value) }
        ensures fits { FitsAny result }
    {
        of(Form::Var {
            dest: dest.number(),
            value: value.operand(),
        })
    }

    /// Makes `arr`, which makes an array of `count` copies of a value. Its words are two more than `count`.
    #[inline]
    pub fn arr(dest: Register, count: u16, value: Register) -> Self
        ensures is { result ≡ made.Arr dest count (operand.Register value) }
        ensures fits { (words : ℕ) → 2 + count ≤ words → Fits words result }
    {
        of(Form::Arr {
            dest: dest.number(),
            count: u32::from(count),
            value: value.operand(),
        })
    }

    /// Makes `rec`, which makes an array of the values of registers. Requires at most `FEW_OPERANDS` of them.
    #[inline]
    pub fn rec(dest: Register, fields: &[Register]) -> Self
        requires { length fields.now ≤ FEW_OPERANDS }
        ensures is { result ≡ made.Rec dest (map operand.Register fields.now) }
        ensures fits { FitsAny result }
    {
        of(Form::Rec {
            dest: dest.number(),
            fields: FixedOperands::of_registers(fields),
        })
    }

    /// Makes `thunk`, which makes a thunk without a result. Requires at most `FEW_OPERANDS` free variables.
    #[inline]
    pub fn thunk(dest: Register, free: &[Register]) -> Self
        requires { length free.now ≤ FEW_OPERANDS }
        ensures is { result ≡ made.Thunk dest (map operand.Register free.now) }
        ensures fits { FitsAny result }
    {
        of(Form::Thunk {
            dest: dest.number(),
            free: FixedOperands::of_registers(free),
        })
    }

    /// Makes `weak`, which makes a weak pointer.
    #[inline]
    pub fn weak(dest: Register, key: Register, value: Register, finaliser: Register) -> Self
        ensures is { result ≡ made.Weak dest (operand.Register key) (operand.Register value) (operand.Register finaliser) }
        ensures fits { FitsAny result }
    {
        of(Form::Weak {
            dest: dest.number(),
            key: key.operand(),
            value: value.operand(),
            finaliser: finaliser.operand(),
        })
    }

    /// Makes `stack`, which makes an empty stack for `size` values. Its words are two more than `size`.
    #[inline]
    pub fn stack(dest: Register, size: u16) -> Self
        ensures is { result ≡ made.Stack dest size }
        ensures fits { (words : ℕ) → 2 + size ≤ words → Fits words result }
    {
        of(Form::Stack {
            dest: dest.number(),
            size: u32::from(size),
        })
    }

    /// Makes `get`, which reads a field of an object.
    #[inline]
    pub fn get(dest: Register, object: Register, index: u16) -> Self
        ensures is { result ≡ made.Get dest (operand.Register object) index }
        ensures fits { FitsAny result }
    {
        of(Form::Get {
            dest: dest.number(),
            object: object.operand(),
            index: u32::from(index),
        })
    }

    /// Makes `get` of a slot of the shared array.
    #[inline]
    pub fn get_shared(dest: Register, index: u16) -> Self
        ensures is { result ≡ made.Get dest operand.Shared index }
        ensures fits { FitsAny result }
    {
        of(Form::Get {
            dest: dest.number(),
            object: Operand::Shared,
            index: u32::from(index),
        })
    }

    /// Makes `tag`, which reads the tag of a constructor as a number.
    #[inline]
    pub fn tag(dest: Register, object: Register) -> Self
        ensures is { result ≡ made.Tag dest (operand.Register object) }
        ensures fits { FitsAny result }
    {
        of(Form::Tag {
            dest: dest.number(),
            object: object.operand(),
        })
    }

    /// Makes `set`, which writes a field of a variable or an array.
    #[inline]
    pub fn set(object: Register, index: u16, value: Register) -> Self
        ensures is { result ≡ made.Set (operand.Register object) index (operand.Register value) }
        ensures fits { FitsAny result }
    {
        of(Form::Set {
            object: object.operand(),
            index: u32::from(index),
            value: value.operand(),
        })
    }

    /// Makes `set` of a slot of the shared array.
    #[inline]
    pub fn set_shared(index: u16, value: Register) -> Self
        ensures is { result ≡ made.Set operand.Shared index (operand.Register value) }
        ensures fits { FitsAny result }
    {
        of(Form::Set {
            object: Operand::Shared,
            index: u32::from(index),
            value: value.operand(),
        })
    }

    /// Makes `cas`, which writes a field if it equals `expected`.
    #[inline]
    pub fn cas(object: Register, index: u16, expected: Register, value: Register) -> Self
        ensures is { result ≡ made.Cas (operand.Register object) index (operand.Register expected) (operand.Register value) }
        ensures fits { FitsAny result }
    {
        of(Form::Cas {
            object: object.operand(),
            index: u32::from(index),
            expected: expected.operand(),
            value: value.operand(),
        })
    }

    /// Makes `cas` of a slot of the shared array.
    #[inline]
    pub fn cas_shared(index: u16, expected: Register, value: Register) -> Self
        ensures is { result ≡ made.Cas operand.Shared index (operand.Register expected) (operand.Register value) }
        ensures fits { FitsAny result }
    {
        of(Form::Cas {
            object: Operand::Shared,
            index: u32::from(index),
            expected: expected.operand(),
            value: value.operand(),
        })
    }

    /// Makes `update`, which gives a thunk its result.
    #[inline]
    pub fn update(object: Register, value: Register) -> Self
        ensures is { result ≡ made.Update (operand.Register object) (operand.Register value) }
        ensures fits { FitsAny result }
    {
        of(Form::Update {
            object: object.operand(),
            value: value.operand(),
        })
    }

    /// Makes `force`, which reads the result of a thunk.
    #[inline]
    pub fn force(dest: Register, object: Register) -> Self
        ensures is { result ≡ made.Force dest (operand.Register object) }
        ensures fits { FitsAny result }
    {
        of(Form::Force {
            dest: dest.number(),
            object: object.operand(),
        })
    }

    /// Makes `push`, which puts a value on a stack.
    #[inline]
    pub fn push(object: Register, value: Register) -> Self
        ensures is { result ≡ made.Push (operand.Register object) (operand.Register value) }
        ensures fits { FitsAny result }
    {
        of(Form::Push {
            object: object.operand(),
            value: value.operand(),
        })
    }

    /// Makes `pop`, which takes the top off a stack.
    #[inline]
    pub fn pop(dest: Register, object: Register) -> Self
        ensures is { result ≡ made.Pop dest (operand.Register object) }
        ensures fits { FitsAny result }
    {
        of(Form::Pop {
            dest: dest.number(),
            object: object.operand(),
        })
    }

    /// Makes `deref`, which reads the value of a weak pointer.
    #[inline]
    pub fn deref(dest: Register, object: Register) -> Self
        ensures is { result ≡ made.Deref dest (operand.Register object) }
        ensures fits { FitsAny result }
    {
        of(Form::Deref {
            dest: dest.number(),
            object: object.operand(),
        })
    }

    /// Makes `finalise`, which kills a weak pointer and reads its finaliser.
    #[inline]
    pub fn finalise(dest: Register, object: Register) -> Self
        ensures is { result ≡ made.Finalise dest (operand.Register object) }
        ensures fits { FitsAny result }
    {
        of(Form::Finalise {
            dest: dest.number(),
            object: object.operand(),
        })
    }

    /// Makes `nextfin`, which takes the first queued finaliser.
    #[inline]
    pub fn nextfin(dest: Register) -> Self
        ensures is { result ≡ made.NextFin dest }
        ensures fits { FitsAny result }
    {
        of(Form::NextFin {
            dest: dest.number(),
        })
    }

    /// Makes `show`, whose reply is the value of a register.
    #[inline]
    pub fn show(value: Register) -> Self
        ensures is { result ≡ made.Show (operand.Register value) }
        ensures fits { FitsAny result }
    {
        of(Form::Show {
            value: value.operand(),
        })
    }

    /// Makes `same`, which compares the values of two registers.
    #[inline]
    pub fn same(left: Register, right: Register) -> Self
        ensures is { result ≡ made.Same (operand.Register left) (operand.Register right) }
        ensures fits { FitsAny result }
    {
        of(Form::Same {
            left: left.operand(),
            right: right.operand(),
        })
    }

    /// Makes `yield`, which ends the slice.
    #[inline]
    pub fn yield_now() -> Self
        ensures is { result ≡ made.Yield }
        ensures fits { FitsAny result }
    {
        of(Form::Yield)
    }

    /// Makes `collect`, which ends the slice and asks for a cycle.
    #[inline]
    pub fn collect() -> Self
        ensures is { result ≡ made.Collect }
        ensures fits { FitsAny result }
    {
        of(Form::Collect)
    }

    /// Makes `full`, which ends the slice and asks for a full cycle.
    #[inline]
    pub fn full() -> Self
        ensures is { result ≡ made.Full }
        ensures fits { FitsAny result }
    {
        of(Form::Full)
    }
}
