//! Typed views: the shape of the constructor in a register, as a type.
//!
//! A program writes down once how it uses a register: as a `Shape` with the constructor's tag and its number of fields. `Obj` then
//! gives the commands of such an object. A wrong number of fields, or a field that it lacks, is refused before the program runs.
//!
//! Easy to get wrong: a view is the program's word. The clause on replies speaks of registers that do hold such a constructor.
ghost use Rattle.std.specs.Prelude.{ℕ, ◌≡◌, ◌≢◌, ◌<◌, ◌≤◌, length, map};
ghost use Rattle.nmgc_limits.specs.declared.mutators.TheConstants.{SHARED_MAKER};
ghost use Rattle.nmgc_commands.specs.Fitting.{FitsAny};
ghost use Rattle.nmgc_decider.specs.Shapes.{IsGiven, IsShaped};
ghost use Rattle.nmgc_world_spec.specs.World.{World, state_of, step};
ghost use Rattle.nmgc_world_spec.specs.declared.command.Command.TheVariants as made;
ghost use Rattle.nmgc_world_spec.specs.declared.command.Operand.TheVariants as operand;

use nmgc_commands::{FEW_OPERANDS, PackedCommand, Register};
use std::marker::PhantomData;

/// A shape of constructors with at most `FEW_OPERANDS` fields.
pub trait Shape: Copy {
    /// The tag.
    const TAG: u8;

    ghost TAG: { ℕ };

    /// The number of fields.
    const FIELDS: u16;

    ghost FIELDS: { ℕ };
}

/// A register that holds a constructor of a shape.
#[derive(Clone, Copy, Debug, PartialEq, Eq)]
pub struct Obj<S> {
    /// The register.
    pub register: Register,
    shape: PhantomData<S>,
}

impl<S: Shape> Obj<S> {
    /// Returns the view of this register. Takes no memory.
    pub fn at(register: Register) -> Self
        ensures { result.register ≡ register }
    {
        Obj {
            register,
            shape: PhantomData,
        }
    }

    /// Returns the command that makes the constructor, with the values of registers as its fields. Requires a register for
    /// each field of the shape. After the command the register holds a constructor of this shape.
    pub fn make(self, fields: &[Register]) -> PackedCommand
        requires fields { length fields.now ≡ S.FIELDS }
        requires few { length fields.now ≤ FEW_OPERANDS }
        ensures is { result ≡ made.Con self.register S.TAG (map operand.Register fields.now) }
        ensures fits { FitsAny result }
        ensures shaped { (w : World) → (m : ℕ) → m < length w.mutators → m ≢ SHARED_MAKER → self.register < length (state_of w m).registers →
            IsShaped S.TAG S.FIELDS (step w m result).0 m self.register }
    {
        PackedCommand::con(self.register, S::TAG, fields)
    }

    /// Returns the command that reads a field into a register. Requires that the shape has the field. It isn't refused if the
    /// view's register holds a constructor of this shape.
    pub fn get(self, dest: Register, field: u16) -> PackedCommand
        requires { field < S.FIELDS }
        ensures is { result ≡ made.Get dest (operand.Register self.register) field }
        ensures fits { FitsAny result }
        ensures given { (w : World) → (m : ℕ) → IsShaped S.TAG S.FIELDS w m self.register → IsGiven (step w m result).1 }
    {
        PackedCommand::get(dest, self.register, field)
    }
}
