//! A check that the registers of a command exist.
//!
//! A script never asks for a register that doesn't exist. A caller that gets commands from elsewhere has to check them.
ghost use Rattle.std.specs.Prelude.{◌↔◌, IsTrue, All};
ghost use Rattle.nmgc_world_spec.specs.{Known.HasRegisters, Known.IsOperand, Known.IsRegister};

use crate::{Command, Operand};
use nmgc_limits::REGISTERS;

impl Command {
    /// Returns whether all registers of the command exist. Takes no memory, and constant time for each operand.
    pub fn has_registers(&self) -> bool
        ensures { IsTrue result ↔ HasRegisters self.now }
    {
        match self {
            Command::Num { dest, .. } | Command::Nil { dest } => is_register(*dest),
            Command::Stack { dest, .. } | Command::NextFin { dest } => is_register(*dest),
            Command::Mov { dest, value }
            | Command::Var { dest, value }
            | Command::Arr { dest, value, .. } => is_register(*dest) && is_valid(*value),
            Command::Con { dest, fields, .. } => is_register(*dest) && are_valid(fields.items()),
            Command::Rec { dest, fields } => is_register(*dest) && are_valid(fields.items()),
            Command::Thunk { dest, free } => is_register(*dest) && are_valid(free.items()),
            Command::Weak {
                dest,
                key,
                value,
                finaliser,
            } => {
                is_register(*dest) && is_valid(*key) && is_valid(*value) && is_valid(*finaliser)
            }
            Command::Get { dest, object, .. }
            | Command::Tag { dest, object }
            | Command::Force { dest, object }
            | Command::Pop { dest, object }
            | Command::Deref { dest, object }
            | Command::Finalise { dest, object } => is_register(*dest) && is_valid(*object),
            Command::Cas {
                object,
                index: _,
                expected,
                value,
            } => { is_valid(*object) && is_valid(*expected) && is_valid(*value) }
            Command::Set { object, value, .. }
            | Command::Update { object, value }
            | Command::Push { object, value } => is_valid(*object) && is_valid(*value),
            Command::Show { value } => is_valid(*value),
            Command::Same { left, right } => is_valid(*left) && is_valid(*right),
            Command::Yield | Command::Collect | Command::Full => true,
        }
    }
}

// Whether a register of this number exists.
fn is_register(register: u8) -> bool
    ensures { IsTrue result ↔ IsRegister register }
{
    register < REGISTERS
}

// Whether the operand is a register that exists or the shared array.
fn is_valid(operand: Operand) -> bool
    ensures { IsTrue result ↔ IsOperand operand }
{
    match operand {
        Operand::Register(register) => is_register(register),
        Operand::Shared => true,
    }
}

// Whether each operand is a register that exists or the shared array.
fn are_valid(operands: &[Operand]) -> bool
    ensures { IsTrue result ↔ All IsOperand operands.now }
{
    operands.iter().all(|operand| is_valid(*operand))
}
