//! The registers of a mutator and the numbers that they hold, as types.
//!
//! A `Register` is the number of a register that exists, and a `Number` is one that a register may hold. So a command made of
//! them fits every heap, and its user proves nothing. Contracts see both as numbers. The first registers and the last one are
//! constants.
ghost use Rattle.std.specs.Prelude.{◌≡◌, ◌<◌, ◌≤◌, ◌^◌, IfNone, IfSome};
ghost use Rattle.nmgc_world_spec.specs.World.{IsOperandBelow};
ghost use Rattle.nmgc_world_spec.specs.declared.command.Operand.TheVariants as operand;

use nmgc_limits::{REGISTERS, constants_are_these};
use nmgc_world_spec::Operand;
use std::marker::Model;

/// A register of a mutator.
#[derive(Clone, Copy, Debug, PartialEq, Eq)]
pub struct Register {
    number: u8,
}

impl Model for Register {
    ghost use Rattle.std.specs.Prelude.{ℕ, ◌<◌};
    ghost use Rattle.nmgc_limits.specs.declared.mutators.TheConstants.{REGISTERS};

    ghost Value = { ℕ };

    ghost view = { λ r. r.number };

    ghost invariant = { λ r. r.number < REGISTERS };

    ghost inverse = { λ n. record { number = n } };
}

impl Register {
    /// Returns the register of this number, or `None` if there is no such register. Takes no memory.
    pub fn new(number: u8) -> Option<Self>
        ensures some { IfSome result (λ r. r ≡ number) }
        ensures none { IfNone result (REGISTERS ≤ number) }
    {
        if number < REGISTERS {
            Some(Register { number })
        } else {
            None
        }
    }

    /// Returns the register of this number. Requires that there is such a register. Takes no memory.
    #[inline]
    pub fn of(number: u8) -> Self
        requires { number < REGISTERS }
        ensures { result ≡ number }
    {
        Register { number }
    }

    /// Returns the register's number. Takes no memory.
    #[inline]
    pub fn number(self) -> u8
        ensures same { result ≡ self }
        ensures exists { result < REGISTERS }
    {
        self.number
    }

    // Returns the value of the register as an operand.
    #[inline]
    pub(crate) fn operand(self) -> Operand
        ensures same { result ≡ operand.Register self }
        ensures exists { IsOperandBelow REGISTERS result }
    {
        Operand::Register(self.number)
    }
}

/// A number that a register may hold: less than 2^62.
#[derive(Clone, Copy, Debug, PartialEq, Eq)]
pub struct Number {
    value: u64,
}

impl Model for Number {
    ghost use Rattle.std.specs.Prelude.{ℕ, ◌<◌, ◌^◌};

    ghost Value = { ℕ };

    ghost view = { λ n. n.value };

    ghost invariant = { λ n. n.value < 2 ^ 62 };

    ghost inverse = { λ n. record { value = n } };
}

impl Number {
    /// Returns the number of this value, or `None` if no register may hold it. Takes no memory.
    pub fn new(value: u64) -> Option<Self>
        ensures some { IfSome result (λ n. n ≡ value) }
        ensures none { IfNone result (2 ^ 62 ≤ value) }
    {
        if value < 1 << 62 {
            Some(Number { value })
        } else {
            None
        }
    }

    /// Returns the number of this value. Requires that a register may hold it. Takes no memory.
    #[inline]
    pub fn of(value: u64) -> Self
        requires { value < 2 ^ 62 }
        ensures { result ≡ value }
    {
        Number { value }
    }

    /// Returns the value. Takes no memory.
    #[inline]
    pub fn value(self) -> u64
        ensures same { result ≡ self }
        ensures small { result < 2 ^ 62 }
    {
        self.value
    }
}

/// Register 0.
pub const R0: Register = Register { number: 0 };

/// Register 1.
pub const R1: Register = Register { number: 1 };

/// Register 2.
pub const R2: Register = Register { number: 2 };

/// Register 3.
pub const R3: Register = Register { number: 3 };

/// Register 4.
pub const R4: Register = Register { number: 4 };

/// Register 5.
pub const R5: Register = Register { number: 5 };

/// Register 6.
pub const R6: Register = Register { number: 6 };

/// Register 7.
pub const R7: Register = Register { number: 7 };

/// Register 8.
pub const R8: Register = Register { number: 8 };

/// Register 9.
pub const R9: Register = Register { number: 9 };

/// Register 10.
pub const R10: Register = Register { number: 10 };

/// Register 11.
pub const R11: Register = Register { number: 11 };

/// Register 12.
pub const R12: Register = Register { number: 12 };

/// Register 13.
pub const R13: Register = Register { number: 13 };

/// Register 14.
pub const R14: Register = Register { number: 14 };

/// Register 15.
pub const R15: Register = Register { number: 15 };

/// Register 16.
pub const R16: Register = Register { number: 16 };

/// Register 17.
pub const R17: Register = Register { number: 17 };

/// Register 18.
pub const R18: Register = Register { number: 18 };

/// Register 19.
pub const R19: Register = Register { number: 19 };

/// Register 20.
pub const R20: Register = Register { number: 20 };

/// Register 21.
pub const R21: Register = Register { number: 21 };

/// Register 22.
pub const R22: Register = Register { number: 22 };

/// Register 23.
pub const R23: Register = Register { number: 23 };

/// The last register.
pub const LAST: Register = Register { number: 63 };
