//! The operands of one command: a few in the command itself, more in a vector.
//!
//! Nearly every constructor and thunk of a script has at most six operands. Six operands of two bytes each and their number
//! take thirteen bytes and may lie at any address. So they fill a command of sixteen bytes behind its kind, its register and
//! its tag. The pointer to a vector takes eight bytes, at an address that eight divides, and fits there too. Easy to get
//! wrong: the memory in which operands lie is no part of their value. So a vector may have a few operands too, and contracts
//! don't distinguish these from operands that lie in the command.
ghost use Rattle.std.specs.Prelude.{◌≡◌, ◌<◌, ◌≤◌, [], ◌∷◌, ◌++◌, length, map, All, IsTrue, IsFalse, IfOk, OnOk, OnErr};
ghost use Rattle.nmgc_commands.specs.Operands.{held_operands, HasRoom};
ghost use Rattle.nmgc_world_spec.specs.World.{IsOperandBelow};
ghost use Rattle.nmgc_world_spec.specs.declared.command.Operand.TheVariants as operand;

use crate::registers::Register;
use nmgc_limits::REGISTERS;
use nmgc_lists::NoMemory;
use nmgc_world_spec::Operand;
use std::alloc::Global;
use std::marker::Model;

/// The number of operands that lie in a command itself.
pub const FEW_OPERANDS: usize = 6;

/// At most `FEW_OPERANDS` operands in order.
#[derive(Drop)]
pub struct FixedOperands {
    count: u8,
    places: [Operand; FEW_OPERANDS],
}

impl Model for FixedOperands {
    ghost use Rattle.std.specs.Prelude.{List, ◌≡◌, ◌≤◌, length, take};
    ghost use Rattle.nmgc_world_spec.specs.declared.command.Operand.{Operand};
    ghost use Rattle.nmgc_commands.specs.declared.operands.TheConstants.{FEW_OPERANDS};

    ghost Value = { List Operand };

    ghost view = { λ f. take f.count f.places };

    ghost invariant = { λ f. (f.count ≤ FEW_OPERANDS) × (length f.places ≡ FEW_OPERANDS) };
}

impl FixedOperands {
    // Makes a list without operands.
    fn new() -> Self
        ensures { result ≡ [] }
    {
        FixedOperands {
            count: 0,
            places: [Operand::Shared; FEW_OPERANDS],
        }
    }

    /// Makes a list of two operands. Takes no memory.
    pub fn pair(first: Operand, second: Operand) -> Self
        ensures { result ≡ first ∷ second ∷ [] }
    {
        let none = Operand::Shared;
        FixedOperands {
            count: 2,
            places: [first, second, none, none, none, none],
        }
    }

    // Makes a list of the values of registers, two of them without a loop. Requires at most `FEW_OPERANDS` of them.
    pub(crate) fn of_registers(registers: &[Register]) -> Self
        requires { length registers.now ≤ FEW_OPERANDS }
        ensures values { result ≡ map operand.Register registers.now }
        ensures exist { All (IsOperandBelow REGISTERS) result }
    {
        if let [first, second] = registers {
            return FixedOperands::pair(first.operand(), second.operand());
        }
        let mut operands = FixedOperands::new();
        for register in registers {
            operands.push(register.operand());
        }
        operands
    }

    // Whether there is no room for one more operand.
    fn is_full(&self) -> bool
        ensures full { IsTrue result → length self.now ≡ FEW_OPERANDS }
        ensures room { IsFalse result → length self.now < FEW_OPERANDS }
    {
        self.count as usize == FEW_OPERANDS
    }

    // Adds an operand at the end. Requires that there is room for it.
    fn push(&mut self, operand: Operand)
        requires { length self.old < FEW_OPERANDS }
        ensures { self.new ≡ self.old ++ operand ∷ [] }
    {
        self.places[self.count as usize] = operand;
        self.count += 1;
    }

    /// Returns the operands in order. Takes no memory, and constant time.
    #[inline]
    pub fn items(&self) -> &[Operand]
        ensures { result.now ≡ self.now }
    {
        &self.places[..self.count as usize]
    }
}

/// Any number of operands in order, in a vector with memory of its own.
#[derive(Drop)]
pub struct ManyOperands {
    vector: Box<Vec<Operand>>,
}

impl Model for ManyOperands {
    ghost use Rattle.std.specs.Prelude.{List};
    ghost use Rattle.nmgc_world_spec.specs.declared.command.Operand.{Operand};

    ghost Value = { List Operand };

    ghost view = { λ m. m.vector.value.items };
}

impl ManyOperands {
    // Makes a list of a vector's operands. Takes memory for one value of type `Vec`.
    fn from_vec(alloc: Global, items: Vec<Operand>) -> Result<Self, NoMemory>
        ensures { IfOk result (λ many. many ≡ items.items) }
    {
        Ok(ManyOperands {
            vector: Box::new(alloc, items)?,
        })
    }

    // Adds an operand at the end. After `NoMemory` the operands are unchanged.
    fn push(&mut self, operand: Operand) -> Result<(), NoMemory>
        ensures ok { OnOk result (self.new ≡ self.old ++ operand ∷ []) }
        ensures err { OnErr result (self.new ≡ self.old) }
    {
        self.vector.as_mut().push(operand)?;
        Ok(())
    }

    /// Returns the operands in order. Takes no memory, and constant time.
    #[inline]
    pub fn items(&self) -> &[Operand]
        ensures { result.now ≡ self.now }
    {
        self.vector.as_ref().as_slice()
    }
}

/// The operands of a command, in the command or in a vector.
#[derive(Drop)]
pub(crate) enum Held {
    Few(FixedOperands),
    Many(ManyOperands),
}

impl Held {
    // Returns the operands in order.
    fn items(&self) -> &[Operand]
        ensures { result.now ≡ held_operands self.now }
    {
        match self {
            Held::Few(few) => few.items(),
            Held::Many(many) => many.items(),
        }
    }

    // Whether the operands lie in the command, and there is no room for one more.
    fn is_full(&self) -> bool
        ensures full { IsTrue result → HasRoom self.now → ⊥ }
        ensures room { IsFalse result → HasRoom self.now }
    {
        match self {
            Held::Few(few) => few.is_full(),
            Held::Many(_) => false,
        }
    }

    // Moves all operands into a vector, and adds an operand at the end. After `NoMemory` the operands are unchanged.
    fn spill(&mut self, alloc: Global, operand: Operand) -> Result<(), NoMemory>
        ensures ok { OnOk result (held_operands self.new ≡ held_operands self.old ++ operand ∷ []) }
        ensures err { OnErr result (held_operands self.new ≡ held_operands self.old) }
    {
        let mut items = Vec::with_capacity(alloc, 4 * FEW_OPERANDS)?;
        items.extend_from_slice(self.items())?;
        items.push(operand)?;
        let many = ManyOperands::from_vec(alloc, items)?;
        *self = Held::Many(many);
        Ok(())
    }

    // Adds an operand at the end. Requires room for it (`HasRoom`). After `NoMemory` the operands are unchanged.
    fn add(&mut self, operand: Operand) -> Result<(), NoMemory>
        requires { HasRoom self.old }
        ensures ok { OnOk result (held_operands self.new ≡ held_operands self.old ++ operand ∷ []) }
        ensures err { OnErr result (held_operands self.new ≡ held_operands self.old) }
    {
        match self {
            Held::Few(few) => {
                few.push(operand);
                Ok(())
            }
            Held::Many(many) => many.push(operand),
        }
    }
}

/// The operands of a command that is being made. Contracts see the list of them.
#[derive(Drop)]
pub struct Operands {
    held: Held,
}

impl Model for Operands {
    ghost use Rattle.std.specs.Prelude.{List};
    ghost use Rattle.nmgc_world_spec.specs.declared.command.Operand.{Operand};
    ghost use Rattle.nmgc_commands.specs.Operands.{held_operands};

    ghost Value = { List Operand };

    ghost view = { λ o. held_operands o.held };
}

impl Operands {
    /// Makes a list without operands. Takes no memory.
    pub fn new() -> Self
        ensures { result ≡ [] }
    {
        Operands {
            held: Held::Few(FixedOperands::new()),
        }
    }

    /// Makes a list of two operands. Takes no memory.
    pub fn pair(first: Operand, second: Operand) -> Self
        ensures { result ≡ first ∷ second ∷ [] }
    {
        Operands {
            held: Held::Few(FixedOperands::pair(first, second)),
        }
    }

    // Makes a list of a vector's operands. Takes memory for one value of type `Vec`.
    pub(crate) fn from_vec(alloc: Global, items: Vec<Operand>) -> Result<Self, NoMemory>
        ensures { IfOk result (λ operands. operands ≡ items.items) }
    {
        Ok(Operands {
            held: Held::Many(ManyOperands::from_vec(alloc, items)?),
        })
    }

    /// Adds an operand at the end. Takes no memory if the command has room. After `NoMemory` the operands are unchanged.
    pub fn push(&mut self, alloc: Global, operand: Operand) -> Result<(), NoMemory>
        ensures ok { OnOk result (self.new ≡ self.old ++ operand ∷ []) }
        ensures err { OnErr result (self.new ≡ self.old) }
    {
        if self.held.is_full() {
            return self.held.spill(alloc, operand);
        }
        self.held.add(operand)
    }

    // Returns the operands as they lie in memory: in the command itself or in a vector.
    pub(crate) fn into_held(self) -> Held
        ensures { self ≡ held_operands result }
    {
        let Operands { held } = self;
        held
    }
}
