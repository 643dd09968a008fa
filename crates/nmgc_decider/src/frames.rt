//! Frames: slots of an array on the heap, for programs with more live references than registers.
//!
//! A frame is an array in a register that holds nothing else. A value lies in one of its slots, and goes through a register to
//! be used. `load` and `store` name a slot; `push` and `pop` use slots 0, 1 and so on. Each gives one command.
//!
//! Easy to get wrong: a slot keeps its reference until another value is stored, after `pop` too. So the object lives on.
ghost use Rattle.std.specs.Prelude.{ℕ, ◌≡◌, ◌<◌, ◌≤◌, ◌+◌, ◌↔◌, IfNone, IfSome, IsSome};
ghost use Rattle.nmgc_commands.specs.Fitting.{FitsAny};
ghost use Rattle.nmgc_decider.specs.Frames.{Gives};
ghost use Rattle.nmgc_world_spec.specs.World.{Fits};
ghost use Rattle.nmgc_world_spec.specs.declared.command.Command.TheVariants as made;
ghost use Rattle.nmgc_world_spec.specs.declared.command.Operand.TheVariants as operand;

use nmgc_commands::{PackedCommand, Register};

/// An array as further registers.
#[derive(Clone, Copy, Debug, PartialEq, Eq)]
pub struct Frame {
    /// The register that holds the array.
    pub register: Register,
    /// The number of slots.
    pub slots: u16,
    /// The number of values that were pushed and not popped.
    pub depth: u16,
}

impl Frame {
    /// Makes the frame of an array with `slots` fields in this register. `make` gives the command for the array. Takes no memory.
    pub fn new(register: Register, slots: u16) -> Self
        ensures register { result.register ≡ register }
        ensures slots { result.slots ≡ slots }
        ensures depth { result.depth ≡ 0 }
    {
        Frame {
            register,
            slots,
            depth: 0,
        }
    }

    /// Returns the command that makes the array, with the value of a register in each slot. Its words are two more than its slots.
    pub fn make(&self, value: Register) -> PackedCommand
        ensures is { result ≡ made.Arr self.now.register self.now.slots (operand.Register value) }
        ensures fits { (words : ℕ) → 2 + self.now.slots ≤ words → Fits words result }
    {
        PackedCommand::arr(self.register, self.slots, value)
    }

    /// Returns the command that loads a slot into a register, or `None` if there is no such slot.
    pub fn load(&self, dest: Register, slot: u16) -> Option<PackedCommand>
        ensures some { IfSome result (Gives (made.Get dest (operand.Register self.now.register) slot)) }
        ensures there { IsSome result ↔ (slot < self.now.slots) }
    {
        if slot >= self.slots {
            return None;
        }
        Some(PackedCommand::get(dest, self.register, slot))
    }

    /// Returns the command that stores the value of a register into a slot, or `None` if there is no such slot.
    pub fn store(&self, slot: u16, value: Register) -> Option<PackedCommand>
        ensures some { IfSome result (Gives (made.Set (operand.Register self.now.register) slot (operand.Register value))) }
        ensures there { IsSome result ↔ (slot < self.now.slots) }
    {
        if slot >= self.slots {
            return None;
        }
        Some(PackedCommand::set(self.register, slot, value))
    }

    /// Returns the command that stores the value of a register above all that were pushed. If the frame is full, returns `None`
    /// and is unchanged.
    pub fn push(&mut self, value: Register) -> Option<PackedCommand>
        ensures some { IfSome result (Gives (made.Set (operand.Register self.old.register) self.old.depth (operand.Register value))) }
        ensures deeper { IfSome result (λ _. self.new ≡ record self.old { depth = self.old.depth + 1 }) }
        ensures none { IfNone result (self.old.slots ≤ self.old.depth) }
        ensures full { IfNone result (self.new ≡ self.old) }
    {
        let command = self.store(self.depth, value)?;
        self.depth += 1;
        Some(command)
    }

    /// Returns the command that loads the value that was pushed last into a register. If there is none, returns `None` and is
    /// unchanged.
    pub fn pop(&mut self, dest: Register) -> Option<PackedCommand>
        ensures some { IfSome result (Gives (made.Get dest (operand.Register self.old.register) self.new.depth)) }
        ensures lower { IfSome result (λ _. self.old ≡ record self.new { depth = self.new.depth + 1 }) }
        ensures none { IfNone result (self.old.depth ≡ 0) }
        ensures empty { IfNone result (self.new ≡ self.old) }
    {
        if self.depth == 0 {
            return None;
        }
        self.depth -= 1;
        Some(PackedCommand::get(dest, self.register, self.depth))
    }
}
