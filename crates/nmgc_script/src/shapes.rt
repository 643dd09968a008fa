//! Shapes: the tokens after a command's name, one function for each shape.
//!
//! `D` is a register that is written, `V` an operand, `N` a number, `I` an index and `COUNT` a count. The functions are
//! methods of `Version`, since the version says which registers a command can name. Each function checks the number of tokens
//! first, and then each token from left to right. Easy to get wrong: with one token too many or too few, no token is checked.
ghost use Rattle.std.specs.Prelude.{map};
ghost use Rattle.nmgc_script.specs.Reading.{Gives, register_at, operand_at, long_at, short_at, one_at, two_at, three_at, four_at, con_at, values_at};

use crate::version::Version;
use crate::{Cause, LineFault};
use nmgc_commands::Operands;
use nmgc_world_spec::Operand;
use std::alloc::Global;

impl Version {
    /// Reads a token of the shape `D`, and returns the register to be written. Takes no memory.
    #[tactic(auto, unfolding(crate::specs::Reading::one_at))]
    pub fn dest(self, tokens: &[&[u8]]) -> Result<u8, LineFault>
        ensures { Gives result (one_at (register_at self) (map (λ w. w.now) tokens.now)) }
    {
        let [dest] = tokens else {
            return Err(LineFault::Bad(Cause::Arity));
        };
        self.register(dest)
    }

    /// Reads a token of the shape `V`, and returns the operand. Takes no memory.
    #[tactic(auto, unfolding(crate::specs::Reading::one_at))]
    pub fn value(self, tokens: &[&[u8]]) -> Result<Operand, LineFault>
        ensures { Gives result (one_at (operand_at self) (map (λ w. w.now) tokens.now)) }
    {
        let [value] = tokens else {
            return Err(LineFault::Bad(Cause::Arity));
        };
        self.operand(value)
    }

    /// Reads tokens of the shape `D N`, and returns the register to be written and the number, below 2^62. Takes no memory.
    #[tactic(auto, unfolding(crate::specs::Reading::two_at))]
    pub fn dest_number(self, tokens: &[&[u8]]) -> Result<(u8, u64), LineFault>
        ensures { Gives result (two_at (register_at self) long_at (map (λ w. w.now) tokens.now)) }
    {
        let [dest, number] = tokens else {
            return Err(LineFault::Bad(Cause::Arity));
        };
        Ok((self.register(dest)?, self.long_number(number)?))
    }

    /// Reads tokens of the shape `D COUNT`, and returns the register to be written and the count. Takes no memory.
    #[tactic(auto, unfolding(crate::specs::Reading::two_at))]
    pub fn dest_count(self, tokens: &[&[u8]]) -> Result<(u8, u32), LineFault>
        ensures { Gives result (two_at (register_at self) short_at (map (λ w. w.now) tokens.now)) }
    {
        let [dest, count] = tokens else {
            return Err(LineFault::Bad(Cause::Arity));
        };
        Ok((self.register(dest)?, self.short_number(count)?))
    }

    /// Reads tokens of the shape `D V`, and returns the register to be written and the operand. Takes no memory.
    #[tactic(auto, unfolding(crate::specs::Reading::two_at))]
    pub fn dest_value(self, tokens: &[&[u8]]) -> Result<(u8, Operand), LineFault>
        ensures { Gives result (two_at (register_at self) (operand_at self) (map (λ w. w.now) tokens.now)) }
    {
        let [dest, value] = tokens else {
            return Err(LineFault::Bad(Cause::Arity));
        };
        Ok((self.register(dest)?, self.operand(value)?))
    }

    /// Reads tokens of the shape `V V`, and returns the two operands. Takes no memory.
    #[tactic(auto, unfolding(crate::specs::Reading::two_at))]
    pub fn values(self, tokens: &[&[u8]]) -> Result<(Operand, Operand), LineFault>
        ensures { Gives result (two_at (operand_at self) (operand_at self) (map (λ w. w.now) tokens.now)) }
    {
        let [left, right] = tokens else {
            return Err(LineFault::Bad(Cause::Arity));
        };
        Ok((self.operand(left)?, self.operand(right)?))
    }

    /// Reads tokens of the shape `V I`, with which longer shapes begin. Returns the operand and the index. Takes no memory.
    #[tactic(auto, unfolding(crate::specs::Reading::two_at))]
    fn value_index(self, tokens: &[&[u8]]) -> Result<(Operand, u32), LineFault>
        ensures { Gives result (two_at (operand_at self) short_at (map (λ w. w.now) tokens.now)) }
    {
        let [value, index] = tokens else {
            return Err(LineFault::Bad(Cause::Arity));
        };
        Ok((self.operand(value)?, self.short_number(index)?))
    }

    /// Reads tokens of the shape `D COUNT V`. Returns the register to be written, the count and the operand. Takes no memory.
    #[tactic(auto, unfolding(crate::specs::Reading::three_at))]
    pub fn dest_count_value(self, tokens: &[&[u8]]) -> Result<(u8, u32, Operand), LineFault>
        ensures { Gives result (three_at (register_at self) short_at (operand_at self) (map (λ w. w.now) tokens.now)) }
    {
        let [dest, count, value] = tokens else {
            return Err(LineFault::Bad(Cause::Arity));
        };
        Ok((
            self.register(dest)?,
            self.short_number(count)?,
            self.operand(value)?,
        ))
    }

    /// Reads tokens of the shape `D V I`. Returns the register to be written, the operand and the index. Takes no memory.
    #[tactic(auto, unfolding(crate::specs::Reading::three_at))]
    pub fn dest_value_index(self, tokens: &[&[u8]]) -> Result<(u8, Operand, u32), LineFault>
        ensures { Gives result (three_at (register_at self) (operand_at self) short_at (map (λ w. w.now) tokens.now)) }
    {
        let [dest, value, index] = tokens else {
            return Err(LineFault::Bad(Cause::Arity));
        };
        Ok((
            self.register(dest)?,
            self.operand(value)?,
            self.short_number(index)?,
        ))
    }

    /// Reads tokens of the shape `V I V`. Returns the first operand, the index and the second operand. Takes no memory.
    #[tactic(auto, unfolding(crate::specs::Reading::three_at))]
    pub fn value_index_value(self, tokens: &[&[u8]]) -> Result<(Operand, u32, Operand), LineFault>
        ensures { Gives result (three_at (operand_at self) short_at (operand_at self) (map (λ w. w.now) tokens.now)) }
    {
        let [object, index, value] = tokens else {
            return Err(LineFault::Bad(Cause::Arity));
        };
        Ok((
            self.operand(object)?,
            self.short_number(index)?,
            self.operand(value)?,
        ))
    }

    /// Reads tokens of the shape `V I V V`. Returns the first operand, the index and the other two operands. Takes no memory.
    #[tactic(auto, unfolding(crate::specs::Reading::four_at))]
    pub fn value_index_values(
        self,
        tokens: &[&[u8]],
    ) -> Result<(Operand, u32, Operand, Operand), LineFault>
        ensures { Gives result (four_at (operand_at self) short_at (operand_at self) (operand_at self) (map (λ w. w.now) tokens.now)) }
    {
        let [object, index, left, right] = tokens else {
            return Err(LineFault::Bad(Cause::Arity));
        };
        let (object, index) = self.value_index(&[object, index])?;
        let (left, right) = self.values(&[left, right])?;
        Ok((object, index, left, right))
    }

    /// Reads tokens of the shape `D V V V`, and returns the register to be written and the three operands. Takes no memory.
    #[tactic(auto, unfolding(crate::specs::Reading::four_at))]
    pub fn dest_values(self, tokens: &[&[u8]]) -> Result<(u8, Operand, Operand, Operand), LineFault>
        ensures { Gives result (four_at (register_at self) (operand_at self) (operand_at self) (operand_at self) (map (λ w. w.now) tokens.now)) }
    {
        let [dest, first, second, third] = tokens else {
            return Err(LineFault::Bad(Cause::Arity));
        };
        let (dest, first) = self.dest_value(&[dest, first])?;
        let (second, third) = self.values(&[second, third])?;
        Ok((dest, first, second, third))
    }

    /// Reads tokens of the shape `D TAG V V ..`. Returns the register to be written, the tag, and any number of operands.
    #[tactic(auto, unfolding(crate::specs::Reading::con_at))]
    pub fn dest_tag_values(
        self,
        alloc: Global,
        tokens: &[&[u8]],
    ) -> Result<(u8, u8, Operands), LineFault>
        ensures { Gives result (con_at self (map (λ w. w.now) tokens.now)) }
    {
        let [dest, tag, values @ ..] = tokens else {
            return Err(LineFault::Bad(Cause::Arity));
        };
        Ok((
            self.register(dest)?,
            self.tag(tag)?,
            self.operands(alloc, values)?,
        ))
    }

    /// Reads tokens of the shape `D V V ..`, with at most `most` `V`. Returns the register to be written, and the operands.
    #[tactic(auto, unfolding(crate::specs::Reading::values_at))]
    pub fn dest_values_up_to(
        self,
        alloc: Global,
        most: usize,
        tokens: &[&[u8]],
    ) -> Result<(u8, Operands), LineFault>
        ensures { Gives result (values_at self most (map (λ w. w.now) tokens.now)) }
    {
        let [dest, values @ ..] = tokens else {
            return Err(LineFault::Bad(Cause::Arity));
        };
        if values.len() > most {
            return Err(LineFault::Bad(Cause::Arity));
        }
        Ok((self.register(dest)?, self.operands(alloc, values)?))
    }
}
