//! Single tokens: numbers, registers and operands.
//!
//! A number has no sign and no leading zero, so each value has one token. The version determines the registers, so the
//! functions for tokens of a command are methods of `Version`. Easy to get wrong: the empty token, which two spaces in a row
//! make, is none of these.
ghost use Rattle.nmgc_script.specs.Reading.{Gives, number_at, register_at, operand_at, long_at, short_at, tag_at, each_at};
ghost use Rattle.std.specs.Prelude.{[], ◌∷◌, ◌≤◌, map, IfOk};

use crate::version::Version;
use crate::{Cause, LineFault};
use nmgc_commands::Operands;
use nmgc_io::read_number;
use nmgc_world_spec::Operand;
use std::alloc::Global;

/// The greatest value of a number.
const MAX_NUMBER: u64 = 4611686018427387903;

/// The greatest tag of a constructor.
const MAX_TAG: u64 = 255;

/// The greatest index of a field, and the greatest number of parts of an object.
const MAX_INDEX: u64 = 65535;

/// Returns the number of at most `limit` that a token spells, or a fault with the cause `Operand`. Takes no memory.
#[tactic(auto, unfolding(crate::specs::Reading::number_at))]
pub fn number(word: &[u8], limit: u64) -> Result<u64, LineFault>
    ensures gives { Gives result (number_at limit word.now) }
    ensures within { IfOk result (λ n. n ≤ limit) }
{
    match read_number(word, limit) {
        Some(number) => Ok(number),
        None => Err(LineFault::Bad(Cause::Operand)),
    }
}

/// Returns the number of at most `limit` that a token spells, in 32 bits. Takes no memory.
pub fn small_number(word: &[u8], limit: u32) -> Result<u32, LineFault>
    ensures gives { Gives result (number_at limit word.now) }
    ensures within { IfOk result (λ n. n ≤ limit) }
{
    Ok(number(word, limit as u64)? as u32)
}

impl Version {
    /// Returns the number that a token spells as a value, below 2^62 in each version. Takes no memory.
    pub fn long_number(self, word: &[u8]) -> Result<u64, LineFault>
        ensures { Gives result (long_at word.now) }
    {
        number(word, MAX_NUMBER)
    }

    /// Returns the index or count that a token spells, at most 65,535 in each version. Takes no memory.
    pub fn short_number(self, word: &[u8]) -> Result<u32, LineFault>
        ensures { Gives result (short_at word.now) }
    {
        Ok(number(word, MAX_INDEX)? as u32)
    }

    /// Returns the tag that a token spells for a constructor, at most 255 in each version. Takes no memory.
    pub fn tag(self, word: &[u8]) -> Result<u8, LineFault>
        ensures { Gives result (tag_at word.now) }
    {
        Ok(number(word, MAX_TAG)? as u8)
    }

    /// Returns the number of the register that a token spells, if the version has that register. Takes no memory.
    #[tactic(auto, unfolding(crate::specs::Reading::register_at))]
    pub fn register(self, word: &[u8]) -> Result<u8, LineFault>
        ensures { Gives result (register_at self word.now) }
    {
        match word {
            [b'r', digits @ ..] => Ok(
                number(digits, self.registers.saturating_sub(1) as u64)? as u8,
            ),
            _ => Err(LineFault::Bad(Cause::Operand)),
        }
    }

    /// Returns the operand that a token spells: `g`, or a register of the version. Takes no memory.
    #[tactic(auto, unfolding(crate::specs::Reading::operand_at))]
    pub fn operand(self, word: &[u8]) -> Result<Operand, LineFault>
        ensures { Gives result (operand_at self word.now) }
    {
        if word == b"g".as_slice() {
            return Ok(Operand::Shared);
        }
        Ok(Operand::Register(self.register(word)?))
    }

    // Returns the two operands that two tokens spell. Takes no memory.
    fn pair(self, first: &[u8], second: &[u8]) -> Result<Operands, LineFault>
        ensures { Gives result (each_at (operand_at self) (first.now ∷ second.now ∷ [])) }
    {
        let first = self.operand(first)?;
        let second = self.operand(second)?;
        Ok(Operands::pair(first, second))
    }

    /// Returns the operands that tokens spell, one operand for each token. At most six operands take no memory.
    pub fn operands(self, alloc: Global, tokens: &[&[u8]]) -> Result<Operands, LineFault>
        ensures { Gives result (each_at (operand_at self) (map (λ w. w.now) tokens.now)) }
    {
        if let [first, second] = tokens {
            return self.pair(first, second);
        }
        let mut operands = Operands::new();
        for word in tokens {
            operands.push(alloc, self.operand(word)?)?;
        }
        Ok(operands)
    }
}
