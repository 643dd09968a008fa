//! Arrays in registers, as one long array: place P is slot P modulo 4,000 of array P / 4,000.
ghost use Rattle.std.specs.Prelude.{IfSome};
ghost use Rattle.nmgc_limits.specs.Limits.{most_segment_words};
ghost use Rattle.nmgc_world_spec.specs.World.{Fits};

use nmgc_commands::registers::LAST;
use nmgc_commands::{PackedCommand, Register};

/// The slots of an array. An array and its two other words nearly fill a segment.
pub const SLOTS: u32 = 4000;

/// The register that always holds nil.
pub const NIL: Register = LAST;

// The register of the first array.
const FIRST: u32 = 8;

/// Returns the register of the array that has a place, or `None` if there is no such register.
pub fn array_of(place: u32) -> Option<Register> {
    let number = u8::try_from(FIRST + place / SLOTS).ok()?;
    Register::new(number)
}

/// Returns the slot of a place in its array.
pub fn slot_of(place: u32) -> u16 {
    (place % SLOTS) as u16
}

/// Returns the command that makes the array of a place, with nil in each slot, or `None` if it has no register. The clause says
/// only that it fits.
pub fn make(place: u32) -> Option<PackedCommand>
    ensures { IfSome result (Fits most_segment_words) }
{
    Some(PackedCommand::arr(array_of(place)?, SLOTS as u16, NIL))
}
