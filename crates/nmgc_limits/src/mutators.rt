//! The numbers of mutators, registers and shared slots.
//!
//! Contracts, definitions and proofs of all crates use these numbers by their names. Only the law `constants_are_these` gives
//! their values. So to change a number, one line here and one of that law are enough, if `MAKERS` stays at most
//! `SHARED_MAKER`.

ghost use Rattle.std.specs.Prelude.{◌≡◌};

/// The number of registers of a mutator.
pub const REGISTERS: u8 = 64;

/// The greatest number of mutators. A mutator's number is below it.
pub const MAKERS: u8 = 32;

/// The maker in the name of the shared array. No mutator has this number, since all mutators' numbers are below `MAKERS`.
pub const SHARED_MAKER: u8 = 32;

/// The number of slots of the shared array.
pub const SHARED_SLOTS: u8 = 16;

/// Proves the value of each constant: 64 registers, at most 32 mutators, 32 as the maker of the shared array g, and 16 slots
/// of g. Contracts use the constants by name. The function does nothing: its contract is the law.
pub fn constants_are_these()
    ensures registers { REGISTERS ≡ 64 }
    ensures makers { MAKERS ≡ 32 }
    ensures shared_maker { SHARED_MAKER ≡ 32 }
    ensures shared_slots { SHARED_SLOTS ≡ 16 }
{}
