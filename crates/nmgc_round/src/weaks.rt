//! The value of a weak pointer: the steps that are the positions of `deref` and `finalise` in the order.
//!
//! The value of a weak pointer is no strong field, so the marker needn't reach it. A load puts the value into a register. So
//! while marking, that very load owes it. A swap kills the weak pointer. So while marking, that very swap owes the weak
//! pointer, its value and its finaliser. The seat has loaded the finaliser before.
//!
//! Easy to get wrong: the key and the finaliser of a dead weak pointer keep their words, which mean nothing. Only the word of
//! the value shows, at the step itself, whether the weak pointer is alive.
ghost use Rattle.std.specs.Prelude.{◌≡◌, ◌≢◌, ◌+◌, ◌<◌, []};
ghost use Rattle.nmgc_object.specs.declared.size.TheConstants.{HEADER_WORDS};
ghost use Rattle.nmgc_round.specs.{Ready.Mutates, Known.IsSafe, Weaks.CanDeref, Weaks.CanFinalise, Weaks.finaliser_named, Weaks.weak_read, Weaks.weak_taken, Seat.IsAt, Seat.Knows, Seat.seen, Seat.word_count};

use crate::plays::{Asked, Located};
use crate::table::{MutatorSeat, Round};
use crate::view::View;
use atomic_table::Play;
use nmgc_commands::PackedCommand;
use nmgc_object::{Address, HEADER_WORDS};
use std::marker::{Brand, PhantomData};

/// The step in which a command loads a weak pointer's value.
pub struct Derefs<C> {
    asked: PhantomData<C>,
}

impl<C: Asked> Play<(), View> for Derefs<C> {
    ghost then = { λ s m n w. ((w.0 ≡ weak_read m.0 C.command n) × (n ≢ 0 → IsSafe m.0.opening n)) × (w.1 ≡ []) };
}

/// The step in which a command takes a weak pointer's value.
pub struct Finalises<A, C> {
    place: PhantomData<A>,
    asked: PhantomData<C>,
}

impl<A: Located, C: Asked> Play<(), View> for Finalises<A, C> {
    ghost then = { λ s m n w. ((w.0 ≡ weak_taken m.0 A.at C.command n) × (n ≢ 0 → Mutates (λ o p. IsSafe o (finaliser_named A.at p)) m.0)) × (w.1 ≡ []) };
}

impl Round {
    // Loads a weak pointer's value, as the position of a `deref`, and returns its word or 0. `C` is `command`.
    fn load_weak_for<C: Asked>(
        &self,
        seat: &mut MutatorSeat,
        at: Address,
        command: &PackedCommand,
    ) -> u64
        requires seat { IsAt self.now seat.old }
        requires asked { C.command ≡ command.now }
        requires ready { Mutates (λ o p. CanDeref o p at.0 command.now) (seen seat.old) }
        requires within { at.0 + HEADER_WORDS + 1 < word_count self.now }
        ensures view { Knows self.now seat.old seat.new (weak_read (seen seat.old) command.now result) }
        ensures safe { result ≢ 0 → IsSafe (seen seat.old).opening result }
    {
        let _ = command;
        self.table
            .shared
            .load::<Derefs<C>>(seat, at.0 as usize + HEADER_WORDS as usize + 1)
    }

    /// Loads the value of a weak pointer and returns its word, or 0 if the weak pointer is dead. This is the position of the
    /// `deref` in the order: its row answers the word or `dead`. With a value, the view's `Part.found` ends with it, and
    /// while marking the seat owes it from this step on. If the value is a pointer, its object lies within the heap's words.
    pub fn load_weak(&self, seat: &mut MutatorSeat, at: Address, command: &PackedCommand) -> u64
        requires seat { IsAt self.now seat.old }
        requires ready { Mutates (λ o p. CanDeref o p at.0 command.now) (seen seat.old) }
        requires within { at.0 + HEADER_WORDS + 1 < word_count self.now }
        ensures view { Knows self.now seat.old seat.new (weak_read (seen seat.old) command.now result) }
        ensures safe { result ≢ 0 → IsSafe (seen seat.old).opening result }
    {
        self.load_weak_for::<Brand>(seat, at, command)
    }

    // Swaps a weak pointer's value for 0, as a `finalise`'s position, and returns its word. `A` is `at`, `C` is `command`.
    fn swap_weak_for<A: Located, C: Asked>(
        &self,
        seat: &mut MutatorSeat,
        at: Address,
        command: &PackedCommand,
    ) -> u64
        requires seat { IsAt self.now seat.old }
        requires place { A.at ≡ at.0 }
        requires asked { C.command ≡ command.now }
        requires ready { Mutates (λ o p. CanFinalise o p at.0 command.now) (seen seat.old) }
        requires within { at.0 + HEADER_WORDS + 1 < word_count self.now }
        ensures view { Knows self.now seat.old seat.new (weak_taken (seen seat.old) at.0 command.now result) }
        ensures safe { result ≢ 0 → Mutates (λ o p. IsSafe o (finaliser_named at.0 p)) (seen seat.old) }
    {
        let _ = command;
        self.table
            .shared
            .swap::<Finalises<A, C>>(seat, at.0 as usize + HEADER_WORDS as usize + 1, 0)
    }

    /// Kills a weak pointer and returns the word of its value, or 0 if it was dead before. This is the position of the
    /// `finalise` in the order: its row has the finaliser or `dead` as its answer. If the weak pointer was alive, the view's
    /// `Part.found` ends with it, its value and its finaliser. While marking, the seat owes all three from this step on. If
    /// the finaliser is a pointer, its object lies within the heap's words.
    pub fn swap_weak(&self, seat: &mut MutatorSeat, at: Address, command: &PackedCommand) -> u64
        requires seat { IsAt self.now seat.old }
        requires ready { Mutates (λ o p. CanFinalise o p at.0 command.now) (seen seat.old) }
        requires within { at.0 + HEADER_WORDS + 1 < word_count self.now }
        ensures view { Knows self.now seat.old seat.new (weak_taken (seen seat.old) at.0 command.now result) }
        ensures safe { result ≢ 0 → Mutates (λ o p. IsSafe o (finaliser_named at.0 p)) (seen seat.old) }
    {
        self.swap_weak_for::<Brand, Brand>(seat, at, command)
    }
}
