//! The slots of a mutator's own stack: the steps of `push` and `pop`.
//!
//! Only its maker writes to a stack. So a load of a slot has no position in the order: it finds the word that the mutator's
//! own rows leave there, whatever steps other threads do meanwhile. The maker learns the depth by such loads, and then does
//! one swap, which is the position of the command. The opening's hands have the slots as the round began.
//!
//! Easy to get wrong: a slot above the top is 0, which is no value. The first 0 is at the depth; a full stack has none.
ghost use Rattle.std.specs.Prelude.{◌≡◌, ◌+◌, ◌<◌, [], ℕ};
ghost use Rattle.nmgc_object.specs.{declared.layout.TheConstants.SHARED_PLACE, declared.size.TheConstants.HEADER_WORDS};
ghost use Rattle.nmgc_round.specs.{Ready.Mutates, Known.IsSafe, Stacks.CanPeek, Stacks.CanSlot, Stacks.FindsSlot, Stacks.slot_swapped, Stacks.IsRefusedSlot, Stacks.slot_refused, Seat.IsAt, Seat.Knows, Seat.seen, Seat.word_count};

use crate::plays::{Asked, Located};
use crate::table::{MutatorSeat, Round};
use crate::view::View;
use atomic_table::Play;
use nmgc_commands::PackedCommand;
use nmgc_object::{Address, HEADER_WORDS, SHARED_PLACE};
use std::marker::{Brand, PhantomData};

/// The step that loads a slot of a mutator's own stack.
pub struct LoadsSlot<A> {
    place: PhantomData<A>,
}

impl<A: Located> Play<(), View> for LoadsSlot<A> {
    ghost then = { λ s m n w. ((w.0 ≡ m.0) × Mutates (λ o p. FindsSlot o p A.at A.offset n) m.0) × (w.1 ≡ []) };
}

/// The step in which a command swaps a slot of its mutator's own stack.
pub struct SwapsSlot<C> {
    asked: PhantomData<C>,
}

impl<C: Asked> Play<(), View> for SwapsSlot<C> {
    ghost then = { λ s m n w. ((w.0 ≡ slot_swapped m.0 C.command n) × IsSafe m.0.opening n) × (w.1 ≡ []) };
}

/// The step of a command that finds its stack full or empty.
pub struct RefusesSlot<C> {
    asked: PhantomData<C>,
}

impl<C: Asked> Play<(), View> for RefusesSlot<C> {
    ghost then = { λ s m n w. (w.0 ≡ slot_refused m.0 C.command n) × (w.1 ≡ []) };
}

impl Round {
    // Loads a slot of a stack that this mutator made, and returns its word. `A` is `at` and `slot`.
    fn load_slot_at<A: Located>(&self, seat: &mut MutatorSeat, at: Address, slot: u32) -> u64
        requires seat { IsAt self.now seat.old }
        requires place { (A.at ≡ at.0) × (A.offset ≡ slot) }
        requires ready { Mutates (λ o p. CanPeek o p at.0 slot) (seen seat.old) }
        requires within { at.0 + HEADER_WORDS + slot < word_count self.now }
        ensures view { Knows self.now seat.old seat.new (seen seat.old) }
        ensures shows { Mutates (λ o p. FindsSlot o p at.0 slot result) (seen seat.old) }
    {
        self.table.shared.load::<LoadsSlot<A>>(
            seat,
            at.0 as usize + HEADER_WORDS as usize + slot as usize,
        )
    }

    /// Loads a slot of a stack that this mutator made, and returns its word. The view stays. The word is the one that the
    /// mutator's rows leave there: 0 exactly if the stack's depth is at most `slot`.
    pub fn load_slot(&self, seat: &mut MutatorSeat, at: Address, slot: u32) -> u64
        requires seat { IsAt self.now seat.old }
        requires ready { Mutates (λ o p. CanPeek o p at.0 slot) (seen seat.old) }
        requires within { at.0 + HEADER_WORDS + slot < word_count self.now }
        ensures view { Knows self.now seat.old seat.new (seen seat.old) }
        ensures shows { Mutates (λ o p. FindsSlot o p at.0 slot result) (seen seat.old) }
    {
        self.load_slot_at::<Brand>(seat, at, slot)
    }

    // Stores a word into a slot, as the position of a `push` or `pop`, and returns the word before. `C` is `command`.
    fn swap_slot_for<C: Asked>(
        &self,
        seat: &mut MutatorSeat,
        at: Address,
        slot: u32,
        word: u64,
        command: &PackedCommand,
    ) -> u64
        requires seat { IsAt self.now seat.old }
        requires asked { C.command ≡ command.now }
        requires ready { Mutates (λ o p. CanSlot o p at.0 slot word command.now) (seen seat.old) }
        requires within { at.0 + HEADER_WORDS + slot < word_count self.now }
        ensures view { Knows self.now seat.old seat.new (slot_swapped (seen seat.old) command.now result) }
        ensures safe { IsSafe (seen seat.old).opening result }
    {
        let _ = command;
        self.table.shared.swap::<SwapsSlot<C>>(
            seat,
            at.0 as usize + HEADER_WORDS as usize + slot as usize,
            word,
        )
    }

    /// Stores a word into a slot of a stack that this mutator made, and returns the word before. This is the position of a
    /// `push`, which fills the first slot without a value, or of a `pop`, which empties the last slot with a value and
    /// answers this value. After a `pop` the view's `Part.found` ends with the word, and while marking the seat owes it from
    /// this step on. If the returned word is a pointer, its object lies within the heap's words.
    pub fn swap_slot(
        &self,
        seat: &mut MutatorSeat,
        at: Address,
        slot: u32,
        word: u64,
        command: &PackedCommand,
    ) -> u64
        requires seat { IsAt self.now seat.old }
        requires ready { Mutates (λ o p. CanSlot o p at.0 slot word command.now) (seen seat.old) }
        requires within { at.0 + HEADER_WORDS + slot < word_count self.now }
        ensures view { Knows self.now seat.old seat.new (slot_swapped (seen seat.old) command.now result) }
        ensures safe { IsSafe (seen seat.old).opening result }
    {
        self.swap_slot_for::<Brand>(seat, at, slot, word, command)
    }

    // Loads the header of g, as the position of a refused `push` or `pop`, and returns its word. `C` is `command`.
    fn refuse_slot_for<C: Asked>(&self, seat: &mut MutatorSeat, command: &PackedCommand) -> u64
        requires seat { IsAt self.now seat.old }
        requires asked { C.command ≡ command.now }
        requires ready { (at : ℕ) × Mutates (λ o p. IsRefusedSlot o p at command.now) (seen seat.old) }
        requires within { SHARED_PLACE < word_count self.now }
        ensures { Knows self.now seat.old seat.new (slot_refused (seen seat.old) command.now result) }
    {
        let _ = command;
        self.table
            .shared
            .load::<RefusesSlot<C>>(seat, SHARED_PLACE as usize)
    }

    /// Refuses a `push` onto a full stack of this mutator, or a `pop` off an empty one: loads the header of g, and returns
    /// its word. This load is the position of the command, whose row has the refusal as its answer. The seat's view names the
    /// word from then on. `load_fixed` can't do it: the reply depends on slots, whose words the view doesn't name.
    pub fn refuse_slot(&self, seat: &mut MutatorSeat, command: &PackedCommand) -> u64
        requires seat { IsAt self.now seat.old }
        requires ready { (at : ℕ) × Mutates (λ o p. IsRefusedSlot o p at command.now) (seen seat.old) }
        requires within { SHARED_PLACE < word_count self.now }
        ensures { Knows self.now seat.old seat.new (slot_refused (seen seat.old) command.now result) }
    {
        self.refuse_slot_for::<Brand>(seat, command)
    }
}
