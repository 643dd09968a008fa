//! The rule of the table, and the seat's view after each kind of step.
//!
//! For each kind of step the table asks how the word that the step found changes the seat's view. This file has the answers,
//! a type for each kind. That the rule holds after a step is proved at the step. No value of these types is made.
//!
//! The table gives a kind neither the command nor the address in the heap. So clauses get these by a type parameter `C`, `A`
//! or `H`, whose trait has them as ghost members. A public step such as `swap_field` calls a private one,
//! `swap_field_for::<Brand>`. `Brand` is the kit's type for such calls: each call gives the members its own values, here the
//! step's arguments (`Invariants.antt` in `swap_field`'s proof). No step has the values of the `impl`s here, such as `Yield`.
ghost use Rattle.std.specs.Prelude.{◌≡◌, ◌==◌, ℕ, [], set, slice_index};
ghost use Rattle.nmgc_world_spec.specs.{declared.command.Command.Command, declared.command.Command.TheVariants.Yield};
ghost use Rattle.nmgc_round.specs.View.{Opening, no_opening, word, answered, swapped, met, met_at_birth, stored, loaded, gave_birth, whole, exclusive, nobody};
ghost use Rattle.nmgc_round.specs.{Ready.Mutates, Ready.scanned_by, Known.taken, Known.FindsFixed, Known.FindsField, Known.FindsQueue, Known.FindsScan, Known.IsSafe, Seating.keeps_rest, Seating.gives_first, Seating.mutates, Seating.collecting, Seating.together, Rule.Holding, Finishing.Ended};

use crate::view::{Stored, View};
use crate::witness::Witness;
use atomic_table::{Join, Play, Split, TableRule};
use std::marker::{Brand, PhantomData};

/// A command as a type: the one whose position in the order is the step.
pub trait Asked {
    ghost command: { Command };
}

impl Asked for Brand {
    ghost command = { Yield };
}

/// An address as a type: the address of the step's object, with the offset or slot of the step's word there.
pub trait Located {
    ghost at: { ℕ };

    ghost offset: { ℕ };
}

impl Located for Brand {
    ghost at = { 0 };

    ghost offset = { 0 };
}

/// A word as a type: the one that a load hopes to find.
pub trait Hoped {
    ghost word: { ℕ };
}

impl Hoped for Brand {
    ghost word = { 0 };
}

/// An opening as a type: the one with which a round begins.
pub trait Begun {
    ghost opening: { Opening };
}

impl Begun for Brand {
    ghost opening = { no_opening };
}

/// The rule: the table is stopped, or there is a list of events of a round with which the words and all views agree.
pub struct Rules;

impl TableRule<(), View, Witness<Stored>> for Rules {
    ghost holds = { λ k s. Holding s.words s.views };

    ghost first = { λ k. exclusive k.value };
}

/// The step in which the only seat loads a word.
pub struct Reads;

impl Play<(), View> for Reads {
    ghost then = { λ s m n w. ((w.0 ≡ m.0) × (n ≡ slice_index m.0.words s.word)) × (w.1 ≡ []) };
}

/// The step in which the only seat stores a word.
pub struct Writes;

impl Play<(), View> for Writes {
    ghost then = { λ s m n w. (w.0 ≡ exclusive (set m.0.words s.word s.first)) × (w.1 ≡ []) };
}

/// The step that begins a round.
pub struct Opens<C> {
    begun: PhantomData<C>,
}

impl<C: Begun> Play<(), View> for Opens<C> {
    ghost then = { λ s m n w. (w.0 ≡ whole C.opening) × (w.1 ≡ []) };
}

/// The step that ends a round.
pub struct Ends;

impl Play<(), View> for Ends {
    ghost then = { λ s m n w. Ended m.0 w.0 × (w.1 ≡ []) };
}

/// The step that loads a word that never changes.
pub struct Fixes<A> {
    place: PhantomData<A>,
}

impl<A: Located> Play<(), View> for Fixes<A> {
    ghost then = { λ s m n w. ((w.0 ≡ loaded m.0 A.at A.offset n) × FindsFixed m.0.opening A.at A.offset n) × (w.1 ≡ []) };
}

/// The step in which a command loads a word that never changes.
pub struct Takes<A, C> {
    place: PhantomData<A>,
    asked: PhantomData<C>,
}

impl<A: Located, C: Asked> Play<(), View> for Takes<A, C> {
    ghost then = { λ s m n w. ((w.0 ≡ taken m.0 A.at A.offset C.command n) × FindsField m.0.opening A.offset n × Mutates FindsQueue m.0) × (w.1 ≡ []) };
}

/// The step that loads a word and forgets it.
pub struct Looks;

impl Play<(), View> for Looks {
    ghost then = { λ s m n w. (w.0 ≡ m.0) × (w.1 ≡ []) };
}

/// The step in which the collector scans a word.
pub struct Scans;

impl Play<(), View> for Scans {
    ghost then = { λ s m n w. ((w.0 ≡ scanned_by m.0 n) × FindsScan m.0 n) × (w.1 ≡ []) };
}

/// The step in which a command loads a field.
pub struct Loads<C> {
    asked: PhantomData<C>,
}

impl<C: Asked> Play<(), View> for Loads<C> {
    ghost then = { λ s m n w. ((w.0 ≡ answered m.0 C.command (word n)) × IsSafe m.0.opening n) × (w.1 ≡ []) };
}

/// The step in which a command swaps a field.
pub struct Swaps<C> {
    asked: PhantomData<C>,
}

impl<C: Asked> Play<(), View> for Swaps<C> {
    ghost then = { λ s m n w. ((w.0 ≡ swapped m.0 C.command n) × IsSafe m.0.opening n) × (w.1 ≡ []) };
}

/// The step that loads a word that is in no object yet.
pub struct Meets<H> {
    hoped: PhantomData<H>,
}

impl<H: Hoped> Play<(), View> for Meets<H> {
    ghost then = { λ s m n w. (w.0 ≡ met m.0 s.word H.word (n == H.word)) × (w.1 ≡ []) };
}

/// The step that stores a word that is in no object yet.
pub struct Stores;

impl Play<(), View> for Stores {
    ghost then = { λ s m n w. (w.0 ≡ stored m.0 s.word s.first) × (w.1 ≡ []) };
}

/// The step that loads the word at the address of a new object's header.
pub struct MeetsHeader<H, C> {
    hoped: PhantomData<H>,
    asked: PhantomData<C>,
}

impl<H: Hoped, C: Asked> Play<(), View> for MeetsHeader<H, C> {
    ghost then = { λ s m n w. (w.0 ≡ met_at_birth m.0 s.word H.word C.command (n == H.word)) × (w.1 ≡ []) };
}

/// The step that stores a new object's header: Note [The header is stored last].
pub struct Births<C> {
    asked: PhantomData<C>,
}

impl<C: Asked> Play<(), View> for Births<C> {
    ghost then = { λ s m n w. (w.0 ≡ gave_birth m.0 s.word s.first C.command) × (w.1 ≡ []) };
}

/// The split in which a seat gives its first mutator to a new seat.
pub struct FirstMutator;

impl Split<View> for FirstMutator {
    ghost left = { keeps_rest };

    ghost right = { gives_first };
}

/// The split in which a seat gives the collector to a new seat.
pub struct CollectorAlone;

impl Split<View> for CollectorAlone {
    ghost left = { mutates };

    ghost right = { collecting };
}

/// The join in which a seat takes the parts of another seat.
pub struct Both;

impl Join<View> for Both {
    ghost both = { together };

    ghost spent = { nobody };
}
