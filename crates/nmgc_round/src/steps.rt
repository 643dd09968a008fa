//! The steps of a round, each on one word.
//!
//! A step reads or writes one word of the table, in one order with all other steps of all threads. It may be the position of
//! a command in that order: then the seat's view has one more row, with the answer of the reference heap there. A step shows
//! its caller the word and its seat's view after it. (A view *names* a word if it has the word with its address.) It changes
//! no other view, takes no memory, and never waits. A public step such as `swap_field` calls a private one, `swap_field_for`,
//! whose type parameters `plays` explains. The line `let _ = command;` there is for clauses alone.
//!
//! A step at an object has a condition: the object is g, or one of the mutator's registers has its address. For a load of a
//! header or a name, the mutator's own finaliser queue may have it instead. A look ahead has no condition, since it shows
//! nothing. A reply may also depend on a header, which never changes: the seat has loaded it before, and its view names it.
//!
//! A swap is the deletion barrier. While marking, the word taken out is owed from that step on. So a reference of the
//! snapshot is still in its field, or it is owed: Note [Why the deletion barrier is enough] in `nmgc_mutator/src/barrier.rt`.
//!
//! Easy to get wrong: the order of the stores of a new object, Note [The header is stored last].
ghost use Rattle.std.specs.Prelude.{◌≡◌, ◌+◌, ◌<◌, MatchOption, IfNone, IfSome};
ghost use Rattle.nmgc_object.specs.declared.size.TheConstants.{HEADER_WORDS};
ghost use Rattle.nmgc_round.specs.{View.word, View.loaded, View.answered, View.swapped, View.met, View.met_at_birth, View.stored, View.gave_birth, Ready.Mutates, Ready.CanScan, Ready.scanned_by, Ready.CanLoad, Ready.CanSwap, Ready.CanStore, Ready.CanBear, Known.CanFix, Known.CanTake, Known.taken, Known.FindsFixed, Known.FindsField, Known.FindsQueue, Known.FindsScan, Known.IsSafe, Seat.IsAt, Seat.Knows, Seat.seen, Seat.word_count};

use crate::plays::{
    Asked, Births, Fixes, Hoped, Loads, Located, Looks, Meets, MeetsHeader, Scans, Stores, Swaps,
    Takes,
};
use crate::table::{CollectorSeat, MutatorSeat, Round};
use nmgc_commands::PackedCommand;
use nmgc_object::{Address, HEADER_WORDS};
use std::marker::Brand;

impl Round {
    // Loads a word that never changes, and returns it. `A` is `at` and `offset`.
    fn load_fixed_at<A: Located>(&self, seat: &mut MutatorSeat, at: Address, offset: u32) -> u64
        requires seat { IsAt self.now seat.old }
        requires place { (A.at ≡ at.0) × (A.offset ≡ offset) }
        requires ready { Mutates (λ o p. CanFix o p at.0 offset) (seen seat.old) }
        requires within { at.0 + offset < word_count self.now }
        ensures view { Knows self.now seat.old seat.new (loaded (seen seat.old) at.0 offset result) }
        ensures room { FindsFixed (seen seat.old).opening at.0 offset result }
    {
        self.table
            .shared
            .load::<Fixes<A>>(seat, at.0 as usize + offset as usize)
    }

    // Loads a word that never changes, as a command's position, and returns it. `A` is `at` and `offset`, `C` is `command`.
    fn load_fixed_for<A: Located, C: Asked>(
        &self,
        seat: &mut MutatorSeat,
        at: Address,
        offset: u32,
        command: &PackedCommand,
    ) -> u64
        requires seat { IsAt self.now seat.old }
        requires place { (A.at ≡ at.0) × (A.offset ≡ offset) }
        requires asked { C.command ≡ command.now }
        requires ready { Mutates (λ o p. CanTake o p at.0 offset command.now) (seen seat.old) }
        requires within { at.0 + offset < word_count self.now }
        ensures view { Knows self.now seat.old seat.new (taken (seen seat.old) at.0 offset command.now result) }
        ensures safe { FindsField (seen seat.old).opening offset result }
        ensures queue { Mutates FindsQueue (seen seat.old) }
    {
        let _ = command;
        self.table
            .shared
            .load::<Takes<A, C>>(seat, at.0 as usize + offset as usize)
    }

    /// Loads and returns a word that never changes in a round: a header, a name, a constructor's field, a free variable, a
    /// weak pointer's key or finaliser. The seat's view names it from then on. Without a command, a loaded name is valid, and
    /// so is a loaded header, whose object lies within the heap's words. With a command, the load is the command's position
    /// in the order, and its row has the reply. Such a load is of the header of g, for a command that reads no changing word
    /// or is refused, or of a constructor's field, for a `get`. If the field is a pointer, its object's header and name lie
    /// within the heap's words. With a command, so do the objects in the mutator's finaliser queue.
    pub fn load_fixed(
        &self,
        seat: &mut MutatorSeat,
        at: Address,
        offset: u32,
        command: Option<&PackedCommand>,
    ) -> u64
        requires seat { IsAt self.now seat.old }
        requires ready { MatchOption command (Mutates (λ o p. CanFix o p at.0 offset) (seen seat.old)) (λ c.
            Mutates (λ o p. CanTake o p at.0 offset c.now) (seen seat.old)) }
        requires within { at.0 + offset < word_count self.now }
        ensures view { MatchOption command.entry (Knows self.now seat.old seat.new (loaded (seen seat.old) at.0 offset result)) (λ c.
            Knows self.now seat.old seat.new (taken (seen seat.old) at.0 offset c.now result)) }
        ensures room { IfNone command.entry (FindsFixed (seen seat.old).opening at.0 offset result) }
        ensures safe { IfSome command.entry (λ c. FindsField (seen seat.old).opening offset result) }
        ensures queue { IfSome command.entry (λ c. Mutates FindsQueue (seen seat.old)) }
    {
        match command {
            None => self.load_fixed_at::<Brand>(seat, at, offset),
            Some(command) => self.load_fixed_for::<Brand, Brand>(seat, at, offset, command),
        }
    }

    /// Loads the word at an address, if there is one, and drops it, so that later reads near it are faster. The view stays.
    pub fn look_ahead(&self, seat: &mut CollectorSeat, at: Address)
        requires { IsAt self.now seat.old }
        ensures { Knows self.now seat.old seat.new (seen seat.old) }
    {
        let place = at.0 as usize;
        if place >= self.table.word_count() {
            return;
        }
        self.table.shared.load::<Looks>(seat, place);
    }

    /// Loads and returns the word of the marking machine's next scan. The view then has one more scan. Requires that the mark
    /// queue's first entry is for the object at `at`, and that its next position is at `offset`. At position 0 the word is
    /// the header of the object's node in the snapshot, whose words are in the heap. Later words are fields. If a field is a
    /// pointer, header and name of its object are in the heap.
    pub fn scan_load(&self, seat: &mut CollectorSeat, at: Address, offset: u32) -> u64
        requires seat { IsAt self.now seat.old }
        requires ready { CanScan (seen seat.old) at.0 offset }
        requires within { at.0 + offset < word_count self.now }
        ensures view { Knows self.now seat.old seat.new (scanned_by (seen seat.old) result) }
        ensures known { FindsScan (seen seat.old) result }
    {
        self.table
            .shared
            .load::<Scans>(seat, at.0 as usize + offset as usize)
    }

    // Loads a field, as the position of a `get`, and returns its word. `C` is `command`.
    fn load_field_for<C: Asked>(
        &self,
        seat: &mut MutatorSeat,
        at: Address,
        field: u32,
        command: &PackedCommand,
    ) -> u64
        requires seat { IsAt self.now seat.old }
        requires asked { C.command ≡ command.now }
        requires ready { Mutates (λ o p. CanLoad o p at.0 field command.now) (seen seat.old) }
        requires within { at.0 + HEADER_WORDS + field < word_count self.now }
        ensures view { Knows self.now seat.old seat.new (answered (seen seat.old) command.now (word result)) }
        ensures safe { IsSafe (seen seat.old).opening result }
    {
        let _ = command;
        self.table.shared.load::<Loads<C>>(
            seat,
            at.0 as usize + HEADER_WORDS as usize + field as usize,
        )
    }

    /// Loads a field of a variable or an array, and returns its word. This is the position of the `get` that reads the field,
    /// and its row has the word as its answer. If the word is a pointer, its object lies within the heap's words. A
    /// constructor's field may be loaded too; a mutator loads it by `load_fixed`, so that its view names the word.
    pub fn load_field(
        &self,
        seat: &mut MutatorSeat,
        at: Address,
        field: u32,
        command: &PackedCommand,
    ) -> u64
        requires seat { IsAt self.now seat.old }
        requires ready { Mutates (λ o p. CanLoad o p at.0 field command.now) (seen seat.old) }
        requires within { at.0 + HEADER_WORDS + field < word_count self.now }
        ensures view { Knows self.now seat.old seat.new (answered (seen seat.old) command.now (word result)) }
        ensures safe { IsSafe (seen seat.old).opening result }
    {
        self.load_field_for::<Brand>(seat, at, field, command)
    }

    // Stores a word into a field, as the position of a `set`, and returns the word before. `C` is `command`.
    fn swap_field_for<C: Asked>(
        &self,
        seat: &mut MutatorSeat,
        at: Address,
        field: u32,
        word: u64,
        command: &PackedCommand,
    ) -> u64
        requires seat { IsAt self.now seat.old }
        requires asked { C.command ≡ command.now }
        requires ready { Mutates (λ o p. CanSwap o p at.0 field word command.now) (seen seat.old) }
        requires within { at.0 + HEADER_WORDS + field < word_count self.now }
        ensures view { Knows self.now seat.old seat.new (swapped (seen seat.old) command.now result) }
        ensures safe { IsSafe (seen seat.old).opening result }
    {
        let _ = command;
        self.table.shared.swap::<Swaps<C>>(
            seat,
            at.0 as usize + HEADER_WORDS as usize + field as usize,
            word,
        )
    }

    /// Stores a word into a field of a variable or an array, and returns the word before. This is the position of the `set`
    /// in the order. The view's `Part.found` ends with the old word, whether a cycle marks or not. While marking, the seat
    /// owes it from this step on. If the old word is a pointer, its object lies within the heap's words.
    pub fn swap_field(
        &self,
        seat: &mut MutatorSeat,
        at: Address,
        field: u32,
        word: u64,
        command: &PackedCommand,
    ) -> u64
        requires seat { IsAt self.now seat.old }
        requires ready { Mutates (λ o p. CanSwap o p at.0 field word command.now) (seen seat.old) }
        requires within { at.0 + HEADER_WORDS + field < word_count self.now }
        ensures view { Knows self.now seat.old seat.new (swapped (seen seat.old) command.now result) }
        ensures safe { IsSafe (seen seat.old).opening result }
    {
        self.swap_field_for::<Brand>(seat, at, field, word, command)
    }

    // Loads a word that is in no object yet, and returns whether it is `word`. If so, the view names it. `H` is `word`.
    fn look_at<H: Hoped>(&self, seat: &mut MutatorSeat, at: Address, offset: u32, word: u64) -> bool
        requires seat { IsAt self.now seat.old }
        requires hoped { H.word ≡ word }
        requires ready { Mutates (λ o p. CanStore o p (at.0 + offset)) (seen seat.old) }
        requires within { at.0 + offset < word_count self.now }
        ensures { Knows self.now seat.old seat.new (met (seen seat.old) (at.0 + offset) word result) }
    {
        self.table
            .shared
            .load::<Meets<H>>(seat, at.0 as usize + offset as usize)
            == word
    }

    // Stores a word at an address that is in no object yet.
    fn store_there(&self, seat: &mut MutatorSeat, at: Address, offset: u32, word: u64)
        requires seat { IsAt self.now seat.old }
        requires ready { Mutates (λ o p. CanStore o p (at.0 + offset)) (seen seat.old) }
        requires within { at.0 + offset < word_count self.now }
        ensures { Knows self.now seat.old seat.new (stored (seen seat.old) (at.0 + offset) word) }
    {
        self.table
            .shared
            .store::<Stores>(seat, at.0 as usize + offset as usize, word)
    }

    /// Stores a word in the unused rest of the mutator's nursery, at address `at.0 + offset`. The mutator stored nothing
    /// there since its last allocation. Then the seat's view names the word, until the next object is allocated. A nursery is
    /// filled again in every round, often with the same words, and a store costs several loads. So the word there is loaded
    /// first, and `word` is stored only if it differs. The view is the same in both cases.
    pub fn store_unborn(&self, seat: &mut MutatorSeat, at: Address, offset: u32, word: u64)
        requires seat { IsAt self.now seat.old }
        requires ready { Mutates (λ o p. CanStore o p (at.0 + offset)) (seen seat.old) }
        requires within { at.0 + offset < word_count self.now }
        ensures { Knows self.now seat.old seat.new (stored (seen seat.old) (at.0 + offset) word) }
    {
        if !self.look_at::<Brand>(seat, at, offset, word) {
            self.store_there(seat, at, offset, word);
        }
    }

    // Loads a new object's first word, and returns whether it is `header` (`H`). If so, it allocates for `command` (`C`).
    fn look_at_header<H: Hoped, C: Asked>(
        &self,
        seat: &mut MutatorSeat,
        at: Address,
        header: u64,
        command: &PackedCommand,
    ) -> bool
        requires seat { IsAt self.now seat.old }
        requires hoped { H.word ≡ header }
        requires asked { C.command ≡ command.now }
        requires ready { Mutates (λ o p. CanBear o p at.0 header command.now) (seen seat.old) }
        requires within { at.0 < word_count self.now }
        ensures { Knows self.now seat.old seat.new (met_at_birth (seen seat.old) at.0 header command.now result) }
    {
        let _ = command;
        self.table
            .shared
            .load::<MeetsHeader<H, C>>(seat, at.0 as usize)
            == header
    }

    // Stores a new object's header, as the position of the command that makes the object. `C` is `command`.
    fn store_header_for<C: Asked>(
        &self,
        seat: &mut MutatorSeat,
        at: Address,
        header: u64,
        command: &PackedCommand,
    )
        requires seat { IsAt self.now seat.old }
        requires asked { C.command ≡ command.now }
        requires ready { Mutates (λ o p. CanBear o p at.0 header command.now) (seen seat.old) }
        requires within { at.0 < word_count self.now }
        ensures { Knows self.now seat.old seat.new (gave_birth (seen seat.old) at.0 header command.now) }
    {
        let _ = command;
        self.table
            .shared
            .store::<Births<C>>(seat, at.0 as usize, header)
    }

    // Note [The header is stored last]
    //
    // The step at the header is the allocation: it is the one step that adds the object to the world. The rule of a round
    // (`specs/Rule.antt`) holds between any two steps, and says that each object of the world has its header, name and fields
    // in the words. So name and fields are stored before (`CanBear` in `specs/Ready.antt`), while they belong to no object.
    // With the header first, the fields would still be words of an earlier round, and the rule false until the last store.
    //
    // Usually this step is a store. If an earlier round's object left the same header there, it is the load that finds it.
    //
    // Before this step neither a register nor a field that a command may follow has the address. So no other thread can find
    // a half-made object. The steps of all threads are in one order, so no fence is needed before the address is published.
    /// Stores the header of a new object, at the first unused word of the mutator's nursery. Requires that its name and
    /// fields were stored behind it. This is the position of the command that makes the object, and its row has the object's
    /// address as its answer. From then on the view names header and name, and no unborn word. As in `store_unborn`, the old
    /// word is loaded first. If it is this header already, from an earlier round, the load is the allocation.
    pub fn give_birth(
        &self,
        seat: &mut MutatorSeat,
        at: Address,
        header: u64,
        command: &PackedCommand,
    )
        requires seat { IsAt self.now seat.old }
        requires ready { Mutates (λ o p. CanBear o p at.0 header command.now) (seen seat.old) }
        requires within { at.0 < word_count self.now }
        ensures { Knows self.now seat.old seat.new (gave_birth (seen seat.old) at.0 header command.now) }
    {
        if !self.look_at_header::<Brand, Brand>(seat, at, header, command) {
            self.store_header_for::<Brand>(seat, at, header, command);
        }
    }
}
