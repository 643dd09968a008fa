//! Laws of the definitions of a round, for every opening, all words and all views.
//!
//! Each function here does nothing; its contract is the law. After a step, the rule holds over lists of words and views
//! alone, if it held before and the step may be taken. At most one word changes, one view changes, and the other views stay.
//! The events stay, or a command or scan is added at their end (`specs/Added.antt`). After a split, a join, or a beginning or
//! end of a round, the rule holds too, with the same words and events. A look ahead changes neither words nor views. Each
//! other step of `steps`, `seats` and `round` is an instance of one of these laws, and the rule holds between any two steps
//! of any threads. So no law depends on a schedule.
ghost use Rattle.std.specs.Prelude.{◌≡◌, ◌≢◌, ◌+◌, ◌<◌, ◌==◌, ℕ, true, List, [], ◌∷◌, ◌++◌, set, slice_index, length, map};
ghost use mathlib.Core.Option.{some};
ghost use lib.ListN.{get_elem?};
ghost use Rattle.nmgc_world_spec.specs.{declared.command.Command.Command, declared.command.Reply.Reply, Reach.replayed, Reach.rows_of, Reach.IsLegal as IsLegalHistory};
ghost use Rattle.nmgc_object.specs.{declared.size.TheConstants.HEADER_WORDS, declared.layout.TheConstants.SHARED_PLACE, declared.layout.Layout.Layout, Layouts.IsLayout};
ghost use Rattle.nmgc_snapshot_laws.specs.{State.State, Machine.Does};
ghost use Rattle.nmgc_round.specs.{Own.OwnSlots, Rule.Keeps, Rule.Stopped, Added.Stays, Added.AddsCommand, Added.AddsIfMet, Added.AddsScan, Seating.CanSplit, Seating.keeps_rest, Seating.gives_first, Seating.mutates, Seating.collecting, Seating.together, Compare.CanExchange, Compare.exchanged, Compare.words_exchanged, Results.CanForce, Results.CanUpdate, Results.forced, Results.updated, Stacks.CanPeek, Stacks.CanSlot, Stacks.FindsSlot, Stacks.slot_swapped, Stacks.IsRefusedSlot, Stacks.slot_refused, Weaks.CanDeref, Weaks.CanFinalise, Weaks.weak_read, Weaks.weak_taken, Known.CanFix, Known.CanTake, Known.taken, Naming.AllReply, Empty.IsEmptyHeap, Empty.first_opening, Starting.CanOpen, Finishing.IsFinished, Finishing.HasAll, Finishing.HasEach, Finishing.Leaves};
ghost use Rattle.nmgc_round.specs.View.{hand_of, Opening, Part, Seen, word, whole, exclusive, nobody, loaded, answered, swapped, met, met_at_birth, stored, gave_birth};
ghost use Rattle.nmgc_round.specs.{Ready.IsMutator, Ready.CanLoad, Ready.CanSwap, Ready.CanStore, Ready.CanBear, Ready.CanScan, Ready.scanned_by, Events.Happening, Events.event_of, Events.after, Events.replay, Events.IsLegal, Events.done_by, Events.rows_in};

/// Proves that the rule still holds, for the same words and events, after a load of a word that never changes (`CanFix`).
pub fn fixed_loads_keep_the_rule()
    ensures { (o : Opening) (words : List ℕ) (views : List Seen) (id : ℕ) (v : Seen) (p : Part) (at offset : ℕ) (k : Keeps o words views) →
        get_elem? views id ≡ some v → IsMutator v p → CanFix o p at offset →
        Stays o words views k words (set views id (loaded v at offset (slice_index words (at + offset)))) }
{}

/// Proves that the rule still holds after a command loads a fixed word (`CanTake`). The words stay, and the command is added.
pub fn fixed_loads_of_commands_keep_the_rule()
    ensures { (o : Opening) (words : List ℕ) (views : List Seen) (id : ℕ) (v : Seen) (p : Part) (at offset : ℕ) (c : Command)
        (k : Keeps o words views) → get_elem? views id ≡ some v → IsMutator v p → CanTake o p at offset c →
        AddsCommand o words views k p.number c words (set views id (taken v at offset c (slice_index words (at + offset)))) }
{}

/// Proves that the rule still holds after a `get` loads a field (`CanLoad`). The words stay, and the command is added.
pub fn field_loads_keep_the_rule()
    ensures { (o : Opening) (words : List ℕ) (views : List Seen) (id : ℕ) (v : Seen) (p : Part) (at index : ℕ) (c : Command)
        (k : Keeps o words views) → get_elem? views id ≡ some v → IsMutator v p → CanLoad o p at index c →
        AddsCommand o words views k p.number c words (set views id (answered v c (word (slice_index words (at + HEADER_WORDS + index))))) }
{}

/// Proves that the rule still holds after a `set` swaps a field (`CanSwap`). The field changes, and the command is added.
/// While marking, the view owes the old word.
pub fn field_swaps_keep_the_rule()
    ensures { (o : Opening) (words : List ℕ) (views : List Seen) (id : ℕ) (v : Seen) (p : Part) (at index w : ℕ) (c : Command)
        (k : Keeps o words views) → get_elem? views id ≡ some v → IsMutator v p → CanSwap o p at index w c →
        AddsCommand o words views k p.number c (set words (at + HEADER_WORDS + index) w)
        (set views id (swapped v c (slice_index words (at + HEADER_WORDS + index)))) }
{}

/// Proves that the rule still holds after a `cas`'s compare-exchange (`CanExchange`). The command is added. If the field has
/// the expected word, the field changes, and while marking the view owes that word. Else no word changes.
pub fn field_exchanges_keep_the_rule()
    ensures { (o : Opening) (words : List ℕ) (views : List Seen) (id : ℕ) (v : Seen) (p : Part) (at index expected w : ℕ) (c : Command)
        (k : Keeps o words views) → get_elem? views id ≡ some v → IsMutator v p → CanExchange o p at index expected w c →
        let hit = slice_index words (at + HEADER_WORDS + index) == expected in
        AddsCommand o words views k p.number c (words_exchanged words (at + HEADER_WORDS + index) w hit) (set views id (exchanged v c expected hit)) }
{}

/// Proves that the rule still holds after a `force` loads a result (`CanForce`). The words stay, and the command is added.
pub fn result_loads_keep_the_rule()
    ensures { (o : Opening) (words : List ℕ) (views : List Seen) (id : ℕ) (v : Seen) (p : Part) (at : ℕ) (c : Command) (k : Keeps o words views) →
        get_elem? views id ≡ some v → IsMutator v p → CanForce o p at c →
        AddsCommand o words views k p.number c words (set views id (forced v c (slice_index words (at + HEADER_WORDS)))) }
{}

/// Proves that the rule still holds after an `update`'s compare-exchange (`CanUpdate`). The command is added. If the thunk
/// has no result, the result is stored, and while marking the view owes the free variables. Else no word changes.
pub fn result_exchanges_keep_the_rule()
    ensures { (o : Opening) (words : List ℕ) (views : List Seen) (id : ℕ) (v : Seen) (p : Part) (at w : ℕ) (c : Command) (k : Keeps o words views) →
        get_elem? views id ≡ some v → IsMutator v p → CanUpdate o p at w c → let hit = slice_index words (at + HEADER_WORDS) == 0 in
        AddsCommand o words views k p.number c (words_exchanged words (at + HEADER_WORDS) w hit) (set views id (updated v at c hit)) }
{}

/// Proves that the rule still holds after a `deref` loads a weak pointer's value (`CanDeref`). The words stay, and the
/// command is added. If the weak pointer is alive, the view owes the value while marking.
pub fn weak_loads_keep_the_rule()
    ensures { (o : Opening) (words : List ℕ) (views : List Seen) (id : ℕ) (v : Seen) (p : Part) (at : ℕ) (c : Command) (k : Keeps o words views) →
        get_elem? views id ≡ some v → IsMutator v p → CanDeref o p at c →
        AddsCommand o words views k p.number c words (set views id (weak_read v c (slice_index words (at + HEADER_WORDS + 1)))) }
{}

/// Proves that the rule still holds after a `finalise`'s swap (`CanFinalise`). The value's word becomes 0, and the command is
/// added. If the weak pointer was alive, the view owes it, its value and its finaliser while marking.
pub fn weak_swaps_keep_the_rule()
    ensures { (o : Opening) (words : List ℕ) (views : List Seen) (id : ℕ) (v : Seen) (p : Part) (at : ℕ) (c : Command) (k : Keeps o words views) →
        get_elem? views id ≡ some v → IsMutator v p → CanFinalise o p at c →
        AddsCommand o words views k p.number c (set words (at + HEADER_WORDS + 1) 0)
        (set views id (weak_taken v at c (slice_index words (at + HEADER_WORDS + 1)))) }
{}

/// Proves that the rule still holds, for the same words, views and events, after a mutator loads a slot of its own stack
/// (`CanPeek`). It finds the word that the mutator's rows leave there, or 0 above the top (`FindsSlot`).
pub fn slot_loads_keep_the_rule()
    ensures { (o : Opening) (words : List ℕ) (views : List Seen) (id : ℕ) (v : Seen) (p : Part) (at slot : ℕ) (k : Keeps o words views) →
        get_elem? views id ≡ some v → IsMutator v p → CanPeek o p at slot → Stays o words views k words (set views id v) ×
        FindsSlot o p at slot (slice_index words (at + HEADER_WORDS + slot)) }
{}

/// Proves that the rule still holds after a mutator's `push` or `pop` swaps a slot of its own stack (`CanSlot`). The slot
/// changes, and the command is added. While marking the view owes a popped word.
pub fn slot_swaps_keep_the_rule()
    ensures { (o : Opening) (words : List ℕ) (views : List Seen) (id : ℕ) (v : Seen) (p : Part) (at slot w : ℕ) (c : Command)
        (k : Keeps o words views) → get_elem? views id ≡ some v → IsMutator v p → CanSlot o p at slot w c →
        AddsCommand o words views k p.number c (set words (at + HEADER_WORDS + slot) w)
        (set views id (slot_swapped v c (slice_index words (at + HEADER_WORDS + slot)))) }
{}

/// Proves that the rule still holds after a mutator's `push` onto its own full stack, or `pop` off its own empty stack, is
/// refused. The step is a load of the header of g. The words stay, and the command is added.
pub fn slot_refusals_keep_the_rule()
    ensures { (o : Opening) (words : List ℕ) (views : List Seen) (id : ℕ) (v : Seen) (p : Part) (at : ℕ) (c : Command) (k : Keeps o words views) →
        get_elem? views id ≡ some v → IsMutator v p → IsRefusedSlot o p at c → AddsCommand o words views k p.number c words
        (set views id (slot_refused v c (slice_index words SHARED_PLACE))) }
{}

/// Proves that the rule still holds, for the same events, after a store into a word that is in no object yet (`CanStore`).
pub fn unborn_stores_keep_the_rule()
    ensures { (o : Opening) (words : List ℕ) (views : List Seen) (id : ℕ) (v : Seen) (p : Part) (at w : ℕ) (k : Keeps o words views) →
        get_elem? views id ≡ some v → IsMutator v p → CanStore o p at → Stays o words views k (set words at w) (set views id (stored v at w)) }
{}

/// Proves that the rule still holds, for the same words and events, after a load of a word in no object yet (`CanStore`). If
/// the load finds the word that is to be stored there, the view is the one after that store. Else the view stays.
pub fn unborn_looks_keep_the_rule()
    ensures { (o : Opening) (words : List ℕ) (views : List Seen) (id : ℕ) (v : Seen) (p : Part) (at w : ℕ) (k : Keeps o words views) →
        get_elem? views id ≡ some v → IsMutator v p → CanStore o p at →
        Stays o words views k words (set views id (met v at w (slice_index words at == w))) }
{}

/// Proves that the rule still holds after the store of a new object's header (`CanBear`), which adds the command.
pub fn allocations_keep_the_rule()
    ensures { (o : Opening) (words : List ℕ) (views : List Seen) (id : ℕ) (v : Seen) (p : Part) (at header : ℕ) (c : Command)
        (k : Keeps o words views) → get_elem? views id ≡ some v → IsMutator v p → CanBear o p at header c →
        AddsCommand o words views k p.number c (set words at header) (set views id (gave_birth v at header c)) }
{}

/// Proves that the rule still holds, for the same words, after a load at a new object's address (`CanBear`). If it finds the
/// object's header, it is the allocation: the command is added, and the view is the one after it. Else events and view stay.
pub fn looks_at_headers_keep_the_rule()
    ensures { (o : Opening) (words : List ℕ) (views : List Seen) (id : ℕ) (v : Seen) (p : Part) (at header : ℕ) (c : Command)
        (k : Keeps o words views) → get_elem? views id ≡ some v → IsMutator v p → CanBear o p at header c →
        let hit = slice_index words at == header in
        AddsIfMet o words views k p.number c hit words (set views id (met_at_birth v at header c hit)) }
{}

/// Proves that the rule still holds after the load of the collector's next scan (`CanScan`). Words stay; the scan is added.
pub fn scans_keep_the_rule()
    ensures { (o : Opening) (words : List ℕ) (views : List Seen) (id : ℕ) (v : Seen) (at offset : ℕ) (k : Keeps o words views) →
        get_elem? views id ≡ some v → (can : CanScan v at offset) →
        AddsScan o words views k can.entry words (set views id (scanned_by v (slice_index words (at + offset)))) }
{}

/// Proves that the first round of a run can open on the words of the empty heap, if the layout is valid (`IsLayout`).
pub fn empty_heap_opens()
    ensures { (layout : Layout) (words : List ℕ) → IsLayout layout → IsEmptyHeap layout words → CanOpen (first_opening layout) words }
{}

/// Proves that, if a round can open, each mutator's hand in the opening has the values of each stack that it made and that
/// has a place.
pub fn old_stacks_are_listed()
    ensures { (o : Opening) (words : List ℕ) → CanOpen o words → (m : ℕ) → m < o.layout.mutators → OwnSlots o [] o.core.world m (hand_of o.hands m) }
{}

/// Proves that, if a round can open on words, they keep the rule, with one seat that has every part, and with no events.
pub fn openings_keep_the_rule()
    ensures { (o : Opening) (words : List ℕ) → CanOpen o words → (k : Keeps o words (whole o ∷ [])) × (k.events ≡ []) }
{}

/// Proves that the rule still holds, for the same words and events, after a seat splits off its first mutator (`CanSplit`).
pub fn mutator_splits_keep_the_rule()
    ensures { (o : Opening) (words : List ℕ) (views : List Seen) (id : ℕ) (v : Seen) (k : Keeps o words views) → get_elem? views id ≡ some v →
        CanSplit v → Stays o words views k words (set views id (keeps_rest v) ++ gives_first v ∷ []) }
{}

/// Proves that the rule still holds, for the same words and events, after a seat gives the collector's part to a new seat.
pub fn collector_splits_keep_the_rule()
    ensures { (o : Opening) (words : List ℕ) (views : List Seen) (id : ℕ) (v : Seen) (k : Keeps o words views) → get_elem? views id ≡ some v →
        v.collects ≡ true → Stays o words views k words (set views id (mutates v) ++ collecting v ∷ []) }
{}

/// Proves that the rule still holds, for the same words and events, after two seats of one opening are joined in the first.
pub fn joins_keep_the_rule()
    ensures { (o : Opening) (words : List ℕ) (views : List Seen) (id other : ℕ) (v w : Seen) (k : Keeps o words views) →
        get_elem? views id ≡ some v → get_elem? views other ≡ some w → other ≢ id → v.opening ≡ w.opening →
        Stays o words views k words (set (set views id (together v w)) other nobody) }
{}

/// Proves that, if a seat has every part, its view agrees with all events (`IsFinished`). When it then gets the view of the
/// only seat, which is the list of all words, the table is stopped.
pub fn a_whole_seat_ends_the_round()
    ensures { (o : Opening) (words : List ℕ) (views : List Seen) (id : ℕ) (v : Seen) (k : Keeps o words views) → get_elem? views id ≡ some v →
        HasAll v → ((n : IsFinished o words v) × (n.events ≡ k.events)) × Stopped words (set views id (exclusive words)) }
{}

/// Proves that the words represent the world after the events of a finished round, if its view has each mutator's part.
pub fn finished_words_represent_a_world()
    ensures { (o : Opening) (words : List ℕ) (v : Seen) → IsFinished o words v → HasEach o v → Leaves o words v }
{}

/// Proves that a mutator's commands and replies among a finished round's events are the commands and replies of its rows, in
/// order. The rows have to be readable by the names that the mutator loaded (`AllReply`).
pub fn replies_are_named()
    ensures { (o : Opening) (words : List ℕ) (v : Seen) (h : IsFinished o words v) (k : ℕ) (p : Part) → get_elem? v.parts k ≡ some p →
        (replies : List (Command × Reply)) → AllReply p.fixed p.rows replies → done_by p.number h.events ≡ replies }
{}

/// Proves that the commands among legal events are a legal history of the reference heap, and lead to the same world.
pub fn events_are_a_history()
    ensures { (s : State) (events : List Happening) → IsLegal s events → IsLegalHistory s.world (rows_in events) ×
        ((replay s events).world ≡ replayed s.world (rows_in events)) }
{}

/// Proves that a mutator's rows in the history of events are its commands and replies among the events, in the same order.
pub fn histories_have_the_rows()
    ensures { (m : ℕ) (events : List Happening) → map (λ row. (row.command, row.reply)) (rows_of m (rows_in events)) ≡ done_by m events }
{}

/// Proves that an event of a round leads from a state to the next (`after`) as the marking machine allows (`Does`).
pub fn events_are_of_the_machine()
    ensures { (s : State) (happening : Happening) → Does s (event_of happening) (after s happening) }
{}
