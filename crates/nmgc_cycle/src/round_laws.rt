//! Laws on a round: it opens with the state of the stop before it, and leads to the state of the run at its end.
//!
//! A function here does nothing; its contract is the law, and its body calls the laws that the proof uses.
ghost use Rattle.nmgc_cycle.specs.RoundLaws.{HasOpeningLaws, HasRoundLaws, HasSliceLaws};

use nmgc_collector_laws::idle::{
    a_heap_at_rest_opens_a_round, a_round_is_a_history, a_round_leaves_a_heap_at_a_stop,
    finalised_are_listed, slices_are_gathered,
};
use nmgc_collector_laws::marking::{
    a_cycle_marks_after_each_call, a_round_begins_with_a_tied_marker,
    a_round_opens_while_a_cycle_marks, freed_places_can_be_dropped, owed_objects_are_remembered,
    the_heap_stays_represented, the_machine_follows_a_round, the_pace_is_kept,
    waiting_segments_stay,
};
use nmgc_mutator::laws::a_round_finds_mutators_ready;
use nmgc_sweep::laws::unswept_segments_wait;

// Proves that a heap at rest opens a round, with or without a marking cycle. At a stop of a marking cycle the heap is at rest
// if the mutators have nothing left of their round. The cycle's marking machine has the cycle's snapshot.
fn an_opening_leads()
    ensures { HasOpeningLaws }
{
    a_heap_at_rest_opens_a_round();
    a_round_opens_while_a_cycle_marks();
    the_heap_stays_represented();
    a_round_begins_with_a_tied_marker();
}

// Proves the laws that a round's slices need (`HasSliceLaws`): the round can open, with mutators ready and a marker tied.
// After all slices the seats have all parts, and mutators remember the objects owed if they remembered none before.
pub(crate) fn slices_lead()
    ensures { HasSliceLaws }
{
    an_opening_leads();
    a_round_begins_with_a_tied_marker();
    a_round_finds_mutators_ready();
    slices_are_gathered();
    owed_objects_are_remembered();
}

// Proves the laws that a round needs (`HasRoundLaws`): it can open, its commands have one legal order, words and segments
// represent the state after them, and a stop can follow. The cycle in progress goes on, if there is one.
pub(crate) fn a_round_leads()
    ensures { HasRoundLaws }
{
    an_opening_leads();
    the_heap_stays_represented();
    a_round_is_a_history();
    a_round_leaves_a_heap_at_a_stop();
    finalised_are_listed();
    the_machine_follows_a_round();
    a_cycle_marks_after_each_call();
    the_pace_is_kept();
    freed_places_can_be_dropped();
    waiting_segments_stay();
    unswept_segments_wait();
}
