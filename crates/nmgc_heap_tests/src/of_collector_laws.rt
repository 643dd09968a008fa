//! Each law is called once, to show that it asks nothing.
use nmgc_collector_laws::{idle, leaving, marking, samples, ties};

#[test]
fn laws_ask_nothing(rt: HostRuntime) {
    let _ = &rt;
    idle::a_heap_at_rest_opens_a_round();
    idle::slices_are_gathered();
    idle::a_round_is_a_history();
    idle::roots_are_represented();
    idle::new_objects_are_in_order();
    idle::promotion_fields_are_recorded();
    idle::a_round_leaves_a_heap_at_a_stop();
    idle::a_promotion_leaves_a_heap_at_rest();
    leaving::a_round_leaves_all_for_a_promotion();
    leaving::the_snapshot_outlives_a_round();
    marking::a_round_opens_while_a_cycle_marks();
    marking::owed_objects_are_remembered();
    marking::the_machine_follows_a_round();
    marking::a_round_begins_with_a_tied_marker();
    marking::a_stop_is_prepared();
    marking::a_cycle_marks_after_each_call();
    marking::a_resolved_cycle_is_closed();
    marking::moved_join_the_list();
    marking::waiting_segments_stay();
    marking::freed_places_can_be_dropped();
    marking::a_closing_is_in_bounds();
    marking::a_promotion_keeps_marking();
    marking::the_pace_is_kept();
    marking::the_heap_stays_represented();
    samples::a_run_of_one_object_is_lawful();
    ties::ties_agree();
    ties::a_cycle_closes();
}
