//! Each law is called once, to show that it asks nothing.
use nmgc_world_laws::laws;

#[test]
fn laws_ask_nothing(rt: HostRuntime) {
    let _ = &rt;
    laws::worlds_stay_worlds();
    laws::other_mutators_keep_their_registers();
    laws::only_a_new_name_becomes_held();
    laws::names_out_of_reach_stay_out();
    laws::only_live_or_new_names_are_held();
    laws::nothing_reachable_is_freed();
    laws::new_values_are_stored();
    laws::shapes_stay();
    laws::worlds_stay_within_limits();
}
