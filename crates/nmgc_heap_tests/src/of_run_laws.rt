//! Each law is called once, to show that it asks nothing.
use nmgc_run_laws::laws;

#[test]
fn laws_ask_nothing(rt: HostRuntime) {
    let _ = &rt;
    laws::classes_are_counted();
    laws::a_run_takes_a_further_round();
    laws::left_is_determined();
    laws::free_segments_are_counted();
    laws::a_version_changes_nothing();
    laws::each_cycle_has_its_row();
    laws::closings_are_soon();
    laws::places_are_blocks();
    laws::tracked_names_have_blocks();
    laws::cycles_are_in_course();
    laws::runs_stay_within_limits();
    laws::lawful_reports_are_of_runs();
}
