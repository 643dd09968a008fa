//! Each law is called once, to show that it asks nothing.
use nmgc_stop_spec::laws;

#[test]
fn laws_ask_nothing(rt: HostRuntime) {
    let _ = &rt;
    laws::blocks_lie_apart();
    laws::fields_are_shown();
    laws::placing_takes_a_new_block();
    laws::reserve_suffices();
    laws::a_stop_may_have_a_new_object();
}
