//! Each law is called once, to show that it asks nothing.
use nmgc_limits::{constants_are_these, limits_are_as_specified};

#[test]
fn laws_ask_nothing(rt: HostRuntime) {
    let _ = &rt;
    limits_are_as_specified();
    constants_are_these();
}
