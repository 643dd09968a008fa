//! Words are loaded and stored through the trait, at each list that implements it. Each law is called once: it asks nothing.
ghost use Rattle.std.specs.Prelude.{◌<◌, length};

use nmgc_heap_spec::{HeapWords, laws};
use nmgc_lists::List;
use std::marker::Brand;
use std::test::Fail;

/// Exchanges the words at two addresses.
fn exchange<H: HeapWords>(heap: &mut H, left: usize, right: usize)
    requires left { left < length (H.words heap.old) }
    requires right { right < length (H.words heap.old) }
{
    let first = heap.load(left);
    let second = heap.load(right);
    heap.store(left, second);
    heap.store(right, first);
}

// A vector of words.
#[test]
fn vector(rt: HostRuntime) -> Result<(), Fail> {
    let mut words = vec![in rt.alloc(); 7, 8, 9]?;
    exchange(&mut words, 0, 2);
    assert!(rt; words.as_slice() == [9, 8, 7].as_slice());
    Ok(())
}

// A list of words.
#[test]
fn list(rt: HostRuntime) -> Result<(), Fail> {
    let mut words = List::from_vec(vec![in rt.alloc(); 7, 8, 9]?)?;
    exchange(&mut words, 0, 2);
    assert!(rt; words.items() == [9, 8, 7].as_slice());
    Ok(())
}

// Each law asks nothing.
#[test]
fn laws_ask_nothing(rt: HostRuntime) {
    let _ = &rt;
    laws::words_have_one_meaning::<Brand>();
    laws::meanings_are_fields::<Brand>();
    laws::words_determine_the_world::<Brand, Brand>();
    laws::the_world_determines_words::<Brand, Brand>();
    laws::words_stay_if_no_node_changes::<Brand>();
    laws::fields_may_change::<Brand>();
    laws::unspecified_words_may_change::<Brand>();
    laws::objects_may_be_made::<Brand, Brand>();
    laws::objects_may_move::<Brand>();
    laws::worlds_may_be_remembered::<Brand, Brand>();
    laws::places_may_be_dropped::<Brand>();
    laws::places_may_be_added::<Brand>();
    laws::command_is_one_change();
    laws::only_new_objects_become_tracked();
    laws::headers_stay::<Brand>();
    laws::objects_have_words::<Brand>();
    laws::a_small_world_has_words();
    laws::wrong_words_fail::<Brand>();
}
