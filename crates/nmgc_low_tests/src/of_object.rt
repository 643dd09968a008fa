//! Worked numbers of words, sizes and addresses, and a queue from end to end.
use nmgc_limits::MAKERS;
use nmgc_lists::ListMemory;
use nmgc_object::{
    Address, Field, FinQueue, Header, Layout, Nursery, block_words, class_of, decode_header,
    decode_name, decode_value, encode_header, encode_name, encode_value, fields_of, header_of,
    laws, name_of, object_words, words_of,
};
use nmgc_world_spec::{Kind, Name};
use std::test::Fail;

// Headers have these words, and are read back from them; words of no header aren't read.
#[test]
fn headers(rt: HostRuntime) {
    let rows = [
        (Kind::Con, 7, 2, 4, 4153),
        (Kind::Arr, 0, 16, 18, 32_771),
        (Kind::Stack, 0, 4094, 4096, 8_384_518),
    ];
    for (kind, tag, fields, words, word) in rows {
        let header = Header { kind, tag, fields };
        assert!(rt; header.is_valid());
        assert!(rt; object_words(header) == words);
        assert!(rt; encode_header(header) == word);
        assert!(rt; decode_header(word) == Some(header));
        assert!(rt; header_of(encode_header(header)) == header);
        assert!(rt; fields_of(encode_header(header)) == fields);
    }
    for word in [
        0,
        7,
        11,
        2,
        2 + 2 * 2048,
        4,
        4 + 10 * 2048,
        5 + 2 * 2048,
        1 + 4095 * 2048,
    ] {
        assert!(rt; decode_header(word) == None);
    }
}

// The same of names.
#[test]
fn names(rt: HostRuntime) {
    for (maker, serial, word) in [(3, 10, 643), (32, 0, 32)] {
        let name = Name { maker, serial };
        assert!(rt; maker < MAKERS || serial == 0);
        assert!(rt; encode_name(name) == word);
        assert!(rt; decode_name(word) == Some(name));
        assert!(rt; name_of(encode_name(name)) == name);
    }
    for word in [33, 96, 64 * 4_294_967_296] {
        assert!(rt; decode_name(word) == None);
    }
}

// The same of field words, with the greatest number, the first word past it and the first pointer that is too far.
#[test]
fn fields(rt: HostRuntime) {
    let greatest = 4_611_686_018_427_387_903;
    assert!(rt; encode_value(Field::Unset) == 0);
    assert!(rt; encode_value(Field::Nil) == 1);
    assert!(rt; encode_value(Field::Number(5)) == 13);
    assert!(rt; encode_value(Field::Number(greatest)) == 9_223_372_036_854_775_809);
    assert!(rt; encode_value(Field::Pointer(Address(33))) == 66);
    let rows = [
        (0, Some(Field::Unset)),
        (1, Some(Field::Nil)),
        (13, Some(Field::Number(5))),
        (66, Some(Field::Pointer(Address(33)))),
        (9_223_372_036_854_775_809, Some(Field::Number(greatest))),
        (9_223_372_036_854_775_811, None),
        (8_589_934_592, None),
    ];
    for (word, field) in rows {
        assert!(rt; decode_value(word) == field);
    }
}

// The words, the class and the block of an object.
#[test]
fn sizes(rt: HostRuntime) {
    let rows = [
        (Kind::Con, 2, 4, 0, 4),
        (Kind::Weak, 3, 5, 1, 5),
        (Kind::Var, 1, 3, 0, 4),
        (Kind::Arr, 0, 2, 0, 4),
        (Kind::Thunk, 8, 11, 7, 11),
        (Kind::Con, 14, 16, 12, 16),
        (Kind::Arr, 15, 17, 13, 32),
        (Kind::Arr, 31, 33, 14, 64),
        (Kind::Stack, 4094, 4096, 20, 4096),
    ];
    for (kind, parts, words, class, block) in rows {
        assert!(rt; parts <= 4094);
        assert!(rt; words_of(kind, parts) == words);
        assert!(rt; 2 <= words && words <= 4096 && class <= 20);
        assert!(rt; class_of(words) == class);
        assert!(rt; block_words(class) == block);
    }
}

// The bases of segments and nurseries, and the reserve.
#[test]
fn places(rt: HostRuntime) {
    for (nursery, total, reserve) in [(64, 2144, 17), (128, 2208, 19), (256, 2336, 23)] {
        assert!(rt; 64 <= nursery && nursery <= 1000);
        let layout = layout!(segments: 32, words: 64, nursery: nursery, mutators: 1);
        assert!(rt; layout.words.is_power_of_two());
        assert!(rt; layout.segment_base(0) == 32);
        assert!(rt; layout.segment_base(31) == 2016);
        assert!(rt; layout.nursery_base(0) == 2080);
        assert!(rt; layout.total() == total);
        assert!(rt; layout.classes() == 15);
        assert!(rt; layout.reserve() == reserve);
    }
    let nursery = Nursery {
        base: 2080,
        top: 2083,
        end: 2144,
    };
    assert!(rt; nursery.left() == 61);
}

// A queue of words gives its first word first, also after it grew.
#[test]
fn finalisers(rt: HostRuntime) -> Result<(), Fail> {
    let mut queue = FinQueue::new(rt.alloc());
    queue.reserve(3)?;
    queue.add(66);
    queue.add(1);
    queue.add(13);
    assert!(rt; queue.take_first() == Some(66));
    assert!(rt; queue.take_first() == Some(1));
    queue.reserve(1)?;
    queue.add(68);
    assert!(rt; queue.words() == [13, 68].as_slice());
    queue.set(1, 70);
    assert!(rt; queue.words() == [13, 70].as_slice());
    assert!(rt; queue.take_first() == Some(13));
    assert!(rt; queue.take_first() == Some(70));
    assert!(rt; queue.take_first() == None);
    queue.reserve(2)?;
    queue.add(66);
    queue.add(13);
    assert!(rt; queue.take_first() == Some(66));
    assert!(rt; queue.into_list(ListMemory::new(rt.alloc())?).items() == [13].as_slice());
    Ok(())
}

// Each law asks nothing.
#[test]
fn laws_ask_nothing(rt: HostRuntime) {
    let _ = &rt;
    laws::constants_are_these();
    laws::words_differ();
    laws::places_lie_apart();
    laws::parts_lie_apart();
    laws::objects_have_classes();
}
