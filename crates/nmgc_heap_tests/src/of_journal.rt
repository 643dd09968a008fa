//! Texts of names and values, and the lists of a report. Whole reports are in `examples` and `examples/rows`.
use nmgc_journal::*;
use nmgc_world_spec::{Name, Reply, Value};
use std::test::Fail;

// Names and values with their texts: the first three are names.
const TEXTS: [(&str, Value); 6] = [
    ("g", Value::Ref(Name::SHARED)),
    ("0.0", Value::Ref(name!(0, 0))),
    ("31.4294967295", Value::Ref(name!(31, 4294967295))),
    ("nil", Value::Nil),
    ("0", Value::Number(0)),
    ("4611686018427387903", Value::Number(4611686018427387903)),
];

// Tokens that are no name's and no value's text.
const NO_TEXTS: [&str; 10] = [
    "32.0",
    "00.1",
    "0.01",
    "0.4294967296",
    "4611686018427387904",
    "",
    "G",
    "0.",
    ".0",
    "0.0.0",
];

#[test]
fn names_and_values_have_one_text(rt: HostRuntime) -> Result<(), Fail> {
    for (word, value) in &TEXTS {
        let mut out = Vec::new(rt.alloc());
        push_value(&mut out, *value)?;
        assert!(rt; out.as_slice() == word.as_bytes());
        assert!(rt; read_value(word.as_bytes()) == Some(*value));
        let name = match value {
            Value::Ref(name) => Some(*name),
            Value::Nil | Value::Number(_) => None,
        };
        assert!(rt; read_name(word.as_bytes()) == name);
        if let Some(name) = name {
            let mut again = Vec::new(rt.alloc());
            push_name(&mut again, name)?;
            assert!(rt; again.as_slice() == word.as_bytes());
        }
    }
    for word in &NO_TEXTS {
        assert!(rt; read_name(word.as_bytes()).is_none());
        assert!(rt; read_value(word.as_bytes()).is_none());
    }
    Ok(())
}

// The largest number that is packed, the next one, which isn't packed, the largest number and the largest name.
const ANY_SIZE: [Value; 4] = [
    Value::Number(9223372036854775807),
    Value::Number(9223372036854775808),
    Value::Number(18446744073709551615),
    Value::Ref(name!(255, 4294967295)),
];

#[test]
fn values_of_any_size_are_kept(rt: HostRuntime) -> Result<(), Fail> {
    for value in &ANY_SIZE {
        let all = [Reply::Nothing, Reply::Given(*value)];
        let replies = Replies::from_slice(rt.alloc(), &all)?;
        assert!(rt; replies.len() == 2);
        assert!(rt; replies.reply(0) == all[0]);
        assert!(rt; replies.reply(1) == all[1]);
    }
    Ok(())
}

#[test]
fn final_words_are_those_of_their_vector(rt: HostRuntime) -> Result<(), Fail> {
    let words = FinalWords::from_vec(Vec::from_slice(rt.alloc(), &[3, 1, 4])?);
    assert!(rt; words.len() == 3);
    assert!(rt; words.word(2) == 4);
    Ok(())
}
