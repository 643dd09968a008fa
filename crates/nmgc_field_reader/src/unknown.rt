//! The name in a line that the heap has to have and doesn't have, for the text of a refusal.
use crate::names::FieldNames;

/// Returns the first name in a line that the heap has to have and doesn't have, or `None` if it has all.
pub(crate) fn first_unknown<'a>(names: &FieldNames, words: &[&'a [u8]]) -> Option<&'a [u8]> {
    let [word, rest @ ..] = words else {
        return None;
    };
    if is_list(word) {
        return first_outside(names, rest);
    }
    match rest {
        [_, roots @ ..] if *word == b"scan".as_slice() || *word == b"push".as_slice() => {
            first_outside(names, roots)
        }
        [verb, _, _, values @ ..] if *verb == b"new".as_slice() => first_outside(names, values),
        [verb, name, _, values @ ..] if *verb == b"write".as_slice() => {
            first_outside(names, &[*name]).or(first_outside(names, values))
        }
        [_, name, ..] => first_outside(names, &[*name]),
        _ => None,
    }
}

// Whether a line that begins with this token goes on with names alone.
fn is_list(word: &[u8]) -> bool {
    word == b"mark".as_slice()
        || word == b"marked".as_slice()
        || word == b"black".as_slice()
        || word == b"freed".as_slice()
}

// Returns the first of these tokens that isn't a hyphen, and no name of the heap.
fn first_outside<'a>(names: &FieldNames, words: &[&'a [u8]]) -> Option<&'a [u8]> {
    for word in words {
        if *word != b"-".as_slice() && names.object(word).is_none() {
            return Some(*word);
        }
    }
    None
}
