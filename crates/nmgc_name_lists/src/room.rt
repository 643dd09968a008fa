//! A list of names that takes its memory before it is filled.
//!
//! Its room is one span for each name, so it suffices even if no name follows another. Reserved memory isn't touched until a
//! span is written: if names follow one another, few bytes are ever used. Contracts see the names, and the number of further
//! names for which there is room. A few spans at the front of a large room would keep its memory from being used again. So a
//! list of few spans gets a copy, and the whole room is given back. If there is no memory for the copy, the spans stay in the
//! room.
ghost use Rattle.std.specs.Prelude.{◌≡◌, ◌+◌, ◌<◌, ◌≤◌, [], ◌∷◌, ◌++◌, IfOk, vec_len, vec_capacity};
ghost use Rattle.nmgc_name_lists.specs.Spans.{names_in};

use crate::list::NameList;
use crate::span::Span;
use nmgc_lists::NoMemory;
use nmgc_world_spec::Name;
use std::alloc::Global;
use std::marker::Model;

/// A list of names, with room for more.
#[derive(Drop)]
pub struct NameRoom {
    spans: Vec<Span>,
    count: usize,
}

impl Model for NameRoom {
    ghost use Rattle.std.specs.Prelude.{◌≡◌, ◌-◌, ◌≤◌, length, vec_len, vec_capacity};
    ghost use Rattle.nmgc_name_lists.specs.{Spans.names_in, Room.NameRoom as Shown};

    ghost Value = { Shown };

    ghost view = { λ r. record {
      names = names_in r.spans.items;
      spare = vec_capacity r.spans - r.count;
    } };

    ghost invariant = { λ r. (r.count ≡ length (names_in r.spans.items)) × (vec_len r.spans ≤ r.count) };
}

// Appends a name to names kept as spans. If the name comes right after the last span's last name, and this span isn't full,
// the span gets longer. Otherwise the name becomes a span of its own. Requires room for one more span. Takes no memory.
#[inline]
fn add_name(spans: &mut Vec<Span>, name: Name)
    requires { vec_len spans.old < vec_capacity spans.old }
    ensures names { names_in spans.new.items ≡ names_in spans.old.items ++ name ∷ [] }
    ensures few { vec_len spans.new ≤ vec_len spans.old + 1 }
    ensures capacity { vec_capacity spans.new ≡ vec_capacity spans.old }
{
    let count = spans.len();
    if count > 0 {
        let last = spans[count - 1];
        if last.is_followed_by(name) {
            spans[count - 1] = last.with_name(name);
            return;
        }
    }
    spans.push_reserved(Span::new(name));
}

// The most spans that count as few. They take at most a page, so a stop's time to copy them doesn't grow with the heap.
const FEW: usize = 512;

// Returns the same spans, and gives back their spare room. If there are at most `FEW`, they are copied into memory of their
// own, provided that there is memory for the copy. Otherwise the memory is shrunk; if that fails, the spare room stays.
fn trim_spans(spans: Vec<Span>) -> Vec<Span>
    ensures { result.items ≡ spans.items }
{
    let mut spans = spans;
    if spans.len() <= FEW {
        if let Ok(own) = Vec::from_slice(*spans.allocator(), spans.as_slice()) {
            return own;
        }
    }
    spans.shrink_to_fit();
    spans
}

impl NameRoom {
    /// Makes an empty list with room for `names` names. Takes memory for this room, and no other memory.
    pub fn with_room(alloc: Global, names: usize) -> Result<NameRoom, NoMemory>
        ensures names { IfOk result (λ room. room.names ≡ []) }
        ensures spare { IfOk result (λ room. names ≤ room.spare) }
    {
        Ok(NameRoom {
            spans: Vec::with_capacity(alloc, names)?,
            count: 0,
        })
    }

    /// Adds a name at the end. There has to be room for it. Takes no memory, and constant time.
    #[inline]
    pub fn add(&mut self, name: Name)
        requires { 0 < self.old.spare }
        ensures names { self.new.names ≡ self.old.names ++ name ∷ [] }
        ensures spare { self.new.spare + 1 ≡ self.old.spare }
    {
        add_name(&mut self.spans, name);
        self.count += 1;
    }

    /// Returns the list's spans. The list has the names of the first span, then the names of the next, and so on.
    pub fn spans(&self) -> &[Span]
        ensures { names_in result.now ≡ self.now.names }
    {
        self.spans.as_slice()
    }

    /// Returns the names as a list. Can't fail. A list of few spans is copied, and spare room is given back, each only if
    /// memory suffices.
    pub fn into_list(self) -> NameList
        ensures { result ≡ self.names }
    {
        let NameRoom { spans, count } = self;
        NameList {
            spans: trim_spans(spans),
            count,
        }
    }
}
