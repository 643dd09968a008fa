//! A list of names, to be read and put in order. Contracts see it as a list. It can't grow: it is made as a `NameRoom`.
ghost use Rattle.std.specs.{Prelude.◌≡◌, Prelude.length, List.Sorted.IsPermutation};
ghost use Rattle.nmgc_world_spec.specs.Reach.{AreDistinct};
ghost use Rattle.nmgc_name_lists.specs.{Order.in_order, Spans.names_in, Order.AreSorted};

use crate::span::Span;
use std::marker::Model;

/// A list of names, which can be read and sorted.
#[derive(Drop)]
pub struct NameList {
    pub(crate) spans: Vec<Span>,
    pub(crate) count: usize,
}

impl Model for NameList {
    ghost use Rattle.std.specs.Prelude.{List, ◌≡◌, length};
    ghost use Rattle.nmgc_world_spec.specs.declared.value.Name.{Name as Named};
    ghost use Rattle.nmgc_name_lists.specs.Spans.{names_in};

    ghost Value = { List Named };

    ghost view = { λ l. names_in l.spans.items };

    ghost invariant = { λ l. l.count ≡ length (names_in l.spans.items) };
}

// Sorts spans by the maker and the serial of their first names, in place.
fn sort(spans: &mut Vec<Span>)
    ensures permutation { IsPermutation spans.old.items spans.new.items }
    ensures sorted { AreSorted spans.new.items }
{
    spans.sort_unstable_by_key(|span| (span.maker, span.first));
}

impl NameList {
    /// Returns the number of names. Constant time.
    pub fn len(&self) -> usize
        ensures { result ≡ length self.now }
    {
        self.count
    }

    /// Returns the list's spans. The list has the names of the first span, then the names of the next, and so on.
    pub fn spans(&self) -> &[Span]
        ensures { names_in result.now ≡ self.now }
    {
        self.spans.as_slice()
    }

    /// Sorts the names by maker, then by serial. Requires that no name is in the list twice. Then no two spans overlap, so it
    /// is enough to sort the spans. Takes no memory, and time for sorting the spans.
    pub fn put_in_order(&mut self)
        requires { AreDistinct self.old }
        ensures { self.new ≡ in_order self.old }
    {
        sort(&mut self.spans);
    }
}
