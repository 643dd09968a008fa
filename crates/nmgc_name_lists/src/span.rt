//! Names of one maker, one serial after the other: the maker, the number of names, and the serial of the first. The count has
//! 16 bits, so that a span takes the eight bytes of a name. A longer sequence of names is several spans.
//!
//! Easy to get wrong: fields lie in memory in the order of their declaration, so the count is declared next to the maker.
ghost use Rattle.std.specs.Prelude.{◌≡◌, ◌↔◌, ◌+◌, ◌<◌, ◌≤◌, ◌^◌, [], ◌∷◌, ◌++◌, length, slice_get, Some, IsTrue};

use nmgc_world_spec::Name;

/// Names of one maker, one serial after the other.
#[derive(Clone, Copy)]
pub struct Span {
    pub(crate) maker: u8,
    count: u16,
    pub(crate) first: u32,
    ghost fits: { first + count ≤ 2 ^ 32 },
}

// The bytes that a list takes for each of its spans.
const _: () = prove!(size_of::<Span>() == 8);

impl Span {
    ghost use Rattle.nmgc_name_lists.specs.{Spans.names_of, Order.IsNext};

    /// Makes the span of one name.
    #[inline]
    pub(crate) fn new(name: Name) -> Span
        ensures { names_of result ≡ name ∷ [] }
    {
        Span {
            maker: name.maker,
            count: 1,
            first: name.serial,
        }
    }

    /// Returns true exactly if a name comes right after the span's last name, and the span's count has room for one more.
    #[inline]
    pub(crate) fn is_followed_by(&self, name: Name) -> bool
        ensures { IsTrue result ↔ IsNext self.now name }
    {
        self.maker == name.maker
            && self.count < u16::MAX
            && u64::from(self.first) + u64::from(self.count) == u64::from(name.serial)
    }

    /// Returns the span that has `name` after this span's names. Requires what `is_followed_by` tests.
    #[inline]
    pub(crate) fn with_name(&self, name: Name) -> Span
        requires { IsNext self.now name }
        ensures { names_of result ≡ names_of self.now ++ name ∷ [] }
    {
        Span {
            maker: self.maker,
            count: self.count + 1,
            first: self.first,
        }
    }

    /// Returns the number of names in the span.
    #[inline]
    pub fn count(&self) -> u16
        ensures { result ≡ length (names_of self.now) }
    {
        self.count
    }

    /// Returns the span's name at position `at`, counted from 0. Requires that the span has a name there.
    #[inline]
    pub fn name(&self, at: u16) -> Name
        requires { at < length (names_of self.now) }
        ensures { slice_get (names_of self.now) at ≡ Some result }
    {
        let serial = self.first + at as u32;
        Name {
            maker: self.maker,
            serial,
        }
    }
}
