//! An array of items in a struct of its own, so that a contract can give the array after a loan of its items.
ghost use Rattle.std.specs.{Prelude.◌≡◌, Prelude.◌≤◌, Prelude.take, Borrow.sem};

/// An array of `N` items.
#[derive(Drop)]
pub(crate) struct Cells<T, const N: usize> {
    pub(crate) xs: [T; N],
}

impl<T, const N: usize> Cells<T, N> {
    ghost use Rattle.nmgc_lists.specs.Cells.{lends_front};

    /// Lends the first `len` items, for writing. Requires that `len` is at most `N`.
    #[inline]
    pub(crate) fn front_mut(&mut self, len: usize) -> &mut [T]
        requires { len ≤ N }
        ensures* writes_back { sem 𝓛 (lends_front T.row N.row self.entry result) }
        ensures value { result.now ≡ take len self.old.xs }
    {
        &mut self.xs[..len]
    }
}
