//! A fixed number of items that lie in a list itself, with the allocator for the memory of more items.
ghost use Rattle.std.specs.{Prelude.◌≡◌, Prelude.length, Borrow.sem};

use crate::cells::Cells;
use std::alloc::Global;

/// `N` items, and the allocator for the memory of more items.
#[derive(Drop)]
pub(crate) struct FixedVec<T, const N: usize> {
    cells: Cells<T, N>,
    alloc: Global,
}

impl<T, const N: usize> FixedVec<T, N> {
    ghost use Rattle.nmgc_lists.specs.FixedVec.{lends_items};

    /// Makes a `FixedVec` of these items, with `alloc` for the memory of more items.
    pub(crate) fn new(alloc: Global, items: [T; N]) -> Self
        ensures { result.cells.xs ≡ items }
    {
        FixedVec {
            cells: Cells { xs: items },
            alloc,
        }
    }

    /// Returns the allocator for the memory of more items.
    pub(crate) fn alloc(&self) -> Global {
        self.alloc
    }

    /// Returns the items as an array.
    pub(crate) fn into_array(self) -> [T; N]
        ensures { result ≡ self.cells.xs }
    {
        let FixedVec {
            cells: Cells { xs },
            alloc: _,
        } = self;
        xs
    }

    /// Returns the items in order.
    pub(crate) fn as_slice(&self) -> &[T]
        ensures { result.now ≡ self.now.cells.xs }
    {
        &self.cells.xs[..]
    }

    /// Lends the items in order, for writing.
    pub(crate) fn as_mut_slice(&mut self) -> &mut [T]
        requires { length self.old.cells.xs ≡ N }
        ensures* writes_back { sem 𝓛 (lends_items T.row N.row self.entry result) }
        ensures value { result.now ≡ self.old.cells.xs }
    {
        self.cells.front_mut(N)
    }
}
