//! The rows of a run so far: their number, and in contracts the rows themselves.
//!
//! A collector hands each row on as it comes, and keeps none. Its clauses are about all rows of the run so far. So the list of
//! rows exists in proofs alone (`Witness`), and only its length is kept.
//!
//! Easy to get wrong: such a list says nothing by itself. `stop` and `round` return rows, and their clauses say that these rows
//! joined the list. `run_observed` says that its observer was given exactly them.
ghost use Rattle.std.specs.Prelude.{◌≡◌, ◌-◌, ◌^◌, [], ◌∷◌, ◌++◌, min, length};

use nmgc_round::Witness;
use nmgc_round::witness::WitnessFor;
use std::marker::{Model, PhantomData};

// The list of rows, which only clauses read. It has no bytes, and no value of it is ever made. So it has one size for rows of
// each type.
struct RowList<T> {
    marker: PhantomData<T>,
}

impl<T> Model for RowList<T> {
    ghost use Rattle.std.specs.Prelude.{List, []};

    ghost Value = { List T };

    ghost view = { λ _. [] };
}

/// Rows that were handed on, in order. Contracts see a list; only its length is kept.
#[derive(Drop)]
pub struct PastRows<T> {
    count: u64,
    list: Witness<RowList<T>>,
}

impl<T> Model for PastRows<T> {
    ghost use Rattle.std.specs.Prelude.{◌≡◌, ◌-◌, ◌^◌, List, min, length};

    ghost Value = { List T };

    ghost view = { λ rows. rows.list.value };

    ghost invariant = { λ rows. rows.count ≡ min (length rows.list.value) (2 ^ 64 - 1) };
}

// No rows.
struct NoRows;

impl<T> WitnessFor<(), RowList<T>> for NoRows {
    ghost wanted = { λ about rows. rows ≡ [] };
}

// The rows before, and one more.
struct OneMore;

impl<'a, T> WitnessFor<(&'a PastRows<T>, &'a T), RowList<T>> for OneMore {
    ghost wanted = { λ about rows. rows ≡ about.0.now ++ about.1.now ∷ [] };
}

impl<T> PastRows<T> {
    /// Returns the rows of a run before its first stop: none. Takes no memory.
    pub fn new() -> Self
        ensures { result ≡ [] }
    {
        let list = Witness::of::<(), NoRows>(&());
        PastRows { count: 0, list }
    }

    /// Returns the number of rows, and at most the greatest number of 64 bits.
    pub fn count(&self) -> u64
        ensures { result ≡ min (length self.now) (2 ^ 64 - 1) }
    {
        self.count
    }

    /// Notes that a row was handed on. The caller has the row, and gives it to the run's observer. Takes no memory.
    pub fn note(&mut self, row: &T)
        ensures { self.new ≡ self.old ++ row.now ∷ [] }
    {
        let list = Witness::of::<(&PastRows<T>, &T), OneMore>(&(&*self, row));
        let count = self.count.saturating_add(1);
        *self = PastRows { count, list };
    }
}
