//! The rows of cycles that ended, whose names are put in order late.
//!
//! If every other object is freed, a cycle has a span of names for each freed block. Sorting the spans at the stop that ends
//! the cycle would take time for the whole heap, and an observer that only counts needs no order. So the names are sorted
//! once the rows are taken out (`into_rows`). Contracts see them in order from the beginning.
//!
//! Invariant: no list of a row has a name twice. So it is enough to sort the spans.
ghost use Rattle.std.specs.Prelude.{◌≡◌, [], ◌++◌, OnOk, map, All};
ghost use Rattle.nmgc_cycle.specs.Shown.{report_row, HasNamesOnce};

use crate::name_notes::put_rows_in_order;
use nmgc_journal::CycleRow;
use nmgc_lists::{List, NoMemory};
use std::alloc::Global;
use std::marker::Model;

/// The rows of cycles that ended. Contracts see a list of rows, each with its names in order.
#[derive(Drop)]
pub struct EndedCycles {
    rows: List<CycleRow>,
}

impl Model for EndedCycles {
    ghost use Rattle.std.specs.Prelude.{List, map, All};
    ghost use Rattle.nmgc_journal.specs.declared.report.CycleRow.{CycleRow as Row};
    ghost use Rattle.nmgc_cycle.specs.Shown.{report_row, HasNamesOnce};

    ghost Value = { List Row };

    ghost view = { λ e. map report_row e.rows };

    ghost invariant = { λ e. All HasNamesOnce e.rows };
}

impl EndedCycles {
    /// Returns no rows. Takes no memory.
    pub fn none(alloc: Global) -> EndedCycles
        ensures { result ≡ [] }
    {
        EndedCycles {
            rows: List::new(alloc),
        }
    }

    /// Returns these rows, whose names may have any order. Requires that no list has a name twice. Constant time.
    pub fn of(rows: List<CycleRow>) -> EndedCycles
        requires { All HasNamesOnce rows }
        ensures { result ≡ map report_row rows }
    {
        EndedCycles { rows }
    }

    /// Appends the rows of `more`.
    pub fn append(&mut self, more: EndedCycles) -> Result<(), NoMemory>
        ensures { OnOk result (self.new ≡ self.old ++ more) }
    {
        add_rows(&mut self.rows, more.rows)
    }

    /// Returns the rows with their names in any order. So only the number of a row's names is known. Constant time.
    pub fn in_any_order(&self) -> &[CycleRow]
        ensures { map report_row result.now ≡ self.now }
    {
        self.rows.items()
    }

    /// Puts the names of each row in order, and returns the rows. Takes no memory, but time to sort the spans.
    pub fn into_rows(self) -> List<CycleRow>
        ensures { result ≡ self }
    {
        let EndedCycles { mut rows } = self;
        put_rows_in_order(rows.items_mut());
        rows
    }
}

// Adds the rows of `more` at the end of `rows`. If memory is refused, a part of them may have been added.
fn add_rows(rows: &mut List<CycleRow>, more: List<CycleRow>) -> Result<(), NoMemory>
    requires once { All HasNamesOnce rows.old }
    requires more { All HasNamesOnce more }
    ensures once { All HasNamesOnce rows.new }
    ensures added { OnOk result (rows.new ≡ rows.old ++ more) }
{
    let mut more = more;
    while let Some(row) = more.take_first() {
        rows.push(row)?;
    }
    Ok(())
}
