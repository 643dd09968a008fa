//! The names of moved objects, which each stop notes, and the names in a cycle's row, which a report has in order.
ghost use Rattle.std.specs.Prelude.{◌≡◌, ◌<◌, length, map, All, Contains};
ghost use Rattle.nmgc_minor.specs.{Placing.moved_of, declared.placing.Move.Move as Moving};
ghost use Rattle.nmgc_sweep.specs.NameTable.{HaveNoted, entry_of};
ghost use Rattle.nmgc_cycle.specs.Shown.{report_row, HasNamesOnce};

use nmgc_journal::CycleRow;
use nmgc_minor::Move;
use nmgc_sweep::NameTable;

/// Notes the names of moved objects at their new addresses. Takes time proportional to the moved objects.
pub(crate) fn note_moves(names: &mut NameTable, moves: &[Move])
    requires { (m : Moving) → Contains moves.now m → entry_of m.to.0 < length names.old }
    ensures { HaveNoted (map moved_of moves.now) names.old names.new }
{
    for moved in moves {
        names.note(moved.to, moved.name);
    }
}

// Puts the lists `had` and `freed` of a cycle's row in order. Requires that neither list has a name twice.
fn put_row_in_order(row: &mut CycleRow)
    requires { HasNamesOnce row.old }
    ensures { row.new ≡ report_row row.old }
{
    row.had.put_in_order();
    row.freed.put_in_order();
}

/// Puts each row's lists of names in order. Requires that no list has a name twice. Takes no memory, but time to sort the
/// spans.
pub(crate) fn put_rows_in_order(rows: &mut [CycleRow])
    requires { All HasNamesOnce rows.old }
    ensures { rows.new ≡ map report_row rows.old }
{
    for row in rows {
        put_row_in_order(row);
    }
}
