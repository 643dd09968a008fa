//! A set of names.
//!
//! The names of a world are dense: a maker's serials run from 0 without a gap. So a set is a row of marks for each maker.
//! Adding a name and asking for a name take constant time, and the rows in order give the names in order. The search for live
//! names ends, since it only adds names to its set, and the set has places for finitely many.
ghost use Rattle.std.specs.Prelude.{◌≡◌, ◌+◌, ◌<◌, ◌≤◌, ◌^◌, [], ◌∷◌, ◌++◌, length, true, false, not, replicate, slice_index_or, slice_set, IfOk, OnOk, All};
ghost use Rattle.nmgc_graph.specs.Marks.{HasPlace, IsMarked, mark_of, row_of, with_mark};
ghost use Rattle.nmgc_world_spec.specs.{Reach.Lists, Order.ListsBefore};

use nmgc_lists::{List, NoMemory};
use nmgc_world_spec::Name;
use std::alloc::Global;
use std::marker::Model;

/// A set of names, with places for finitely many names of each maker.
#[derive(Drop)]
pub struct Marks {
    rows: List<List<bool>>,
}

impl Model for Marks {
    ghost use Rattle.std.specs.Prelude.{List, Bool};

    ghost Value = { List (List Bool) };

    ghost view = { λ m. m.rows };
}

impl Marks {
    /// Makes an empty set, without places for names. Takes no memory.
    pub(crate) fn new(alloc: Global) -> Self
        ensures { result ≡ [] }
    {
        Marks {
            rows: List::new(alloc),
        }
    }

    /// Makes places for `count` names of the next maker. None of these names is in the set.
    pub(crate) fn add_maker(&mut self, alloc: Global, count: usize) -> Result<(), NoMemory>
        ensures { OnOk result (self.new ≡ self.old ++ replicate count false ∷ []) }
    {
        let row = List::from_vec(vec![in alloc; false; count]?)?;
        self.rows.push(row)
    }

    /// Adds a name that the set has a place for, and returns whether it was missing. Takes no memory, and constant time.
    pub fn insert(&mut self, name: Name) -> bool
        requires { HasPlace self.old name }
        ensures new { result ≡ not (mark_of self.old name) }
        ensures marks { self.new ≡ with_mark self.old name }
    {
        set_mark(&mut self.rows.items_mut()[name.maker as usize], name.serial)
    }

    /// Whether the name is in the set. Takes no memory, and constant time.
    pub fn contains(&self, name: Name) -> bool
        ensures { result ≡ mark_of self.now name }
    {
        match self.rows.items().get(name.maker as usize) {
            Some(row) => is_set(row.items(), name.serial),
            None => false,
        }
    }

    /// Returns the names of the set in order. After `NoMemory` there is no answer. Takes time for each place of the set.
    pub fn names(&self, alloc: Global) -> Result<List<Name>, NoMemory>
        requires makers { length self.now ≤ 256 }
        requires serials { All (λ row. length row ≤ 2 ^ 32) self.now }
        ensures { IfOk result (λ names. Lists (IsMarked self.now) names) }
    {
        let mut names = List::new(alloc);
        for maker in 0..self.rows.items().len() {
            self.list_row(maker as u8, &mut names)?;
        }
        Ok(names)
    }

    // Returns the marks of one maker.
    fn row(&self, maker: u8) -> &[bool]
        requires { maker < length self.now }
        ensures { result.now ≡ row_of self.now maker }
    {
        self.rows.items()[maker as usize].items()
    }

    // Adds the set's names of `maker` to a list that already has the set's names of all earlier makers.
    fn list_row(&self, maker: u8, names: &mut List<Name>) -> Result<(), NoMemory>
        requires maker { maker < length self.now }
        requires serials { All (λ row. length row ≤ 2 ^ 32) self.now }
        requires before { ListsBefore (IsMarked self.now) maker 0 names.old }
        ensures { OnOk result (ListsBefore (IsMarked self.now) (maker + 1) 0 names.new) }
    {
        for (serial, marked) in self.row(maker).iter().enumerate() {
            if *marked {
                names.push(Name {
                    maker,
                    serial: serial as u32,
                })?;
            }
        }
        Ok(())
    }
}

// Marks a serial, and returns whether it wasn't marked before.
fn set_mark(row: &mut List<bool>, serial: u32) -> bool
    requires { serial < length row.old }
    ensures new { result ≡ not (slice_index_or row.old serial false) }
    ensures row { row.new ≡ slice_set row.old serial true }
{
    let mark = &mut row.items_mut()[serial as usize];
    let new = !*mark;
    *mark = true;
    new
}

// Whether a serial is marked. A serial without a place isn't marked.
fn is_set(row: &[bool], serial: u32) -> bool
    ensures { result ≡ slice_index_or row.now serial false }
{
    match row.get(serial as usize) {
        Some(marked) => *marked,
        None => false,
    }
}
