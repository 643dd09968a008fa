//! The words of a run, while one thread alone reads and writes them.
//!
//! They lie in one table from the beginning of the run on. As the run ends the table is closed, and the report has it.
//! Between rounds the table has one seat that may step, and its view is the list of all words. So a load returns the word, a
//! store changes the list, and contracts see the whole as that list. A round takes the words and gives them back, and copies
//! none. Code for a stop is written over the trait `HeapWords`, which a plain list implements too.
//!
//! Easy to get wrong: each store is ordered with all stores, and costs several loads. So a stop writes no unchanged word.
ghost use Rattle.std.specs.{Prelude.◌≡◌, Prelude.◌<◌, Prelude.IfOk, Prelude.length, Prelude.set, Prelude.slice_index, Slots.slots_items, Slots.slots_len, Slots.IsFull};
ghost use Rattle.nmgc_round.specs.Stop.{IsSole};

use crate::plays::{Reads, Writes};
use crate::table::{MutatorSeat, Shared};
use crate::view::Stored;
use crate::witness::{Witness, WitnessFor};
use atomic_table::{Closed, Table};
use nmgc_heap_spec::HeapWords;
use nmgc_lists::NoMemory;
use std::alloc::Global;
use std::marker::Model;

/// The words of the heap, in order, with the only seat at their table.
#[derive(Drop)]
pub struct Words {
    pub(crate) table: Shared,
    pub(crate) seat: MutatorSeat,
}

impl Model for Words {
    ghost use Rattle.std.specs.Prelude.{ℕ, List};
    ghost use Rattle.nmgc_round.specs.Stop.{words_of, IsSole};

    ghost Value = { List ℕ };

    ghost view = { λ h. words_of h.seat };

    ghost invariant = { λ h. IsSole h.table.shared.table_id h.seat };
}

/// Chooses the words of the argument, as the first words of a table.
pub(crate) struct Copied;

impl<'a> WitnessFor<&'a [u64], Stored> for Copied {
    ghost wanted = { λ words x. x ≡ words.now };
}

impl Words {
    /// Makes a table with a copy of these words. There has to be at least one. Takes memory for the table.
    pub fn new(alloc: Global, words: &[u64]) -> Result<Words, NoMemory>
        requires { 0 < length words.now }
        ensures { IfOk result (λ w. w ≡ words.now) }
    {
        let first: Witness<Stored> = Witness::of::<&[u64], Copied>(&words);
        let (table, seat) = Table::of_words(alloc, words, &first)?;
        Ok(Words { table, seat })
    }

    /// Returns the number of words.
    pub fn len(&self) -> usize
        ensures { result ≡ length self.now }
    {
        self.table.word_count()
    }

    /// Loads the word at an address and returns it. No word changes. Takes no memory.
    pub fn load(&mut self, at: usize) -> u64
        requires { at < length self.old }
        ensures same { self.new ≡ self.old }
        ensures word { result ≡ slice_index self.old at }
    {
        let table = &self.table;
        let seat = &mut self.seat;
        table.shared.load::<Reads>(seat, at)
    }

    /// Stores a word at an address. All other words stay. Takes no memory.
    pub fn store(&mut self, at: usize, word: u64)
        requires { at < length self.old }
        ensures { self.new ≡ set self.old at word }
    {
        let table = &self.table;
        let seat = &mut self.seat;
        table.shared.store::<Writes>(seat, at, word)
    }

    /// Closes the table and returns it: it has exactly these words, and no thread writes them any more. Copies none and takes
    /// no memory. The table's owner gives the memory back, by `Closed::free`.
    pub fn close(self) -> Closed<(), Global>
        ensures full { IsFull result.words }
        ensures words { slots_items result.words ≡ self }
        ensures bare { slots_len result.slots ≡ 0 }
    {
        let Words { table, seat } = self;
        table.close_with(seat)
    }
}

impl HeapWords for Words {
    ghost words = { λ h. h };

    fn load(&mut self, at: usize) -> u64 {
        Words::load(self, at)
    }

    fn store(&mut self, at: usize, word: u64) {
        Words::store(self, at, word)
    }
}
