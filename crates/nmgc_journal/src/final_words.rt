//! The words of a heap that is no longer written.
//!
//! The words of a run are in one table. As the run ends the table is closed, and the report keeps the table: it copies no
//! word. Words in a vector are final words too, for callers that make a report by hand. The storage is no part of their
//! value: contracts see a list. Several threads may read final words side by side. Easy to get wrong: a closed table doesn't
//! free its memory by itself, but a `FullTable` does.
ghost use Rattle.std.specs.{Prelude.◌≡◌, Prelude.◌<◌, Prelude.length, Prelude.slice_index, Slots.slots_items, Slots.slots_len, Slots.IsFull};

use atomic_table::Closed;
use std::alloc::Global;
use std::marker::Model;

/// Words in order, which can be read and not written.
#[derive(Drop)]
pub struct FinalWords {
    storage: Storage,
}

impl Model for FinalWords {
    ghost use Rattle.std.specs.Prelude.{ℕ, List};
    ghost use Rattle.nmgc_journal.specs.Packed.{words_of};

    ghost Value = { List ℕ };

    ghost view = { λ w. words_of w.storage };
}

// The storage of the words.
#[derive(Drop)]
enum Storage {
    Vector(Vec<u64>),
    Table(FullTable),
}

// A closed table that has every word, and no slot.
struct FullTable {
    closed: Closed<(), Global>,
    ghost full: { IsFull closed.words },
    ghost bare: { slots_len closed.slots ≡ 0 },
}

// It owns nothing beside its fields, and a reference to it gives nothing beside references to them. The kit takes an
// `unsafe impl` only from a struct that says so.
impl Model for FullTable {
    ghost use Rattle.std.specs.Borrow.{ftrue};
    ghost use Rattle.std.specs.Prelude.{ℕ, List};
    ghost use Rattle.std.specs.Slots.{slots_items};

    ghost Value = { List ℕ };

    ghost view = { λ t. slots_items t.closed.words };

    ghost also_owns = { λ _. ftrue };

    ghost also_shares = { λ _ _ _. ftrue };
}

// Nothing writes a closed table, so threads may share a reference to it.
unsafe impl Sync for FullTable {}

impl FullTable {
    // Makes a full table from a closed table, without a copy. Requires that it has every word and no slot. Takes no memory.
    fn new(closed: Closed<(), Global>) -> FullTable
        requires full { IsFull closed.words }
        requires bare { slots_len closed.slots ≡ 0 }
        ensures { result ≡ slots_items closed.words }
    {
        FullTable { closed }
    }

    // Returns the number of words.
    fn len(&self) -> usize
        ensures { result ≡ length self.now }
    {
        self.closed.words.len()
    }

    // Returns the word at position `at`.
    fn word(&self, at: usize) -> u64
        requires { at < length self.now }
        ensures { result ≡ slice_index self.now at }
    {
        self.closed.word(at)
    }
}

// Frees the memory of the closed table.
impl Drop for FullTable {
    fn drop(self) {
        let FullTable { closed } = self;
        closed.free();
    }
}

impl FinalWords {
    /// Makes final words from a vector of words, without a copy. Takes no memory.
    pub fn from_vec(words: Vec<u64>) -> FinalWords
        ensures { result ≡ words.items }
    {
        FinalWords {
            storage: Storage::Vector(words),
        }
    }

    /// Makes final words from a closed table, without a copy. Requires that the table has every word and no slot, as
    /// `Words::close` of `nmgc_round` leaves it. Takes no memory.
    pub fn of_table(closed: Closed<(), Global>) -> FinalWords
        requires full { IsFull closed.words }
        requires bare { slots_len closed.slots ≡ 0 }
        ensures { result ≡ slots_items closed.words }
    {
        FinalWords {
            storage: Storage::Table(FullTable::new(closed)),
        }
    }

    /// Returns the number of words.
    pub fn len(&self) -> usize
        ensures { result ≡ length self.now }
    {
        match &self.storage {
            Storage::Vector(words) => words.len(),
            Storage::Table(full) => full.len(),
        }
    }

    /// Returns the word at position `at`.
    pub fn word(&self, at: usize) -> u64
        requires { at < length self.now }
        ensures { result ≡ slice_index self.now at }
    {
        match &self.storage {
            Storage::Vector(words) => words[at],
            Storage::Table(full) => full.word(at),
        }
    }
}
