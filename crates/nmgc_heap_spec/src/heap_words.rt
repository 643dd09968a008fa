//! The words of the heap, read and written one at a time.
//!
//! At a stop one thread reads and writes all words of the heap, by code over this trait. A run's table implements it while
//! there is only one seat, and plain lists implement it for tests. A load is mutable, since it changes a view.
ghost use Rattle.std.specs.Prelude.{◌≡◌, ◌<◌, ℕ, List, length, set, slice_index};

use nmgc_lists::List;

/// The heap's words in order, read and written one at a time; contracts see them as a list of numbers.
pub trait HeapWords {
    ghost words: { Self → List ℕ };

    /// Returns the word at address `at`. No word changes.
    fn load(&mut self, at: usize) -> u64
        requires { at < length (words self.old) }
        ensures same { words self.new ≡ words self.old }
        ensures word { result ≡ slice_index (words self.old) at };

    /// Stores `word` at address `at`. All other words stay.
    fn store(&mut self, at: usize, word: u64)
        requires { at < length (words self.old) }
        ensures { words self.new ≡ set (words self.old) at word };
}

impl HeapWords for Vec<u64> {
    ghost words = { λ v. v.items };

    fn load(&mut self, at: usize) -> u64 {
        self[at]
    }

    fn store(&mut self, at: usize, word: u64) {
        self[at] = word;
    }
}

impl HeapWords for List<u64> {
    ghost words = { λ list. list };

    fn load(&mut self, at: usize) -> u64 {
        self.items()[at]
    }

    fn store(&mut self, at: usize, word: u64) {
        let items = self.items_mut();
        items[at] = word;
    }
}
