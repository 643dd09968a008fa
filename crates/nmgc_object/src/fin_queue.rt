//! The queue of a mutator's finalisers, as field words.
//!
//! A dead weak pointer's finaliser waits here until the mutator takes it. The words are pointers into the heap, so promotion
//! reads the queue as roots and writes forwarded pointers back.
//!
//! Deaths are queued at a stop that must not run out of memory, so room is made before. Taking a word only advances an index.
//! A taken word keeps its memory until the queue is empty, or until room is made when more words were taken than are left.
//!
//! Words join at a closing, when every nursery is empty, so promotion need not read a queue that has only such words. The
//! queue keeps an upper bound of its pointers, so it can say in constant time that no pointer leads to a nursery.
//!
//! Easy to get wrong: positions count from the first word that is left, not from the first word ever added.
ghost use Rattle.std.specs.Prelude.{◌≡◌, ◌+◌, ◌-◌, ◌%◌, ◌<◌, ◌≤◌, [], ◌∷◌, ◌++◌, length, drop, slice_get, slice_set, IsTrue, OnOk, OnErr};
ghost use Rattle.nmgc_object.specs.FinQueue.{ArePointersBelow};

use nmgc_lists::{List, ListMemory, NoMemory};
use std::alloc::Global;
use std::marker::Model;

/// A queue of field words, with room for more.
#[derive(Drop)]
pub struct FinQueue {
    words: Vec<u64>,
    first: usize,
    // An upper bound of the pointers among the words that are left.
    highest: u64,
}

impl Model for FinQueue {
    ghost use Rattle.std.specs.Prelude.{◌-◌, ◌≤◌, drop, vec_len, vec_capacity};
    ghost use Rattle.nmgc_object.specs.FinQueue.{FinQueue as Shown, HavePointersUpTo};

    ghost Value = { Shown };

    ghost view = { λ q. record {
      words = drop q.first q.words.items;
      spare = vec_capacity q.words - vec_len q.words;
    } };

    ghost invariant = { λ q. (q.first ≤ vec_len q.words) × HavePointersUpTo (drop q.first q.words.items) q.highest };
}

impl FinQueue {
    /// Makes an empty queue without room. Takes no memory.
    pub fn new(alloc: Global) -> Self
        ensures words { result.words ≡ [] }
        ensures spare { result.spare ≡ 0 }
    {
        FinQueue {
            words: Vec::new(alloc),
            first: 0,
            highest: 0,
        }
    }

    /// Makes room for at least `more` further words, or returns `NoMemory`. In either case the words stay and no room is
    /// lost. If more words were taken off than are left, it first moves the words left to the front of their memory.
    pub fn reserve(&mut self, more: u32) -> Result<(), NoMemory>
        ensures words { self.new.words ≡ self.old.words }
        ensures room { OnOk result (more ≤ self.new.spare) }
        ensures kept { self.old.spare ≤ self.new.spare }
    {
        if self.words.len() - self.first < self.first {
            self.forget_taken();
        }
        self.words.reserve(more as usize)?;
        Ok(())
    }

    // Moves the words that are left to the front of their memory, over the words that were taken off.
    fn forget_taken(&mut self)
        ensures words { self.new.words ≡ self.old.words }
        ensures kept { self.old.spare ≤ self.new.spare }
    {
        let left = self.words.len() - self.first;
        self.words.copy_within(self.first.., 0);
        self.words.truncate(left);
        self.first = 0;
    }

    /// Adds a word at the end. Requires that there is room for it (`reserve`). Takes no memory.
    pub fn add(&mut self, word: u64)
        requires { 0 < self.old.spare }
        ensures words { self.new.words ≡ self.old.words ++ word ∷ [] }
        ensures spare { self.new.spare + 1 ≡ self.old.spare }
    {
        self.words.push_reserved(word);
        self.highest = bound_with(self.highest, word);
    }

    /// Takes the first word off the queue and returns it. Returns `None` exactly if the queue is empty. Constant time.
    pub fn take_first(&mut self) -> Option<u64>
        ensures first { result ≡ slice_get self.old.words 0 }
        ensures rest { self.new.words ≡ drop 1 self.old.words }
        ensures kept { self.old.spare ≤ self.new.spare }
    {
        let word = self.words.get(self.first).copied()?;
        self.first += 1;
        if self.first == self.words.len() {
            self.words.clear();
            self.first = 0;
        }
        Some(word)
    }

    /// Returns the words in order. Takes no memory.
    pub fn words(&self) -> &[u64]
        ensures { result.now ≡ self.now.words }
    {
        &self.words[self.first..]
    }

    /// Returns the words of the queue in order, as a list in the memory `place`, which was allocated before. Takes no memory.
    pub fn into_list(self, place: ListMemory<u64>) -> List<u64>
        ensures { result ≡ self.words }
    {
        let FinQueue {
            words,
            first,
            highest: _,
        } = self;
        let mut words = words;
        let left = words.len() - first;
        words.copy_within(first.., 0);
        words.truncate(left);
        List::from_vec_in(words, place)
    }

    /// Replaces the word at position `place`, which has to exist, with `word`. Changes no other word. Takes no memory.
    pub fn set(&mut self, place: usize, word: u64)
        requires { place < length self.old.words }
        ensures words { self.new.words ≡ slice_set self.old.words place word }
        ensures spare { self.new.spare ≡ self.old.spare }
    {
        self.words[self.first + place] = word;
        self.highest = bound_with(self.highest, word);
    }

    /// Returns true only if each pointer among the words leads to an address below `place`. May return false although each
    /// does, since the bound that the queue keeps doesn't fall when a pointer is taken off. Constant time, no memory.
    #[tactic(auto, using(crate::proofs::Pointers::below_of))]
    pub fn is_below(&self, place: u32) -> bool
        ensures { IsTrue result → ArePointersBelow self.now.words place }
    {
        self.highest < 2 * u64::from(place)
    }
}

// Returns the larger of `highest` and `word` if the word is a pointer, and otherwise `highest`.
fn bound_with(highest: u64, word: u64) -> u64
    ensures kept { highest ≤ result }
    ensures pointer { word % 2 ≡ 0 → word ≤ result }
{
    if word % 2 == 0 {
        highest.max(word)
    } else {
        highest
    }
}
