//! The search for the objects of an image. It goes over addresses, since a pointer gives an address. Each address joins the
//! order once, when it is found, and the object there is read once. So the search takes time proportional to the words that
//! it reads, and a byte for each word of the heap.
ghost use Rattle.std.specs.Prelude.{◌≡◌, ◌⊎◌, ◌↔◌, ℕ, ◌<◌, [], length, replicate, false, All, Contains, IfOk, OnOk};
ghost use Rattle.nmgc_image.specs.{Objects.IsObjectAt, Objects.pointers, Objects.value_words_at, Reaching.Reaches, Reaching.ReachesObjects, Reaching.IsSearch, Reaching.Visits, Reaching.ArePointers, Reaching.PointWithin};

use crate::objects::{copy_fields, place_in, value_words};
use nmgc_journal::FinalWords;
use nmgc_lists::NoMemory;
use std::alloc::Global;

/// The addresses found so far, in the order in which they were found.
#[derive(Drop)]
pub(crate) struct Search {
    seen: Vec<bool>,
    pub(crate) order: Vec<u32>,
}

impl Search {
    /// Returns a search over a heap of `words` words that has found no address yet.
    pub(crate) fn new(alloc: Global, words: usize) -> Result<Self, NoMemory>
        ensures sound { IfOk result IsSearch }
        ensures none { IfOk result (λ s. s.order.items ≡ []) }
        ensures room { IfOk result (λ s. length s.seen.items ≡ words) }
    {
        Ok(Search {
            seen: vec![in alloc; false; words]?,
            order: Vec::new(alloc),
        })
    }

    /// Adds an address to the search, unless it was found before.
    pub(crate) fn visit(&mut self, at: u32) -> Result<(), NoMemory>
        requires sound { IsSearch self.old }
        requires within { at < length self.old.seen.items }
        ensures { OnOk result (Visits (λ place. place ≡ at) self.old self.new) }
    {
        if !self.seen[at as usize] {
            self.seen[at as usize] = true;
            self.order.push(at)?;
        }
        Ok(())
    }

    /// Adds the addresses that words point to, unless they were found before.
    pub(crate) fn visit_words(&mut self, words: &[u64]) -> Result<(), NoMemory>
        requires sound { IsSearch self.old }
        requires within { PointWithin (length self.old.seen.items) words.now }
        ensures { OnOk result (Visits (ArePointers words.now) self.old self.new) }
    {
        for word in words {
            if let Some(at) = place_in(*word) {
                self.visit(at as u32)?;
            }
        }
        Ok(())
    }

    // Adds the addresses to which the values of the object at `at` point. `buffer` is for its field words.
    fn expand(&mut self, words: &FinalWords, at: u32, buffer: &mut Vec<u64>) -> Result<(), NoMemory>
        requires sound { IsSearch self.old }
        requires object { IsObjectAt words.now at }
        requires within { (object : IsObjectAt words.now at) → PointWithin (length self.old.seen.items) (value_words_at words.now at object.header) }
        ensures { (object : IsObjectAt words.now at) → OnOk result (Visits (ArePointers (value_words_at words.now at object.header)) self.old self.new) }
    {
        let header = copy_fields(words, at, buffer)?;
        self.visit_words(value_words(header.kind, buffer))
    }

    /// Adds all addresses that are reachable from the addresses found so far.
    pub(crate) fn run(&mut self, alloc: Global, words: &FinalWords) -> Result<(), NoMemory>
        requires sound { IsSearch self.old }
        requires room { length self.old.seen.items ≡ length words.now }
        requires objects { ReachesObjects words.now (Contains self.old.order.items) }
        ensures { OnOk result ((at : ℕ) → Contains self.new.order.items at ↔ Reaches words.now (Contains self.old.order.items) at) }
    {
        let mut buffer = Vec::new(alloc);
        let mut next = 0;
        while next < self.order.len() {
            let at = self.order[next];
            self.expand(words, at, &mut buffer)?;
            next += 1;
        }
        Ok(())
    }
}
