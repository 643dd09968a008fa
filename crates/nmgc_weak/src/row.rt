//! A row of the list: the weak pointers of a maker, in order of their serials.
//!
//! A maker's names only grow, so a new weak pointer joins at the row's end. A row is in order, so binary search finds a
//! leaving weak pointer, in logarithmic time. Nothing moves then: the entry is only flagged as left. Once more than half of a
//! row has left, the rest moves together, and the leaving weak pointers pay for it.
//!
//! Easy to get wrong: an entry that left still counts in the order, and a weak pointer of the same name may join again.
ghost use Rattle.std.specs.Prelude.{ℕ, ◌≡◌, ◌≢◌, ◌⊎◌, ◌↔◌, ◌+◌, ◌<◌, ◌≤◌, [], ◌++◌, length, slice_get, Some, vec_len, vec_capacity, Contains, IfSome, IfNone, OnOk};
ghost use Rattle.nmgc_world_spec.specs.Reach.{IsBefore, IsInOrder};
ghost use Rattle.nmgc_weak.specs.{declared.weaks.OldWeak.OldWeak as Old, declared.row.Entry.Entry as Kept, Weaks.AreInside, Weaks.names_of, Weaks.alive_of, Rows.listed, Rows.entry_names, Rows.without, Rows.IsEntryAt};

use crate::weaks::{OldWeak, VALUE, is_before};
use nmgc_heap_spec::HeapWords;
use nmgc_lists::NoMemory;
use nmgc_object::Address;
use nmgc_world_spec::Name;
use std::alloc::Global;
use std::marker::Model;

/// An entry of a row: a weak pointer, and whether it left the list.
#[derive(Clone, Copy, Debug, PartialEq, Eq)]
pub(crate) struct Entry {
    pub(crate) weak: OldWeak,
    pub(crate) left: bool,
}

/// A maker's part of the list. Contracts see its weak pointers in the list, in order, and its room for further weak pointers.
#[derive(Drop)]
pub(crate) struct Row {
    entries: Vec<Entry>,
    // An upper bound on the number of entries that left.
    gone: usize,
}

impl Model for Row {
    ghost use Rattle.std.specs.Prelude.{◌-◌, vec_len, vec_capacity};
    ghost use Rattle.nmgc_world_spec.specs.Reach.{IsInOrder};
    ghost use Rattle.nmgc_weak.specs.Rows.{Row as Shown, listed, entry_names};

    ghost Value = { Shown };

    ghost view = { λ r. record {
      list = listed r.entries.items;
      spare = vec_capacity r.entries - vec_len r.entries;
    } };

    ghost invariant = { λ r. IsInOrder (entry_names r.entries.items) };
}

// Returns the position of a name's entry, or `None` if no entry has this name. By binary search: entries have to be in order.
fn find(entries: &[Entry], weak: Name) -> Option<usize>
    requires { IsInOrder (entry_names entries.now) }
    ensures some { IfSome result (λ place. IsEntryAt entries.now place weak) }
    ensures none { IfNone result ((entry : Kept) → Contains entries.now entry → entry.weak.weak ≢ weak) }
{
    let mut low = 0;
    let mut high = entries.len();
    while low < high {
        let middle = low + (high - low) / 2;
        let found = entries[middle].weak.weak;
        if is_before(found, weak) {
            low = middle + 1;
        } else if is_before(weak, found) {
            high = middle;
        } else {
            return Some(middle);
        }
    }
    None
}

// Returns the least position from which on all entries come after `weak` in the order of names. Searches from the end.
fn place_from_end(entries: &[Entry], weak: Name) -> usize
    ensures within { result ≤ length entries.now }
    ensures after { (j : ℕ) (entry : Kept) → slice_get entries.now j ≡ Some entry → result ≤ j → IsBefore weak entry.weak.weak }
    ensures before { (j : ℕ) (entry : Kept) → slice_get entries.now j ≡ Some entry → result ≡ j + 1 → IsBefore weak entry.weak.weak → ⊥ }
{
    let mut place = entries.len();
    while 0 < place {
        let last = place - 1;
        if is_before(weak, entries[last].weak.weak) {
            place = last;
        } else {
            return place;
        }
    }
    0
}

impl Row {
    /// Makes an empty row without room. Takes no memory.
    pub(crate) fn new(alloc: Global) -> Self
        ensures { result ≡ record { list = []; spare = 0 } }
    {
        Row {
            entries: Vec::new(alloc),
            gone: 0,
        }
    }

    /// Makes room for at least `more` further weak pointers. The list stays and no room is lost, also after `NoMemory`.
    pub(crate) fn reserve(&mut self, more: usize) -> Result<(), NoMemory>
        ensures list { self.new.list ≡ self.old.list }
        ensures ok { OnOk result (more ≤ self.new.spare) }
        ensures kept { self.old.spare ≤ self.new.spare }
    {
        self.entries.reserve(more)?;
        Ok(())
    }

    /// Adds a weak pointer at its position in the order. There has to be room for it, and the list may not have its name yet.
    /// Takes no memory, and time for the names that come after it.
    pub(crate) fn add(&mut self, weak: Name, at: Address)
        requires room { 0 < self.old.spare }
        requires new { (other : Old) → Contains self.old.list other → other.weak ≢ weak }
        ensures list { (other : Old) → Contains self.new.list other ↔ (Contains self.old.list other ⊎ (other ≡ record { weak = weak; at = at })) }
        ensures ordered { IsInOrder (names_of self.new.list) }
        ensures count { length self.new.list ≤ length self.old.list + 1 }
        ensures spare { self.old.spare ≤ self.new.spare + 1 }
    {
        let entry = Entry {
            weak: OldWeak { weak, at },
            left: false,
        };
        let place = place_from_end(self.entries.as_slice(), weak);
        // A weak pointer of this name left the list before: its entry is used again.
        if 0 < place {
            let last = place - 1;
            if !is_before(self.entries[last].weak.weak, weak) {
                self.entries[last] = entry;
                return;
            }
        }
        match self.entries.insert(place, entry) {
            Ok(()) => {}
            Err(_) => unreachable!(),
        }
    }

    /// Takes the weak pointer `weak` out of the list, if the list has it with the address `at`. Takes no memory, and
    /// logarithmic time, or time for the whole row if more than half of the row has left.
    pub(crate) fn remove(&mut self, weak: Name, at: Address)
        ensures list { self.new.list ≡ without (record { weak = weak; at = at }) self.old.list }
        ensures ordered { IsInOrder (names_of self.new.list) }
        ensures spare { self.old.spare ≤ self.new.spare }
    {
        let Some(place) = find(self.entries.as_slice(), weak) else {
            return;
        };
        if self.entries[place].weak.at.0 != at.0 {
            return;
        }
        let entry = &mut self.entries[place];
        entry.left = true;
        self.gone = self.gone.saturating_add(1);
        if self.gone > self.entries.len() / 2 {
            self.drop_left_entries();
        }
    }

    // Removes the entries that are flagged as left, and moves the rest together.
    fn drop_left_entries(&mut self)
        ensures list { self.new.list ≡ self.old.list }
        ensures spare { self.old.spare ≤ self.new.spare }
    {
        self.entries.retain(|entry| !entry.left);
        self.gone = 0;
    }

    /// Takes the dead weak pointers, whose value word is 0, out of the list. No word changes. Takes no memory.
    pub(crate) fn remove_dead<W: HeapWords>(&mut self, words: &mut W)
        requires { AreInside (W.words words.old) self.old.list }
        ensures words { W.words words.new ≡ W.words words.old }
        ensures list { self.new.list ≡ alive_of (W.words words.old) self.old.list }
        ensures ordered { IsInOrder (names_of self.new.list) }
        ensures spare { self.old.spare ≤ self.new.spare }
    {
        flag_dead(self.entries.as_mut_slice(), words);
        self.drop_left_entries();
    }

    /// Appends the row's weak pointers that are in the list to `all`, in order. `all` needs room for them. Takes no memory.
    pub(crate) fn list_into(&self, all: &mut Vec<OldWeak>)
        requires { vec_len all.old + length self.now.list ≤ vec_capacity all.old }
        ensures items { all.new.items ≡ all.old.items ++ self.now.list }
        ensures capacity { vec_capacity all.new ≡ vec_capacity all.old }
    {
        for entry in self.entries.as_slice() {
            if !entry.left {
                all.push_reserved(entry.weak);
            }
        }
    }

    /// Returns the number of entries, which is at least the number of weak pointers in the list. Takes no memory.
    pub(crate) fn count(&self) -> usize
        ensures { length self.now.list ≤ result }
    {
        self.entries.len()
    }
}

// Flags the listed entries with value word 0 as left. No word changes.
fn flag_dead<W: HeapWords>(entries: &mut [Entry], words: &mut W)
    requires { AreInside (W.words words.old) (listed entries.old) }
    ensures words { W.words words.new ≡ W.words words.old }
    ensures listed { listed entries.new ≡ alive_of (W.words words.old) (listed entries.old) }
    ensures names { entry_names entries.new ≡ entry_names entries.old }
{
    for entry in entries.iter_mut() {
        // The words of a weak pointer that left mean nothing.
        if !entry.left && words.load(entry.weak.at.0 as usize + VALUE) == 0 {
            entry.left = true;
        }
    }
}
