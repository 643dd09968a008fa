//! The names of the objects in segments, kept beside the words.
//!
//! In a round the words belong to the mutators, so a sweep beside them can't read names in the words. Reading all names at a
//! stop takes time that grows with the heap. So a stop notes the name of each moved object, at an entry for its new address,
//! and the sweeper reads the entries. Nothing is placed in a waiting segment, so its entries stay from its cycle's beginning.
//! An entry of a free block has no meaning: the segment says which blocks are free. The next object rewrites the entry.
//!
//! The list of entries ends at the highest entry that was noted. Its memory is reserved at the beginning, and the system
//! gives it page by page, as the list grows. Contracts see g's name at the entries that are still missing (`padded`).
//!
//! Easy to get wrong: an entry depends on a block's address, not on its number, since segments change their class. Every
//! block has at least the words of an entry, so no two blocks share an entry.
ghost use Rattle.std.specs.Prelude.{ℕ, ◌≡◌, ◌+◌, ◌<◌, ◌≤◌, ◌++◌, length, replicate, slice_get, slice_index_or, slice_set, vec_len, vec_capacity, Some, IfOk};
ghost use Rattle.nmgc_world_spec.specs.World.{shared_name};
ghost use Rattle.nmgc_object.specs.Layouts.{IsLayout};
ghost use Rattle.nmgc_sweep.specs.NameTable.{HaveEntries, entry_of, padded};

use nmgc_lists::NoMemory;
use nmgc_object::{Address, FIRST_PLACE, Layout, MIN_BLOCK_WORDS};
use nmgc_world_spec::Name;
use std::alloc::Global;
use std::marker::Model;

/// A name for each block that a segment may have. Contracts see the names as a list.
#[derive(Drop)]
pub struct NameTable {
    // The entries up to the highest that was noted.
    entries: Vec<Name>,
    // The number of blocks that the segments may have.
    limit: u32,
}

impl Model for NameTable {
    ghost use Rattle.std.specs.Prelude.{List, ◌≤◌, length, vec_capacity};
    ghost use Rattle.nmgc_world_spec.specs.declared.value.Name.{Name as Named};
    ghost use Rattle.nmgc_sweep.specs.NameTable.{padded};

    ghost Value = { List Named };

    ghost view = { λ n. padded n.limit n.entries.items };

    ghost invariant = { λ n. (length n.entries.items ≤ n.limit) × (n.limit ≤ vec_capacity n.entries) };
}

// Returns the number of the entry for the block that begins at an address.
fn entry_of(at: Address) -> u32
    ensures { result ≡ entry_of at.0 }
{
    at.0.saturating_sub(FIRST_PLACE) / MIN_BLOCK_WORDS
}

// Returns an entry, or g's name if the entry is missing.
fn entry_at(entries: &Vec<Name>, entry: usize) -> Name
    ensures { result ≡ slice_index_or entries.now.items entry shared_name }
{
    if entry < entries.len() {
        entries[entry]
    } else {
        Name::SHARED
    }
}

// Adds `count` entries with g's name. There has to be room for them.
fn add_missing(entries: &mut Vec<Name>, count: usize)
    requires { vec_len entries.old + count ≤ vec_capacity entries.old }
    ensures items { entries.new.items ≡ entries.old.items ++ replicate count shared_name }
    ensures capacity { vec_capacity entries.new ≡ vec_capacity entries.old }
{
    for _added in 0..count {
        entries.push_reserved(Name::SHARED);
    }
}

// Sets an entry, after missing entries up to it are added. There has to be room for them. So a list that is read with any
// limit above the entry changes at this entry only.
fn set_entry(entries: &mut Vec<Name>, entry: u32, name: Name)
    requires { entry < vec_capacity entries.old }
    ensures items { (limit : ℕ) → entry < limit → length entries.old.items ≤ limit →
        padded limit entries.new.items ≡ slice_set (padded limit entries.old.items) entry name }
    ensures few { (limit : ℕ) → entry < limit → length entries.old.items ≤ limit → length entries.new.items ≤ limit }
    ensures capacity { vec_capacity entries.new ≡ vec_capacity entries.old }
{
    let missing = (entry as usize + 1).saturating_sub(entries.len());
    add_missing(entries, missing);
    entries[entry as usize] = name;
}

impl NameTable {
    /// Makes a table with an entry for each block that a segment of the layout may have. The table takes all its memory here,
    /// and touches none of it. The amount depends only on the layout, not on the number of objects.
    pub fn new(alloc: Global, layout: Layout) -> Result<NameTable, NoMemory>
        requires { IsLayout layout }
        ensures { IfOk result (λ names. HaveEntries layout names) }
    {
        let limit = layout.segments * (layout.words / MIN_BLOCK_WORDS);
        let entries = Vec::with_capacity(alloc, limit as usize)?;
        Ok(NameTable { entries, limit })
    }

    /// Writes `name` into the entry of the address `at`, to which its object moved. The entry must exist. Constant time,
    /// except that missing entries up to it are added first. Each entry is added once.
    pub fn note(&mut self, at: Address, name: Name)
        requires { entry_of at.0 < length self.old }
        ensures { self.new ≡ slice_set self.old (entry_of at.0) name }
    {
        let entry = entry_of(at);
        set_entry(&mut self.entries, entry, name);
    }

    /// Returns the name in the entry of the address `at`. The entry has to exist. Constant time.
    pub fn name_at(&self, at: Address) -> Name
        requires { entry_of at.0 < length self.now }
        ensures { slice_get self.now (entry_of at.0) ≡ Some result }
    {
        entry_at(&self.entries, entry_of(at) as usize)
    }
}
