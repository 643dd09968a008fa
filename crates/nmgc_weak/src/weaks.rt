//! The list of weak pointers that have a block, and its changes at a stop.
//!
//! At every stop the list has exactly the weak pointers that are alive and have a block, with their addresses, in order of
//! names. So a closing finds them without looking at segments, and deaths come in the order in which finalisers are queued.
//!
//! The list is stored in rows, one for each maker (`row`). A maker's names only grow, so weak pointers join at the ends of
//! rows, and binary search finds them when they leave. A stop takes time for weak pointers that join and leave. It takes time
//! for a row only once more than half of it has left, or when its memory is too small for those that join. Only a closing,
//! which judges each, and the report go through the list.
//!
//! A stop may not run out of memory half way. So room for new weak pointers, and for a death of each, is made before. Since
//! any row may be joined next, each row has the whole of that room. Beside the rows there are five lists: the list in one
//! piece for a closing, the waiting weak pointers, the dying, the deaths, and the names for the report. Each has room for all
//! weak pointers that were listed at the last closing, that joined since, or that may still join.
//!
//! Easy to get wrong: of these five lists only the deaths mean something between two calls. The names stay empty, and each
//! call clears the other three before it uses them.
ghost use Rattle.std.specs.Prelude.{ℕ, ◌≡◌, ◌≢◌, ◌⊎◌, ◌↔◌, ◌+◌, ◌<◌, ◌≤◌, List, [], length, vec_len, vec_capacity, Contains, IsTrue, OnOk, OnErr, min, slice_get, Some};
ghost use Rattle.nmgc_limits.specs.declared.mutators.TheConstants.{MAKERS};
ghost use Rattle.nmgc_world_spec.specs.Reach.{IsBefore, IsInOrder};
ghost use Rattle.nmgc_object.specs.declared.size.TheConstants.{HEADER_WORDS};
ghost use Rattle.nmgc_round.specs.View.{Opening};
ghost use Rattle.nmgc_mark.specs.Marker.{HasRoomToMark, HasMarked};
ghost use Rattle.nmgc_weak.specs.{declared.weaks.OldWeak.OldWeak as Old, Resolve.CanResolve, Resolve.HasResolved, Rows.Row as RowShown, Rows.IsNamedAt, Rows.list_of, Rows.left_at, Weaks.AreInside, Weaks.HaveLostValues, Weaks.alive_of, Weaks.count_made_by, Weaks.names_of, Weaks.places_of, Weaks.value_place};

use crate::resolve::{Waiter, clear_values, find_dying, revive, save_finalisers};
use crate::row::Row;
use nmgc_alloc::Segments;
use nmgc_heap_spec::HeapWords;
use nmgc_limits::MAKERS;
use nmgc_lists::{List, ListMemory, NoMemory};
use nmgc_mark::Marker;
use nmgc_object::size::NAME_OFFSET;
use nmgc_object::words::decode_name;
use nmgc_object::{Address, HEADER_WORDS};
use nmgc_world_spec::Name;
use std::alloc::Global;
use std::marker::Model;

/// A weak pointer that has a block, and its address.
#[derive(Clone, Copy, Debug, PartialEq, Eq)]
pub struct OldWeak {
    pub weak: Name,
    pub at: Address,
}

/// A weak pointer that died when a cycle was closed, and the word of its finaliser.
#[derive(Clone, Copy, Debug, PartialEq, Eq)]
pub struct Death {
    pub weak: Name,
    pub finaliser: u64,
}

/// The list of weak pointers that have a block. Contracts see the list, its room for more weak pointers, and the last deaths.
#[derive(Drop)]
pub struct Weaks {
    // The rows, by maker.
    rows: Vec<Row>,
    // The room for further weak pointers, and an upper bound on the length of the list.
    room: usize,
    most: usize,
    list: Vec<OldWeak>,
    waiting: Vec<Waiter>,
    dying: Vec<OldWeak>,
    deaths: Vec<Death>,
    names: Vec<Name>,
}

impl Model for Weaks {
    ghost use Rattle.std.specs.Prelude.{◌≡◌, [], ◌+◌, ◌≤◌, length, vec_len, vec_capacity};
    ghost use Rattle.nmgc_weak.specs.{Rows.AreRows, Rows.list_of, Weaks.Weaks as Shown};

    ghost Value = { Shown };

    ghost view = { λ a. record {
      list = list_of a.rows.items;
      spare = a.room;
      deaths = a.deaths.items;
    } };

    ghost invariant = { λ a. AreRows a.rows.items a.room × (length (list_of a.rows.items) ≤ a.most) × (a.most + a.room ≤ vec_capacity a.list) × (a.most + a.room ≤ vec_capacity a.waiting) × (a.most + a.room ≤ vec_capacity a.dying) × (a.most + a.room ≤ vec_capacity a.deaths) × (a.most + a.room ≤ vec_capacity a.names) × (a.names.items ≡ []) × (vec_len a.names ≡ 0) };
}

/// Whether the name `a` is before `b`: by maker, and for the same maker by serial.
pub(crate) fn is_before(a: Name, b: Name) -> bool
    ensures { IsTrue result ↔ IsBefore a b }
{
    a.maker < b.maker || (a.maker == b.maker && a.serial < b.serial)
}

/// The offsets of the words of a weak pointer's value and finaliser.
pub(crate) const VALUE: usize = HEADER_WORDS as usize + 1;

pub(crate) const FINALISER: usize = HEADER_WORDS as usize + 2;

// The number of rows: one for each number of a mutator, and one for all other names.
const ROWS: usize = MAKERS as usize + 1;

// Returns the number of the row that has the names of a maker.
fn row_of(maker: u8) -> usize
    ensures value { result ≡ min maker MAKERS }
    ensures within { result < ROWS }
{
    usize::from(maker.min(MAKERS))
}

// Appends empty rows until there are at least `ROWS`. Earlier rows stay. After `NoMemory` rows may still be missing.
fn add_missing_rows(alloc: Global, rows: &mut Vec<Row>) -> Result<(), NoMemory>
    ensures list { list_of rows.new.items ≡ list_of rows.old.items }
    ensures more { length rows.old.items ≤ length rows.new.items }
    ensures all { OnOk result (ROWS ≤ length rows.new.items) }
    ensures rows { (k : ℕ) (row : RowShown) → slice_get rows.new.items k ≡ Some row →
        (slice_get rows.old.items k ≡ Some row) ⊎ ((row.list ≡ []) × (length rows.old.items < ROWS)) }
{
    while rows.len() < ROWS {
        rows.push(Row::new(alloc))?;
    }
    Ok(())
}

// Makes room for `more` further weak pointers in each row. The lists stay and no room is lost, also after `NoMemory`.
fn reserve_rows(rows: &mut [Row], more: usize) -> Result<(), NoMemory>
    ensures count { length rows.new ≡ length rows.old }
    ensures lists { (k : ℕ) (old new : RowShown) → slice_get rows.old k ≡ Some old → slice_get rows.new k ≡ Some new →
        (new.list ≡ old.list) × (old.spare ≤ new.spare) }
    ensures room { OnOk result ((k : ℕ) (row : RowShown) → slice_get rows.new k ≡ Some row → more ≤ row.spare) }
{
    for row in rows {
        row.reserve(more)?;
    }
    Ok(())
}

// Appends the listed weak pointers of all rows, in order, to an empty vector that has room for them.
fn list_rows(rows: &[Row], all: &mut Vec<OldWeak>)
    requires empty { all.old.items ≡ [] }
    requires none { vec_len all.old ≡ 0 }
    requires room { length (list_of rows.now) ≤ vec_capacity all.old }
    ensures items { all.new.items ≡ list_of rows.now }
    ensures capacity { vec_capacity all.new ≡ vec_capacity all.old }
{
    for row in rows {
        row.list_into(all);
    }
}

// Takes the dead weak pointers, whose value word is 0, out of the rows. No word changes.
fn remove_dead<W: HeapWords>(rows: &mut [Row], words: &mut W)
    requires { AreInside (W.words words.old) (list_of rows.old) }
    ensures words { W.words words.new ≡ W.words words.old }
    ensures count { length rows.new ≡ length rows.old }
    ensures rows { (k : ℕ) (old new : RowShown) → slice_get rows.old k ≡ Some old → slice_get rows.new k ≡ Some new →
        (new.list ≡ alive_of (W.words words.old) old.list) × IsInOrder (names_of new.list) × (old.spare ≤ new.spare) }
{
    for row in rows {
        row.remove_dead(words);
    }
}

impl Weaks {
    /// Makes an empty list without room. Takes no memory.
    pub fn new(alloc: Global) -> Self
        ensures list { result.list ≡ [] }
        ensures spare { result.spare ≡ 0 }
        ensures deaths { result.deaths ≡ [] }
    {
        Weaks {
            rows: Vec::new(alloc),
            room: 0,
            most: 0,
            list: Vec::new(alloc),
            waiting: Vec::new(alloc),
            dying: Vec::new(alloc),
            deaths: Vec::new(alloc),
            names: Vec::new(alloc),
        }
    }

    /// Makes room for at least `more` further weak pointers, and for a death of each weak pointer that the list may then
    /// have. List and deaths stay, and room is never lost. After `NoMemory` nothing changed.
    pub fn reserve(&mut self, more: u32) -> Result<(), NoMemory>
        ensures list { self.new.list ≡ self.old.list }
        ensures deaths { self.new.deaths ≡ self.old.deaths }
        ensures ok { OnOk result (more ≤ self.new.spare) }
        ensures kept { self.old.spare ≤ self.new.spare }
        ensures err { OnErr result (self.new ≡ self.old) }
    {
        let more = more as usize;
        if more <= self.room {
            return Ok(());
        }
        let Some(wanted) = self.most.checked_add(more) else {
            return Err(NoMemory);
        };
        self.list.clear();
        self.waiting.clear();
        self.dying.clear();
        self.list.reserve(wanted)?;
        self.waiting.reserve(wanted)?;
        self.dying.reserve(wanted)?;
        self.deaths.reserve(wanted)?;
        self.names.reserve(wanted)?;
        let alloc = *self.list.allocator();
        add_missing_rows(alloc, &mut self.rows)?;
        reserve_rows(self.rows.as_mut_slice(), more)?;
        self.room = more;
        Ok(())
    }

    /// Adds a weak pointer at its position in the order. There has to be room for it, and the list may not have its name yet.
    /// The room shrinks by one, and the deaths stay. Takes no memory, and time for the later names of its maker.
    pub fn add(&mut self, weak: Name, at: Address)
        requires room { 0 < self.old.spare }
        requires new { (other : Old) → Contains self.old.list other → other.weak ≢ weak }
        ensures list { (other : Old) → Contains self.new.list other ↔ (Contains self.old.list other ⊎ (other ≡ record { weak = weak; at = at })) }
        ensures ordered { IsInOrder (names_of self.new.list) }
        ensures spare { self.new.spare + 1 ≡ self.old.spare }
        ensures deaths { self.new.deaths ≡ self.old.deaths }
    {
        let row = &mut self.rows[row_of(weak.maker)];
        row.add(weak, at);
        self.room -= 1;
        self.most += 1;
    }

    /// Adds weak pointers that are in order of names, each at its position in the list. There has to be room for them, and
    /// the list may have none of their names yet. The deaths stay. Takes no memory. Each addition takes time for the names of
    /// the same maker that come after the new name: none if makers give names in order.
    pub fn add_all(&mut self, fresh: &[OldWeak])
        requires room { length fresh.now ≤ self.old.spare }
        requires ordered { IsInOrder (names_of fresh.now) }
        requires new { (one other : Old) → Contains fresh.now one → Contains self.old.list other → other.weak ≢ one.weak }
        ensures list { (other : Old) → Contains self.new.list other ↔ (Contains self.old.list other ⊎ Contains fresh.now other) }
        ensures ordered { IsInOrder (names_of self.new.list) }
        ensures spare { self.new.spare + length fresh.now ≡ self.old.spare }
        ensures deaths { self.new.deaths ≡ self.old.deaths }
    {
        // Note [Lines that do nothing] in `nmgc_alloc`: this gives the prover the list's order, even if none join.
        let _room = self.room;
        for weak in fresh {
            self.add(weak.weak, weak.at);
        }
    }

    /// Returns an upper bound on the list's length, for a vector's room (`list_into`). Takes no memory, and constant time.
    pub fn length_bound(&self) -> usize
        ensures { length self.now.list ≤ result }
    {
        self.most
    }

    /// Fills an empty vector with the list, in order of names. The vector needs room for it. The list is stored in rows, so
    /// no slice of it can be lent. Takes no memory, and time for the whole list.
    pub fn list_into(&self, all: &mut Vec<OldWeak>)
        requires empty { all.old.items ≡ [] }
        requires none { vec_len all.old ≡ 0 }
        requires room { length self.now.list ≤ vec_capacity all.old }
        ensures list { all.new.items ≡ self.now.list }
        ensures ordered { IsInOrder (names_of self.now.list) }
        ensures capacity { vec_capacity all.new ≡ vec_capacity all.old }
    {
        list_rows(self.rows.as_slice(), all);
    }

    /// Returns an upper bound on the number of listed weak pointers that this maker made. Takes no memory, and constant time.
    pub fn count_bound(&self, maker: u8) -> usize
        ensures { count_made_by maker self.now.list ≤ result }
    {
        let number = row_of(maker);
        if number < self.rows.len() {
            self.rows[number].count()
        } else {
            0
        }
    }

    /// Returns the deaths of the last closing, in order of names: weak pointers with their finalisers. Takes no memory.
    pub fn deaths(&self) -> &[Death]
        ensures { result.now ≡ self.now.deaths }
    {
        self.deaths.as_slice()
    }

    /// Turns the list into the list of its weak pointers' names, in order, in the memory `place`. Takes no other memory.
    pub fn into_names(self, place: ListMemory<Name>) -> List<Name>
        ensures { result ≡ names_of self.list }
    {
        let Weaks {
            rows,
            room: _,
            most: _,
            mut list,
            waiting: _,
            dying: _,
            deaths: _,
            mut names,
        } = self;
        list.clear();
        list_rows(rows.as_slice(), &mut list);
        for weak in list {
            names.push_reserved(weak.weak);
        }
        List::from_vec_in(names, place)
    }

    /// Takes the weak pointer at the address `at` out of the list, if it is listed and its value word is 0. It is found by
    /// the name in the name word at `at`: if it is listed, this has to be its name. The rest of the list, the room, the
    /// deaths and the words stay. Takes no memory, and logarithmic time, or time for its row if over half of that has left.
    pub fn remove_if_dead<W: HeapWords>(&mut self, words: &mut W, at: Address)
        requires inside { value_place at.0 < length (W.words words.old) }
        requires named { IsNamedAt (W.words words.old) at.0 self.old.list }
        ensures words { W.words words.new ≡ W.words words.old }
        ensures list { self.new.list ≡ left_at (W.words words.old) at.0 self.old.list }
        ensures ordered { IsInOrder (names_of self.new.list) }
        ensures spare { self.new.spare ≡ self.old.spare }
        ensures deaths { self.new.deaths ≡ self.old.deaths }
    {
        let count = self.rows.len();
        if words.load(at.0 as usize + VALUE) != 0 {
            return;
        }
        let Some(weak) = decode_name(words.load(at.0 as usize + NAME_OFFSET as usize)) else {
            return;
        };
        let number = row_of(weak.maker);
        if number < count {
            let row = &mut self.rows[number];
            row.remove(weak, at);
        }
    }

    /// Takes the dead weak pointers, whose value word is 0, out of the list. The order of the rest, the room, the deaths and
    /// the words stay. Takes no memory, and time for the whole list.
    pub fn leave<W: HeapWords>(&mut self, words: &mut W)
        requires { AreInside (W.words words.old) self.old.list }
        ensures words { W.words words.new ≡ W.words words.old }
        ensures list { self.new.list ≡ alive_of (W.words words.old) self.old.list }
        ensures ordered { IsInOrder (names_of self.new.list) }
        ensures spare { self.new.spare ≡ self.old.spare }
        ensures deaths { self.new.deaths ≡ self.old.deaths }
    {
        remove_dead(self.rows.as_mut_slice(), words);
    }

    /// Closes a cycle: finds the snapshot's weak pointers that die, and marks their finalisers and the parts of the rest.
    ///
    /// Requires the conditions of a closing (`CanResolve`), and room to mark. A listed weak pointer of the snapshot is kept
    /// if its key is nil, a number, g or marked. It is marked, with its value, its finaliser and all that is reachable from
    /// these along strong fields. This repeats as long as further keys become marked. The rest of the snapshot's weak
    /// pointers die: their value words become 0, they leave the list, and they are the deaths. Their finalisers are marked
    /// with all that is reachable from them. This is the marking machine's closing. Weak pointers made since the snapshot
    /// stay, and no other word changes. The gate isn't passed. Takes no memory. Takes time for the listed weak pointers and
    /// the objects that it marks, times a logarithm, and for these objects' fields, however weak pointers revive one another
    /// (`revive`).
    pub fn resolve<W: HeapWords>(
        &mut self,
        marker: &mut Marker,
        words: &mut W,
        segments: &mut Segments,
    )
        requires room { HasRoomToMark segments.old marker.old }
        requires can { (o : Opening) × CanResolve o (W.words words.old) segments.old marker.old (places_of self.old.list) }
        ensures marked { (count : ℕ) × HasMarked segments.old segments.new marker.old marker.new count }
        ensures turns { marker.new.turns ≡ marker.old.turns }
        ensures empty { marker.new.queue ≡ [] }
        ensures spare { self.new.spare ≡ self.old.spare }
        ensures values { HaveLostValues self.old.list self.new.deaths (W.words words.old) (W.words words.new) }
        ensures resolved { (o : Opening) → CanResolve o (W.words words.old) segments.old marker.old (places_of self.old.list) →
            HasResolved o (W.words words.new) segments.new marker.new self.new.list self.new.deaths }
    {
        self.list.clear();
        self.waiting.clear();
        self.dying.clear();
        self.deaths.clear();
        list_rows(self.rows.as_slice(), &mut self.list);
        self.most = self.list.len();
        revive(
            self.list.as_slice(),
            &mut self.waiting,
            marker,
            words,
            segments,
        );
        find_dying(
            self.list.as_slice(),
            &mut self.dying,
            marker,
            words,
            segments,
        );
        save_finalisers(
            self.dying.as_slice(),
            &mut self.deaths,
            marker,
            words,
            segments,
        );
        clear_values(self.dying.as_slice(), words);
        self.leave(words);
    }
}
