//! A growing list, which contracts see as a list.
//!
//! It is `Vec` with one error for lack of memory, and with room for two items in the value itself. Most constructors of a
//! world have one or two fields, so `pair` saves an allocation for each. More items lie in a vector that has memory of its
//! own, so a list is small wherever it lies. Only `push`, `copy` and `from_vec` take memory; after an error the list is
//! unchanged. Contracts never see the items' addresses.
//!
//! Easy to get wrong: a list made by `new` or `pair` has no vector, even after an item was taken off. So the next `push` onto
//! it takes memory, even if the value itself would have room.
ghost use Rattle.std.specs.Prelude.{◌≡◌, ◌≤◌, [], ◌∷◌, ◌++◌, IfSome, IfNone, IfOk, OnOk, OnErr, vec_capacity};
ghost use Rattle.nmgc_lists.specs.{Items.items_of, Length.HasExactLength};

use crate::NoMemory;
use crate::fixed_vec::FixedVec;
use std::alloc::Global;
use std::marker::Model;
use std::mem;

/// A list of items in order.
pub struct List<T> {
    items: Items<T>,
}

/// Memory for the vector of one list, for a caller that may take no memory once it has items. Contracts see nothing of it.
#[derive(Drop)]
pub struct ListMemory<T> {
    vector: Box<Vec<T>>,
}

impl<T: Drop> ListMemory<T> {
    /// Allocates the memory for one value of type `Vec`, and returns it.
    pub fn new(alloc: Global) -> Result<Self, NoMemory> {
        Ok(ListMemory {
            vector: Box::new(alloc, Vec::new(alloc))?,
        })
    }
}

// Written by hand, so that each drop of a list calls this. A derived drop is written out, and proved, at each drop.
impl<T: Drop> Drop for List<T> {
    fn drop(self) {
        let List { items } = self;
        drop(items);
    }
}

impl<T> Model for List<T> {
    ghost use Rattle.std.specs.Prelude.{List};
    ghost use Rattle.nmgc_lists.specs.{Items.items_of, Length.HasExactLength};

    ghost Value = { List T };

    ghost view = { λ a. items_of a.items };

    ghost invariant = { λ a. HasExactLength a.items };
}

/// The items: none, one or two in the value itself, or any number in a vector.
#[derive(Drop)]
enum Items<T> {
    Empty(FixedVec<T, 0>),
    Single(FixedVec<T, 1>),
    Pair(FixedVec<T, 2>),
    Many(Box<Vec<T>>),
}

impl<T> Items<T> {
    ghost use Rattle.std.specs.Borrow.{sem};
    ghost use Rattle.nmgc_lists.specs.ItemsLends.{LendsThem};

    // Returns the allocator of the items' vector, or of the vector that they will be moved into.
    fn alloc(&self) -> Global {
        match self {
            Items::Empty(empty) => empty.alloc(),
            Items::Single(single) => single.alloc(),
            Items::Pair(pair) => pair.alloc(),
            Items::Many(items) => *items.as_ref().allocator(),
        }
    }

    // Returns the items in order.
    fn as_slice(&self) -> &[T]
        ensures { result.now ≡ items_of self.now }
    {
        match self {
            Items::Empty(empty) => empty.as_slice(),
            Items::Single(single) => single.as_slice(),
            Items::Pair(pair) => pair.as_slice(),
            Items::Many(items) => items.as_ref().as_slice(),
        }
    }

    // Lends the items in order, for writing.
    fn as_mut_slice(&mut self) -> &mut [T]
        requires { HasExactLength self.old }
        ensures* writes_back { sem 𝓛 (LendsThem T.row self.entry result) }
        ensures value { result.now ≡ items_of self.old }
    {
        match self {
            Items::Empty(empty) => empty.as_mut_slice(),
            Items::Single(single) => single.as_mut_slice(),
            Items::Pair(pair) => pair.as_mut_slice(),
            Items::Many(items) => items.as_mut().as_mut_slice(),
        }
    }
}

// Returns the items of an empty list.
fn no_items<T>(alloc: Global) -> Items<T>
    ensures items { items_of result ≡ [] }
    ensures full { HasExactLength result }
{
    Items::Empty(FixedVec::new(alloc, []))
}

// Returns one item, which lies in the list itself.
fn one_item<T>(alloc: Global, item: T) -> Items<T>
    ensures items { items_of result ≡ item ∷ [] }
    ensures full { HasExactLength result }
{
    Items::Single(FixedVec::new(alloc, [item]))
}

// Returns the items in their own vector if they lie in one, and otherwise in the empty vector `room`. Takes no memory.
fn into_vector<T: Drop>(items: Items<T>, room: Vec<T>) -> Vec<T>
    requires full { HasExactLength items }
    requires empty { room.items ≡ [] }
    requires enough { 2 ≤ vec_capacity room }
    ensures { result.items ≡ items_of items }
{
    let mut room = room;
    match items {
        Items::Empty(empty) => {
            drop(empty);
            room
        }
        Items::Single(single) => {
            let [only] = single.into_array();

            room.push_reserved(only);
            room
        }
        Items::Pair(pair) => {
            let [first, second] = pair.into_array();

            room.push_reserved(first);
            room.push_reserved(second);
            room
        }
        Items::Many(items) => Box::into_inner(items),
    }
}

// Returns the items without the last, and the last item. If there are none, returns no items and `None`. Takes no memory.
fn split_last<T: Drop>(items: Items<T>) -> (Items<T>, Option<T>)
    requires { HasExactLength items }
    ensures full { HasExactLength result.0 }
    ensures last { IfSome result.1 (λ item. items_of items ≡ items_of result.0 ++ item ∷ []) }
    ensures empty { IfNone result.1 ((items_of items ≡ []) × (items_of result.0 ≡ [])) }
{
    match items {
        Items::Empty(empty) => (Items::Empty(empty), None),
        Items::Single(single) => {
            let alloc = single.alloc();
            let [only] = single.into_array();
            (no_items(alloc), Some(only))
        }
        Items::Pair(pair) => {
            let alloc = pair.alloc();
            let [first, second] = pair.into_array();
            (one_item(alloc, first), Some(second))
        }
        Items::Many(mut items) => {
            let last = items.as_mut().pop();
            (Items::Many(items), last)
        }
    }
}

// Returns the first item, and the items after it. If there are none, returns `None` and no items. Takes no memory.
fn split_first<T: Drop>(items: Items<T>) -> (Option<T>, Items<T>)
    requires { HasExactLength items }
    ensures full { HasExactLength result.1 }
    ensures first { IfSome result.0 (λ item. items_of items ≡ item ∷ items_of result.1) }
    ensures empty { IfNone result.0 ((items_of items ≡ []) × (items_of result.1 ≡ [])) }
{
    match items {
        Items::Empty(empty) => (None, Items::Empty(empty)),
        Items::Single(single) => {
            let alloc = single.alloc();
            let [only] = single.into_array();
            (Some(only), no_items(alloc))
        }
        Items::Pair(pair) => {
            let alloc = pair.alloc();
            let [first, second] = pair.into_array();
            (Some(first), one_item(alloc, second))
        }
        Items::Many(mut items) => {
            let first = remove_first(items.as_mut());
            (first, Items::Many(items))
        }
    }
}

// Takes the first item off a vector and returns it, or `None` exactly if the vector is empty. Moves all other items.
fn remove_first<T>(items: &mut Vec<T>) -> Option<T>
    ensures first { IfSome result (λ item. items.old.items ≡ item ∷ items.new.items) }
    ensures empty { IfNone result ((items.old.items ≡ []) × (items.new.items ≡ [])) }
{
    if items.is_empty() {
        return None;
    }
    Some(items.remove(0))
}

// These functions are for items in the value itself. For items in a vector they are right too, but slower.
impl<T: Drop> Items<T> {
    // Adds an item at the end, and moves all items into a vector. After `NoMemory` the items are unchanged.
    fn add(&mut self, item: T) -> Result<(), NoMemory>
        requires { HasExactLength self.old }
        ensures full { HasExactLength self.new }
        ensures ok { OnOk result (items_of self.new ≡ items_of self.old ++ item ∷ []) }
        ensures err { OnErr result (items_of self.new ≡ items_of self.old) }
    {
        let alloc = self.alloc();
        let mut place = Box::new(alloc, Vec::new(alloc))?;
        let room = Vec::with_capacity(alloc, 4)?;
        let few = mem::replace(self, no_items(alloc));
        let mut items = into_vector(few, room);
        let pushed = items.push(item);
        let _ = Box::replace(&mut place, items);
        *self = Items::Many(place);
        pushed?;
        Ok(())
    }

    // Takes the last item off and returns it, or `None` exactly if there is no item. Takes no memory.
    fn take_last(&mut self) -> Option<T>
        requires { HasExactLength self.old }
        ensures full { HasExactLength self.new }
        ensures last { IfSome result (λ item. items_of self.old ≡ items_of self.new ++ item ∷ []) }
        ensures empty { IfNone result ((items_of self.old ≡ []) × (items_of self.new ≡ [])) }
    {
        let alloc = self.alloc();
        let few = mem::replace(self, no_items(alloc));
        let (rest, last) = split_last(few);
        *self = rest;
        last
    }

    // Takes the first item off and returns it, or `None` exactly if there is no item. Takes no memory.
    fn take_first(&mut self) -> Option<T>
        requires { HasExactLength self.old }
        ensures full { HasExactLength self.new }
        ensures first { IfSome result (λ item. items_of self.old ≡ item ∷ items_of self.new) }
        ensures empty { IfNone result ((items_of self.old ≡ []) × (items_of self.new ≡ [])) }
    {
        let alloc = self.alloc();
        let few = mem::replace(self, no_items(alloc));
        let (first, rest) = split_first(few);
        *self = rest;
        first
    }
}

impl<T> List<T> {
    ghost use Rattle.std.specs.Borrow.{sem};
    ghost use Rattle.nmgc_lists.specs.Lends.{LendsItems};

    /// Makes an empty list. Takes no memory.
    pub fn new(alloc: Global) -> Self
        ensures { result ≡ [] }
    {
        List {
            items: no_items(alloc),
        }
    }

    /// Makes a list of a vector's items. Takes memory for one value of type `Vec`, however many items there are, and constant
    /// time. After `NoMemory` the items are dropped.
    pub fn from_vec(items: Vec<T>) -> Result<Self, NoMemory>
    where
        T: Drop,
        ensures { IfOk result (λ list. list ≡ items.items) }
    {
        let alloc = *items.allocator();
        Ok(List {
            items: Items::Many(Box::new(alloc, items)?),
        })
    }

    /// Makes a list of a vector's items, in the memory `place`, allocated before. Takes no memory, and constant time.
    pub fn from_vec_in(items: Vec<T>, place: ListMemory<T>) -> Self
    where
        T: Drop,
        ensures { result ≡ items.items }
    {
        let ListMemory { mut vector } = place;
        let _ = Box::replace(&mut vector, items);
        List {
            items: Items::Many(vector),
        }
    }

    /// Makes a list of two items, which lie in the list itself. Takes no memory.
    pub fn pair(alloc: Global, first: T, second: T) -> Self
        ensures { result ≡ first ∷ second ∷ [] }
    {
        List {
            items: Items::Pair(FixedVec::new(alloc, [first, second])),
        }
    }

    /// Returns the items in order.
    pub fn items(&self) -> &[T]
        ensures { result.now ≡ self.now }
    {
        self.items.as_slice()
    }

    /// Lends the items in order, for writing.
    pub fn items_mut(&mut self) -> &mut [T]
        ensures* writes_back { sem 𝓛 (LendsItems T.row self.entry result) }
        ensures value { result.now ≡ self.old }
    {
        self.items.as_mut_slice()
    }

    /// Returns a list of the same items, in memory of its own.
    pub fn copy(&self, alloc: Global) -> Result<Self, NoMemory>
    where
        T: Copy,
        ensures { IfOk result (λ list. list ≡ self.now) }
    {
        List::from_vec(Vec::from_slice(alloc, self.items())?)
    }
}

impl<T: Drop> List<T> {
    /// Adds an item at the end. After `NoMemory` the list is unchanged.
    pub fn push(&mut self, item: T) -> Result<(), NoMemory>
        ensures ok { OnOk result (self.new ≡ self.old ++ item ∷ []) }
        ensures err { OnErr result (self.new ≡ self.old) }
    {
        match &mut self.items {
            Items::Many(items) => {
                items.as_mut().push(item)?;
                Ok(())
            }
            _ => self.items.add(item),
        }
    }

    /// Takes the last item off the list and returns it. Returns `None` exactly if the list is empty.
    pub fn pop(&mut self) -> Option<T>
        ensures last { IfSome result (λ item. self.old ≡ self.new ++ item ∷ []) }
        ensures empty { IfNone result ((self.old ≡ []) × (self.new ≡ [])) }
    {
        match &mut self.items {
            Items::Many(items) => items.as_mut().pop(),
            _ => self.items.take_last(),
        }
    }

    /// Takes the first item off the list and returns it. Returns `None` exactly if the list is empty. Takes time proportional
    /// to the list, so it is for short lists.
    pub fn take_first(&mut self) -> Option<T>
        ensures first { IfSome result (λ item. self.old ≡ item ∷ self.new) }
        ensures empty { IfNone result ((self.old ≡ []) × (self.new ≡ [])) }
    {
        match &mut self.items {
            Items::Many(items) => remove_first(items.as_mut()),
            _ => self.items.take_first(),
        }
    }
}
