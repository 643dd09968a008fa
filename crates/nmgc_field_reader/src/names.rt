//! The names of a trace of format 3, and the numbers of their objects. A name is found by its hash. A freed name is forgotten,
//! so that another object may have it.
ghost use Rattle.std.specs.Prelude.{◌≡◌, ◌↔◌, [], ℕ, List, IsTrue, Some, None, IfOk, IfSome, OnOk, All, map};
ghost use Rattle.nmgc_field_reader.specs.{FieldLines.IsName, FieldLines.IsPrinted, FieldLines.has_name, FieldLines.known_by, FieldLines.without, FieldReading.is_name, FieldTraces.IsForgotten, FieldTraces.IsGiven, FieldTraces.IsNaming};

use nmgc_field_checker::FieldEvent;
use nmgc_lists::NoMemory;
use std::alloc::Global;
use std::collections::HashMap;
use std::marker::Model;

/// The greatest number of bytes of a name.
pub const NAME_BYTES: usize = 64;

/// The number of an object that no heap has.
pub const NO_OBJECT: u32 = u32::MAX;

/// The objects of the heap, by their names.
#[derive(Drop)]
pub struct FieldNames {
    alloc: Global,
    objects: HashMap<Vec<u8>, u32>,
}

impl Model for FieldNames {
    ghost use Rattle.std.specs.Prelude.{List, ℕ};
    ghost use Rattle.nmgc_field_reader.specs.FieldLines.{names_of};

    ghost Value = { List (List ℕ × ℕ) };

    ghost view = { λ n. names_of n.objects.entries };
}

impl FieldNames {
    /// Returns no names. Takes no memory.
    pub fn new(alloc: Global) -> Self
        ensures { result ≡ [] }
    {
        FieldNames {
            alloc,
            objects: HashMap::new(alloc),
        }
    }

    /// Returns the object with this name, or `None` if the heap has none.
    pub fn object(&self, name: &[u8]) -> Option<u32>
        ensures { result ≡ known_by self.now name.now }
    {
        self.objects.get(name).copied()
    }

    /// Gives an object a name.
    pub fn give(&mut self, name: &[u8], object: u32) -> Result<(), NoMemory>
        ensures { OnOk result ((word : List ℕ) → known_by self.new word ≡ has_name name.now (Some object) (known_by self.old) word) }
    {
        let key = Vec::from_slice(self.alloc, name)?;
        self.objects.insert(key, object)?;
        Ok(())
    }

    /// Forgets a name.
    pub fn forget(&mut self, name: &[u8])
        ensures { (word : List ℕ) → known_by self.new word ≡ has_name name.now None (known_by self.old) word }
    {
        self.objects.remove(name);
    }

    /// Names the objects of an event that happened, which has these tokens: a new object, of this number, gets its name, and
    /// the names of freed objects are forgotten.
    pub fn follow(
        &mut self,
        object: u32,
        event: &FieldEvent,
        words: &[&[u8]],
    ) -> Result<(), NoMemory>
        ensures { OnOk result (IsNaming object event.now (map (λ w. w.now) words.now) (known_by self.old) (known_by self.new)) }
    {
        match event {
            FieldEvent::Made { .. } => self.give_third(object, words),
            FieldEvent::Freed { .. } => {
                self.forget_rest(words);
                Ok(())
            }
            FieldEvent::Began { .. }
            | FieldEvent::Ended { .. }
            | FieldEvent::Written { .. }
            | FieldEvent::Handed { .. }
            | FieldEvent::Owed { .. }
            | FieldEvent::Mark { .. }
            | FieldEvent::Scan { .. }
            | FieldEvent::Push { .. }
            | FieldEvent::Settle { .. }
            | FieldEvent::Close
            | FieldEvent::Marked { .. }
            | FieldEvent::Black { .. }
            | FieldEvent::Stop => Ok(()),
        }
    }

    // Gives an object the name that is the third token.
    fn give_third(&mut self, object: u32, words: &[&[u8]]) -> Result<(), NoMemory>
        ensures { OnOk result (IsGiven object (map (λ w. w.now) words.now) (known_by self.old) (known_by self.new)) }
    {
        let [_, _, name, ..] = words else {
            return Ok(());
        };
        self.give(name, object)
    }

    // Forgets the names after the first token.
    fn forget_rest(&mut self, words: &[&[u8]])
        ensures { IsForgotten (map (λ w. w.now) words.now) (known_by self.old) (known_by self.new) }
    {
        if let [_, names @ ..] = words {
            self.forget_all(names);
        }
    }

    // Forgets these names.
    fn forget_all(&mut self, names: &[&[u8]])
        ensures { (word : List ℕ) → known_by self.new word ≡ without (map (λ w. w.now) names.now) (known_by self.old) word }
    {
        for name in names {
            self.forget(name);
        }
    }

    /// Returns a name of the object, or `None`. Takes time for each name.
    pub fn name(&self, object: u32) -> Result<Option<Vec<u8>>, NoMemory> {
        for (name, number) in self.objects.iter() {
            if *number == object {
                return Ok(Some(Vec::from_slice(self.alloc, name.as_slice())?));
            }
        }
        Ok(None)
    }
}

/// Whether a token is a name: 1 to 64 bytes from `!` to `~`, and not just a hyphen.
pub fn is_name(word: &[u8]) -> bool
    ensures { result ≡ is_name word.now }
{
    has_form(word)
}

// Whether a token is a name, as `is_name`.
fn has_form(word: &[u8]) -> bool
    ensures { IsTrue result ↔ IsName word.now }
{
    !word.is_empty() && word.len() <= NAME_BYTES && word != b"-".as_slice() && is_printed(word)
}

// Whether each byte is one from `!` to `~`.
fn is_printed(word: &[u8]) -> bool
    ensures { IsTrue result ↔ All IsPrinted word.now }
{
    for byte in word {
        if !is_printed_byte(*byte) {
            return false;
        }
    }
    true
}

// Whether the byte is one from `!` to `~`.
fn is_printed_byte(byte: u8) -> bool
    ensures { IsTrue result ↔ IsPrinted byte }
{
    byte >= b'!' && byte <= b'~'
}
