//! The nursery objects that were found: a table by nursery word, and the list in which they wait.
//!
//! An entry of the table is 0 for a word at which no found object begins, `FOUND` for a found object, and from the second
//! pass on its new address. No new address is 0 or `FOUND`, since segments begin above g. Each found object is in the list
//! once, and the list is read once, from its front.
ghost use Rattle.std.specs.Prelude.{ℕ, ◌≡◌, ◌+◌, ◌*◌, ◌<◌, ◌≤◌, ◌⊎◌, length, slice_index, Contains, IfSome, IfNone};
ghost use Rattle.nmgc_minor.specs.Found.{IsFound};
ghost use Rattle.nmgc_stop_spec.specs.Strong.{HasStrong, HasHeader, IsAmong, IsStrongRange};

use nmgc_heap_spec::HeapWords;
use nmgc_lists::Room;
use nmgc_object::laws::words_differ;
use nmgc_object::{Address, FieldWord, HEADER_WORDS, header_of};
use nmgc_world_spec::Kind;

/// The table's entry of a found object that has no new address yet.
pub const FOUND: u32 = 1;

/// The table, the word at which it begins, and the list.
#[derive(Drop)]
pub struct Young {
    pub base: u32,
    pub table: Vec<u32>,
    pub found: Room<Address>,
}

/// Returns the address of an object's first strong field, and the address after its last. They are equal if there is none, as
/// in a weak pointer. The result of a thunk is its only strong field. A thunk without a result has its free variables.
pub fn strong_fields<W: HeapWords>(words: &mut W, at: Address) -> (usize, usize)
    requires { HasHeader (W.words words.old) at.0 }
    ensures range { IsStrongRange (W.words words.old) at.0 result.0 result.1 }
    ensures same { W.words words.new ≡ W.words words.old }
{
    let fields = at.0 as usize + HEADER_WORDS as usize;
    let header = header_of(words.load(at.0 as usize));
    match header.kind {
        Kind::Con | Kind::Var | Kind::Arr | Kind::Stack => {
            (fields, fields + header.fields as usize)
        }
        Kind::Thunk => {
            if words.load(fields) == 0 {
                (fields + 1, fields + header.fields as usize)
            } else {
                (fields, fields + 1)
            }
        }
        Kind::Weak => (fields, fields),
    }
}

impl Young {
    ghost use Rattle.nmgc_minor.specs.Young.{IsIn, IsYoung, IsWithin, Notes, PointsIn, CanFollow, Follows};

    /// Returns the table index of the address that a word points to, or `None` exactly if it points to none from `base` on.
    pub fn entry(&self, word: u64) -> Option<usize>
        ensures some { IfSome result (λ index. word ≡ 2 * (self.now.base + index)) }
        ensures none { IfNone result ((at : ℕ) → word ≡ 2 * at → self.now.base ≤ at → ⊥) }
    {
        let at = FieldWord(word).place()?;
        let base = u64::from(self.base);
        if at >= base {
            Some((at - base) as usize)
        } else {
            None
        }
    }

    /// Notes as found the nursery object of the table's entry `index`, unless it was found before.
    fn note_entry(&mut self, index: usize)
        requires young { IsYoung self.old }
        requires index { index < length self.old.table.items }
        ensures { Notes self.old self.new (λ w. w ≡ 2 * (self.old.base + index)) }
    {
        if self.table[index] == 0 {
            self.table[index] = FOUND;
            self.found.add(Address(self.base + index as u32));
        }
    }

    /// Notes as found the nursery object to which a field word points, if it points to one.
    pub fn note(&mut self, word: u64)
        requires young { IsYoung self.old }
        requires within { IsWithin self.old word }
        ensures { Notes self.old self.new (λ w. w ≡ word) }
    {
        if let Some(index) = self.entry(word) {
            self.note_entry(index);
        }
    }

    /// Notes as found the nursery objects to which the field words point.
    pub fn note_all(&mut self, words: &[u64])
        requires young { IsYoung self.old }
        requires within { (word : ℕ) → Contains words.now word → IsWithin self.old word }
        ensures { Notes self.old self.new (Contains words.now) }
    {
        for word in words {
            self.note(*word);
        }
    }

    /// Notes as found the nursery objects to which the words from address `from` on and below `to` point.
    pub fn note_range<W: HeapWords>(&mut self, words: &mut W, from: usize, to: usize)
        requires young { IsYoung self.old }
        requires ordered { from ≤ to }
        requires inside { to ≤ length (W.words words.old) }
        requires within { (word : ℕ) → IsAmong (W.words words.old) from to word → IsWithin self.old word }
        ensures notes { Notes self.old self.new (IsAmong (W.words words.old) from to) }
        ensures same { W.words words.new ≡ W.words words.old }
    {
        for at in from..to {
            let word = words.load(at);
            self.note(word);
        }
    }

    /// Notes as found the nursery objects to which the strong fields of the object at `at` point.
    fn note_fields<W: HeapWords>(&mut self, words: &mut W, at: Address)
        requires young { IsYoung self.old }
        requires can { CanFollow self.old (W.words words.old) at.0 }
        ensures notes { Notes self.old self.new (HasStrong (W.words words.old) at.0) }
        ensures same { W.words words.new ≡ W.words words.old }
    {
        words_differ();
        let (from, to) = strong_fields(words, at);
        self.note_range(words, from, to);
    }

    /// Notes as found all nursery objects that strong fields reach from the objects found before. Each object is read once.
    pub fn follow<W: HeapWords>(&mut self, words: &mut W)
        requires young { IsYoung self.old }
        requires can { (at : ℕ) → IsFound self.old.base (W.words words.old) (PointsIn self.old) at → CanFollow self.old (W.words words.old) at }
        ensures follows { Follows self.old self.new (W.words words.old) }
        ensures same { W.words words.new ≡ W.words words.old }
    {
        let mut next = 0;
        while next < self.found.items().len() {
            let at = self.found.items()[next];
            self.note_fields(words, at);
            next += 1;
        }
    }
}
