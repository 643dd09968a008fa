//! One of several markers.
//!
//! A marker claims the targets of its own starting words. Then it scans its claimed objects, one after the other, and claims
//! the targets of their strong fields, until nothing is left. An object whose claim was refused is scanned by the marker that
//! has it, which may be this one. Claimed objects are in one list, and objects still to scan in another, from which the
//! marker takes the last. So it follows a chain of objects to its end before it turns to the next. It reads objects near
//! those that it read last, since a promotion puts objects made in sequence side by side. Both lists have room for every
//! block from the start.
//!
//! Easy to get wrong: a marker may be left with most of the work: it scans all that it claimed, and hands nothing over.
ghost use Rattle.std.specs.Prelude.{ℕ, ◌≡◌, ◌+◌, ◌*◌, ◌<◌, ◌≤◌, [], length, slice_index, IfSome, IfNone};
ghost use Rattle.nmgc_object.specs.declared.layout.TheConstants.{FIRST_PLACE};
ghost use Rattle.nmgc_stop_spec.specs.Strong.{HasStrong, HasHeader, IsStrongRange, IsAmong};
ghost use Rattle.nmgc_pmark.specs.{Seat.bounds_of, Found.IsFound, Found.block_index, Found.LeadsWithin, Found.CanMark, Marker.IsSound, Marker.HasTried, Marker.IsOwnStart, Marker.TakesLast, Marker.CanBegin, Marker.HasMarked};

use crate::still::StillWords;
use crate::table::{ClaimSeat, ClaimTable};
use nmgc_lists::Room;
use nmgc_object::laws::words_differ;
use nmgc_object::{Address, FIRST_PLACE, FieldWord, HEADER_WORDS, MIN_BLOCK_WORDS, header_of};
use nmgc_round::Gate;
use nmgc_world_spec::Kind;

/// A marker: its number, its seat at the claim table, its claimed objects in order of claims, and its objects still to scan.
#[derive(Drop)]
pub struct Marker {
    pub number: u8,
    pub seat: ClaimSeat,
    pub found: Room<Address>,
    pub waiting: Room<Address>,
}

/// Returns the number of the block that begins at an address.
fn block_index(at: u32) -> usize
    requires { FIRST_PLACE ≤ at }
    ensures { result ≡ block_index at }
{
    ((at - FIRST_PLACE) / MIN_BLOCK_WORDS) as usize
}

/// Returns the address of an object's first strong field, and the address after its last. The two are equal if there is no
/// strong field, as in a weak pointer. A thunk's strong fields are its free variables, or only its result if it has one.
fn strong_fields<W: StillWords>(words: &W, at: Address) -> (usize, usize)
    requires { HasHeader (W.words words.now) at.0 }
    ensures { IsStrongRange (W.words words.now) at.0 result.0 result.1 }
{
    let fields = at.0 as usize + HEADER_WORDS as usize;
    let header = header_of(words.word(at.0 as usize));
    match header.kind {
        Kind::Con | Kind::Var | Kind::Arr | Kind::Stack => {
            (fields, fields + header.fields as usize)
        }
        Kind::Thunk => {
            if words.word(fields) == 0 {
                (fields + 1, fields + header.fields as usize)
            } else {
                (fields, fields + 1)
            }
        }
        Kind::Weak => (fields, fields),
    }
}

impl Marker {
    // Claims the object at an address, and lists it as claimed and as still to scan, unless it is claimed already.
    fn claim_place(&mut self, table: &ClaimTable, at: u32)
        requires sound { IsSound table.now self.old }
        requires above { FIRST_PLACE ≤ at }
        requires within { block_index at < (bounds_of table.now).blocks }
        ensures { HasTried table.now self.old self.new (λ w. w ≡ 2 * at) }
    {
        if table.claim(&mut self.seat, self.number, block_index(at)) {
            self.found.add(Address(at));
            self.waiting.add(Address(at));
        }
    }

    // Claims the object to which a word points, unless the object is g or claimed already. Ignores a word that is no pointer.
    fn claim(&mut self, table: &ClaimTable, word: u64)
        requires sound { IsSound table.now self.old }
        requires within { LeadsWithin (bounds_of table.now).blocks word }
        ensures { HasTried table.now self.old self.new (λ w. w ≡ word) }
    {
        let Some(at) = FieldWord(word).place() else {
            return;
        };
        if at >= u64::from(FIRST_PLACE) {
            self.claim_place(table, at as u32);
        }
    }

    // Claims the targets of the marker's starting words: each `markers`-th word, from the word at position `number` on.
    fn claim_own(&mut self, table: &ClaimTable, starts: &[u64], markers: u8)
        requires sound { IsSound table.now self.old }
        requires some { 0 < markers }
        requires within { (i : ℕ) → i < length starts.now → LeadsWithin (bounds_of table.now).blocks (slice_index starts.now i) }
        ensures { HasTried table.now self.old self.new (IsOwnStart starts.now markers self.old.number (length starts.now)) }
    {
        for (i, word) in starts.iter().enumerate() {
            if i % usize::from(markers) == usize::from(self.number) {
                self.claim(table, *word);
            }
        }
    }

    // Claims the unclaimed targets of the words at addresses from `from` on and below `to`.
    fn claim_range<W: StillWords>(&mut self, table: &ClaimTable, words: &W, from: usize, to: usize)
        requires sound { IsSound table.now self.old }
        requires ordered { from ≤ to }
        requires inside { to ≤ length (W.words words.now) }
        requires within { (word : ℕ) → IsAmong (W.words words.now) from to word → LeadsWithin (bounds_of table.now).blocks word }
        ensures { HasTried table.now self.old self.new (IsAmong (W.words words.now) from to) }
    {
        for at in from..to {
            self.claim(table, words.word(at));
        }
    }

    // Claims the unclaimed targets of an object's strong fields.
    fn scan<W: StillWords>(&mut self, table: &ClaimTable, words: &W, at: Address)
        requires sound { IsSound table.now self.old }
        requires header { HasHeader (W.words words.now) at.0 }
        requires within { (word : ℕ) → HasStrong (W.words words.now) at.0 word → LeadsWithin (bounds_of table.now).blocks word }
        ensures { HasTried table.now self.old self.new (HasStrong (W.words words.now) at.0) }
    {
        words_differ();
        let (from, to) = strong_fields(words, at);
        self.claim_range(table, words, from, to);
    }

    // Takes the last of the objects that wait to be scanned and returns it, or returns `None` exactly if none waits.
    fn take_waiting(&mut self) -> Option<Address>
        ensures some { IfSome result (λ at. TakesLast self.old self.new at) }
        ensures none { IfNone result ((self.old.waiting.items ≡ []) × (self.new ≡ self.old)) }
    {
        self.waiting.take_last()
    }

    /// Claims the targets of the marker's starting words (each `markers`-th, from the word at position `number` on), unless
    /// they are claimed already. Then it scans its claimed objects until none is left to scan. Before each object it passes
    /// `gate` with its number and the count of its passes, from 1. Takes no memory, and waits only for the gate.
    pub fn mark<W: StillWords, G: Gate>(
        &mut self,
        table: &ClaimTable,
        words: &W,
        starts: &[u64],
        markers: u8,
        gate: &G,
    )
        requires begins { CanBegin table.now markers self.old }
        requires can { CanMark (W.words words.now) starts.now (bounds_of table.now).blocks }
        ensures marked { HasMarked table.now (W.words words.now) starts.now markers self.new }
        ensures number { self.new.number ≡ self.old.number }
    {
        self.claim_own(table, starts, markers);
        let mut passes: u64 = 0;
        while let Some(at) = self.take_waiting() {
            passes = passes.saturating_add(1);
            gate.pass(self.number, passes);
            self.scan(table, words, at);
        }
    }
}
