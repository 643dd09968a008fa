//! Scanning an object: its header, and then field after field.
//!
//! Each scanned word of an object, its header and then fields, is one scan of the marking machine. The target of a field is
//! marked before the next field is read. Beside the mutators, the collector's seat loads the words. At a stop, plain loads
//! are enough, and they too count as scans. The collector's work is then a round without mutators' steps
//! (`specs/Stopped.antt`), which needs no table. One loop serves both kinds of load, over a trait that says how a load
//! changes the collector's view.
//!
//! Easy to get wrong: a thunk's result is its first field, and if it was set, nothing else of the thunk is scanned. So that
//! field is scanned before the loop, which looks for no result.
ghost use Rattle.std.specs.Prelude.{◌≡◌, ◌+◌, ◌<◌};
ghost use Rattle.nmgc_object.specs.{Words.word_total, declared.size.TheConstants.HEADER_WORDS};
ghost use Rattle.nmgc_round.specs.{Marking.with_name, Marking.name_meant, Marking.rest_of, Ready.CanScan, Ready.scanned_by, Known.FindsScan, View.Seen};
ghost use Rattle.nmgc_mark.specs.{Marker.HasRoomToMark, Marker.HasMarked, Stopped.WordsShow, Tie.IsTied, Work.IsScanning, Work.IsDone, Work.SeatShows, Work.marks_seen, Work.fields_scanned, Work.has_results};

use crate::marker::Marker;
use nmgc_alloc::Segments;
use nmgc_heap_spec::HeapWords;
use nmgc_object::{Address, HEADER_WORDS, Header, header_of};
use nmgc_round::{CollectorSeat, Round, laws};
use nmgc_world_spec::Kind;

/// A way to load the words of objects that are scanned: by a seat of a round, or from the words at a stop.
pub(crate) trait ScanLoad<S> {
    // Only scans lead from the first source to the second, and the collector may have this view by then.
    ghost shows: { Self → S → S → Seen → Type 0 };

    /// Loads and returns the word that is `offset` words after `at`. Requires that the collector may have a view (`shows`)
    /// that scans this word next (`CanScan`). Each such view then has one more scan, with this word.
    fn load(&self, source: &mut S, at: Address, offset: u32) -> u64
        requires { (first : S) × (v : Seen) × shows self.now first source.old v × CanScan v at.0 offset × (at.0 + offset < word_total v.opening.layout) }
        ensures { (first : S) (v : Seen) → shows self.now first source.old v → CanScan v at.0 offset →
            shows self.now first source.new (scanned_by v result) × FindsScan v result };
}

impl ScanLoad<CollectorSeat> for Round {
    ghost shows = { SeatShows };

    fn load(&self, source: &mut CollectorSeat, at: Address, offset: u32) -> u64 {
        self.scan_load(source, at, offset)
    }
}

/// The loads at a stop, when the collector is alone: plain loads of the words.
pub(crate) struct AtStop;

impl<W: HeapWords> ScanLoad<W> for AtStop {
    ghost shows = { λ stop first words v. WordsShow (W.words first) (W.words words) v };

    fn load(&self, source: &mut W, at: Address, offset: u32) -> u64 {
        laws::scans_keep_the_rule();
        source.load(at.0 as usize + offset as usize)
    }
}

/// Returns the number of fields to scan in an object: none in a weak pointer, else all. (`scan` stops at a thunk's result.)
fn fields_scanned(header: Header) -> u32
    ensures { result ≡ fields_scanned header.kind header.fields }
{
    match header.kind {
        Kind::Weak => 0,
        Kind::Con | Kind::Var | Kind::Arr | Kind::Thunk | Kind::Stack => header.fields,
    }
}

/// Whether the object is a thunk, the only kind that may have a result.
fn is_thunk(header: Header) -> bool
    ensures { result ≡ has_results header.kind }
{
    match header.kind {
        Kind::Thunk => true,
        Kind::Con | Kind::Var | Kind::Arr | Kind::Weak | Kind::Stack => false,
    }
}

impl Marker {
    // Scans field `field` of the object at `at`: loads the field's word, marks its target, and returns the word. Requires
    // that the view's next scan is of this field (`IsScanning`), and room in the marker (`HasRoomToMark`).
    fn scan_field<S, L: ScanLoad<S>>(
        &mut self,
        loads: &L,
        source: &mut S,
        segments: &mut Segments,
        at: Address,
        field: u32,
    ) -> u64
        requires room { HasRoomToMark segments.old self.old }
        requires scanning { (first : S) × (v : Seen) × L.shows loads.now first source.old v × IsScanning v segments.old self.old at.0 (field + 1) ×
            (at.0 + HEADER_WORDS + field < word_total v.opening.layout) }
        ensures marked { HasMarked segments.old segments.new self.old self.new 0 }
        ensures turns { self.new.turns ≡ self.old.turns }
        ensures tied { (first : S) (v : Seen) → L.shows loads.now first source.old v → IsScanning v segments.old self.old at.0 (field + 1) →
            L.shows loads.now first source.new (scanned_by v result) ×
            IsTied v.opening (with_name v.opening.core.snapshot (rest_of (marks_seen v)) (name_meant v.opening.places result)) segments.new self.new }
    {
        // Note [Lines that do nothing] in `nmgc_alloc`: this gives the prover that all segments are sound.
        let _ = segments.layout();
        let word = loads.load(source, at, HEADER_WORDS + field);
        self.mark_word(segments, word);
        word
    }

    /// Scans the object at `at`, and marks the targets of its scanned fields. If a thunk has a result, its other fields
    /// aren't scanned. Requires room in the marker. The object has to be first in the view's queue and taken off the
    /// marker's, with marks and the other entries tied (`IsScanning`). Afterwards all is tied (`IsDone`).
    pub(crate) fn scan<S, L: ScanLoad<S>>(
        &mut self,
        loads: &L,
        source: &mut S,
        segments: &mut Segments,
        at: Address,
    )
        requires room { HasRoomToMark segments.old self.old }
        requires scanning { (v : Seen) × L.shows loads.now source.old source.old v × IsScanning v segments.old self.old at.0 0 }
        ensures marked { HasMarked segments.old segments.new self.old self.new 0 }
        ensures turns { self.new.turns ≡ self.old.turns }
        ensures done { (v : Seen) → L.shows loads.now source.old source.old v → IsScanning v segments.old self.old at.0 0 → (w : Seen) ×
            L.shows loads.now source.old source.new w × IsDone v w segments.new self.new }
    {
        let header = header_of(loads.load(source, at, 0));
        let fields = fields_scanned(header);
        let mut first = 0;
        if is_thunk(header) {
            let result = self.scan_field(loads, source, segments, at, 0);
            if result != 0 {
                return;
            }
            first = 1;
        }
        for field in first..fields {
            self.scan_field(loads, source, segments, at, field);
        }
    }
}
