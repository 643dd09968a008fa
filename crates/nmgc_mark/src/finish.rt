//! Scanning at a stop, with the mutators stopped: by plain loads (`scan`), until the queue is empty.
ghost use Rattle.std.specs.Prelude.{ℕ, ◌≡◌, []};
ghost use Rattle.nmgc_round.specs.View.{Opening};
ghost use Rattle.nmgc_mark.specs.{Marker.HasRoomToMark, Marker.HasMarked, Stopped.IsReady, Stopped.HasFinished};

use crate::marker::Marker;
use crate::scan::AtStop;
use nmgc_alloc::Segments;
use nmgc_heap_spec::HeapWords;
use nmgc_round::laws;

impl Marker {
    /// Scans until the queue is empty, with the mutators stopped. Requires room in the marker (`HasRoomToMark`), and that a
    /// round could start now (`IsReady`): the words represent the world of a marking machine that has the marker's marks and
    /// queue. Scans alone then lead this machine to the marker's marks and an empty queue. No word changes. The gate isn't
    /// passed, and the count of its passes stays. Takes no memory.
    pub fn finish<W: HeapWords>(&mut self, words: &mut W, segments: &mut Segments)
        requires room { HasRoomToMark segments.old self.old }
        requires ready { (o : Opening) × IsReady o (W.words words.old) segments.old self.old }
        ensures words { W.words words.new ≡ W.words words.old }
        ensures marked { (count : ℕ) × HasMarked segments.old segments.new self.old self.new count }
        ensures turns { self.new.turns ≡ self.old.turns }
        ensures empty { self.new.queue ≡ [] }
        ensures finished { (o : Opening) → IsReady o (W.words words.old) segments.old self.old → HasFinished o segments.new self.new }
    {
        laws::openings_keep_the_rule();
        while let Some(at) = self.take_first() {
            self.scan(&AtStop, words, segments, at);
        }
    }
}
