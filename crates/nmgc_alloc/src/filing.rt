//! Counts of swept segments, for the tallies: how many became free, active of each class, and filled.
//!
//! Two threads sweep segments side by side. Neither may write the tallies, which belong to all segments. So each counts into
//! a value of its own, and the tallies take up both afterwards. This takes the same time for any number of segments.
//!
//! Easy to get wrong: the tallies know the range in which segments entered a kind, but not which segments did. So nothing in
//! that range is ruled out any more. If the range ends at or below the tally's `from`, the stretch then begins at the range's
//! end and reaches at least up to the old `from`. Otherwise it keeps the part of its stretch above the range. So a search may
//! look at other segments than after single sweeps, and at some once more. It finds the same segment.
ghost use Rattle.std.specs.Prelude.{◌≡◌, ◌+◌, ◌<◌, ◌≤◌, length};
ghost use Rattle.nmgc_limits.specs.Limits.{most_segments};
ghost use Rattle.nmgc_alloc.specs.{declared.tables.TheConstants.CLASSES as classes, declared.tables.TheConstants.KINDS as kinds, declared.search.Category.Category as Kind, declared.search.Category.TheVariants.Sweeping as waiting, AllocState.is, Search.is_for, Search.tally_of, CycleSteps.state_of, Filing.IsOutcome, Filing.CountsNone, Filing.gained, Filing.AreFew, Filing.EntersMany, laws.Counts.one_if};
ghost use Rattle.nmgc_segment.specs.declared.state.State.TheVariants as state;

use crate::search::Category;
use crate::tables::CLASSES;
use crate::tally::Tally;
use nmgc_segment::Swept;

/// The numbers of segments that sweeps made free, active of each class, and filled.
#[derive(Clone, Copy, Debug, PartialEq, Eq)]
pub struct Filed {
    pub free: u32,
    pub active: [u32; CLASSES],
    pub filled: u32,
}

impl Filed {
    /// Returns the counts before any sweep, which are all 0.
    pub fn none() -> Self
        ensures { CountsNone result }
    {
        Filed {
            free: 0,
            active: [0; CLASSES],
            filled: 0,
        }
    }

    /// Counts one more swept segment, of this class and with this result of its sweep.
    pub fn note(&mut self, swept: Swept, class: u8)
        requires class { class < classes }
        requires few { AreFew self.old }
        ensures counts { (category : Kind) → IsOutcome category →
            gained self.new category ≡ gained self.old category + one_if (is_for category (state_of swept) class) }
        ensures filled { self.new.filled ≡ self.old.filled + one_if (is (state_of swept) state.Filled) }
    {
        match swept {
            Swept::Free => self.free += 1,
            Swept::Active => self.active[usize::from(class)] += 1,
            Swept::Filled => self.filled += 1,
        }
    }
}

/// Adds the counts of two swept parts to the tallies of free and active segments. Both parts lie from `from` on, below `end`.
pub fn take_up(tallies: &mut [Tally], lower: &Filed, upper: &Filed, from: u32, end: u32)
    requires kinds { length tallies.old ≡ kinds }
    requires range { (from ≤ end) × (end ≤ most_segments) }
    requires few { (category : Kind) → IsOutcome category →
        (tally_of tallies.old category).count + (gained lower.now category + gained upper.now category) ≤ most_segments }
    ensures kinds { length tallies.new ≡ kinds }
    ensures each { (category : Kind) → IsOutcome category →
        EntersMany (gained lower.now category + gained upper.now category) from end (tally_of tallies.old category) (tally_of tallies.new category) }
    ensures waiting { tally_of tallies.new waiting ≡ tally_of tallies.old waiting }
{
    tallies[Category::Free.place()].enter_many(lower.free + upper.free, from, end);
    for class in 0..CLASSES {
        let gain = lower.active[class] + upper.active[class];
        tallies[Category::Active { class: class as u8 }.place()].enter_many(gain, from, end);
    }
}
