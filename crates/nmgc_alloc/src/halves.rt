//! Sweeping segments that wait to be swept, in two halves.
//!
//! The mark bytes and the state of a segment belong to it alone, so two threads may sweep segments without order between
//! them. The tallies belong to all segments. So each half counts the results of its sweeps into a value of its own, and the
//! caller takes up both afterwards. The result doesn't depend on which half was first. The caller lends these values: if each
//! function on the way returned them, copying them would take as long as sweeping a few segments.
//!
//! Easy to get wrong: if the number of segments is odd, the lower half has one more. For one segment no thread starts.
ghost use Rattle.std.specs.Prelude.{ℕ, ◌≡◌, ◌+◌, ◌-◌, ◌/◌, ◌<◌, ◌≤◌, take, drop, length, if◌then◌else◌};
ghost use Rattle.nmgc_limits.specs.Limits.{most_segments};
ghost use Rattle.nmgc_segment.specs.Marks.{IsEpoch};
ghost use Rattle.nmgc_segment.specs.declared.state.State.TheVariants as state;
ghost use Rattle.nmgc_alloc.specs.{declared.search.Category.Category, declared.search.Category.TheVariants.Sweeping, AllocState.is, Search.NoneBelow, Search.is_in_category, Search.sought_count, Filing.IsOutcome, Filing.CountsNone, Filing.gained, Filing.AreFew, Filing.Files, Halves.IsInHalf, Halves.SweptWaiting, Halves.AllSwept, Halves.FirstSwept, laws.Counts.one_if};

use crate::cycle_steps;
use crate::filing::Filed;
use nmgc_segment::{Segment, State};
use std::thread::{Threads, join_mut};

// Sweeps the segment if it waits, after a call of `before`, and counts the result in `filed`. Returns `count`, the number of
// the half's earlier sweeps, plus 1 if it swept.
fn sweep_waiting<F: Fn(u8, u32)>(
    before: &F,
    half: u8,
    epoch: u8,
    count: u32,
    filed: &mut Filed,
    segment: &mut Segment,
) -> u32
    requires epoch { IsEpoch epoch }
    requires few { count < most_segments }
    requires counts { AreFew filed.old }
    requires before { segment.old.state ≡ state.Sweeping → F.pre before.now half count }
    ensures swept { SweptWaiting epoch segment.old segment.new }
    ensures count { result ≡ count + (if is_in_category Sweeping segment.old then 1 else 0) }
    ensures counts { (category : Category) → IsOutcome category →
        gained filed.new category + one_if (is_in_category category segment.old) ≡ gained filed.old category + one_if (is_in_category category segment.new) }
    ensures filled { filed.new.filled + one_if (is segment.old.state state.Filled) ≡ filed.old.filled + one_if (is segment.new.state state.Filled) }
{
    if segment.state() != State::Sweeping {
        return count;
    }
    before(half, count);
    let swept = cycle_steps::sweep_and_file(segment, epoch);
    filed.note(swept, segment.class());
    count + 1
}

// Sweeps all waiting segments of a part in order, each after a call of `before`, and counts the results in `filed`.
fn sweep_part<F: Fn(u8, u32)>(
    before: &F,
    half: u8,
    epoch: u8,
    filed: &mut Filed,
    segments: &mut [Segment],
)
    requires epoch { IsEpoch epoch }
    requires few { length segments.old ≤ most_segments }
    requires none { CountsNone filed.old }
    requires before { (i : ℕ) → i < sought_count Sweeping segments.old → F.pre before.now half i }
    ensures swept { AllSwept epoch segments.old segments.new }
    ensures files { Files (gained filed.new) filed.new.filled segments.old segments.new }
{
    let mut count = 0;
    for segment in segments.iter_mut() {
        count = sweep_waiting(before, half, epoch, count, filed, segment);
    }
}

// Sweeps the waiting segments of two parts. An upper part that isn't empty is swept in a thread of its own, or after the
// lower part if no thread can be started. Counts the results in `lower_filed` and `upper_filed`, which must be 0 before.
fn sweep_both<R: Threads + Sync, F: Fn(u8, u32) + Sync>(
    rt: &R,
    before: &F,
    epoch: u8,
    lower_filed: &mut Filed,
    upper_filed: &mut Filed,
    lower: &mut [Segment],
    upper: &mut [Segment],
)
    requires epoch { IsEpoch epoch }
    requires few { (length lower.old ≤ most_segments) × (length upper.old ≤ most_segments) }
    requires none { CountsNone lower_filed.old × CountsNone upper_filed.old }
    requires lower { (i : ℕ) → i < sought_count Sweeping lower.old → F.pre before.now 0 i }
    requires upper { (i : ℕ) → i < sought_count Sweeping upper.old → F.pre before.now 1 i }
    ensures lower { AllSwept epoch lower.old lower.new × Files (gained lower_filed.new) lower_filed.new.filled lower.old lower.new }
    ensures upper { AllSwept epoch upper.old upper.new × Files (gained upper_filed.new) upper_filed.new.filled upper.old upper.new }
{
    if upper.is_empty() {
        sweep_part(before, 0, epoch, lower_filed, lower);
        return;
    }
    let mut first = ||
        requires { IsEpoch epoch × (length lower.now ≤ most_segments) × CountsNone lower_filed.now
            × ((i : ℕ) → i < sought_count Sweeping lower.now → F.pre before.now 0 i) }
        ensures { AllSwept epoch lower.entry.now lower.exit.now
            × Files (gained lower_filed.exit.now) lower_filed.exit.now.filled lower.entry.now lower.exit.now }
    { sweep_part(before, 0, epoch, lower_filed, lower) };
    let mut second = ||
        requires { IsEpoch epoch × (length upper.now ≤ most_segments) × CountsNone upper_filed.now
            × ((i : ℕ) → i < sought_count Sweeping upper.now → F.pre before.now 1 i) }
        ensures { AllSwept epoch upper.entry.now upper.exit.now
            × Files (gained upper_filed.exit.now) upper_filed.exit.now.filled upper.entry.now upper.exit.now }
    { sweep_part(before, 1, epoch, upper_filed, upper) };
    join_mut(rt, &mut second, &mut first);
}

// Returns 1 if the segment waits to be swept, and otherwise 0.
fn waiting_count(segment: &Segment) -> u32
    ensures { result ≡ (if is_in_category Sweeping segment.now then 1 else 0) }
{
    if segment.state() == State::Sweeping {
        1
    } else {
        0
    }
}

// Returns a segment number. Exactly `count` of the segments from `from` on and below this number wait to be swept. Requires
// that at least `count` segments from `from` on wait.
fn end_of_waiting(segments: &[Segment], from: usize, count: u32) -> usize
    requires from { from ≤ length segments.now }
    requires enough { count ≤ sought_count Sweeping (drop from segments.now) }
    ensures from_on { from ≤ result }
    ensures within { result ≤ length segments.now }
    ensures counted { sought_count Sweeping (take (result - from) (drop from segments.now)) ≡ count }
{
    let mut left = count;
    for number in from..segments.len() {
        if left == 0 {
            return number;
        }
        left -= waiting_count(&segments[number]);
    }
    segments.len()
}

// Sweeps the first `count` waiting segments in two halves, and counts the results in `lower_filed` and `upper_filed`. Returns
// a number below which exactly these segments waited. Nothing changes from this number on.
fn sweep_in_halves<R: Threads + Sync, F: Fn(u8, u32) + Sync>(
    rt: &R,
    before: &F,
    epoch: u8,
    count: u32,
    lower_filed: &mut Filed,
    upper_filed: &mut Filed,
    segments: &mut [Segment],
) -> usize
    requires epoch { IsEpoch epoch }
    requires few { length segments.old ≤ most_segments }
    requires none { CountsNone lower_filed.old × CountsNone upper_filed.old }
    requires enough { count ≤ sought_count Sweeping segments.old }
    requires before { (half i : ℕ) → IsInHalf count half i → F.pre before.now half i }
    ensures swept { FirstSwept epoch count result segments.old segments.new }
    ensures files { Files (λ category. gained lower_filed.new category + gained upper_filed.new category)
        (lower_filed.new.filled + upper_filed.new.filled) segments.old segments.new }
{
    let upper = count / 2;
    let middle = end_of_waiting(segments, 0, count - upper);
    let end = end_of_waiting(segments, middle, upper);
    let (front, _) = segments.split_at_mut(end);
    let (lower_half, upper_half) = front.split_at_mut(middle);
    sweep_both(
        rt,
        before,
        epoch,
        lower_filed,
        upper_filed,
        lower_half,
        upper_half,
    );
    end
}

/// Sweeps the first `count` waiting segments in two halves, each in order. Requires that no segment below `from` waits, and
/// that both counts are 0. The lower half counts its results in `lower_filed`. The upper half counts its results in
/// `upper_filed`. Unless it is empty, it runs in a thread of its own, or after the lower half if no thread can be started.
/// Returns a number below which exactly these segments waited; from it on nothing changed. Before each sweep, a half calls
/// `before` with its number (0 or 1) and the number of its earlier sweeps. No clause promises these calls: the requirement
/// `before` says which arguments are allowed.
pub fn sweep_from<R: Threads + Sync, F: Fn(u8, u32) + Sync>(
    rt: &R,
    before: &F,
    epoch: u8,
    count: u32,
    from: usize,
    lower_filed: &mut Filed,
    upper_filed: &mut Filed,
    segments: &mut [Segment],
) -> usize
    requires epoch { IsEpoch epoch }
    requires few { length segments.old ≤ most_segments }
    requires none { CountsNone lower_filed.old × CountsNone upper_filed.old }
    requires from { (from ≤ length segments.old) × NoneBelow Sweeping segments.old from }
    requires enough { count ≤ sought_count Sweeping segments.old }
    requires before { (half i : ℕ) → IsInHalf count half i → F.pre before.now half i }
    ensures swept { FirstSwept epoch count result segments.old segments.new }
    ensures files { Files (λ category. gained lower_filed.new category + gained upper_filed.new category)
        (lower_filed.new.filled + upper_filed.new.filled) segments.old segments.new }
    ensures from_on { from ≤ result }
{
    let (_, waiting) = segments.split_at_mut(from);
    from + sweep_in_halves(rt, before, epoch, count, lower_filed, upper_filed, waiting)
}
