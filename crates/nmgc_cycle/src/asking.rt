//! The slices of a round: each worker asks a program of its own for its commands.
//!
//! The programs belong to the caller, one for each worker, in the order of their numbers. A program runs in its worker's
//! thread, and each worker notes the number of commands that it did. So the workers share only the round, and each worker's
//! contract describes its effect.
//!
//! Starting a thread takes longer than a short round, so a thread is started only for work. A mutator whose program has ended
//! gets none. Nor does the collector if it has nothing to do, or if no program has commands left. The workers are split into
//! two parts, each with half of the workers that have commands left, and the parts are split in the same way. A part with at
//! most one such worker isn't split: its slices are done one after the other, on one thread.
//!
//! Easy to get wrong: if no thread can be started, the caller does the work, one worker after the other. So nothing here may
//! depend on two workers running side by side.
ghost use Rattle.std.specs.Prelude.{ℕ, ◌≡◌, ◌↔◌, ◌<◌, ◌≤◌, IsTrue, Some, length, slice_get, slice_index_or};
ghost use Rattle.std.specs.Thread.{IsSync, IsSend};
ghost use Rattle.nmgc_updrem.specs.Rings.{HavePolled};
ghost use Rattle.nmgc_cycle.specs.{Cycles.CanHelp, Cycles.HasHelped, Asking.CanAsk, Asking.HasAskedOn, Asking.CanAskAll, Asking.HaveAskedAll, Programs.SomeGives};

use crate::progress::Progress;
use crate::worker::{RoundInputs, Worker};
use nmgc_alloc::Segments;
use nmgc_mutator::{Program, Slice};
use nmgc_round::{CollectorSeat, Gate};
use nmgc_sweep::NameTable;
use nmgc_updrem::Inbox;
use std::thread;
use std::thread::Threads;

// Does a worker's slice of the commands that the program gives, and notes the slice's end and count of commands.
fn ask<R: Threads + Sync, P: Program, G: Gate>(
    inputs: &RoundInputs<R, G>,
    worker: &mut Worker,
    program: &mut P,
)
    requires { CanAsk P.words P.most P.valid inputs.now.round.now inputs.now.config.now.slice worker.old program.old }
    ensures { HasAskedOn P.next P.steps P.words P.most P.valid inputs.now.round.now inputs.now.config.now.slice worker.old worker.new
        program.old program.new }
{
    let most = inputs.config.slice;
    let Slice { done, end } = worker
        .mutator
        .run_program(inputs.round, &mut worker.seat, program, most, inputs.gate);
    worker.done = done;
    worker.end = end;
}

// Does the slice of at most one worker.
fn ask_few<R: Threads + Sync, P: Program, G: Gate>(
    inputs: &RoundInputs<R, G>,
    workers: &mut [Worker],
    programs: &mut [P],
)
    requires can { CanAskAll P.words P.most P.valid inputs.now.round.now inputs.now.config.now.slice workers.old programs.old }
    requires few { length workers.old ≤ 1 }
    ensures { HaveAskedAll P.next P.steps P.words P.most P.valid inputs.now.round.now inputs.now.config.now.slice workers.old workers.new
        programs.old programs.new }
{
    if workers.is_empty() {
        return;
    }
    ask(inputs, &mut workers[0], &mut programs[0]);
}

// Does the slices of the workers, one after the other.
fn ask_in_turn<R: Threads + Sync, P: Program, G: Gate>(
    inputs: &RoundInputs<R, G>,
    workers: &mut [Worker],
    programs: &mut [P],
)
    requires { CanAskAll P.words P.most P.valid inputs.now.round.now inputs.now.config.now.slice workers.old programs.old }
    ensures { HaveAskedAll P.next P.steps P.words P.most P.valid inputs.now.round.now inputs.now.config.now.slice workers.old workers.new
        programs.old programs.new }
{
    if workers.len() < 2 {
        ask_few(inputs, workers, programs);
        return;
    }
    let half = workers.len() / 2;
    let (front, back) = workers.split_at_mut(half);
    let (first, second) = programs.split_at_mut(half);
    ask_in_turn(inputs, front, first);
    ask_in_turn(inputs, back, second);
}

/// Whether any program has commands left.
pub fn is_some_left<P: Program>(programs: &[P]) -> bool
    requires { (k : ℕ) (p : P) → slice_get programs.now k ≡ Some p → P.valid p }
    ensures { IsTrue result ↔ SomeGives P.next programs.now }
{
    for number in 0..programs.len() {
        if programs[number].peek().is_some() {
            return true;
        }
    }
    false
}

// Whether the collector's part is worth a thread: the collector and some mutator have work. No clause constrains the answer.
fn is_worth_a_thread<P: Program>(progress: &Progress, segments: &Segments, programs: &[P]) -> bool
    requires { (k : ℕ) (p : P) → slice_get programs.now k ≡ Some p → P.valid p }
{
    progress.has_work(segments.sweep_count()) && is_some_left(programs)
}

// Returns the number of programs with commands left. No clause constrains it.
fn count_left<P: Program>(programs: &[P]) -> usize
    requires { (k : ℕ) (e : P) → k < length programs.now → P.valid (slice_index_or programs.now k e) }
{
    let mut count: usize = 0;
    for program in programs {
        if program.peek().is_some() {
            count = count.saturating_add(1);
        }
    }
    count
}

// Returns the number of the first program of the second part. The first part has half of the programs with commands left,
// rounded down. Returns 0, for a single part, if at most one program has any. No clause promises equal halves.
fn middle_of<P: Program>(programs: &[P]) -> usize
    requires { (k : ℕ) (e : P) → k < length programs.now → P.valid (slice_index_or programs.now k e) }
    ensures { 0 < result → result < length programs.now }
{
    let half = count_left(programs) / 2;
    if half == 0 {
        return 0;
    }
    let mut before: usize = 0;
    for (number, program) in programs.iter().enumerate() {
        if program.peek().is_some() {
            if before == half {
                return number;
            }
            before = before.saturating_add(1);
        }
    }
    0
}

/// Does each worker's slice of its own program. Only a worker whose program has commands left has a thread of its own.
#[cycle(parts)]
pub fn ask_part<R: Threads + Sync, P: Program, G: Gate>(
    inputs: &RoundInputs<R, G>,
    workers: &mut [Worker],
    programs: &mut [P],
)
    requires { CanAskAll P.words P.most P.valid inputs.now.round.now inputs.now.config.now.slice workers.old programs.old }
    ensures { HaveAskedAll P.next P.steps P.words P.most P.valid inputs.now.round.now inputs.now.config.now.slice workers.old workers.new
        programs.old programs.new }
{
    let middle = middle_of(programs);
    if middle == 0 {
        ask_in_turn(inputs, workers, programs);
        return;
    }
    let (front, back) = workers.split_at_mut(middle);
    let (first, second) = programs.split_at_mut(middle);
    ask_both_parts(inputs, front, back, first, second);
}

// Does the slices of two parts of the workers, in two threads if possible. The caller's thread does the first part.
// `cycle(parts)` says that this function and `ask_part` call each other, and are proved together.
#[cycle(parts)]
fn ask_both_parts<R: Threads + Sync, P: Program, G: Gate>(
    inputs: &RoundInputs<R, G>,
    front: &mut [Worker],
    back: &mut [Worker],
    first: &mut [P],
    second: &mut [P],
)
    requires some { (0 < length front.old) × (0 < length back.old) }
    requires front { CanAskAll P.words P.most P.valid inputs.now.round.now inputs.now.config.now.slice front.old first.old }
    requires back { CanAskAll P.words P.most P.valid inputs.now.round.now inputs.now.config.now.slice back.old second.old }
    ensures front { HaveAskedAll P.next P.steps P.words P.most P.valid inputs.now.round.now inputs.now.config.now.slice front.old front.new
        first.old first.new }
    ensures back { HaveAskedAll P.next P.steps P.words P.most P.valid inputs.now.round.now inputs.now.config.now.slice back.old back.new
        second.old second.new }
{
    let mut left = ||
        requires { IsSync R.row × IsSend P.row × (0 < length front.now) ×
            CanAskAll P.words P.most P.valid inputs.now.round.now inputs.now.config.now.slice front.now first.now }
        ensures { HaveAskedAll P.next P.steps P.words P.most P.valid inputs.entry.now.round.now inputs.entry.now.config.now.slice
            front.entry.now front.exit.now first.entry.now first.exit.now }
    { ask_part(inputs, front, first) };
    let mut right = ||
        requires { IsSync R.row × IsSend P.row × (0 < length back.now) ×
            CanAskAll P.words P.most P.valid inputs.now.round.now inputs.now.config.now.slice back.now second.now }
        ensures { HaveAskedAll P.next P.steps P.words P.most P.valid inputs.entry.now.round.now inputs.entry.now.config.now.slice
            back.entry.now back.exit.now second.entry.now second.exit.now }
    { ask_part(inputs, back, second) };
    thread::join_mut(inputs.rt, &mut right, &mut left);
}

/// Does each worker's slice of its own program, and beside them the collector's part. Only the collector and workers whose
/// programs have commands left have threads. If the collector has nothing to do, or no program has commands left, its part
/// comes first, without a thread of its own. Even then the upper half of a sweep has one.
pub fn ask_beside<R: Threads + Sync, P: Program, G: Gate>(
    inputs: &RoundInputs<R, G>,
    progress: &mut Progress,
    seat: &mut CollectorSeat,
    segments: &mut Segments,
    names: &NameTable,
    inbox: &mut Inbox,
    workers: &mut [Worker],
    programs: &mut [P],
)
    requires inbox { segments.old.layout.mutators ≤ length inbox.old }
    requires collector { CanHelp inputs.now.round.now seat.old segments.old names.now progress.old }
    requires mutators { CanAskAll P.words P.most P.valid inputs.now.round.now inputs.now.config.now.slice workers.old programs.old }
    ensures collector { HasHelped inputs.now.round.now inputs.now.config.now.quota seat.old seat.new segments.old segments.new names.now
        progress.old progress.new }
    ensures mutators { HaveAskedAll P.next P.steps P.words P.most P.valid inputs.now.round.now inputs.now.config.now.slice workers.old workers.new
        programs.old programs.new }
    ensures polled { HavePolled inbox.old inbox.new }
{
    if !is_worth_a_thread(progress, segments, programs) {
        progress.work(inputs, seat, segments, names, inbox);
        ask_part(inputs, workers, programs);
        return;
    }
    thread::join_mut(
        inputs.rt,
        &mut ||
            requires { IsSync R.row × CanHelp inputs.now.round.now seat.now segments.now names.now progress.now ×
                (segments.now.layout.mutators ≤ length inbox.now) }
            ensures { HasHelped inputs.entry.now.round.now inputs.entry.now.config.now.quota seat.entry.now seat.exit.now segments.entry.now
                segments.exit.now names.entry.now progress.entry.now progress.exit.now × HavePolled inbox.entry.now inbox.exit.now }
        { progress.work(inputs, seat, segments, names, inbox) },
        &mut ||
            requires { IsSync R.row × IsSend P.row ×
                CanAskAll P.words P.most P.valid inputs.now.round.now inputs.now.config.now.slice workers.now programs.now }
            ensures { HaveAskedAll P.next P.steps P.words P.most P.valid inputs.entry.now.round.now inputs.entry.now.config.now.slice
                workers.entry.now workers.exit.now programs.entry.now programs.exit.now }
        { ask_part(inputs, workers, programs) },
    );
}
