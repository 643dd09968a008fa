//! Programs that are parked, and others of another type that go on with their heap.
ghost use Rattle.std.specs.Prelude.{◌≡◌};
ghost use Rattle.nmgc_limits.specs.Limits.{least_segment_words};
ghost use Rattle.nmgc_cycle.specs.Programs.{MayRun};
ghost use Rattle.nmgc_decider.specs.Ready.{IsReady};

use nmgc_commands::registers::{R0, R1};
use nmgc_commands::{PackedCommand, Register};
use nmgc_cycle::{Bounded, KeptRows, Parks, ProgramRun, RunFault};
use nmgc_decider::{Decided, Decider, heap_of};
use nmgc_journal::{End, Report};
use nmgc_round::OpenGate;
use nmgc_script::Config;
use nmgc_world_spec::{Reply, Value};
use std::alloc::Global;
use std::test::Fail;
use std::thread::Threads;

// A list of cells, which ends with nil.
const LIST: Register = R0;

const FIRST: Register = R1;

// A program that adds a cell to the list until `left` more are made. Then it has no work.
#[derive(Drop)]
struct Making {
    left: u32,
}

impl Decider for Making {
    ghost steps = { λ p r q. Unit {0} };

    ghost words = { λ p. least_segment_words };

    ghost valid = { λ p. Unit {0} };

    fn decide(&mut self, reply: Reply) -> Option<PackedCommand> {
        drop(reply);
        if self.left == 0 {
            return Some(PackedCommand::yield_now());
        }
        self.left -= 1;
        Some(PackedCommand::pair(LIST, 0, FIRST, LIST))
    }
}

// A program that counts the cells of the list that it finds.
#[derive(Drop)]
struct Counting {
    cells: u32,
}

impl Decider for Counting {
    ghost steps = { λ p r q. Unit {0} };

    ghost words = { λ p. least_segment_words };

    ghost valid = { λ p. Unit {0} };

    fn decide(&mut self, reply: Reply) -> Option<PackedCommand> {
        match reply {
            Reply::Fine => Some(PackedCommand::get(LIST, LIST, 1)),
            Reply::Given(Value::Ref(_)) => {
                self.cells = self.cells.saturating_add(1);
                Some(PackedCommand::get(LIST, LIST, 1))
            }
            Reply::Given(Value::Nil) => {
                self.cells = self.cells.saturating_add(1);
                None
            }
            _ => None,
        }
    }
}

// A program that waits for others, up to its last command.
#[derive(Drop)]
struct Waiting;

impl Decider for Waiting {
    ghost steps = { λ p r q. Unit {0} };

    ghost words = { λ p. least_segment_words };

    ghost valid = { λ p. Unit {0} };

    fn decide(&mut self, reply: Reply) -> Option<PackedCommand> {
        drop(reply);
        Some(PackedCommand::yield_now())
    }
}

// A program that makes `cells` cells, one at least.
fn maker_of(cells: u32) -> Decided<Making>
    ensures ready { IsReady (λ (d : Making). least_segment_words) (λ (d : Making). Unit {0}) result }
    ensures most { result.left ≡ 1000 }
{
    let making = Making {
        left: cells.saturating_sub(1),
    };
    Decided::new(making, PackedCommand::pair(LIST, 0, FIRST, LIST), 1000)
}

// A program that counts, and begins with `yield`.
fn counter() -> Decided<Counting>
    ensures ready { IsReady (λ (d : Counting). least_segment_words) (λ (d : Counting). Unit {0}) result }
    ensures most { result.left ≡ 1000 }
{
    Decided::new(Counting { cells: 0 }, PackedCommand::yield_now(), 1000)
}

// A program that gives `yield` three times.
fn waiter() -> Decided<Waiting>
    ensures ready { IsReady (λ (d : Waiting). least_segment_words) (λ (d : Waiting). Unit {0}) result }
    ensures most { result.left ≡ 3 }
{
    Decided::new(Waiting, PackedCommand::yield_now(), 3)
}

// A program that gives `yield` 2^30 times.
fn long_waiter() -> Decided<Waiting>
    ensures ready { IsReady (λ (d : Waiting). least_segment_words) (λ (d : Waiting). Unit {0}) result }
    ensures most { result.left ≡ 1_073_741_824 }
{
    Decided::new(Waiting, PackedCommand::yield_now(), 1_073_741_824)
}

// Runs programs until they are parked, and then others in their places, to the end. Returns the report of the whole run.
fn replaced<R: Threads + Sync, P: Parks, Q: Bounded>(
    alloc: Global,
    rt: &R,
    config: &Config,
    first: &mut [P],
    others: &mut [Q],
) -> Option<Report>
    requires first { MayRun P.words P.most P.valid config.now first.old }
    requires others { MayRun Q.words Q.most Q.valid config.now others.old }
{
    let mut kept = KeptRows::new(alloc);
    let Ok(begun) = ProgramRun::new(alloc, config, first) else {
        return None;
    };
    let mut run = begun;
    let Ok(None) = run.run_until_parked(rt, first, &OpenGate, &mut kept) else {
        return None;
    };
    if !run.may_resume(first, others) {
        return None;
    }
    let Ok(end) = run.run_to_end(rt, others, &OpenGate, &mut kept) else {
        return None;
    };
    Some(run.into_report(others, kept, end))
}

// The second programs find the lists that the first programs made in their registers. All commands are in one report.
#[test]
fn other_programs_go_on_with_the_heap(rt: HostRuntime) -> Result<(), Fail> {
    let config = heap_of(64, 8, 2).ok_or("no heap")?;
    let mut first = [maker_of(5), maker_of(200)];
    let mut others = [counter(), counter()];
    let report = replaced(rt.alloc(), &rt, &config, &mut first, &mut others).ok_or("no report")?;
    assert!(rt; report.end == End::Done);
    let [few, many] = others;
    assert!(rt; few.decider.cells == 5 && many.decider.cells == 200);
    Ok(())
}

// Runs programs until they are parked, and then others in their places, to the end. Each part has its own observer. Returns how
// many rounds each observer was given, or `None` if the other programs may not take the places.
fn rounds_of_parts<R: Threads + Sync, P: Parks, Q: Bounded>(
    alloc: Global,
    rt: &R,
    config: &Config,
    first: &mut [P],
    others: &mut [Q],
) -> Result<Option<(usize, usize)>, RunFault>
    requires first { MayRun P.words P.most P.valid config.now first.old }
    requires others { MayRun Q.words Q.most Q.valid config.now others.old }
{
    let mut early = KeptRows::new(alloc);
    let mut late = KeptRows::new(alloc);
    let mut run = ProgramRun::new(alloc, config, first)?;
    let Ok(None) = run.run_until_parked(rt, first, &OpenGate, &mut early) else {
        return Ok(None);
    };
    if !run.may_resume(first, others) {
        return Ok(None);
    }
    run.run_to_end(rt, others, &OpenGate, &mut late)?;
    Ok(Some((early.rounds.items().len(), late.rounds.items().len())))
}

// Programs that are parked from the beginning give a command each before they may be replaced. An observer that begins later is
// given the rounds from there on.
#[test]
fn an_observer_begins_later(rt: HostRuntime) -> Result<(), Fail> {
    let config = heap_of(64, 8, 2).ok_or("no heap")?;
    let mut first = [waiter(), waiter()];
    let mut others = [waiter(), waiter()];
    let parts = rounds_of_parts(rt.alloc(), &rt, &config, &mut first, &mut others);
    assert!(rt; parts == Ok(Some((1, 3))));
    let [one, other] = first;
    assert!(rt; one.left == 2 && other.left == 2);
    Ok(())
}

// A program that begins with another command than `yield` takes no place.
#[test]
fn only_programs_that_yield_may_resume(rt: HostRuntime) -> Result<(), Fail> {
    let config = heap_of(64, 8, 2).ok_or("no heap")?;
    let mut first = [waiter(), waiter()];
    let mut others = [maker_of(1), maker_of(1)];
    let parts = rounds_of_parts(rt.alloc(), &rt, &config, &mut first, &mut others);
    assert!(rt; parts == Ok(None));
    Ok(())
}

// With the commands given so far, these programs may give more than 2^31.
#[test]
fn only_few_commands_may_follow(rt: HostRuntime) -> Result<(), Fail> {
    let config = heap_of(64, 8, 2).ok_or("no heap")?;
    let mut first = [waiter(), waiter()];
    let mut others = [long_waiter(), long_waiter()];
    let parts = rounds_of_parts(rt.alloc(), &rt, &config, &mut first, &mut others);
    assert!(rt; parts == Ok(None));
    Ok(())
}
