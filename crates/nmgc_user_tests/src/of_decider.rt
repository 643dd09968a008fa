//! Deciders: their ends, frames, and registers that don't exist.
ghost use Rattle.std.specs.Prelude.{◌≡◌, ◌<◌, ◌≤◌, IfSome};
ghost use Rattle.nmgc_limits.specs.Limits.{least_segment_words, most_segment_words};
ghost use Rattle.nmgc_decider.specs.Ready.{IsReady};
ghost use Rattle.nmgc_world_spec.specs.World.{Fits};

use nmgc_commands::registers::{LAST, R0, R1, R2};
use nmgc_commands::{Number, PackedCommand, Register};
use nmgc_cycle::Collector;
use nmgc_decider::{Decided, Decider, Frame, Random, heap_of};
use nmgc_journal::End;
use nmgc_round::OpenGate;
use nmgc_world_spec::{Reply, Value};
use std::test::Fail;

// A program that adds a cell to a list until it has `wanted`, and then reads them all again, and adds up their numbers.
#[derive(Drop)]
struct Summing {
    wanted: u64,
    made: u64,
    sum: u64,
    step: Step,
}

#[derive(Clone, Copy, Debug, PartialEq, Eq)]
enum Step {
    Number,
    Cell,
    First,
    Rest,
    End,
}

// The cell that was made or read last, its number, and the register that stays nil at the beginning.
const LIST: Register = R0;

const NUMBER: Register = R1;

impl Decider for Summing {
    ghost steps = { λ p r q. Unit {0} };

    ghost words = { λ p. least_segment_words };

    ghost valid = { λ p. Unit {0} };

    fn decide(&mut self, reply: Reply) -> Option<PackedCommand> {
        match (self.step, reply) {
            (Step::Number, Reply::Fine) => {
                self.step = Step::Cell;
                Some(PackedCommand::pair(LIST, 0, NUMBER, LIST))
            }
            (Step::Cell, Reply::Given(Value::Ref(_))) => {
                self.made = self.made.saturating_add(1);
                if self.made < self.wanted {
                    self.step = Step::Number;
                    let number = Number::new(self.made.saturating_add(1))?;
                    return Some(PackedCommand::num(NUMBER, number));
                }
                self.step = Step::First;
                Some(PackedCommand::get(NUMBER, LIST, 0))
            }
            (Step::First, Reply::Given(Value::Number(number))) => {
                self.sum = self.sum.saturating_add(number);
                self.step = Step::Rest;
                Some(PackedCommand::get(LIST, LIST, 1))
            }
            (Step::Rest, Reply::Given(Value::Ref(_))) => {
                self.step = Step::First;
                Some(PackedCommand::get(NUMBER, LIST, 0))
            }
            (_, _) => {
                self.step = Step::End;
                None
            }
        }
    }
}

// A list of this length, as a program of at most `most` commands.
fn sum_of(wanted: u64, most: u32) -> Decided<Summing>
    requires { 0 < most }
    ensures ready { IsReady (λ (d : Summing). least_segment_words) (λ (d : Summing). Unit {0}) result }
    ensures most { result.left ≡ most }
{
    let summing = Summing {
        wanted,
        made: 0,
        sum: 0,
        step: Step::Number,
    };
    Decided::new(summing, PackedCommand::num(NUMBER, Number::of(1)), most)
}

#[test]
fn each_program_decides_by_its_own_replies(rt: HostRuntime) -> Result<(), Fail> {
    let config = heap_of(64, 8, 3).ok_or("no heap")?;
    let mut programs = [sum_of(1, 100), sum_of(100, 1000), sum_of(2000, 10_000)];
    let report = Collector::run_programs(rt.alloc(), &rt, &config, &mut programs, &OpenGate)?;
    assert!(rt; report.end == End::Done);
    let [one, hundred, thousands] = programs;
    assert!(rt; one.decider.sum == 1 && !one.is_used_up());
    assert!(rt; hundred.decider.sum == 5050 && !hundred.is_used_up());
    assert!(rt; thousands.decider.sum == 2_001_000 && thousands.decider.step == Step::End);
    Ok(())
}

// The program ends at its last command, in the middle of the list.
#[test]
fn a_program_ends_at_its_last_command(rt: HostRuntime) -> Result<(), Fail> {
    let config = heap_of(64, 8, 1).ok_or("no heap")?;
    let mut programs = [sum_of(100, 7)];
    let report = Collector::run_programs(rt.alloc(), &rt, &config, &mut programs, &OpenGate)?;
    assert!(rt; report.end == End::Done);
    let [program] = programs;
    assert!(rt; program.is_used_up() && program.waiting.is_none());
    assert!(rt; program.decider.made == 3);
    Ok(())
}

#[test]
fn registers_and_numbers_are_within_their_limits(rt: HostRuntime) {
    assert!(rt; Register::new(0) == Some(R0) && Register::new(63) == Some(LAST));
    assert!(rt; Register::new(64).is_none() && Register::new(255).is_none());
    assert!(rt; Number::new((1 << 62) - 1).is_some() && Number::new(1 << 62).is_none());
}

// A program that keeps a pair in each slot of a frame, drops all else by a full cycle, and loads the pairs again.
#[derive(Drop)]
struct Keeping {
    frame: Frame,
    step: Keep,
    pushed: u64,
    sum: u64,
}

#[derive(Clone, Copy, Debug, PartialEq, Eq)]
enum Keep {
    Frame,
    Number,
    Pair,
    Push,
    Collect,
    Pop,
    Read,
    End,
}

const FRAME: Register = R2;

impl Keeping {
    // Goes on with a step and its command.
    fn go(&mut self, step: Keep, command: PackedCommand) -> Option<PackedCommand>
        requires { Fits most_segment_words command }
        ensures { IfSome result (Fits most_segment_words) }
    {
        self.step = step;
        Some(command)
    }

    // Makes the next number, or collects once the frame is full.
    fn number(&mut self) -> Option<PackedCommand>
        ensures { IfSome result (Fits most_segment_words) }
    {
        if self.frame.depth == self.frame.slots {
            return self.go(Keep::Collect, PackedCommand::full());
        }
        let number = Number::new(self.pushed)?;
        self.go(Keep::Number, PackedCommand::num(NUMBER, number))
    }

    // Loads the pair that was pushed last.
    fn pop(&mut self) -> Option<PackedCommand>
        ensures { IfSome result (Fits most_segment_words) }
    {
        let Some(command) = self.frame.pop(LIST) else {
            self.step = Keep::End;
            return None;
        };
        self.go(Keep::Pop, command)
    }

    // Pushes the pair that was made.
    fn push(&mut self) -> Option<PackedCommand>
        ensures { IfSome result (Fits most_segment_words) }
    {
        let command = self.frame.push(LIST)?;
        self.pushed = self.pushed.saturating_add(1);
        self.go(Keep::Push, command)
    }
}

impl Decider for Keeping {
    ghost steps = { λ p r q. Unit {0} };

    ghost words = { λ p. most_segment_words };

    ghost valid = { λ p. Unit {0} };

    fn decide(&mut self, reply: Reply) -> Option<PackedCommand> {
        match (self.step, reply) {
            (Keep::Frame, Reply::Given(Value::Ref(_))) | (Keep::Push, Reply::Fine) => self.number(),
            (Keep::Number, Reply::Fine) => self.go(
                Keep::Pair,
                PackedCommand::pair(LIST, 0, NUMBER, LAST),
            ),
            (Keep::Pair, Reply::Given(Value::Ref(_))) => self.push(),
            (Keep::Collect, Reply::Fine) => self.pop(),
            (Keep::Pop, Reply::Given(Value::Ref(_))) => self.go(
                Keep::Read,
                PackedCommand::get(NUMBER, LIST, 0),
            ),
            (Keep::Read, Reply::Given(Value::Number(number))) => {
                self.sum = self.sum.saturating_add(number);
                self.pop()
            }
            (_, _) => None,
        }
    }
}

// A program that keeps `slots` pairs.
fn frame_of(slots: u16) -> Decided<Keeping>
    requires { slots ≤ 4094 }
    ensures ready { IsReady (λ (d : Keeping). most_segment_words) (λ (d : Keeping). Unit {0}) result }
    ensures most { result.left ≡ 10000 }
{
    let frame = Frame::new(FRAME, slots);
    let keeping = Keeping {
        frame,
        step: Keep::Frame,
        pushed: 0,
        sum: 0,
    };
    Decided::new(keeping, frame.make(LAST), 10_000)
}

#[test]
fn a_frame_keeps_more_references_than_registers(rt: HostRuntime) -> Result<(), Fail> {
    let config = heap_of(64, 8, 1).ok_or("no heap")?;
    let mut programs = [frame_of(1000)];
    let report = Collector::run_programs(rt.alloc(), &rt, &config, &mut programs, &OpenGate)?;
    assert!(rt; report.end == End::Done);
    let [program] = programs;
    assert!(rt; program.decider.step == Keep::End && program.decider.pushed == 1000);
    assert!(rt; program.decider.sum == 499_500);
    Ok(())
}

#[test]
fn heaps_past_the_limits_are_refused(rt: HostRuntime) {
    assert!(rt; heap_of(0, 0, 1).is_none());
    assert!(rt; heap_of(65_536, 0, 1).is_none());
    assert!(rt; heap_of(65_000, 0, 32).is_none());
    assert!(rt; heap_of(1, 65_537, 1).is_none());
    assert!(rt; heap_of(1, 0, 32).is_some());
}

// The first numbers of splitmix64 from the state 0, as its reference implementation prints them.
#[test]
fn numbers_are_those_of_splitmix(rt: HostRuntime) {
    let mut random = Random::of_state(0);
    assert!(rt; random.number() == 0xE220_A839_7B1D_CDAF);
    assert!(rt; random.number() == 0x6E78_9E6A_A1B9_65F4);
    assert!(rt; random.number() == 0x06C4_5D18_8009_454F);
    assert!(rt; random.below(0) == 0);
}

#[test]
fn streams_of_one_state_are_the_same(rt: HostRuntime) {
    let mut random = Random::new(5, 3);
    let mut same = random;
    for _ in 0..100u32 {
        assert!(rt; random.below(10) == same.below(10));
        assert!(rt; random.number() == same.number());
    }
}
