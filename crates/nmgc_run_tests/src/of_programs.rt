//! Runs of programs that decide on each command by the last reply, with two mutators and with a heap that gets full.
//!
//! The report of a run of programs is compared with the report of a script that has the commands that the programs gave.
ghost use Rattle.std.specs.Prelude.{◌≡◌, ◌<◌, ◌≤◌, All, IfOk, length, slice_get};
ghost use Rattle.nmgc_world_spec.specs.World.{Fits};
ghost use Rattle.nmgc_script.specs.Spelling.{IsInLimits};
ghost use Rattle.nmgc_cycle.specs.Programs.{MayRun};

use crate::of_cycle::{Meet, reported, script_of};
use nmgc_commands::PackedCommand;
use nmgc_cycle::Collector;
use nmgc_journal::End;
use nmgc_journal::text::text;
use nmgc_mutator::Program;
use nmgc_round::OpenGate;
use nmgc_script::Script;
use nmgc_world_spec::{Reply, Value};
use std::alloc::Global;
use std::test::Fail;

// A list of commands. A command is given again as long as its reply is a reference, but at most `most` times in a row. So the
// program walks down a list of objects whose length it doesn't know.
#[derive(Drop)]
pub(crate) struct Repeating<'a> {
    commands: &'a [PackedCommand],
    position: usize,
    // How often the next command was done in a row.
    times: u32,
    most: u32,
    // No object that the commands make has more words.
    words: u32,
    // The number of commands that it may still give.
    left: u32,
    // The last reply.
    last: Reply,
}

impl<'a> Program for Repeating<'a> {
    ghost use Rattle.std.proofs.lemmas.Option.{slice_get_within};
    ghost use Rattle.nmgc_mutator.specs.laws.Lists.{listed_waits};

    ghost next = { λ p. slice_get p.commands.now p.position };

    ghost steps = { λ p r q. q.last ≡ r };

    ghost words = { λ p. p.words };

    ghost most = { λ p. p.left };

    ghost valid = { λ p. All (Fits p.words) p.commands.now × (p.position < length p.commands.now → 0 < p.left) };

    ghost waits = { λ p c v e. ((listed_waits p.commands.now p.position p.words c v.0 e).0, v.1 (slice_get_within p.commands.now p.position c e)) };

    fn peek(&self) -> Option<&PackedCommand> {
        self.commands.get(self.position)
    }

    fn at_most(&self) -> u32 {
        self.left
    }

    fn take_reply(&mut self, reply: Reply) {
        self.times = self.times.saturating_add(1);
        self.left -= 1;
        self.last = reply;
        let is_reference = matches!(reply, Reply::Given(Value::Ref(_)));
        if self.left == 0 {
            self.position = self.commands.len();
        } else if !is_reference || self.times >= self.most {
            self.position += 1;
            self.times = 0;
        }
    }
}

// Returns the script's programs. Program k repeats a command at most `most[k]` times, and gives at most `left` commands. Fails
// if the script has another version than 3, or another number of mutators.
fn programs_of<'a>(
    alloc: Global,
    script: &'a Script,
    most: &[u32],
    left: u32,
) -> Result<Vec<Repeating<'a>>, Fail>
    requires limits { IsInLimits script.now }
    requires left { (0 < left) × (left ≤ 65536) }
    ensures { IfOk result (λ programs. MayRun ⟦<Repeating<'a> as Program>⟧.words ⟦<Repeating<'a> as Program>⟧.most
        ⟦<Repeating<'a> as Program>⟧.valid script.now.config programs.items) }
{
    if script.version != 3 || script.threads.items().len() != most.len() {
        return Err("not a script of these programs".into());
    }
    let mut programs = Vec::with_capacity(alloc, most.len())?;
    for number in 0..most.len() {
        let commands = script.threads.items()[number].items();
        programs.push(Repeating {
            commands,
            position: 0,
            times: 0,
            most: most[number],
            words: script.config.words,
            left,
            last: Reply::Fine,
        })?;
    }
    Ok(programs)
}

// Two programs: each makes a list, walks down to its end, and then reads a field of nil.
const WALKS: &str =
    "nmgc 3\nheap 64 64 64 100 1000 0\nthread 0\ncon r0 0 r0 r1\nget r0 r0 0\nget r0 r0 0\nshow r0\nthread 1\ncon r0 0 r0 r1\nget r0 r0 0\nget r0 r0 0\nshow r0\n";

// The commands that the programs of `WALKS` give if the first repeats a command at most four times, and the second twice.
const WALKED: &str =
    "nmgc 3\nheap 64 64 64 100 1000 0\nthread 0\ncon r0 0 r0 r1\ncon r0 0 r0 r1\ncon r0 0 r0 r1\ncon r0 0 r0 r1\nget r0 r0 0\nget r0 r0 0\nget r0 r0 0\nget r0 r0 0\nget r0 r0 0\nshow r0\nthread 1\ncon r0 0 r0 r1\ncon r0 0 r0 r1\nget r0 r0 0\nget r0 r0 0\nget r0 r0 0\nshow r0\n";

// A program that makes objects of four words as long as it gets names: sixteen fill its nursery.
const MAKES: &str = "nmgc 3\nheap 20 64 64 100 1000 0\nthread 0\ncon r0 0 r0 r1\n";

// The last `get` of each program is refused. The programs give ten and six commands. At the gate each mutator's first command
// waits for the other's.
#[test]
fn programs_decide_by_replies(rt: HostRuntime) -> Result<(), Fail> {
    let script = script_of(rt.alloc(), WALKS)?;
    let mut programs = programs_of(rt.alloc(), &script, &[4, 2], 1000)?;
    let meet = Meet::new([0, 1], [(1, 1), (1, 1)]);
    let report = Collector::run_programs(
        rt.alloc(),
        &rt,
        &script.config,
        programs.as_mut_slice(),
        &meet,
    )?;
    assert!(rt; meet.has_met());
    let walked = reported(rt.alloc(), &rt, WALKED, &OpenGate)?;
    assert!(rt; text(rt.alloc(), &report)?.as_slice() == walked.as_slice());
    for (program, left) in programs.iter().zip([990u32, 994].iter()) {
        assert!(rt; program.left == *left);
        assert!(rt; program.last == Reply::Given(Value::Nil));
    }
    Ok(())
}

// The seventeenth and the thirty-third command wait for room. The program ends by its own bound.
#[test]
fn a_waiting_command_is_given_again(rt: HostRuntime) -> Result<(), Fail> {
    let script = script_of(rt.alloc(), MAKES)?;
    let mut programs = programs_of(rt.alloc(), &script, &[u32::MAX], 33)?;
    let report = Collector::run_programs(
        rt.alloc(),
        &rt,
        &script.config,
        programs.as_mut_slice(),
        &OpenGate,
    )?;
    assert!(rt; matches!(report.end, End::Done));
    assert!(rt; report.rounds.items().len() == 3);
    for program in &programs {
        assert!(rt; program.times == 33 && program.left == 0);
    }
    Ok(())
}

// Of twenty segments seventeen are the reserve. The heap is full after the round that fills the fourth with kept objects.
#[test]
fn a_full_heap_ends_a_run_of_programs(rt: HostRuntime) -> Result<(), Fail> {
    let script = script_of(rt.alloc(), MAKES)?;
    let mut programs = programs_of(rt.alloc(), &script, &[u32::MAX], 1000)?;
    let report = Collector::run_programs(
        rt.alloc(),
        &rt,
        &script.config,
        programs.as_mut_slice(),
        &OpenGate,
    )?;
    let is_full = matches!(
        report.end,
        End::HeapFull {
            free: 16,
            reserve: 17
        }
    );
    assert!(rt; is_full);
    for program in &programs {
        assert!(rt; program.times == 64 && program.left == 936);
    }
    Ok(())
}
