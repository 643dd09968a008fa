//! A session of two mutators, whose commands come between two rounds.
//!
//! The replies of each round are compared with the replies that the specification gives. While the session is open, a mutator
//! whose commands are answered gives a pause, with the reply `Fine`. After a `yield` the commands that are left wait.
ghost use Rattle.std.specs.Prelude.{◌≡◌, IfOk, None, OnOk, false, true};
ghost use Rattle.nmgc_commands.specs.Fitting.{FitsAny};
ghost use Rattle.nmgc_script.specs.Spelling.{IsInLimits};
ghost use Rattle.nmgc_cycle.specs.Sessions.{IsSession};

use crate::of_cycle::script_of;
use nmgc_commands::registers::{R0, R1, R2, R3};
use nmgc_commands::{Number, PackedCommand};
use nmgc_cycle::{Session, StopEnd, StopRows};
use nmgc_journal::RoundRows;
use nmgc_round::OpenGate;
use nmgc_script::Script;
use nmgc_world_spec::{Name, Reply, Value};
use std::alloc::Global;
use std::test::Fail;
use std::thread::Threads;

const HEAD: &str = "nmgc 3\nheap 64 64 64 100 1000 0\nthread 0\nthread 1\n";

const PAIR: Reply = Reply::Given(Value::Ref(Name {
    maker: 0,
    serial: 0,
}));

const FIVE: Reply = Reply::Given(Value::Number(5));

// Begins a session with the head. Fails if the head isn't of version 3.
fn begun(alloc: Global, head: &Script) -> Result<Session, Fail>
    requires { IsInLimits head.now }
    ensures { IfOk result (λ session. IsSession true session × (session.is_open ≡ true)) }
{
    if head.version != 3 {
        return Err("another version".into());
    }
    Ok(Session::new(alloc, head)?)
}

// Does a stop. Fails if the run ends there.
fn go_on<R: Threads + Sync>(alloc: Global, rt: &R, session: &mut Session) -> Result<(), Fail>
    requires { IsSession true session.old }
    ensures session { OnOk result (IsSession false session.new) }
    ensures goes_on { OnOk result (session.new.collector.answered ≡ None) }
    ensures is_open { OnOk result (session.new.is_open ≡ session.old.is_open) }
{
    match session.stop(rt, &mut StopRows::new(alloc))? {
        StopEnd::GoOn => Ok(()),
        StopEnd::Done | StopEnd::HeapFull { .. } => Err("the run has ended".into()),
    }
}

// Does a round, and returns its replies. Fails if a mutator has no room for a pause.
fn turn<R: Threads + Sync>(rt: &R, session: &mut Session) -> Result<RoundRows, Fail>
    requires session { IsSession false session.old }
    requires goes_on { session.old.collector.answered ≡ None }
    ensures session { OnOk result (IsSession true session.new) }
    ensures is_open { OnOk result (session.new.is_open ≡ session.old.is_open) }
{
    if !session.has_room_all() {
        return Err("no room".into());
    }
    Ok(session.round(rt, &OpenGate)?)
}

// Adds a command of a mutator. Fails if there is no such mutator, or no room.
fn add(session: &mut Session, number: usize, command: PackedCommand) -> Result<(), Fail>
    requires session { IsSession false session.old }
    requires is_open { session.old.is_open ≡ true }
    requires fits { FitsAny command }
    ensures session { OnOk result (IsSession false session.new) }
    ensures is_open { OnOk result (session.new.is_open ≡ true) }
    ensures collector { OnOk result (session.new.collector ≡ session.old.collector) }
{
    if number >= session.count() || !session.has_room(number) {
        return Err("no room".into());
    }
    session.push(number, command)?;
    Ok(())
}

// Whether the two mutators gave these replies in a round.
fn has_replies(rows: &RoundRows, expected: [&[Reply]; 2]) -> bool {
    let mutators = rows.replies.items();
    if mutators.len() != 2 {
        return false;
    }
    for (replies, wanted) in mutators.iter().zip(expected.iter()) {
        if replies.len() != wanted.len() {
            return false;
        }
        for place in 0..wanted.len() {
            if replies.reply(place) != wanted[place] {
                return false;
            }
        }
    }
    true
}

// After the session was closed, the second mutator's last command waits for one more round.
#[test]
fn commands_come_between_rounds(rt: HostRuntime) -> Result<(), Fail> {
    let alloc = rt.alloc();
    let mut session = begun(alloc, &script_of(alloc, HEAD)?)?;
    assert!(rt; session.count() == 2);
    go_on(alloc, &rt, &mut session)?;
    add(&mut session, 0, PackedCommand::num(R1, Number::of(5)))?;
    add(&mut session, 0, PackedCommand::pair(R0, 0, R0, R1))?;
    add(&mut session, 0, PackedCommand::set_shared(0, R0))?;
    add(&mut session, 1, PackedCommand::yield_now())?;
    add(&mut session, 1, PackedCommand::nil(R0))?;
    let rows = turn(&rt, &mut session)?;
    assert!(rt;
        has_replies(
            &rows,
            [
                &[Reply::Fine, PAIR, Reply::Fine, Reply::Fine],
                &[Reply::Fine]
            ]
        )
    );
    go_on(alloc, &rt, &mut session)?;
    add(&mut session, 1, PackedCommand::get_shared(R2, 0))?;
    add(&mut session, 1, PackedCommand::get(R3, R2, 1))?;
    let rows = turn(&rt, &mut session)?;
    assert!(rt;
        has_replies(
            &rows,
            [&[Reply::Fine], &[Reply::Fine, PAIR, FIVE, Reply::Fine]]
        )
    );
    go_on(alloc, &rt, &mut session)?;
    add(&mut session, 1, PackedCommand::yield_now())?;
    add(&mut session, 1, PackedCommand::show(R3))?;
    session.close();
    let rows = turn(&rt, &mut session)?;
    assert!(rt; has_replies(&rows, [&[Reply::Fine], &[Reply::Fine]]));
    go_on(alloc, &rt, &mut session)?;
    let rows = turn(&rt, &mut session)?;
    assert!(rt; has_replies(&rows, [&[], &[FIVE, Reply::Fine]]));
    assert!(rt; session.stop(&rt, &mut StopRows::new(alloc))? == StopEnd::Done);
    Ok(())
}
