//! A list of events that is run at once. Traces feed the machine event by event (`examples/rows/machine.rows`).
use nmgc_core::Core;
use nmgc_graph::World;
use nmgc_lists::List;
use nmgc_script::parse;
use nmgc_snapshot_laws::{Event, laws};
use nmgc_world_spec::{Command, Name, Reply, Value};
use std::alloc::Global;
use std::test::Fail;

// Two arrays, and a list of cells. The first array has the only references to an object.
const BEFORE: &str = "nmgc 1
heap 32 64 64 100 1000 0
thread 0
num r1 5
con r4 0 r1
arr r0 2 r4
arr r2 2 r1
nil r4
con r3 0 r3 r1
con r3 0 r3 r1
con r3 0 r3 r1
con r3 0 r3 r1
con r3 0 r3 r1
con r3 0 r3 r1
con r3 0 r3 r1
con r3 0 r3 r1
con r3 0 r3 r1
con r3 0 r3 r1
con r3 0 r3 r1
con r3 0 r3 r1
con r3 0 r3 r1
";

// A reference is read out of an array, written into another one, and erased from the first.
const DURING: &str = "nmgc 1
heap 32 64 64 100 1000 0
thread 0
get r4 r0 0
set r2 1 r4
set r0 0 r1
set r0 1 r1
nil r4
nil r0
";

// An object of the one mutator.
fn name(serial: u32) -> Name {
    Name { maker: 0, serial }
}

// The commands of a script.
fn commands_of(alloc: Global, script: &str) -> Result<Vec<Command>, Fail> {
    let mut commands = Vec::new(alloc);
    if script.len() > 1000 {
        return Err("too long".into());
    }
    let script = parse(alloc, script.as_bytes())?;
    for program in script.threads.items() {
        for packed in program.items() {
            commands.push(packed.unpack(alloc)?)?;
        }
    }
    Ok(commands)
}

// The world of one mutator after these commands.
fn world_after(alloc: Global, script: &str) -> Result<World, Fail> {
    let commands = commands_of(alloc, script)?;
    let mut world = World::new(alloc, 1)?;
    for command in commands.iter() {
        if world.can_apply(0, command) {
            world.apply(0, command)?;
        }
    }
    Ok(world)
}

// A scan, these commands, the given numbers of pushes, takes and scans, and a closing.
fn events(alloc: Global, script: &str, pushes: u32, scans: u32) -> Result<Vec<Event>, Fail> {
    let mut events = Vec::new(alloc);
    events.push(Event::Scan)?;
    for command in commands_of(alloc, script)? {
        let answer = match &command {
            Command::Get { .. } => Reply::Given(Value::Ref(name(0))),
            _ => Reply::Fine,
        };
        events.push(Event::Command {
            mutator: 0,
            command,
            answer,
        })?;
    }
    for _ in 0..pushes {
        events.push(Event::Push { mutator: 0 })?;
        events.push(Event::Take { mutator: 0 })?;
    }
    for _ in 0..scans {
        events.push(Event::Scan)?;
    }
    events.push(Event::Close)?;
    Ok(events)
}

// Runs the events. Returns whether all sixteen objects are marked, nothing was opened, and marking ended as `closed` says.
fn ends_so(alloc: Global, events: &[Event], closed: bool) -> Result<bool, Fail> {
    let world = world_after(alloc, BEFORE)?;
    let core = Core::run(world, events)?;
    let mut names = List::new(alloc);
    for serial in 0..16u32 {
        names.push(name(serial))?;
    }
    names.push(Name::SHARED)?;
    let marked = core.marked()?;
    Ok(
        marked.items() == names.items()
            && core.is_closed() == closed
            && core.opened().is_empty()
            && core.finalised().is_empty()
            && core.snapshot().node(name(15)).is_some()
            && core.world().node(name(15)).is_some(),
    )
}

// Three positions of each array, two of the object and three of each cell are scanned. Impossible events are left out: a scan
// too many, and a closing while a position is left or a reference is owed.
#[test]
fn a_list_of_events_is_run(rt: HostRuntime) -> Result<(), Fail> {
    for (pushes, scans, closed) in [
        (2u32, 46u32, true),
        (2, 60, true),
        (2, 45, false),
        (1, 60, false),
    ] {
        let events = events(rt.alloc(), DURING, pushes, scans)?;
        let right = ends_so(rt.alloc(), events.as_slice(), closed)?;
        assert!(rt; right);
    }
    Ok(())
}

// Each law asks nothing.
#[test]
fn laws_ask_nothing(rt: HostRuntime) {
    let _ = &rt;
    laws::marking_from_a_snapshot_is_exact();
    laws::events_keep_the_facts();
    laws::an_opening_has_the_facts();
    laws::an_event_keeps_the_facts();
    laws::a_closing_is_exact();
}
