//! Reads of a world without a command, and sets of names.
use nmgc_graph::*;
use nmgc_world_spec::Change;
use std::process::Abort;
use std::test::Fail;

// Gives a command, and compares the reply.
fn expect(
    rt: &impl Abort,
    world: &mut World,
    mutator: u8,
    command: &Command,
    reply: Reply,
) -> Result<(), NoMemory> {
    assert!(rt; world.can_apply(mutator, command));
    let got = world.apply(mutator, command)?;
    assert!(rt; got == reply);
    Ok(())
}

// Values, objects and their parts, and the change that a command asks for.
#[test]
fn looking_at_a_world(rt: HostRuntime) -> Result<(), Fail> {
    let mut world = World::new(rt.alloc(), 1)?;
    let first = Reply::Given(Value::Ref(Name {
        maker: 0,
        serial: 0,
    }));
    let five = Command::Num { dest: 1, number: 5 };
    expect(&rt, &mut world, 0, &five, Reply::Fine)?;
    let variable = Command::Var {
        dest: 0,
        value: Operand::Register(1),
    };
    expect(&rt, &mut world, 0, &variable, first)?;
    assert!(rt; 0 < world.mutators());
    let object = world.value(0, Operand::Register(0));
    assert!(rt; Reply::Given(object) == first);
    assert!(rt; world.object(object).is_some());
    assert!(rt; world.field(object, 0) == Reply::Given(Value::Number(5)));
    assert!(rt; world.result_of(object) == Reply::WrongKind);
    assert!(rt; world.weak_value(object) == Reply::WrongKind);
    let update = Command::Update {
        object: Operand::Register(0),
        value: Operand::Register(1),
    };
    let change = Change::Update {
        value: Value::Number(5),
    };
    assert!(rt; world.asked_change(0, &update) == Some((object, change)));
    assert!(rt; world.asked_change(0, &five).is_none());
    assert!(rt; world.compare(0, Operand::Register(0), Operand::Shared) == Reply::No);
    Ok(())
}

// A name enters a set once.
#[test]
fn a_set_of_names(rt: HostRuntime) -> Result<(), Fail> {
    let world = World::new(rt.alloc(), 1)?;
    let shared = Name::SHARED;
    let mut names = world.empty_set()?;
    assert!(rt; !names.contains(shared));
    assert!(rt; names.insert(shared));
    assert!(rt; !names.insert(shared));
    let listed = names.names(world.alloc())?;
    assert!(rt; listed.items() == [shared].as_slice());
    Ok(())
}
