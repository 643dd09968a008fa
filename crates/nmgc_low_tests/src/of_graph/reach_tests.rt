//! Worlds that were worked by hand: their live names, dead weak pointers and kept names.
ghost use Rattle.std.specs.Prelude.{◌≡◌, IsTrue, IsSome, IfOk, All, [], ◌∷◌};
ghost use Rattle.nmgc_world_spec.specs.{World.node_of, Known.IsRegister, Known.IsOperand, Known.HasRegisters};

use nmgc_graph::*;
use std::alloc::Global;
use std::process::Abort;
use std::test::Fail;

// A command, with the registers that it names: the register that takes the answer comes first.
#[derive(Clone, Copy)]
enum Step {
    Num(u8, u64),
    Nil(u8),
    Con(u8, u8),
    Var(u8, u8),
    Thunk(u8, u8),
    Weak(u8, u8, u8, u8),
    Publish(u8),
    Update(u8, u8),
}

// The steps of a mutator, and the expected state of the world after them.
#[derive(Clone, Copy)]
struct Row {
    mutator: u8,
    steps: &'static [Step],
    extra: &'static [Name],
    finalised: &'static [Name],
    live: &'static [Name],
    dead: &'static [Name],
    kept: &'static [Name],
}

const G: Name = Name::SHARED;

// The objects of the first mutator.
const A0: Name = name!(0, 0);

const A1: Name = name!(0, 1);

const A2: Name = name!(0, 2);

const A3: Name = name!(0, 3);

const A4: Name = name!(0, 4);

const A5: Name = name!(0, 5);

const A6: Name = name!(0, 6);

const A9: Name = name!(0, 9);

// The objects of the second mutator.
const B0: Name = name!(1, 0);

const B1: Name = name!(1, 1);

// No step, and g alone is live.
const QUIET: Row = Row {
    mutator: 0,
    steps: &[],
    extra: &[],
    finalised: &[],
    live: &[G],
    dead: &[],
    kept: &[G],
};

// Each weak pointer keeps the key of the one before it, so one pass over them isn't enough.
const CHAIN: [Row; 2] = [
    Row {
        steps: &[
            Step::Num(1, 5),
            Step::Num(2, 9),
            Step::Con(4, 1),
            Step::Con(5, 1),
            Step::Con(6, 1),
            Step::Con(7, 1),
            Step::Weak(8, 6, 7, 1),
            Step::Weak(8, 5, 6, 10),
            Step::Weak(8, 4, 5, 2),
            Step::Nil(5),
            Step::Nil(6),
            Step::Nil(7),
            Step::Nil(8),
        ],
        live: &[A0, A1, A2, A3, A4, A5, A6, G],
        kept: &[A0, A1, A2, A3, A4, A5, A6, G],
        ..QUIET
    },
    Row {
        steps: &[Step::Nil(4)],
        dead: &[A4, A5, A6],
        ..QUIET
    },
];

// A finaliser that holds its weak pointer's key doesn't keep the weak pointer alive, and is kept.
const HOLDS_ITS_KEY: [Row; 3] = [
    Row {
        steps: &[
            Step::Num(1, 5),
            Step::Con(4, 1),
            Step::Con(5, 4),
            Step::Weak(6, 4, 10, 5),
            Step::Nil(4),
            Step::Nil(5),
            Step::Nil(6),
        ],
        dead: &[A2],
        kept: &[A0, A1, G],
        ..QUIET
    },
    Row {
        finalised: &[A9, A2],
        ..QUIET
    },
    Row {
        extra: &[A1],
        live: &[A0, A1, A2, G],
        kept: &[A0, A1, A2, G],
        ..QUIET
    },
];

// The queue holds the finaliser, which holds the key.
const AFTER_CLOSING: Row = Row {
    live: &[A0, A1, G],
    kept: &[A0, A1, G],
    ..QUIET
};

// A weak pointer whose key is nil is always live. A thunk with a result drops its free variables.
const TWO_MAKERS: [Row; 3] = [
    Row {
        mutator: 1,
        steps: &[
            Step::Con(0, 9),
            Step::Thunk(1, 0),
            Step::Nil(0),
            Step::Publish(1),
        ],
        live: &[B0, B1, G],
        kept: &[B0, B1, G],
        ..QUIET
    },
    Row {
        steps: &[
            Step::Num(2, 7),
            Step::Var(3, 2),
            Step::Weak(4, 9, 3, 2),
            Step::Nil(3),
            Step::Nil(4),
        ],
        live: &[A0, A1, B0, B1, G],
        kept: &[A0, A1, B0, B1, G],
        ..QUIET
    },
    Row {
        mutator: 1,
        steps: &[Step::Update(1, 9)],
        live: &[A0, A1, B1, G],
        kept: &[A0, A1, B1, G],
        ..QUIET
    },
];

fn is_register(register: u8) -> bool
    ensures { IsTrue result → IsRegister register }
{
    register < REGISTERS
}

// A register of a table.
fn register(rt: &impl Abort, number: u8) -> u8
    ensures same { result ≡ number }
    ensures there { IsRegister result }
{
    assert!(rt; is_register(number));
    number
}

// A register of a table as an operand.
fn operand(rt: &impl Abort, number: u8) -> Operand
    ensures { IsOperand result }
{
    Operand::Register(register(rt, number))
}

fn one(alloc: Global, operand: Operand) -> Result<List<Operand>, NoMemory>
    ensures { IfOk result (λ operands. operands ≡ operand ∷ []) }
{
    let mut operands = List::new(alloc);
    operands.push(operand)?;
    Ok(operands)
}

fn command(rt: &impl Abort, alloc: Global, step: Step) -> Result<Command, NoMemory>
    ensures { IfOk result HasRegisters }
{
    match step {
        Step::Num(dest, number) => Ok(Command::Num {
            dest: register(rt, dest),
            number,
        }),
        Step::Nil(dest) => Ok(Command::Nil {
            dest: register(rt, dest),
        }),
        Step::Con(dest, field) => Ok(Command::Con {
            dest: register(rt, dest),
            tag: 0,
            fields: one(alloc, operand(rt, field))?,
        }),
        Step::Var(dest, value) => Ok(Command::Var {
            dest: register(rt, dest),
            value: operand(rt, value),
        }),
        Step::Thunk(dest, variable) => Ok(Command::Thunk {
            dest: register(rt, dest),
            free: one(alloc, operand(rt, variable))?,
        }),
        Step::Weak(dest, key, value, finaliser) => Ok(Command::Weak {
            dest: register(rt, dest),
            key: operand(rt, key),
            value: operand(rt, value),
            finaliser: operand(rt, finaliser),
        }),
        Step::Publish(value) => Ok(Command::Set {
            object: Operand::Shared,
            index: 3,
            value: operand(rt, value),
        }),
        Step::Update(object, value) => Ok(Command::Update {
            object: operand(rt, object),
            value: operand(rt, value),
        }),
    }
}

// Gives a mutator's command.
fn give(
    rt: &impl Abort,
    alloc: Global,
    world: &mut World,
    mutator: u8,
    step: Step,
) -> Result<(), NoMemory> {
    let command = command(rt, alloc, step)?;
    assert!(rt; mutator < world.mutators());
    assert!(rt; world.serial(mutator) < 2_000_000);
    world.apply(mutator, &command)?;
    Ok(())
}

// Whether the names are in the map.
fn are_there(world: &World, names: &[Name]) -> bool
    ensures { IsTrue result → All (λ name. IsSome (node_of world.now name)) names.now }
{
    names.iter().all(|name| is_there(world, *name))
}

fn is_there(world: &World, name: Name) -> bool
    ensures { IsTrue result → IsSome (node_of world.now name) }
{
    world.node(name).is_some()
}

// Compares the answers of a world with a row.
fn compare(rt: &impl Abort, world: &World, row: &Row) -> Result<(), NoMemory> {
    assert!(rt; are_there(world, row.extra));
    let live = world.live(row.extra)?;
    assert!(rt; live.items() == row.live);
    let dead = world.dead_weaks(row.extra, row.finalised)?;
    assert!(rt; dead.items() == row.dead);
    let kept = world.kept(row.extra, row.finalised)?;
    assert!(rt; kept.items() == row.kept);
    Ok(())
}

// The world after rows. It is compared after each row.
fn after(rt: &impl Abort, alloc: Global, rows: &[Row]) -> Result<World, NoMemory> {
    let mut world = World::new(alloc, 2)?;
    for row in rows {
        for step in row.steps {
            give(rt, alloc, &mut world, row.mutator, *step)?;
        }
        compare(rt, &world, row)?;
    }
    Ok(world)
}

// Closes a world with its dead weak pointers, and compares the finaliser queue.
fn close(rt: &impl Abort, world: &mut World, queue: &[Value]) -> Result<(), NoMemory> {
    let dead = world.dead_weaks(&[], &[])?;
    world.close(dead.items())?;
    assert!(rt; 0 < world.mutators());
    assert!(rt; world.queue(0) == queue);
    Ok(())
}

#[test]
fn a_chain_of_weak_pointers(rt: HostRuntime) -> Result<(), Fail> {
    let mut world = after(&rt, rt.alloc(), &CHAIN)?;
    close(&rt, &mut world, &[Value::Number(5), Value::Number(9)])?;
    Ok(())
}

#[test]
fn a_finaliser_that_holds_its_key(rt: HostRuntime) -> Result<(), Fail> {
    let mut world = after(&rt, rt.alloc(), &HOLDS_ITS_KEY)?;
    close(&rt, &mut world, &[Value::Ref(A1)])?;
    compare(&rt, &world, &AFTER_CLOSING)?;
    Ok(())
}

#[test]
fn two_makers(rt: HostRuntime) -> Result<(), Fail> {
    let world = after(&rt, rt.alloc(), &TWO_MAKERS)?;
    let copy = world.copy()?;
    compare(&rt, &copy, &TWO_MAKERS[2])?;
    Ok(())
}

// The search takes no more stack for a long list than for a short one.
#[test]
fn a_long_list(rt: HostRuntime) -> Result<(), Fail> {
    let mut world = World::new(rt.alloc(), 1)?;
    for _ in 0..30_000 {
        give(&rt, rt.alloc(), &mut world, 0, Step::Con(0, 0))?;
    }
    let live = world.live(&[])?;
    assert!(rt; live.items().len() == 30_001);
    let kept = world.kept(&[], &[])?;
    assert!(rt; kept.items().len() == 30_001);
    give(&rt, rt.alloc(), &mut world, 0, Step::Nil(0))?;
    let live = world.live(&[])?;
    assert!(rt; live.items().len() == 1);
    Ok(())
}

// Each weak pointer keeps the key of the one before it. A search through all of them for each link would take 100,000,000
// steps.
#[test]
fn a_long_chain_of_weak_pointers(rt: HostRuntime) -> Result<(), Fail> {
    let mut world = World::new(rt.alloc(), 1)?;
    give(&rt, rt.alloc(), &mut world, 0, Step::Con(4, 10))?;
    for _ in 0..5_000 {
        give(&rt, rt.alloc(), &mut world, 0, Step::Con(5, 10))?;
        give(&rt, rt.alloc(), &mut world, 0, Step::Weak(6, 5, 4, 10))?;
        give(&rt, rt.alloc(), &mut world, 0, Step::Con(4, 10))?;
        give(&rt, rt.alloc(), &mut world, 0, Step::Weak(6, 4, 5, 10))?;
    }
    give(&rt, rt.alloc(), &mut world, 0, Step::Nil(5))?;
    give(&rt, rt.alloc(), &mut world, 0, Step::Nil(6))?;
    let live = world.live(&[])?;
    assert!(rt; live.items().len() == 20_002);
    let dead = world.dead_weaks(&[], &[])?;
    assert!(rt; dead.items().len() == 0);
    give(&rt, rt.alloc(), &mut world, 0, Step::Nil(4))?;
    let live = world.live(&[])?;
    assert!(rt; live.items().len() == 1);
    let dead = world.dead_weaks(&[], &[])?;
    assert!(rt; dead.items().len() == 10_000);
    Ok(())
}
