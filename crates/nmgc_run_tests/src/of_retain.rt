//! Images that are read, answers of the search, and the judge's verdict on other answers.
ghost use Rattle.std.specs.Prelude.{◌^◌, IfOk};
ghost use Rattle.nmgc_image.specs.Results.{IsSpelledWithin};

use nmgc_image::{Image, image_text, laws, read_image};
use nmgc_lists::{List, NoMemory};
use nmgc_retain::{
    Hop, Level, Levels, Path, Retained, Root, certified_answers_are_right, retain, verify,
};
use nmgc_world_spec::{Name, Node, Value};
use std::alloc::Global;
use std::process::Abort;
use std::test::Fail;

// Two mutators. Register 3 of the first refers to 0.2, which refers to 0.1. The queue of the second refers to 1.0, which
// refers to 0.1 too. 0.0 is a thunk's free variable, and 0.3 the thunk, to which the first slot of the shared array refers.
const TEXT: &str = "image 1 2
mutator 0 serial 4
register 1 5
register 3 0.2
mutator 1 serial 2
queue 1.0
node 0.0 var nil
node 0.1 con 7 5
node 0.2 arr nil 0.1
node 0.3 thunk free 9 0.0
node 1.0 stack 4 0.1 8
node 1.1 weak dead
node g arr 0.3 nil nil nil nil nil nil nil nil nil nil nil nil nil nil nil
end
";

// Returns the name of a mutator's object.
fn name(maker: u8, serial: u32) -> Name {
    Name { maker, serial }
}

// The names of the image's nodes.
const NAMES: [(u8, u32); 7] = [(0, 0), (0, 1), (0, 2), (0, 3), (1, 0), (1, 1), (32, 0)];

// Returns the image that the text spells.
fn image_of(alloc: Global, text: &str) -> Result<Image, Fail>
    ensures { IfOk result (IsSpelledWithin (2 ^ 31)) }
{
    if text.len() > 2_147_483_648 {
        return Err("too long".into());
    }
    match read_image(alloc, text.as_bytes()) {
        Ok(image) => Ok(image),
        Err(_) => Err("no image".into()),
    }
}

// An image has the content of its text, and the same text again.
#[test]
fn an_image_is_read(rt: HostRuntime) -> Result<(), Fail> {
    let image = image_of(rt.alloc(), TEXT)?;
    let [first, second] = image.mutators.items() else {
        panic!(rt; "not two mutators");
    };
    assert!(rt; (first.serial, second.serial) == (4, 2));
    assert!(rt; first.queue.items().is_empty() && second.registers.items().is_empty());
    assert!(rt; second.queue.items() == [Value::Ref(name(1, 0))].as_slice());
    let [five, held] = first.registers.items() else {
        panic!(rt; "not two registers");
    };
    assert!(rt; (five.register, five.value) == (1, Value::Number(5)));
    assert!(rt; (held.register, held.value) == (3, Value::Ref(name(0, 2))));
    let nodes = image.nodes.items();
    assert!(rt; nodes.len() == 7);
    for (entry, (maker, serial)) in nodes.iter().zip(&NAMES) {
        assert!(rt; entry.name == name(*maker, *serial));
    }
    let Node::Stack { size: 4, values } = &nodes[4].node else {
        panic!(rt; "no stack of four slots");
    };
    assert!(rt; values.items() == [Value::Ref(name(0, 1)), Value::Number(8)].as_slice());
    assert!(rt; image_text(rt.alloc(), &image)?.as_slice() == TEXT.as_bytes());
    Ok(())
}

// Returns the level `level` of a name.
fn level(name: Name, level: u32) -> Level {
    Level { name, level }
}

// The levels of the image: all its objects are held except the dead weak pointer.
const LEVELS: [(u8, u32, u32); 6] = [
    (0, 0, 2),
    (0, 1, 1),
    (0, 2, 0),
    (0, 3, 1),
    (1, 0, 0),
    (32, 0, 0),
];

// Returns the levels in the rows (maker, serial, level) as a list.
fn levels(alloc: Global, rows: &[(u8, u32, u32)]) -> Result<Levels, NoMemory> {
    let mut list = List::new(alloc);
    for (maker, serial, hops) in rows {
        list.push(level(name(*maker, *serial), *hops))?;
    }
    Ok(Levels { list })
}

// An answer for 0.1: the root, its target, the target's field by which the path ends, if it has a hop, and the levels; and
// whether the answer is certified.
type Answer = (
    Root,
    (u8, u32),
    Option<u32>,
    &'static [(u8, u32, u32)],
    bool,
);

// Returns the answer that the row describes.
fn held(alloc: Global, row: &Answer) -> Result<Retained, NoMemory> {
    let (root, (maker, serial), field, rows, _) = row;
    let mut hops = List::new(alloc);
    if let Some(field) = field {
        hops.push(Hop {
            field: *field,
            to: name(0, 1),
        })?;
    }
    Ok(Retained::Held {
        path: Path {
            root: *root,
            first: name(*maker, *serial),
            hops,
        },
        levels: levels(alloc, rows)?,
    })
}

// Checks that the search answers for each name with a path of its number of hops and these levels, and the judge accepts.
fn check_paths(
    rt: &impl Abort,
    alloc: Global,
    text: &str,
    rows: &[(u8, u32, u32)],
) -> Result<(), Fail> {
    let image = image_of(alloc, text)?;
    for (maker, serial, hops) in rows {
        let answer = retain(alloc, &image, name(*maker, *serial))?;
        assert!(rt; verify(&image, name(*maker, *serial), &answer));
        let Retained::Held { path, levels } = &answer else {
            panic!(rt; "no path");
        };
        assert!(rt; path.hops.items().len() as u64 == u64::from(*hops));
        check_levels(rt, levels.list.items(), rows);
    }
    Ok(())
}

// Checks that the levels are the levels of the rows.
fn check_levels(rt: &impl Abort, reported: &[Level], rows: &[(u8, u32, u32)]) {
    assert!(rt; reported.len() == rows.len());
    for (reported, (maker, serial, hops)) in reported.iter().zip(rows) {
        assert!(rt; *reported == level(name(*maker, *serial), *hops));
    }
}

#[test]
fn answers_are_certified(rt: HostRuntime) -> Result<(), Fail> {
    check_paths(&rt, rt.alloc(), TEXT, &LEVELS)?;
    let image = image_of(rt.alloc(), TEXT)?;
    let loose = retain(rt.alloc(), &image, name(1, 1))?;
    assert!(rt; matches!(loose, Retained::Loose { .. }));
    assert!(rt; verify(&image, name(1, 1), &loose));
    Ok(())
}

// The path from register 3 of the first mutator to 0.1, and the path by the queue of the second.
const BY_REGISTER: Root = Root::Register {
    mutator: 0,
    register: 3,
};

const BY_QUEUE: Root = Root::Queue {
    mutator: 1,
    place: 0,
};

// Levels with one too low, and levels that lack an object that is held.
const TOO_LOW: [(u8, u32, u32); 6] = [
    (0, 0, 2),
    (0, 1, 0),
    (0, 2, 0),
    (0, 3, 1),
    (1, 0, 0),
    (32, 0, 0),
];

const TOO_FEW: [(u8, u32, u32); 5] = [(0, 0, 2), (0, 1, 1), (0, 2, 0), (0, 3, 1), (32, 0, 0)];

const ANSWERS: [Answer; 8] = [
    (BY_REGISTER, (0, 2), Some(1), &LEVELS, true),
    (BY_QUEUE, (1, 0), Some(0), &LEVELS, true),
    (BY_REGISTER, (1, 0), Some(0), &LEVELS, false),
    (Root::Shared, (0, 2), Some(1), &LEVELS, false),
    (BY_REGISTER, (0, 2), Some(0), &LEVELS, false),
    (BY_REGISTER, (0, 2), None, &LEVELS, false),
    (BY_REGISTER, (0, 2), Some(1), &TOO_LOW, false),
    (BY_REGISTER, (0, 2), Some(1), &TOO_FEW, false),
];

// Checks that the judge accepts exactly the answers whose rows say so.
fn check_answers(rt: &impl Abort, alloc: Global, text: &str, rows: &[Answer]) -> Result<(), Fail> {
    let image = image_of(alloc, text)?;
    for row in rows {
        let answer = held(alloc, row)?;
        assert!(rt; verify(&image, name(0, 1), &answer) == row.4);
    }
    Ok(())
}

// The judge says no to a wrong root, a wrong field, a path that doesn't end at the name, a level that is too low, and a held
// object without a level. It also says no to the answer that an object with a level is loose.
#[test]
fn wrong_answers_are_not_certified(rt: HostRuntime) -> Result<(), Fail> {
    check_answers(&rt, rt.alloc(), TEXT, &ANSWERS)?;
    let image = image_of(rt.alloc(), TEXT)?;
    let loose = Retained::Loose {
        levels: levels(rt.alloc(), &LEVELS)?,
    };
    assert!(rt; !verify(&image, name(0, 1), &loose));
    assert!(rt; verify(&image, name(1, 1), &loose));
    Ok(())
}

// Each law asks nothing.
#[test]
fn laws_ask_nothing(rt: HostRuntime) {
    let _ = &rt;
    laws::images_of_worlds_are_well_formed();
    laws::a_text_spells_at_most_one_image();
    certified_answers_are_right();
}
