//! Scripts, good and bad, as tables. Refused texts are in `examples/rows/refusals.rows`, limits and upgrades in `versions.rows`.
use nmgc_script::{Cause, ScriptFault, a_text_spells_at_most_one_script, generate, parse, print};
use std::alloc::Global;
use std::process::Abort;
use std::test::Fail;

// The first three lines of most scripts here.
const HEAD: &str = "nmgc 1\nheap 32 64 64 100 1000 0\nthread 0\n";

// Each command, in the plain spelling.
const COMMANDS: &str =
    "num r1 4611686018427387903\nnil r0\nmov r15 g\ncon r0 255\ncon r0 0 r1 g\ncon r0 1 r1 g r2 g r3 g\ncon r0 1 r1 g r2 g r3 g r4\nvar r2 r1\narr r3 62 r1\nthunk r4\nthunk r4 r1 g r1 r1 r1 r1\nthunk r4 r1 r1 r1 r1 r1 r1 r1 g\nweak r5 r4 r3 g\nstack r6 0\nget r7 r3 65535\nset g 15 r1\ncas g 0 r1 r2\nupdate r4 r1\nforce r8 r4\npush r6 r1\npop r9 r6\nderef r10 r5\nfinalise r11 r5\nnextfin r12\nshow g\nsame r1 r2\nyield\ncollect\nfull\n";

// A script of several sections with empty lines and remarks, and its plain spelling.
const SPACED: &str =
    "# sections\n\nnmgc 1\n#\nheap 1 16 16 1 1 65536\n\nthread 0\n# nothing\nthread 1\nyield\n\n\nthread 2\n#end";

const PLAIN: &str = "nmgc 1\nheap 1 16 16 1 1 65536\nthread 0\nthread 1\nyield\nthread 2\n";

// A small script, which is cut after a number of bytes, and the first fault then.
const CUT: &str = "nmgc 1\nheap 32 64 64 100 1000 0\nthread 0\nshow g\n";

const CUTS: [(usize, usize, Option<(u32, Cause)>); 8] = [
    (0, 6, Some((1, Cause::Version))),
    (6, 31, Some((2, Cause::Heap))),
    (31, 40, Some((3, Cause::Thread))),
    (40, 42, None),
    (42, 45, Some((4, Cause::Command))),
    (45, 46, Some((4, Cause::Arity))),
    (46, 47, Some((4, Cause::Operand))),
    (47, 49, None),
];

// The first fault of a text: the first bad line and its cause.
fn reported(rt: &impl Abort, alloc: Global, bytes: &[u8]) -> Option<(u32, Cause)> {
    assert!(rt; bytes.len() <= 2147483648);
    match parse(alloc, bytes) {
        Ok(_) => None,
        Err(ScriptFault::Bad { line, cause }) => Some((line, cause)),
        Err(ScriptFault::NoMemory) => Some((0, Cause::Version)),
    }
}

// A text of two parts.
fn joined(alloc: Global, front: &str, back: &str) -> Result<String, Fail> {
    let mut text = String::from_str(alloc, front)?;
    text.push_str(back)?;
    Ok(text)
}

#[test]
fn reports_the_first_bad_line(rt: HostRuntime) -> Result<(), Fail> {
    let zero = joined(rt.alloc(), HEAD, "show g\0\n")?;
    assert!(rt; reported(&rt, rt.alloc(), zero.as_bytes()) == Some((4, Cause::Operand)));
    assert!(rt; reported(&rt, rt.alloc(), b"nmgc 1\n\xff\n") == Some((2, Cause::Heap)));
    assert!(rt;
        reported(
            &rt,
            rt.alloc(),
            b"nmgc 1\nheap 32 64 64 100 1000 0\nthread 0\nshow \xc3\n"
        ) == Some((4, Cause::Operand))
    );
    Ok(())
}

#[test]
fn reports_where_a_cut_text_ends(rt: HostRuntime) -> Result<(), Fail> {
    for (from, to, want) in &CUTS {
        for count in *from..*to {
            let bytes = CUT.as_bytes();
            assert!(rt; count <= bytes.len());
            assert!(rt; reported(&rt, rt.alloc(), &bytes[..count]) == *want);
        }
    }
    Ok(())
}

// The printed form of a text.
fn reprinted(rt: &impl Abort, alloc: Global, text: &str) -> Result<Vec<u8>, Fail> {
    assert!(rt; text.len() <= 2147483648);
    a_text_spells_at_most_one_script(text.as_bytes());
    let script = parse(alloc, text.as_bytes())?;
    Ok(print(alloc, &script)?)
}

// A script with one object.
const ONE_OBJECT: &str =
    "nmgc 1\nheap 32 64 64 100 1000 0\nthread 0\nnum r1 5\ncon r0 7 r1\nget r2 r0 0\nshow r2\nget r2 r0 1\nget r2 r1 0\nshow r0\n";

#[test]
fn prints_what_it_reads_back(rt: HostRuntime) -> Result<(), Fail> {
    let all = joined(rt.alloc(), HEAD, COMMANDS)?;
    let same = reprinted(&rt, rt.alloc(), all.as_str())?;
    assert!(rt; same.as_slice() == all.as_bytes());
    let plain = reprinted(&rt, rt.alloc(), SPACED)?;
    assert!(rt; plain.as_slice() == PLAIN.as_bytes());
    let one = reprinted(&rt, rt.alloc(), ONE_OBJECT)?;
    assert!(rt; one.as_slice() == ONE_OBJECT.as_bytes());
    Ok(())
}

// A script of version 2 whose commands name registers that version 1 can't name.
const SECOND: &str =
    "nmgc 2\nheap 32 64 64 100 1000 0\nthread 0\nnum r63 5\ncon r40 0 r63\nget r41 r40 0\n";

// Scripts with a command that is new in version 3, after their first lines' version.
const NEWER: [&str; 3] = [
    "\nheap 32 64 64 100 1000 0\nthread 0\ntag r1 r0\n",
    "\nheap 32 64 64 100 1000 0\nthread 0\nrec r1\n",
    "\nheap 32 64 64 100 1000 0\nthread 0\nrec r1 r0 g r2 r3 r4 r5 r6\n",
];

// Sections of no commands, after the line of a version and the heap line.
fn sections(alloc: Global, version: u32, count: u32) -> Result<String, Fail> {
    let mut text = format!(in alloc; "nmgc {version}\nheap 1 16 16 1 1 0\n")?;
    for thread in 0..count {
        text.push_str(format!(in alloc; "thread {thread}\n")?.as_str())?;
    }
    Ok(text)
}

#[test]
fn reads_the_later_versions(rt: HostRuntime) -> Result<(), Fail> {
    let same = reprinted(&rt, rt.alloc(), SECOND)?;
    assert!(rt; same.as_slice() == SECOND.as_bytes());
    let large = joined(rt.alloc(), SECOND, "num r64 5\n")?;
    assert!(rt; reported(&rt, rt.alloc(), large.as_bytes()) == Some((7, Cause::Operand)));
    for newer in NEWER {
        let third = joined(rt.alloc(), "nmgc 3", newer)?;
        let same = reprinted(&rt, rt.alloc(), third.as_str())?;
        assert!(rt; same.as_slice() == third.as_bytes());
        for version in ["nmgc 1", "nmgc 2"] {
            let early = joined(rt.alloc(), version, newer)?;
            assert!(rt; reported(&rt, rt.alloc(), early.as_bytes()) == Some((4, Cause::Command)));
        }
    }
    for (version, most) in [(1u32, 8u32), (2, 32), (3, 32)] {
        let few = sections(rt.alloc(), version, most)?;
        assert!(rt; reported(&rt, rt.alloc(), few.as_bytes()) == None);
        let many = sections(rt.alloc(), version, most + 1)?;
        assert!(rt; reported(&rt, rt.alloc(), many.as_bytes()) == Some((most + 3, Cause::Thread)));
    }
    Ok(())
}

#[test]
fn reads_the_numbers_of_a_heap(rt: HostRuntime) -> Result<(), Fail> {
    let text = "nmgc 1\nheap 32 64 128 100 1000 7\nthread 0\nyield\nthread 1\n";
    let script = parse(rt.alloc(), text.as_bytes())?;
    assert!(rt; script.version == 1);
    assert!(rt; script.config.segments == 32);
    assert!(rt; script.config.words == 64);
    assert!(rt; script.config.nursery == 128);
    assert!(rt; script.config.slice == 100);
    assert!(rt; script.config.quota == 1000);
    assert!(rt; script.config.trigger == 7);
    assert!(rt; script.threads.items().len() == 2);
    Ok(())
}

// The bench's script with `batches` batches, line by line.
fn bench_text(alloc: Global, batches: u32) -> Result<String, Fail> {
    let mut text = String::from_str(alloc, "nmgc 1\nheap 128 4096 4096 4096 1048576 8\n")?;
    for mutator in 0..4u32 {
        text.push_str(format!(in alloc; "thread {mutator}\n")?.as_str())?;
        for _batch in 0..batches {
            text.push_str("nil r0\n")?;
            for _cell in 0..1024 {
                text.push_str("con r0 0 r0 r1\n")?;
            }
            text.push_str(format!(in alloc; "set g {mutator} r0\n")?.as_str())?;
        }
    }
    Ok(text)
}

#[test]
fn generates_the_bench(rt: HostRuntime) -> Result<(), Fail> {
    for batches in [1u32, 3] {
        let script = generate(rt.alloc(), batches)?;
        let want = bench_text(rt.alloc(), batches)?;
        assert!(rt; print(rt.alloc(), &script)?.as_slice() == want.as_bytes());
    }
    Ok(())
}

#[test]
fn speaks_of_a_fault(rt: HostRuntime) -> Result<(), Fail> {
    let fault = ScriptFault::Bad {
        line: 4,
        cause: Cause::Arity,
    };
    let text = format!(in rt.alloc(); "{fault}")?;
    assert!(rt; text.as_str() == "bad line 4 arity");
    Ok(())
}
