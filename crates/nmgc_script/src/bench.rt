//! The bench's script: a load that makes, keeps and drops lists.
//!
//! Each of four mutators makes list after list. It keeps the last list in a slot of its own in the shared array. So no
//! mutator sees an effect of another, and each run of the script gives the same report. The cells of a list fill a nursery
//! exactly, and one segment after promotion. The quota exceeds the number of objects, so a cycle that begins at one stop is
//! closed at the next. `specs/Spelling.antt` is the script. The code appends its commands in order, into memory that is
//! allocated once. Easy to get wrong: a batch begins with nil in its register, or its list would end in the list before.
ghost use Rattle.std.specs.Prelude.{◌≡◌, ◌≤◌, ◌++◌, replicate, IfOk, OnOk};
ghost use Rattle.nmgc_script.specs.{Parts.most_batches, Parts.cell, Spelling.batch, Spelling.bench_script, Spelling.FitsScript, Parts.bench_program, Parts.HasFewCommands};

use crate::{Config, Script};
use nmgc_commands::{FixedOperands, Form, PackedCommand};
use nmgc_lists::{List, NoMemory};
use nmgc_world_spec::Operand;
use std::alloc::Global;

/// The most batches of a bench.
pub const MAX_BATCHES: u32 = 100;

// The number of cells of a list: each is four words, and they fill a nursery.
const CELLS: usize = 1024;

// The number of commands of a batch: the cells, a command that drops the list, and a command that keeps the new list.
const BATCH_COMMANDS: usize = CELLS + 2;

const CONFIG: Config = Config {
    segments: 128,
    words: 4096,
    nursery: 4096,
    slice: 4096,
    quota: 1_048_576,
    trigger: 8,
};

/// Returns the bench's script, in which each of four mutators has `batches` batches. Requires 1 to `MAX_BATCHES` batches. The
/// script is within the limits of scripts that are run. Takes time and memory proportional to its length.
pub fn generate(alloc: Global, batches: u32) -> Result<Script, NoMemory>
    requires some { 1 ≤ batches }
    requires few { batches ≤ most_batches }
    ensures script { IfOk result (λ script. script ≡ bench_script batches) }
    ensures fits { IfOk result (λ script. FitsScript script) }
    ensures few { IfOk result (λ script. HasFewCommands script) }
{
    let threads = vec![in alloc;
        program(alloc, batches, 0)?,
        program(alloc, batches, 1)?,
        program(alloc, batches, 2)?,
        program(alloc, batches, 3)?,
    ]?;
    Ok(Script {
        version: 1,
        config: CONFIG,
        threads: List::from_vec(threads)?,
    })
}

// Returns the program of `mutator`, which is `batches` copies of its batch.
#[tactic(auto, using(crate::proofs::BenchLaws::once_more))]
fn program(alloc: Global, batches: u32, mutator: u32) -> Result<List<PackedCommand>, NoMemory>
    requires { batches ≤ most_batches }
    ensures { IfOk result (λ commands. commands ≡ bench_program batches mutator) }
{
    let mut commands = Vec::with_capacity(alloc, batches as usize * BATCH_COMMANDS)?;
    for _batch in 0..batches {
        push_batch(&mut commands, mutator)?;
    }
    List::from_vec(commands)
}

// Appends a batch of `mutator`: the commands that drop its list, make a new list, and store the new list.
fn push_batch(commands: &mut Vec<PackedCommand>, mutator: u32) -> Result<(), NoMemory>
    ensures { OnOk result (commands.new.items ≡ commands.old.items ++ batch mutator) }
{
    commands.push(PackedCommand {
        form: Form::Nil { dest: 0 },
    })?;
    push_cells(commands, CELLS)?;
    commands.push(PackedCommand {
        form: Form::Set {
            object: Operand::Shared,
            index: mutator,
            value: Operand::Register(0),
        },
    })?;
    Ok(())
}

// Appends `count` commands that each add a cell to the list.
fn push_cells(commands: &mut Vec<PackedCommand>, count: usize) -> Result<(), NoMemory>
    ensures { OnOk result (commands.new.items ≡ commands.old.items ++ replicate count cell) }
{
    for _cell in 0..count {
        commands.push(PackedCommand {
            form: Form::Con {
                dest: 0,
                tag: 0,
                fields: FixedOperands::pair(Operand::Register(0), Operand::Register(1)),
            },
        })?;
    }
    Ok(())
}
