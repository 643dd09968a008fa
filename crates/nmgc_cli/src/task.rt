//! The tasks that the arguments of the command line ask for.
//!
//! A task is read from all arguments at once, so one too many is wrong, and so is one too few. A new task needs a variant
//! here, a line in each definition by cases of tasks (`specs/Output.antt`, `Answers`), a subcommand in `Usage`, and a file.
ghost use Rattle.std.specs.Prelude.{◌≡◌, ◌↔◌, [], ◌∷◌, map, string_bytes, IsTrue, IfSome, IfNone};
ghost use Rattle.nmgc_cli.specs.Output.{Asks, IsWrong};

use crate::bench::batches_of;
use crate::marks::markers_of;
use crate::retaining::name_asked;
use nmgc_world_spec::Name;

/// A task of the program.
#[derive(Clone, Copy, Debug, PartialEq, Eq)]
pub enum Task {
    /// `run`: reads a script from the source to its end, runs it, and writes the report's text.
    Run,
    /// `bench N`: runs the bench's script with N batches, and writes the summary of its report.
    Bench { batches: u32 },
    /// `upgrade`: reads a script from the source to its end, and writes the plain spelling of its upgrade.
    Upgrade,
    /// `image`: reads and runs a script as `run` does, but writes the image of the heap that its run left.
    Image,
    /// `retain NAME`: reads an image to its end, and writes a shortest path to the object of this name, or `none`.
    Retain { name: Name },
    /// `marks N`: reads and runs a script as `run` does, but writes the names that N markers mark in the heap left.
    Marks { markers: u8 },
}

/// Returns the task that the arguments ask for, or `None` exactly if they ask for none.
#[tactic(auto, using(crate::proofs::Asking::none_asked))]
pub fn task_of(arguments: &[String]) -> Option<Task>
    ensures asked { IfSome result (λ task. Asks (map string_bytes arguments.now) task) }
    ensures wrong { IfNone result (IsWrong (map string_bytes arguments.now)) }
{
    if is_alone(arguments, "run") {
        return Some(Task::Run);
    }
    if is_alone(arguments, "upgrade") {
        return Some(Task::Upgrade);
    }
    if is_alone(arguments, "image") {
        return Some(Task::Image);
    }
    if let Some(name) = name_asked(arguments) {
        return Some(Task::Retain { name });
    }
    if let Some(markers) = markers_of(arguments) {
        return Some(Task::Marks { markers });
    }
    let batches = batches_of(arguments)?;
    Some(Task::Bench { batches })
}

// Whether the arguments are the subcommand `name` alone.
fn is_alone(arguments: &[String], name: &str) -> bool
    ensures { IsTrue result ↔ (map string_bytes arguments.now ≡ name.now ∷ []) }
{
    match arguments {
        [argument] => argument.as_str() == name,
        _ => false,
    }
}
