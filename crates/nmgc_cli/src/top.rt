//! The top call.
//!
//! The work goes one way: arguments, task, bytes, script or image, report, text, sink. Each part can refuse, in that order,
//! and the first refusal is the answer. The output is settled before the sink is touched, so a sink that fails changes only
//! the status. Each task is in a file of its own.
ghost use Rattle.std.specs.Prelude.{◌≡◌, map, string_bytes, IfSome};
ghost use Rattle.nmgc_io.specs.Text.{Rose};
ghost use Rattle.nmgc_cli.specs.Parts.{IsOutputOf, CanBeDone, IsReading};
ghost use Rattle.nmgc_cli.specs.Output.{IsAnswer, Answers, Ends, IsReport, ReadsNothing, Answer};

use crate::answer::Refusal;
use crate::bench::bench;
use crate::imaging::image;
use crate::marks::marks;
use crate::output::{Output, output_of_refusal};
use crate::retaining::retain;
use crate::run::run;
use crate::task::{Task, task_of};
use crate::upgrading::upgrade;
use crate::{Ended, Status};
use nmgc_arguments::write_output;
use nmgc_io::{Sink, Source};
use std::alloc::Global;
use std::thread::Threads;

/// Does the task that the arguments ask for, and writes its text to the sink. Returns the status, and the report if a script
/// was run and memory didn't run out.
/// - `run`: reads a script from the source to its end, runs it, and writes the report's text.
/// - `bench N`, N from 1 to 100: reads nothing, runs the bench's script, and writes the summary of its report.
/// - `image`: reads and runs a script as `run` does, but writes the spelling of the image that shows the last world.
/// - `marks N`, N from 1 to 8: reads and runs a script as `run` does, but writes the names that strong fields reach from the
///   last world's registers and queues and from the slots of g. The names are the same for any N.
/// - `upgrade`: reads a script as `run` does, and writes the plain spelling of its upgrade.
/// - `retain NAME`: reads an image to its end, and writes a shortest path to the object of this name, or that there is none.
///
/// If a part refuses, the text of the first refusal is written instead. The parts in their order: arguments, read, length,
/// grammar, run or search. If the arguments are wrong, nothing is read. If the sink fails, the status is `WriteFault`, and
/// the sink has a prefix of the text.
///
/// A run ends as `HeapFull` exactly if its last stop did a full cycle, and yet commands are left and fewer segments are free
/// than the reserve. Then the last cycle kept more objects than there are segments above the reserve. The world with which
/// that full cycle began also has more kept objects than that.
///
/// Suppose that the arguments are right, neither source nor sink fails, and the bytes left in the source are known. Suppose
/// that they spell a script within the limit of bytes (for `retain` an image, for `bench` anything). Then the status is
/// `Done` or `NoMemory`. No clause says when memory runs out. A task that runs a script may also end as `HeapFull`, exactly
/// as above. Takes memory for the bytes, the script, the run and the text.
pub fn nmgc<R: Threads + Sync, S: Source, K: Sink>(
    alloc: Global,
    rt: &R,
    arguments: &[String],
    source: &mut S,
    sink: &mut K,
) -> Ended
    // There is an answer to the arguments, with its cause. The bytes read and written and the returned status are the
    // answer's.
    ensures reported { (answer : Answer)
        × IsAnswer (map string_bytes arguments.now) (S.left source.old) (S.left source.new) (Rose (S.faults source.old) (S.faults source.new)) answer
        × Ends (K.taken sink.old) (K.taken sink.new) (Rose (K.faults sink.old) (K.faults sink.new)) answer result.status result.report }
    // The theorem of the repository. A report of `run` or `bench N` is lawful for the one script that was read to its end, or
    // for the bench's script. The report's text or summary was written with the status of its end; if the sink failed, a prefix
    // was written. By `reported` the report's end also has its cause, and the same holds of `image` and `marks N`, with their
    // texts (`laws`).
    ensures report { IfSome result.report (λ report.
        IsReport (map string_bytes arguments.now) (S.left source.old) (S.left source.new) (K.taken sink.old) (K.taken sink.new)
        (Rose (K.faults sink.old) (K.faults sink.new)) result.status report) }
    // For wrong arguments and for a bench the source stays as it is.
    ensures unread { ReadsNothing (map string_bytes arguments.now) → source.new ≡ source.old }
{
    let Output {
        status,
        report,
        text,
    } = output_for(alloc, rt, arguments, source);
    Ended {
        status: write_output(sink, status, Status::WriteFault, text.bytes()),
        report,
    }
}

// Does the task that the arguments ask for, and returns the output of the answer, even of a refusal. Nothing is written yet.
fn output_for<R: Threads + Sync, S: Source>(
    alloc: Global,
    rt: &R,
    arguments: &[String],
    source: &mut S,
) -> Output
    ensures reported { (answer : Answer)
        × IsAnswer (map string_bytes arguments.now) (S.left source.old) (S.left source.new) (Rose (S.faults source.old) (S.faults source.new)) answer
        × IsOutputOf answer result }
    ensures unread { ReadsNothing (map string_bytes arguments.now) → source.new ≡ source.old }
{
    match answer(alloc, rt, arguments, source) {
        Ok(output) => output,
        Err(refusal) => output_of_refusal(alloc, refusal),
    }
}

// Does the task that the arguments ask for, and returns its answer. If they ask for none, the answer is a refusal.
#[tactic(auto, using(crate::proofs::Answering::asked_answered, crate::proofs::Answering::asked_can, crate::proofs::Answering::asked_unread))]
fn answer<R: Threads + Sync, S: Source>(
    alloc: Global,
    rt: &R,
    arguments: &[String],
    source: &mut S,
) -> Result<Output, Refusal>
    ensures reported { IsAnswer (map string_bytes arguments.now) (S.left source.old) (S.left source.new) (Rose (S.faults source.old) (S.faults source.new)) result }
    ensures unread { ReadsNothing (map string_bytes arguments.now) → source.new ≡ source.old }
{
    let Some(task) = task_of(arguments) else {
        return Err(Refusal::Usage);
    };
    answer_to(alloc, rt, task, source)
}

// Does a task, and returns its answer: the task's output, or a refusal.
fn answer_to<R: Threads + Sync, S: Source>(
    alloc: Global,
    rt: &R,
    task: Task,
    source: &mut S,
) -> Result<Output, Refusal>
    requires { CanBeDone task }
    ensures reported { Answers task (S.left source.old) (S.left source.new) (Rose (S.faults source.old) (S.faults source.new)) result }
    ensures unread { (IsReading task → ⊥) → source.new ≡ source.old }
{
    match task {
        Task::Run => run(alloc, rt, source),
        Task::Bench { batches } => bench(alloc, rt, batches),
        Task::Upgrade => upgrade(alloc, source),
        Task::Image => image(alloc, rt, source),
        Task::Retain { name } => retain(alloc, source, name),
        Task::Marks { markers } => marks(alloc, rt, source, markers),
    }
}
