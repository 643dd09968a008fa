//! The subcommand `image`: the heap that a run left, as an image.
ghost use Rattle.std.specs.Prelude.{IfOk};
ghost use Rattle.nmgc_io.specs.Text.{Rose};
ghost use Rattle.nmgc_cli.specs.{Output.IsRan, Output.AnswersScript, Output.AnswersWithReport, Output.IsImageText, Parts.IsOfScript};

use crate::answer::Refusal;
use crate::output::Output;
use crate::run::read_and_run;
use nmgc_image::write_image;
use nmgc_io::Source;
use nmgc_journal::Report;
use nmgc_lists::NoMemory;
use std::alloc::Global;
use std::thread::Threads;

/// Reads a script, runs it, and returns the answer of `image`: the report with the last heap's image, or a refusal.
pub fn image<R: Threads + Sync, S: Source>(
    alloc: Global,
    rt: &R,
    source: &mut S,
) -> Result<Output, Refusal>
    ensures { AnswersWithReport IsImageText (AnswersScript IsRan (S.left source.old) (S.left source.new) (Rose (S.faults source.old) (S.faults source.new))) result }
{
    let report = read_and_run(alloc, rt, source)?;
    let text = image_of(alloc, &report)?;
    Ok(Output::of_report(report, text))
}

// Returns the text of an image of the heap that the report's run left.
fn image_of(alloc: Global, report: &Report) -> Result<Vec<u8>, NoMemory>
    requires { IsOfScript report.now }
    ensures { IfOk result (λ text. IsImageText report.now text.items) }
{
    // Note [Lines that do nothing] in `nmgc_alloc`: this gives the prover that segments are sound, for laws on a run's heap.
    let _layout = report.segments.layout();
    write_image(alloc, report)
}
