//! The output of an answer: its status, its report and its text.
//!
//! A task that was done returns its output. The text of a bad line takes memory. Without it, the answer is `NoMemory`.
ghost use Rattle.std.specs.Prelude.{◌≡◌, ◌⊎◌, Some, Err};
ghost use Rattle.nmgc_cli.specs.{Parts.IsBad, Parts.IsOutputOf, Output.status_of};

use crate::Status;
use crate::answer::Refusal;
use crate::message::{bad_image_line, bad_line, message};
use nmgc_arguments::Text;
use nmgc_journal::Report;
use nmgc_script::Cause;
use std::alloc::Global;

/// The output of an answer: its status, the report if a script was run, and the text.
#[derive(Drop)]
pub struct Output {
    pub status: Status,
    pub report: Option<Report>,
    pub text: Text,
}

impl Output {
    /// Returns the output of a script that was run: its report, the status of the report's end, and `text`.
    pub fn of_report(report: Report, text: Vec<u8>) -> Self
        ensures { result ≡ record { status = status_of report.end; report = Some report; text = Text.Made text } }
    {
        Output {
            status: Status::of_end(report.end),
            report: Some(report),
            text: Text::Made(text),
        }
    }
}

/// Returns the output of a refusal, or the output of `NoMemory` if there is no memory for the text of a bad line.
pub fn output_of_refusal(alloc: Global, refusal: Refusal) -> Output
    ensures { IsOutputOf (Err refusal) result ⊎ (IsBad refusal × IsOutputOf (Err Refusal.NoMemory) result) }
{
    match refusal {
        Refusal::Bad { line, cause } => output_of_bad(alloc, line, cause),
        Refusal::BadImage { line } => output_of_bad_image(alloc, line),
        other => output_of_fixed(other),
    }
}

// Returns the output of a bad line of a script, or the output of `NoMemory` if there is no memory for the text.
fn output_of_bad(alloc: Global, line: u32, cause: Cause) -> Output
    ensures { IsOutputOf (Err (Refusal.Bad line cause)) result ⊎ IsOutputOf (Err Refusal.NoMemory) result }
{
    match bad_line(alloc, line, cause) {
        Ok(text) => Output {
            status: Status::BadScript,
            report: None,
            text: Text::Made(text),
        },
        Err(_) => output_of_fixed(Refusal::NoMemory),
    }
}

// Returns the output of a bad line of an image, or the output of `NoMemory` if there is no memory for the text.
fn output_of_bad_image(alloc: Global, line: u32) -> Output
    ensures { IsOutputOf (Err (Refusal.BadImage line)) result ⊎ IsOutputOf (Err Refusal.NoMemory) result }
{
    match bad_image_line(alloc, line) {
        Ok(text) => Output {
            status: Status::BadImage,
            report: None,
            text: Text::Made(text),
        },
        Err(_) => output_of_fixed(Refusal::NoMemory),
    }
}

// Returns the output of a refusal. Requires that the refusal reports no bad line: then its text is fixed and takes no memory.
fn output_of_fixed(refusal: Refusal) -> Output
    requires { IsBad refusal → ⊥ }
    ensures { IsOutputOf (Err refusal) result }
{
    Output {
        status: refusal.status(),
        report: None,
        text: Text::Fixed(message(refusal)),
    }
}
