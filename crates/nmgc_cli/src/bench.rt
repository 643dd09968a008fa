//! The bench: the arguments that ask for it, and its report.
//!
//! A bench reads nothing: its script is made from the number of batches alone. Its report is a report of a run like any
//! other, so all proofs about runs hold for it. The report's summary is written in place of its text. Easy to get wrong:
//! `bench 0` and `bench 01` are wrong arguments, like `bench 101`.
ghost use Rattle.std.specs.Prelude.{◌≡◌, ℕ, [], ◌∷◌, decimal, map, string_bytes, IfOk, IfSome, IfNone};
ghost use Rattle.nmgc_cli.specs.{Output.AnswersBench, Output.AnswersWithReport, Output.IsSummary, Output.Asks, Bench.HasCount, Parts.IsBench, declared.task.Task.TheVariants.Bench};
ghost use Rattle.nmgc_run_spec.specs.Lawful.{IsRunOf};
ghost use Rattle.nmgc_script.specs.Spelling.{bench_script};

use crate::answer::Refusal;
use crate::output::Output;
use crate::run::run_script;
use nmgc_io::read_number;
use nmgc_journal::Report;
use nmgc_journal::summary::summary;
use nmgc_lists::NoMemory;
use nmgc_script::{MAX_BATCHES, generate};
use std::alloc::Global;
use std::thread::Threads;

/// Returns the number of batches that the arguments `bench N` ask for, or `None` exactly if the arguments ask for no bench.
pub fn batches_of(arguments: &[String]) -> Option<u32>
    ensures asked { IfSome result (λ batches. Asks (map string_bytes arguments.now) (Bench batches)) }
    ensures none { IfNone result ((batches : ℕ) → Asks (map string_bytes arguments.now) (Bench batches) → ⊥) }
{
    match arguments {
        [name, number] => batches_named(name.as_str(), number.as_str()),
        _ => None,
    }
}

// Returns the number of batches that a subcommand and a token ask for, or `None` exactly if they ask for no bench.
fn batches_named(name: &str, number: &str) -> Option<u32>
    ensures asked { IfSome result (λ batches. Asks (name.now ∷ number.now ∷ []) (Bench batches)) }
    ensures none { IfNone result ((batches : ℕ) → Asks (name.now ∷ number.now ∷ []) (Bench batches) → ⊥) }
{
    if name != "bench" {
        return None;
    }
    batches_in(number.as_bytes())
}

// Returns the number of batches that a token spells, or `None` exactly if it spells no allowed number.
#[tactic(auto, using(crate::proofs::Asking::one_number))]
fn batches_in(argument: &[u8]) -> Option<u32>
    ensures found { IfSome result (λ batches. (argument.now ≡ decimal batches) × IsBench batches) }
    ensures none { IfNone result ((batches : ℕ) → IsBench batches → argument.now ≡ decimal batches → ⊥) }
{
    let number = read_number(argument, u64::from(MAX_BATCHES))?;
    if number == 0 {
        return None;
    }
    Some(number as u32)
}

/// Runs the bench's script of `batches` batches. Returns the answer of `bench N`: the report with its summary, or a refusal.
pub fn bench<R: Threads + Sync>(alloc: Global, rt: &R, batches: u32) -> Result<Output, Refusal>
    requires { IsBench batches }
    ensures { AnswersWithReport (IsSummary batches) (AnswersBench batches) result }
{
    let report = bench_report(alloc, rt, batches)?;
    let text = summary(alloc, batches, &report)?;
    Ok(Output::of_report(report, text))
}

// Runs the bench's script of `batches` batches, and returns its report, which answers fewer than 2^64 commands.
fn bench_report<R: Threads + Sync>(alloc: Global, rt: &R, batches: u32) -> Result<Report, NoMemory>
    requires { IsBench batches }
    ensures run { IfOk result (λ report. IsRunOf (bench_script batches) report) }
    ensures count { IfOk result (λ report. HasCount report) }
{
    let script = generate(alloc, batches)?;
    run_script(alloc, rt, script)
}
