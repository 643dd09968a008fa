//! Reading and running a script, and the subcommand `run`.
//!
//! Other subcommands that run a script begin with `read_and_run`, as `run` does, and differ only in the text for the report.
ghost use Rattle.std.specs.Prelude.{◌≡◌, ◌≤◌, length, sum_by, vec_len, IfOk, IfErr, MatchResult};
ghost use Rattle.nmgc_io.specs.Text.{Rose};
ghost use Rattle.nmgc_limits.specs.Limits.{most_script_bytes};
ghost use Rattle.nmgc_script.specs.{Results.IsFaultOf, Spelling.Spells, Spelling.IsInLimits, declared.script.Script.Script as Spelled};
ghost use Rattle.nmgc_run_spec.specs.Lawful.{IsRunOf};
ghost use Rattle.nmgc_cli.specs.Output.{IsRan, AnswersScript, AnswersBytes, AnswersWithReport, IsText};

use crate::answer::Refusal;
use crate::output::Output;
use nmgc_cycle::Collector;
use nmgc_io::{Source, read_all};
use nmgc_journal::Report;
use nmgc_journal::text::text;
use nmgc_limits::MAX_SCRIPT_BYTES;
use nmgc_lists::NoMemory;
use nmgc_round::OpenGate;
use nmgc_script::{Script, ScriptFault, is_too_long, parse};
use std::alloc::Global;
use std::mem;
use std::thread::Threads;

/// Reads a script, runs it, and returns the answer of `run`: the report with its text, or a refusal.
pub fn run<R: Threads + Sync, S: Source>(
    alloc: Global,
    rt: &R,
    source: &mut S,
) -> Result<Output, Refusal>
    ensures { AnswersWithReport IsText (AnswersScript IsRan (S.left source.old) (S.left source.new) (Rose (S.faults source.old) (S.faults source.new))) result }
{
    let report = read_and_run(alloc, rt, source)?;
    let text = text(alloc, &report)?;
    Ok(Output::of_report(report, text))
}

/// Reads a script to its end and runs it. Returns its report, or the reason why there is none.
pub fn read_and_run<R: Threads + Sync, S: Source>(
    alloc: Global,
    rt: &R,
    source: &mut S,
) -> Result<Report, Refusal>
    ensures { AnswersScript IsRan (S.left source.old) (S.left source.new) (Rose (S.faults source.old) (S.faults source.new)) result }
{
    let bytes = read_all(alloc, source, MAX_SCRIPT_BYTES)?;
    run_bytes(alloc, rt, bytes)
}

/// Runs the script that the bytes spell, and returns its report, or the reason why there is none. Requires at most
/// `MAX_SCRIPT_BYTES` bytes, and gives their memory back before the run. Public for the test of `claims_of`.
pub fn run_bytes<R: Threads + Sync>(
    alloc: Global,
    rt: &R,
    bytes: Vec<u8>,
) -> Result<Report, Refusal>
    requires { vec_len bytes ≤ most_script_bytes }
    ensures { AnswersBytes IsRan bytes.items result }
{
    if is_too_long(&bytes) {
        return Err(Refusal::TooLong);
    }
    let script = script_of(alloc, bytes)?;
    Ok(run_script(alloc, rt, script)?)
}

// Returns the script that the bytes spell, or the parser's fault. The memory of the bytes is given back.
fn script_of(alloc: Global, bytes: Vec<u8>) -> Result<Script, ScriptFault>
    requires { vec_len bytes ≤ most_script_bytes }
    ensures found { IfOk result (λ script. Spells bytes.items script) }
    ensures only { (script : Spelled) → Spells bytes.items script → MatchResult result (λ read. script ≡ read) (λ fault. fault ≡ ScriptFault.NoMemory) }
    ensures few { IfOk result (λ script. sum_by (λ program. length program) script.threads ≤ vec_len bytes) }
    ensures reported { IfErr result (λ fault. IsFaultOf bytes.items fault) }
{
    parse(alloc, &bytes)
}

/// Runs a script under a gate that never blocks, and returns its report. Requires that the script is within the limits. The
/// memory of the script isn't given back: the program ends once the report is written, and the system then takes back all
/// memory at once. A drop of a long script would visit each of its commands.
pub fn run_script<R: Threads + Sync>(
    alloc: Global,
    rt: &R,
    script: Script,
) -> Result<Report, NoMemory>
    requires { IsInLimits script }
    ensures { IfOk result (λ report. IsRunOf script report) }
{
    let report = Collector::run(alloc, rt, &script, &OpenGate);
    mem::forget(script);
    report
}
