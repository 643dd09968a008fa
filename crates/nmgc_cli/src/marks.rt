//! The subcommand `marks N`: several markers mark the heap that a run leaves.
//!
//! The run is as for `run`. After its end the heap is no longer written. So several markers can mark side by side all objects
//! that strong fields reach from the registers, the finaliser queues and the slots of g (`nmgc_pmark`). The names of these
//! objects are written in place of the report's text: they are the same for any number of markers. The markers read the
//! report's words in their closed table, and copy none.
ghost use Rattle.std.specs.Prelude.{◌≡◌, ℕ, [], ◌∷◌, ◌++◌, decimal, map, string_bytes, IfOk, IfSome, IfNone, OnOk};
ghost use Rattle.std.specs.List.{flat_map};
ghost use Rattle.nmgc_journal.specs.Text.{name_line};
ghost use Rattle.nmgc_pmark.specs.Stops.{root_words};
ghost use Rattle.nmgc_cli.specs.{Claimed.AreClaimsOf, Output.IsMarksText, Output.marks_lines, Output.IsRan, Output.Asks, Output.AnswersScript, Output.AnswersWithReport, Parts.IsOfScript, Parts.AreMarkers, declared.task.Task.TheVariants.Marks};
ghost use Rattle.nmgc_io.specs.Text.{Rose};

use crate::answer::Refusal;
use crate::output::Output;
use crate::run::read_and_run;
use nmgc_io::{Source, push_number, read_number};
use nmgc_journal::text::push_end;
use nmgc_journal::{End, MutatorEnd, Report, push_name};
use nmgc_lists::NoMemory;
use nmgc_pmark::laws::{a_stop_is_stopped, roots_start_strong_reach};
use nmgc_pmark::{Claims, MOST_MARKERS, mark_all, names_of};
use nmgc_round::{Gate, OpenGate};
use nmgc_world_spec::Name;
use std::alloc::Global;
use std::thread::Threads;

/// Returns the number of markers that the arguments `marks N` ask for, or `None` exactly if the arguments ask for no marks.
pub fn markers_of(arguments: &[String]) -> Option<u8>
    ensures asked { IfSome result (λ markers. Asks (map string_bytes arguments.now) (Marks markers)) }
    ensures none { IfNone result ((markers : ℕ) → Asks (map string_bytes arguments.now) (Marks markers) → ⊥) }
{
    match arguments {
        [name, number] => markers_named(name.as_str(), number.as_str()),
        _ => None,
    }
}

// Returns the number of markers that a subcommand and a token ask for, or `None` exactly if they ask for no marks.
fn markers_named(name: &str, number: &str) -> Option<u8>
    ensures asked { IfSome result (λ markers. Asks (name.now ∷ number.now ∷ []) (Marks markers)) }
    ensures none { IfNone result ((markers : ℕ) → Asks (name.now ∷ number.now ∷ []) (Marks markers) → ⊥) }
{
    if name != "marks" {
        return None;
    }
    markers_in(number.as_bytes())
}

// Returns the number of markers that a token spells, or `None` exactly if it spells no allowed number.
#[tactic(auto, using(crate::proofs::Asking::one_number))]
fn markers_in(argument: &[u8]) -> Option<u8>
    ensures found { IfSome result (λ markers. (argument.now ≡ decimal markers) × AreMarkers markers) }
    ensures none { IfNone result ((markers : ℕ) → AreMarkers markers → argument.now ≡ decimal markers → ⊥) }
{
    let number = read_number(argument, u64::from(MOST_MARKERS))?;
    if number == 0 {
        return None;
    }
    Some(number as u8)
}

/// Reads a script, runs it, and returns the answer of `marks N`: the report with the names that N markers mark, or a refusal.
pub fn marks<R: Threads + Sync, S: Source>(
    alloc: Global,
    rt: &R,
    source: &mut S,
    markers: u8,
) -> Result<Output, Refusal>
    requires { AreMarkers markers }
    ensures { AnswersWithReport (IsMarksText markers) (AnswersScript IsRan (S.left source.old) (S.left source.new)
        (Rose (S.faults source.old) (S.faults source.new))) result }
{
    let report = read_and_run(alloc, rt, source)?;
    let text = marks_text(alloc, rt, markers, &report)?;
    Ok(Output::of_report(report, text))
}

/// Lets `markers` markers mark the heap that a run left, and returns the text of `marks N`. The text has N, the number of
/// names marked, these names in order, and the end of the run. Takes memory for markers, names and text.
pub fn marks_text<R: Threads + Sync>(
    alloc: Global,
    rt: &R,
    markers: u8,
    report: &Report,
) -> Result<Vec<u8>, NoMemory>
    requires markers { AreMarkers markers }
    requires script { IsOfScript report.now }
    ensures { IfOk result (λ text. IsMarksText markers report.now text.items) }
{
    let claims = claims_of(alloc, rt, markers, report, &OpenGate)?;
    let names = names_of(alloc, &claims)?;
    roots_start_strong_reach();
    lines(alloc, markers, names.items(), report.end)
}

/// Lets `markers` markers mark the heap that a run left, and returns their claims: for each marker, the names that it marked.
/// Requires a possible number of markers, and the report of a run of a script. Each marker passes `gate` before each object;
/// a test has a gate at which two meet. Takes memory for markers and names.
pub fn claims_of<R: Threads + Sync, G: Gate>(
    alloc: Global,
    rt: &R,
    markers: u8,
    report: &Report,
    gate: &G,
) -> Result<Claims, NoMemory>
    requires markers { AreMarkers markers }
    requires script { IsOfScript report.now }
    ensures { IfOk result (λ claims. AreClaimsOf markers report.now claims.by) }
{
    a_stop_is_stopped();
    // Note [Lines that do nothing] in `nmgc_alloc`: this gives the prover that segments are sound, for laws on a run's heap.
    let _ = report.segments.layout();
    let roots = root_words(alloc, report.mutators.items())?;
    mark_all(
        alloc,
        rt,
        &report.words,
        &report.segments,
        roots.as_slice(),
        markers,
        gate,
    )
}

// Returns the words from which the markers begin: the registers of all mutators, and then their finaliser queues.
fn root_words(alloc: Global, mutators: &[MutatorEnd]) -> Result<Vec<u64>, NoMemory>
    ensures { IfOk result (λ roots. roots.items ≡ root_words mutators.now) }
{
    let mut roots = Vec::new(alloc);
    for mutator in mutators {
        roots.extend_from_slice(mutator.registers.items())?;
    }
    for mutator in mutators {
        roots.extend_from_slice(mutator.queue.items())?;
    }
    Ok(roots)
}

// Returns the text of `marks N` for N = `markers`: N, the number of `names`, a line for each name, and the end of the run.
fn lines(alloc: Global, markers: u8, names: &[Name], end: End) -> Result<Vec<u8>, NoMemory>
    ensures { IfOk result (λ text. text.items ≡ marks_lines markers names.now end) }
{
    let mut out = Vec::from_slice(alloc, b"marks ")?;
    push_number(&mut out, u64::from(markers))?;
    out.extend_from_slice(b"\nreached ")?;
    push_number(&mut out, names.len() as u64)?;
    out.push(b'\n')?;
    push_names(&mut out, names)?;
    push_end(&mut out, end)?;
    Ok(out)
}

// Appends a line for each name.
fn push_names(out: &mut Vec<u8>, names: &[Name]) -> Result<(), NoMemory>
    ensures { OnOk result (out.new.items ≡ out.old.items ++ flat_map (name_line []) names.now) }
{
    for name in names {
        push_name(out, *name)?;
        out.push(b'\n')?;
    }
    Ok(())
}
