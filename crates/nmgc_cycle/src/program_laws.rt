//! The law that ties runs of scripts to runs of programs. The function does nothing; its contract is the law.
ghost use Rattle.nmgc_cycle.specs.ScriptRuns.{ListsRunAsScripts};

use nmgc_mutator::{Listed, Program};

/// Proves that a script's programs, run as lists of commands, have a report of the script's own run. So what `run_programs`
/// promises of programs is, for a script that fits a run (`FitsRun`), what `run` promises of the script.
pub fn lists_run_as_scripts()
    ensures { ListsRunAsScripts ⟦<Listed<'static> as Program>⟧.next ⟦<Listed<'static> as Program>⟧.steps ⟦<Listed<'static> as Program>⟧.words
        ⟦<Listed<'static> as Program>⟧.most ⟦<Listed<'static> as Program>⟧.valid }
{}
