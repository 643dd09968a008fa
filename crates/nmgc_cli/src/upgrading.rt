//! The subcommand `upgrade`: the upgrade of a script.
//!
//! A script is read as for a run, with the same refusals. Its plain spelling is written, in version 2 if it has version 1,
//! and otherwise in its own. The programs stay, and no version affects their meaning. So the upgrade runs as the script does.
ghost use Rattle.std.specs.Prelude.{◌≤◌, length};
ghost use Rattle.nmgc_io.specs.Text.{Rose};
ghost use Rattle.nmgc_limits.specs.Limits.{most_script_bytes};
ghost use Rattle.nmgc_cli.specs.Output.{AnswersBytes, AnswersScript, IsUpgraded};

use crate::Status;
use crate::answer::Refusal;
use crate::output::Output;
use nmgc_arguments::Text;
use nmgc_io::{Source, read_all};
use nmgc_limits::MAX_SCRIPT_BYTES;
use nmgc_script::{is_too_long, parse, print, upgrade as upgrade_script};
use std::alloc::Global;

/// Reads a script, and returns the answer of `upgrade`: the plain spelling of the script's upgrade, or a refusal.
pub fn upgrade<S: Source>(alloc: Global, source: &mut S) -> Result<Output, Refusal>
    ensures { AnswersScript IsUpgraded (S.left source.old) (S.left source.new) (Rose (S.faults source.old) (S.faults source.new)) result }
{
    let bytes = read_all(alloc, source, MAX_SCRIPT_BYTES)?;
    upgrade_bytes(alloc, &bytes)
}

// Returns the plain spelling of the upgrade of the script that the bytes spell, or a refusal.
fn upgrade_bytes(alloc: Global, bytes: &[u8]) -> Result<Output, Refusal>
    requires { length bytes.now ≤ most_script_bytes }
    ensures { AnswersBytes IsUpgraded bytes.now result }
{
    if is_too_long(bytes) {
        return Err(Refusal::TooLong);
    }
    let script = upgrade_script(parse(alloc, bytes)?);
    let text = print(alloc, &script)?;
    Ok(Output {
        status: Status::Done,
        report: None,
        text: Text::Made(text),
    })
}
