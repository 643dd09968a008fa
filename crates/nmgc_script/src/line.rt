//! A command line by itself, outside a script.
ghost use Rattle.std.specs.Prelude.{◌≡◌, IfOk};
ghost use Rattle.nmgc_world_spec.specs.World.{Fits};
ghost use Rattle.nmgc_io.specs.Text.{tokens_of};
ghost use Rattle.nmgc_script.specs.{Reading.Gives, Reading.command_at, Spelling.version_3};

use crate::LineFault;
use crate::commands::command;
use crate::version::Version;
use nmgc_commands::PackedCommand;
use nmgc_io::cut_tokens;
use std::alloc::Global;

/// Returns the command that a line spells in a script of version 3, for segments of `size` words. `Bad` has the line's first
/// cause, as in a script. Takes memory for the tokens and for a command's operands.
pub fn command_of_line(alloc: Global, line: &[u8], size: u32) -> Result<PackedCommand, LineFault>
    ensures command { Gives result (command_at version_3 size (tokens_of line.now)) }
    ensures fits { IfOk result (λ command. Fits size command) }
{
    let mut tokens = Vec::new(alloc);
    cut_tokens(&mut tokens, line)?;
    command(alloc, Version::third(), &tokens, size)
}
