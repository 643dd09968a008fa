//! A command line: its name, the number of its tokens, each token, and the size of its object.
//!
//! `read_command` and `read_other_command` are the table of commands that are read. For each verb they give the shape of the
//! tokens after its name, and the fields that they spell. Easy to get wrong: a count that is too large for a segment is a
//! fault of the size, and comes after all faults of tokens. But a count above 65,535 is a fault of its token.
ghost use Rattle.std.specs.Prelude.{◌≡◌, ◌≢◌, ◌<◌, map};
ghost use Rattle.nmgc_commands.specs.Packed.{command_of};
ghost use Rattle.nmgc_script.specs.Reading.{Gives, none_at, operands_at, sized, command_at};

use crate::verbs::{Verb, verb_of};
use crate::version::Version;
use crate::{Cause, LineFault};
use nmgc_commands::{Form, PackedCommand};
use std::alloc::Global;

/// The greatest number of free variables of a thunk.
const MAX_FREE: usize = 8;

/// The greatest number of fields that a `rec` gives.
const MAX_FIELDS: usize = 65_535;

/// Returns the command that the tokens of a line spell, for segments of `size` words. `Bad` has the line's first cause.
#[tactic(auto, unfolding(crate::specs::Reading::command_at))]
pub fn command(
    alloc: Global,
    version: Version,
    tokens: &[&[u8]],
    size: u32,
) -> Result<PackedCommand, LineFault>
    ensures { Gives result (command_at version size (map (λ w. w.now) tokens.now)) }
{
    let Some((name, tokens)) = tokens.split_first() else {
        return Err(LineFault::Bad(Cause::Command));
    };
    let verb = verb_of(version, name)?;
    let command = read_command(alloc, version, verb, tokens)?;
    check_size(command, size)
}

// Reads tokens by a shape, and makes a command of the values read: they are the fields of a form, or a maker's arguments.
macro_rules! made {
    ($shape:expr => $form:ident { $($field:ident),* }) => {{
        let ($($field),*) = $shape?;
        Ok(PackedCommand { form: Form::$form { $($field),* } })
    }};
    ($shape:expr => $maker:ident($($field:ident),*)) => {{
        let ($($field),*) = $shape?;
        Ok(PackedCommand::$maker($($field),*))
    }};
}

// Returns the command that `verb` and the tokens after its name spell. A script has mostly commands of these four verbs.
// Compiled code clears the values of all arms before it chooses one, so this function has few arms.
fn read_command(
    alloc: Global,
    version: Version,
    verb: Verb,
    tokens: &[&[u8]],
) -> Result<PackedCommand, LineFault>
    ensures { Gives result (operands_at version verb (map (λ w. w.now) tokens.now)) }
{
    match verb {
        Verb::Con => made!(version.dest_tag_values(alloc, tokens) => con_of(dest, tag, fields)),
        Verb::Get => made!(version.dest_value_index(tokens) => Get { dest, object, index }),
        Verb::Set => made!(version.value_index_value(tokens) => Set { object, index, value }),
        Verb::Show => made!(version.value(tokens) => Show { value }),
        _ => read_other_command(alloc, version, verb, tokens),
    }
}

// Returns the command that `verb` and the tokens after its name spell. Requires a verb that `read_command` doesn't read.
#[inline(never)]
fn read_other_command(
    alloc: Global,
    version: Version,
    verb: Verb,
    tokens: &[&[u8]],
) -> Result<PackedCommand, LineFault>
    requires { (verb ≢ Verb.Con) × (verb ≢ Verb.Get) × (verb ≢ Verb.Set) × (verb ≢ Verb.Show) }
    ensures { Gives result (operands_at version verb (map (λ w. w.now) tokens.now)) }
{
    match verb {
        Verb::Num => made!(version.dest_number(tokens) => Num { dest, number }),
        Verb::Nil => made!(version.dest(tokens) => Nil { dest }),
        Verb::Mov => made!(version.dest_value(tokens) => Mov { dest, value }),
        Verb::Var => made!(version.dest_value(tokens) => Var { dest, value }),
        Verb::Arr => made!(version.dest_count_value(tokens) => Arr { dest, count, value }),
        Verb::Rec => {
            made!(version.dest_values_up_to(alloc, MAX_FIELDS, tokens) => rec_of(dest, fields))
        }
        Verb::Thunk => {
            made!(version.dest_values_up_to(alloc, MAX_FREE, tokens) => thunk_of(dest, free))
        }
        Verb::Weak => made!(version.dest_values(tokens) => Weak { dest, key, value, finaliser }),
        Verb::Stack => made!(version.dest_count(tokens) => Stack { dest, size }),
        Verb::Tag => made!(version.dest_value(tokens) => Tag { dest, object }),
        Verb::Cas =>
            made!(version.value_index_values(tokens) => Cas { object, index, expected, value }),
        Verb::Update => made!(version.values(tokens) => Update { object, value }),
        Verb::Force => made!(version.dest_value(tokens) => Force { dest, object }),
        Verb::Push => made!(version.values(tokens) => Push { object, value }),
        Verb::Pop => made!(version.dest_value(tokens) => Pop { dest, object }),
        Verb::Deref => made!(version.dest_value(tokens) => Deref { dest, object }),
        Verb::Finalise => made!(version.dest_value(tokens) => Finalise { dest, object }),
        Verb::NextFin => made!(version.dest(tokens) => NextFin { dest }),
        Verb::Same => made!(version.values(tokens) => Same { left, right }),
        Verb::Yield => command_without_operands(Form::Yield, tokens),
        Verb::Collect => command_without_operands(Form::Collect, tokens),
        Verb::Full => command_without_operands(Form::Full, tokens),
        Verb::Con | Verb::Get | Verb::Set | Verb::Show => unreachable!(),
    }
}

// Returns the command of `form`, or a fault if there are any tokens after its name.
#[tactic(auto, unfolding(crate::specs::Reading::none_at))]
fn command_without_operands(form: Form, tokens: &[&[u8]]) -> Result<PackedCommand, LineFault>
    ensures { Gives result (none_at (command_of form) (map (λ w. w.now) tokens.now)) }
{
    let [] = tokens else {
        return Err(LineFault::Bad(Cause::Arity));
    };
    Ok(PackedCommand { form })
}

// Returns the command, or a fault if the command makes an object that doesn't fit in a segment of `size` words.
#[tactic(auto, unfolding(crate::specs::Reading::sized))]
fn check_size(command: PackedCommand, size: u32) -> Result<PackedCommand, LineFault>
    ensures { Gives result (sized size command) }
{
    if command.words_made() > size as usize {
        return Err(LineFault::Bad(Cause::Size));
    }
    Ok(command)
}
