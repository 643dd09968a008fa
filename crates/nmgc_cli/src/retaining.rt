//! The subcommand `retain NAME`: a shortest path to an object of an image.
//!
//! Before the search's answer is written, the judge (`verify`) checks it against the image alone. It is proved that the judge
//! accepts each answer of the search. The judge takes no memory, and less time than reading the image.
ghost use Rattle.std.specs.Prelude.{◌≡◌, ◌≢◌, [], ◌∷◌, ℕ, ◌≤◌, length, map, string_bytes, codes, IfSome, IfNone};
ghost use Rattle.nmgc_world_spec.specs.declared.value.Name.{Name as NameOf};
ghost use Rattle.nmgc_io.specs.Text.{Rose};
ghost use Rattle.nmgc_journal.specs.Text.{name_text};
ghost use Rattle.nmgc_object.specs.Words.{IsName};
ghost use Rattle.nmgc_cli.specs.{Output.Asks, Output.AnswersImage, Parts.AnswersRetain, declared.task.Task.TheVariants.Retain};

use crate::Status;
use crate::answer::Refusal;
use crate::output::Output;
use nmgc_arguments::Text;
use nmgc_image::{MAX_IMAGE_BYTES, read_image};
use nmgc_io::{Source, read_all};
use nmgc_journal::read_name;
use nmgc_retain::{retain as find, retained_text, verify};
use nmgc_world_spec::Name;
use std::alloc::Global;

/// Returns the name that the arguments `retain NAME` ask for. Returns `None` exactly if the arguments ask for no path.
pub fn name_asked(arguments: &[String]) -> Option<Name>
    ensures asked { IfSome result (λ name. Asks (map string_bytes arguments.now) (Retain name)) }
    ensures none { IfNone result ((name : NameOf) → Asks (map string_bytes arguments.now) (Retain name) → ⊥) }
{
    match arguments {
        [subcommand, name] => name_after(subcommand.as_str(), name.as_str()),
        _ => None,
    }
}

// Returns the name that a subcommand and a token ask for, or `None` exactly if they ask for no path.
fn name_after(subcommand: &str, name: &str) -> Option<Name>
    ensures asked { IfSome result (λ found. Asks (subcommand.now ∷ name.now ∷ []) (Retain found)) }
    ensures none { IfNone result ((found : NameOf) → Asks (subcommand.now ∷ name.now ∷ []) (Retain found) → ⊥) }
{
    if subcommand != "retain" {
        return None;
    }
    read_name(name.as_bytes())
}

/// Reads an image, and returns the answer of `retain NAME`: a shortest path to the object of this name, `none`, or a refusal.
pub fn retain<S: Source>(alloc: Global, source: &mut S, name: Name) -> Result<Output, Refusal>
    ensures { AnswersRetain name (S.left source.old) (S.left source.new) (Rose (S.faults source.old) (S.faults source.new)) result }
{
    let bytes = read_all(alloc, source, MAX_IMAGE_BYTES)?;
    path_in(alloc, name, &bytes)
}

// Returns the answer for `name` in the image that the bytes spell: a shortest path, `none`, or a refusal.
fn path_in(alloc: Global, name: Name, bytes: &[u8]) -> Result<Output, Refusal>
    requires { length bytes.now ≤ MAX_IMAGE_BYTES }
    ensures { AnswersImage name bytes.now result }
{
    let image = read_image(alloc, bytes)?;
    let answer = find(alloc, &image, name)?;
    // The search's answer is certified, so the judge says yes.
    if !verify(&image, name, &answer) {
        unreachable!();
    }
    let text = retained_text(alloc, &answer)?;
    Ok(Output {
        status: Status::Done,
        report: None,
        text: Text::Made(text),
    })
}
