//! The names of commands.
//!
//! This is the one table of names, for reading and for printing. A name is looked up before the rest of its line is checked.
//! So an unknown name is reported even if the line has too many tokens. The first letters give a guess of the verb. All verbs
//! are compared only if the guess is wrong, so only the time of a long script depends on it. Easy to get wrong: a verb that
//! is missing in `VERBS` could be printed but not read.
ghost use Rattle.std.specs.Prelude.{IfSome, ◌≡◌};
ghost use Rattle.nmgc_script.specs.{Reading.Gives, Reading.first_named, Reading.named_at, Reading.verb_at, Parts.verb_name};

use crate::version::Version;
use crate::{Cause, LineFault};

/// The action that a command's name requests.
#[derive(Clone, Copy, Debug, PartialEq, Eq)]
pub enum Verb {
    Num,
    Nil,
    Mov,
    Con,
    Var,
    Arr,
    Rec,
    Thunk,
    Weak,
    Stack,
    Get,
    Tag,
    Set,
    Cas,
    Update,
    Force,
    Push,
    Pop,
    Deref,
    Finalise,
    NextFin,
    Show,
    Same,
    Yield,
    Collect,
    Full,
}

/// Every verb, in the order in which names are looked up.
pub const VERBS: [Verb; 26] = [
    Verb::Num,
    Verb::Nil,
    Verb::Mov,
    Verb::Con,
    Verb::Var,
    Verb::Arr,
    Verb::Rec,
    Verb::Thunk,
    Verb::Weak,
    Verb::Stack,
    Verb::Get,
    Verb::Tag,
    Verb::Set,
    Verb::Cas,
    Verb::Update,
    Verb::Force,
    Verb::Push,
    Verb::Pop,
    Verb::Deref,
    Verb::Finalise,
    Verb::NextFin,
    Verb::Show,
    Verb::Same,
    Verb::Yield,
    Verb::Collect,
    Verb::Full,
];

impl Verb {
    /// Returns the verb's name. Takes no memory.
    pub fn name(self) -> &'static [u8]
        ensures { result.now ≡ verb_name self }
    {
        match self {
            Verb::Num => b"num",
            Verb::Nil => b"nil",
            Verb::Mov => b"mov",
            Verb::Con => b"con",
            Verb::Var => b"var",
            Verb::Arr => b"arr",
            Verb::Rec => b"rec",
            Verb::Thunk => b"thunk",
            Verb::Weak => b"weak",
            Verb::Stack => b"stack",
            Verb::Get => b"get",
            Verb::Tag => b"tag",
            Verb::Set => b"set",
            Verb::Cas => b"cas",
            Verb::Update => b"update",
            Verb::Force => b"force",
            Verb::Push => b"push",
            Verb::Pop => b"pop",
            Verb::Deref => b"deref",
            Verb::Finalise => b"finalise",
            Verb::NextFin => b"nextfin",
            Verb::Show => b"show",
            Verb::Same => b"same",
            Verb::Yield => b"yield",
            Verb::Collect => b"collect",
            Verb::Full => b"full",
        }
    }
}

// Returns a guess of the verb with this name. If there is such a verb, the guess is right: the letters that are compared
// distinguish it from all other verbs. No clause is about the guess.
fn guess_verb(name: &[u8]) -> Verb {
    match name {
        [b'c', b'o', b'n', ..] => Verb::Con,
        [b'g', ..] => Verb::Get,
        [b's', b'e', ..] => Verb::Set,
        [b's', b'h', ..] => Verb::Show,
        [b's', b't', ..] => Verb::Stack,
        [b's', ..] => Verb::Same,
        [b'n', b'u', ..] => Verb::Num,
        [b'n', b'i', ..] => Verb::Nil,
        [b'n', ..] => Verb::NextFin,
        [b'm', ..] => Verb::Mov,
        [b'v', ..] => Verb::Var,
        [b'a', ..] => Verb::Arr,
        [b'r', ..] => Verb::Rec,
        [b't', b'a', ..] => Verb::Tag,
        [b't', ..] => Verb::Thunk,
        [b'w', ..] => Verb::Weak,
        [b'c', b'a', ..] => Verb::Cas,
        [b'c', ..] => Verb::Collect,
        [b'u', ..] => Verb::Update,
        [b'f', b'o', ..] => Verb::Force,
        [b'f', b'i', ..] => Verb::Finalise,
        [b'f', ..] => Verb::Full,
        [b'p', b'u', ..] => Verb::Push,
        [b'p', ..] => Verb::Pop,
        [b'd', ..] => Verb::Deref,
        _ => Verb::Yield,
    }
}

/// Returns the version's verb that has this name, or a fault if there is none. Takes no memory.
#[tactic(auto, unfolding(crate::specs::Reading::verb_at))]
pub fn verb_of(version: Version, name: &[u8]) -> Result<Verb, LineFault>
    ensures { Gives result (verb_at version name.now) }
{
    let verb = any_verb_of(name)?;
    if !version.has(verb) {
        return Err(LineFault::Bad(Cause::Command));
    }
    Ok(verb)
}

// Returns the verb that has this name if it is one of the four commonest in a script, and otherwise `None`.
fn common_verb_of(name: &[u8]) -> Option<Verb>
    ensures { IfSome result (λ verb. name.now ≡ verb_name verb) }
{
    match name {
        [b'c', b'o', b'n'] => Some(Verb::Con),
        [b'g', b'e', b't'] => Some(Verb::Get),
        [b's', b'e', b't'] => Some(Verb::Set),
        [b's', b'h', b'o', b'w'] => Some(Verb::Show),
        _ => None,
    }
}

// Returns the verb that has this name in any version, or a fault if there is none.
fn any_verb_of(name: &[u8]) -> Result<Verb, LineFault>
    ensures { Gives result (named_at name.now) }
{
    match common_verb_of(name) {
        Some(verb) => Ok(verb),
        None => other_verb_of(name),
    }
}

// Does the same as `any_verb_of`, for any name.
#[inline(never)]
fn other_verb_of(name: &[u8]) -> Result<Verb, LineFault>
    ensures { Gives result (named_at name.now) }
{
    let verb = guess_verb(name);
    if name == verb.name() {
        return Ok(verb);
    }
    first_named(name, &VERBS)
}

// Returns the first verb of `verbs` that has this name, or a fault if there is none.
#[tactic(auto, unfolding(crate::specs::Reading::first_named))]
fn first_named(name: &[u8], verbs: &[Verb]) -> Result<Verb, LineFault>
    ensures { Gives result (first_named name.now verbs.now) }
{
    let mut left = verbs;
    while let [verb, rest @ ..] = left {
        if name == verb.name() {
            return Ok(*verb);
        }
        left = rest;
    }
    Err(LineFault::Bad(Cause::Command))
}
