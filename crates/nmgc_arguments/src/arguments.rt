//! The arguments of the command line, as they are passed on.
//!
//! All arguments after the program's name are passed on, in order. An argument that isn't UTF-8 text, or is longer than any
//! argument that the program knows, is passed on as the empty argument, which no program accepts. Contracts can't know
//! standard arguments, so a command line is a trait: the same code also runs on arguments that contracts know. Easy to get
//! wrong: an argument that can't be read keeps its position. If it were left out, each later argument would move up.
ghost use Rattle.std.specs.Prelude.{◌≡◌, ℕ, List, [], Option, None, map, string_bytes, IfOk, if◌then◌else◌};
ghost use Rattle.std.specs.{Io.WritesAtMost, Option.option_map, Str.is_utf8};
ghost use Rattle.nmgc_arguments.specs.{Buffer.Fills, Output.ArePassed, Buffer.IsPassedAt};

use nmgc_lists::NoMemory;
use std::alloc::Global;
use std::env::{Env, FillError};

// Every argument that the program knows is shorter.
const LONGEST: usize = 256;

/// The origin of a command line's arguments.
pub trait CommandLine {
    /// The arguments from the program's name on, or `None` if contracts can't know them.
    ghost arguments: { Self → Option (List (List ℕ)) };

    /// Copies the argument at position `place` to the front of `buf`, and returns its length. Position 0 has the program's
    /// name. `NotPresent` means that no argument is there, and `TooLong` that it is longer than `buf`. Takes no memory.
    fn argument(&self, place: usize, buf: &mut [u8]) -> Result<usize, FillError>
        ensures bound { WritesAtMost result buf.new }
        ensures argument { Fills (arguments self.now) place buf.new result };
}

/// The arguments of this process, which contracts can't know.
#[derive(Clone, Copy)]
pub struct Arguments<'a, R> {
    runtime: &'a R,
}

impl<'a, R: Env> Arguments<'a, R> {
    /// Returns the arguments of a runtime.
    pub fn new(runtime: &'a R) -> Self {
        Arguments { runtime }
    }
}

impl<'a, R: Env> CommandLine for Arguments<'a, R> {
    ghost arguments = { λ _. None };

    fn argument(&self, place: usize, buf: &mut [u8]) -> Result<usize, FillError> {
        self.runtime.arg(place, buf)
    }
}

/// Returns all arguments after the program's name, in order. An argument that isn't UTF-8 text, or has more than 256 bytes,
/// becomes the empty argument. `NoMemory` means that there was no memory for them.
pub fn arguments_of<L: CommandLine>(alloc: Global, line: &L) -> Result<Vec<String>, NoMemory>
    ensures { IfOk result (λ arguments. ArePassed (L.arguments line.now) (map string_bytes arguments.items)) }
{
    let mut arguments = Vec::new(alloc);
    for place in 1..usize::MAX {
        let Some(argument) = argument_at(alloc, line, place)? else {
            return Ok(arguments);
        };
        arguments.push(argument)?;
    }
    // No memory holds this number of arguments.
    Err(NoMemory)
}

// Returns the argument at a position as it is passed on, or `None` if there is none.
fn argument_at<L: CommandLine>(
    alloc: Global,
    line: &L,
    place: usize,
) -> Result<Option<String>, NoMemory>
    ensures { IfOk result (λ argument. IsPassedAt (L.arguments line.now) place (option_map string_bytes argument)) }
{
    let mut buf = [0u8; LONGEST];
    match line.argument(place, &mut buf) {
        Ok(count) => Ok(Some(String::from_str(alloc, text(&buf[..count]))?)),
        Err(FillError::TooLong) => Ok(Some(String::new(alloc))),
        Err(FillError::NotPresent) => Ok(None),
    }
}

// Returns the bytes as text if they are UTF-8, and otherwise the empty text.
fn text(bytes: &[u8]) -> &str
    ensures { result.now ≡ (if is_utf8 bytes.now then bytes.now else []) }
{
    match str::from_utf8(bytes) {
        Ok(text) => text,
        Err(_) => "",
    }
}
