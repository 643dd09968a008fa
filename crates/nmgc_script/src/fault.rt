//! Why a script could not be read.
//!
//! The causes are in the order in which they are tried on a line, and the first that applies is reported. Easy to get wrong:
//! a line with too few tokens and an unknown name has the cause `Command`. With a bad token and too few tokens it is `Arity`.
ghost use Rattle.std.specs.Prelude.{◌≡◌};
ghost use Rattle.nmgc_script.specs.declared.fault.LineFault.TheVariants.{NoMemory as no_memory};

use nmgc_lists::NoMemory;
use std::alloc::{AllocError, AllocFailed};
use thiserror::Error;

/// The faults of a line, in the order in which they are tried.
#[derive(Clone, Copy, Debug, PartialEq, Eq, Error)]
pub enum Cause {
    /// The first line isn't `nmgc 1`, `nmgc 2` or `nmgc 3`.
    #[error("version")]
    Version,
    /// The second line isn't a heap line within the limits.
    #[error("heap")]
    Heap,
    /// A section line doesn't name the next thread, the version has no more threads, or a line before the first section
    /// begins with another token.
    #[error("thread")]
    Thread,
    /// The section's nursery makes the heap too large.
    #[error("total")]
    Total,
    /// The first token is no command's name.
    #[error("command")]
    Command,
    /// The command doesn't take this number of tokens.
    #[error("arity")]
    Arity,
    /// A token doesn't have the form that its position requires.
    #[error("operand")]
    Operand,
    /// The object is larger than a segment.
    #[error("size")]
    Size,
}

/// Why a line could not be read.
#[derive(Clone, Copy, Debug, PartialEq, Eq)]
pub enum LineFault {
    Bad(Cause),
    NoMemory,
}

/// Why a script could not be read: the number of the first bad line, from 1, and its cause.
#[derive(Clone, Copy, Debug, PartialEq, Eq, Error)]
pub enum ScriptFault {
    #[error("bad line {line} {cause}")]
    Bad { line: u32, cause: Cause },
    #[error("no memory")]
    NoMemory,
}

// In each of these three, a lack of memory becomes the fault `NoMemory`.
impl From<NoMemory> for LineFault {
    ghost from_gives = { λ _ e. e ≡ no_memory };

    fn from(_: NoMemory) -> Self {
        LineFault::NoMemory
    }
}

impl From<AllocError> for LineFault {
    ghost from_gives = { λ _ e. e ≡ no_memory };

    fn from(_: AllocError) -> Self {
        LineFault::NoMemory
    }
}

impl<T: Drop> From<AllocFailed<T>> for LineFault {
    ghost from_gives = { λ _ e. e ≡ no_memory };

    fn from(_: AllocFailed<T>) -> Self {
        LineFault::NoMemory
    }
}
