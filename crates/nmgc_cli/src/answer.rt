//! Refusals, the reasons why no task was done. An answer is a refusal, or the output of a task that was done.
//!
//! An answer is settled before the sink is touched. Its status, its report and its text are functions of the answer, so they
//! always agree: no refusal is `Done`, and no report goes with a refusal. Easy to get wrong: there may be no memory for the
//! text of a bad line. The answer is then `NoMemory`, whose own text takes none.
ghost use Rattle.std.specs.Prelude.{◌≡◌};
ghost use Rattle.nmgc_cli.specs.{Output.refusal_status, Parts.read_refusal, Parts.script_refusal, Parts.image_refusal, declared.answer.Refusal.TheVariants.NoMemory as no_memory};

use crate::Status;
use nmgc_image::ImageFault;
use nmgc_io::ReadEnd;
use nmgc_lists::NoMemory;
use nmgc_script::{Cause, ScriptFault};

/// The reason why no task was done.
#[derive(Clone, Copy, Debug, PartialEq, Eq)]
pub enum Refusal {
    /// The arguments ask for no task.
    Usage,
    /// The source failed.
    ReadFault,
    /// There are more bytes than a script or an image may have.
    TooLong,
    /// The bytes spell no script: the first bad line, from 1, and its cause.
    Bad { line: u32, cause: Cause },
    /// The bytes spell no image: the first bad line, from 1.
    BadImage { line: u32 },
    /// There was no memory.
    NoMemory,
}

impl Refusal {
    /// Returns the status of the refusal.
    pub fn status(self) -> Status
        ensures { result ≡ refusal_status self }
    {
        match self {
            Refusal::Usage => Status::Usage,
            Refusal::ReadFault => Status::ReadFault,
            Refusal::TooLong => Status::TooLong,
            Refusal::Bad { .. } => Status::BadScript,
            Refusal::BadImage { .. } => Status::BadImage,
            Refusal::NoMemory => Status::NoMemory,
        }
    }
}

// A lack of memory, as a refusal.
impl From<NoMemory> for Refusal {
    ghost from_gives = { λ _ refusal. refusal ≡ no_memory };

    fn from(_: NoMemory) -> Self {
        Refusal::NoMemory
    }
}

// The end of a source that couldn't be read to its end, as a refusal.
impl From<ReadEnd> for Refusal {
    ghost from_gives = { λ end refusal. refusal ≡ read_refusal end };

    fn from(end: ReadEnd) -> Self {
        match end {
            ReadEnd::ReadFault => Refusal::ReadFault,
            ReadEnd::TooLong => Refusal::TooLong,
            ReadEnd::NoMemory => Refusal::NoMemory,
        }
    }
}

// A parser's fault, as a refusal: the same bad line and cause, or `NoMemory`.
impl From<ScriptFault> for Refusal {
    ghost from_gives = { λ fault refusal. refusal ≡ script_refusal fault };

    fn from(fault: ScriptFault) -> Self {
        match fault {
            ScriptFault::Bad { line, cause } => Refusal::Bad { line, cause },
            ScriptFault::NoMemory => Refusal::NoMemory,
        }
    }
}

// An image's fault, as a refusal: the same bad line, or `NoMemory`.
impl From<ImageFault> for Refusal {
    ghost from_gives = { λ fault refusal. refusal ≡ image_refusal fault };

    fn from(fault: ImageFault) -> Self {
        match fault {
            ImageFault::Bad { line } => Refusal::BadImage { line },
            ImageFault::NoMemory => Refusal::NoMemory,
        }
    }
}
