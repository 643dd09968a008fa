//! The statuses with which the program ends, and their numbers.
ghost use Rattle.std.specs.Prelude.{◌≡◌};
ghost use Rattle.nmgc_cli.specs.Output.{number_of, status_of};

use nmgc_journal::{End, Report};

/// The status with which the program ends. Each status has its own text, and a number with which the process ends.
#[derive(Clone, Copy, Debug, PartialEq, Eq)]
pub enum Status {
    /// The task was done. A script was run to its end, and the task's text for its report was written. Or the text written
    /// was a script's upgrade, a path in an image, or `none` for no path. Number 0.
    Done,
    /// The arguments ask for no task; nothing was read. Number 2.
    Usage,
    /// The source failed. Number 3.
    ReadFault,
    /// The sink failed, and took a prefix of the text. Number 4.
    WriteFault,
    /// The bytes spell no script. Number 5.
    BadScript,
    /// There are more bytes than a script or an image may have. Number 5.
    TooLong,
    /// The run ended at a stop with commands left, since even a full cycle left fewer segments free than the reserve. The
    /// task's text for its report was written. Number 6.
    HeapFull,
    /// There was no memory. Number 7.
    NoMemory,
    /// The bytes spell no image. Number 9.
    BadImage,
}

impl Status {
    /// Returns the number with which the process ends.
    pub fn number(self) -> u8
        ensures { result ≡ number_of self }
    {
        match self {
            Status::Done => 0,
            Status::Usage => 2,
            Status::ReadFault => 3,
            Status::WriteFault => 4,
            Status::BadScript | Status::TooLong => 5,
            Status::HeapFull => 6,
            Status::NoMemory => 7,
            Status::BadImage => 9,
        }
    }

    /// Returns the status of a run with this end.
    pub fn of_end(end: End) -> Self
        ensures { result ≡ status_of end }
    {
        match end {
            End::Done => Status::Done,
            End::HeapFull { .. } => Status::HeapFull,
        }
    }
}

/// The status, and the report if a script was run and there was memory for its text. The run may have ended because the heap
/// was full. A sink that fails changes only the status.
pub struct Ended {
    pub status: Status,
    pub report: Option<Report>,
}

// Written by hand, so that each drop calls this. A derived drop is written out, and proved, at each drop.
impl Drop for Ended {
    fn drop(self) {
        let Ended { status: _, report } = self;
        drop(report);
    }
}
