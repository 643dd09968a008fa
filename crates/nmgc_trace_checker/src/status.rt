//! The statuses of arguments and of the program, and their numbers.
ghost use Rattle.std.specs.Prelude.{◌≡◌, ◌⊎◌, ◌≤◌};
ghost use Rattle.nmgc_trace_checker.specs.Program.{number_of, rank};

/// The status of an argument, or of the program as a whole. Each status is graver than the statuses above it.
#[derive(Clone, Copy, Debug, PartialEq, Eq)]
pub enum Status {
    /// The trace passed. Number 0.
    Passed,
    /// The trace has a line that can't happen, isn't whole, or is too long. Number 2.
    Refused,
    /// The trace couldn't be opened or read. Number 3.
    Unread,
    /// There was no memory for the trace, for a text, or for the arguments. Number 7.
    NoMemory,
    /// No trace is named, or an argument is no text. Nothing was read. Number 64.
    Usage,
    /// The output couldn't be written, and the remaining arguments weren't read. Number 1.
    Unwritten,
}

impl Status {
    /// Returns the number with which the process ends.
    pub fn exit_code(self) -> u8
        ensures { result ≡ number_of self }
    {
        match self {
            Status::Passed => 0,
            Status::Refused => 2,
            Status::Unread => 3,
            Status::NoMemory => 7,
            Status::Usage => 64,
            Status::Unwritten => 1,
        }
    }

    // Returns how grave the status is, from 0 on.
    fn rank(self) -> u8
        ensures { result ≡ rank self }
    {
        match self {
            Status::Passed => 0,
            Status::Refused => 1,
            Status::Unread => 2,
            Status::NoMemory => 3,
            Status::Usage => 4,
            Status::Unwritten => 5,
        }
    }

    /// Returns the graver one of two statuses.
    pub fn graver(self, other: Status) -> Status
        ensures least { rank self ≤ rank result }
        ensures other { rank other ≤ rank result }
        ensures from { (result ≡ self) ⊎ (result ≡ other) }
    {
        if self.rank() < other.rank() {
            other
        } else {
            self
        }
    }
}
