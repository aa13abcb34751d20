//! Why the program stopped before it was done.

use nats_names::NoMemory;
use std::alloc::{AllocError, AllocFailed};
use std::process::ExitCode;

/// Why the program stopped before it was done: its exit status says so. Words on standard error tell more.
#[derive(Clone, Copy, Debug, PartialEq, Eq)]
pub enum Stop {
    /// Help or the version was asked for, and printed.
    Told,
    /// The words are no command.
    Words,
    /// Standard input failed.
    Input,
    /// Standard output failed.
    Output,
    /// Out of memory.
    NoMemory,
    /// No link came about.
    NoLink,
    /// The client or the server refused what was asked for, or the session was closed first.
    Refused,
    /// A request's time was over before its reply came.
    TimedOut,
    /// Nobody answers requests to the subject.
    NoResponders,
    /// Messages of a benchmark were lost, or it was given up.
    Lost,
}

impl Stop {
    /// The exit status.
    pub fn code(self) -> ExitCode {
        ExitCode::from(match self {
            Stop::Told => 0,
            Stop::Words => 2,
            Stop::Input => 3,
            Stop::Output => 4,
            Stop::NoMemory => 7,
            Stop::NoLink => 9,
            Stop::Refused => 10,
            Stop::TimedOut => 11,
            Stop::NoResponders => 12,
            Stop::Lost => 13,
        })
    }
}

impl From<NoMemory> for Stop {
    fn from(_refused: NoMemory) -> Stop {
        Stop::NoMemory
    }
}

impl From<AllocError> for Stop {
    fn from(_refused: AllocError) -> Stop {
        Stop::NoMemory
    }
}

impl<T: Drop> From<AllocFailed<T>> for Stop {
    fn from(_refused: AllocFailed<T>) -> Stop {
        Stop::NoMemory
    }
}
