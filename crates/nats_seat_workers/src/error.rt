//! Why workers did not come to their end.
ghost use Rattle.std.specs.Prelude.{◌≡◌, Some};
ghost use Rattle.nats_seat_workers.specs.Errors as words;

use nats_core::NoMemory;
use nats_desk::PlayError;
use std::error::Error;
use std::fmt;

/// Why workers did not come to their end.
#[derive(Clone, Copy, Debug, PartialEq, Eq)]
pub enum WorkError {
    /// A seat, a publish or the close was refused: the session was not the workers' alone.
    Refused,
    /// Want of memory.
    NoMemory,
}

impl From<NoMemory> for WorkError {
    ghost use Rattle.std.specs.Prelude.{◌≡◌};
    ghost use Rattle.nats_seat_workers.specs.declared.error.WorkError.TheVariants as refused;

    ghost from_gives = { λ _ e. e ≡ refused.NoMemory };

    fn from(_refused: NoMemory) -> WorkError {
        WorkError::NoMemory
    }
}

impl fmt::Display for WorkError {
    ghost output = { λ error. Some (words.work_error_text error) };

    fn fmt<W: fmt::Write>(&self, f: &mut fmt::Formatter<W>) -> fmt::Result {
        match self {
            WorkError::Refused => write!(f, "the session was not the workers' alone"),
            WorkError::NoMemory => write!(f, "out of memory"),
        }
    }
}

impl Error for WorkError {}

/// What a turn that was not played comes to.
pub(crate) fn refusal_by(error: &PlayError) -> WorkError
    ensures { result ≡ words.refusal_by error.now }
{
    match error {
        PlayError::OutOfTurn(_) => WorkError::Refused,
        PlayError::NoMemory(_) => WorkError::NoMemory,
    }
}
