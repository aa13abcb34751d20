//! Why a text makes no subject.
ghost use Rattle.std.specs.Prelude.{◌≡◌, Some, codes};
ghost use Rattle.nats_names.specs.Errors.{subject_error_text};
ghost use Rattle.nats_names.specs.declared.subject_error.SubjectError.TheVariants as subject_error;

use crate::NoMemory;
use std::error::Error;
use std::fmt;

/// Why `Subject::validated` made no subject. The crate's `SubjectError`.
#[derive(Clone, Copy, Debug, PartialEq, Eq)]
pub enum SubjectError {
    /// The text may not be subscribed to: it is empty, holds a space, tab, CR or LF, or has an empty token between
    /// its dots.
    InvalidFormat,
    /// Want of memory. Own variant.
    NoMemory,
}

impl fmt::Display for SubjectError {
    ghost output = { λ error. Some (subject_error_text error) };

    fn fmt<W: fmt::Write>(&self, f: &mut fmt::Formatter<W>) -> fmt::Result {
        match self {
            SubjectError::InvalidFormat => write!(f, "invalid subject format"),
            SubjectError::NoMemory => write!(f, "out of memory"),
        }
    }
}

impl Error for SubjectError {}

impl From<NoMemory> for SubjectError {
    ghost from_gives = { λ _ error. error ≡ subject_error.NoMemory };

    fn from(_refused: NoMemory) -> SubjectError {
        SubjectError::NoMemory
    }
}
