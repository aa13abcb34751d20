//! Why no INFO was read.
ghost use Rattle.std.specs.Prelude.{◌≡◌, Some};
ghost use Rattle.nats_info.specs.Errors.{info_error_text};
ghost use Rattle.nats_info.specs.declared.error.InfoError.TheVariants as refused;

use nats_names::NoMemory;
use std::error::Error;
use std::fmt;

/// Why no INFO was read from a text. Own type of this library.
#[derive(Clone, Copy, Debug, PartialEq, Eq)]
pub enum InfoError {
    /// The text is no JSON object whose fields are an INFO's.
    Unreadable,
    /// Want of memory.
    NoMemory,
}

impl fmt::Display for InfoError {
    ghost output = { λ error. Some (info_error_text error) };

    fn fmt<W: fmt::Write>(&self, f: &mut fmt::Formatter<W>) -> fmt::Result {
        match self {
            InfoError::Unreadable => write!(f, "unreadable server info"),
            InfoError::NoMemory => write!(f, "out of memory"),
        }
    }
}

impl Error for InfoError {}

impl From<NoMemory> for InfoError {
    ghost from_gives = { λ _ error. error ≡ refused.NoMemory };

    fn from(_refused: NoMemory) -> InfoError {
        InfoError::NoMemory
    }
}
