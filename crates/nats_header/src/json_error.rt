//! Why JSON was refused.
ghost use Rattle.std.specs.Prelude.{◌≡◌, Some};
ghost use Rattle.nats_header.specs.Json.{json_error_text};
ghost use Rattle.nats_header.specs.declared.json_error.JsonError.TheVariants as json_error;

use nats_names::NoMemory;
use std::error::Error;
use std::fmt;

/// Why nothing was read from a JSON value. Own type of this library, for the Rust's `serde_json::Error`.
#[derive(Clone, Copy, Debug, PartialEq, Eq)]
pub enum JsonError {
    /// The value is not of the form that was asked for.
    NoMatch,
    /// Want of memory.
    NoMemory,
}

impl fmt::Display for JsonError {
    ghost output = { λ error. Some (json_error_text error) };

    fn fmt<W: fmt::Write>(&self, f: &mut fmt::Formatter<W>) -> fmt::Result {
        match self {
            JsonError::NoMatch => write!(f, "unexpected JSON"),
            JsonError::NoMemory => write!(f, "out of memory"),
        }
    }
}

impl Error for JsonError {}

impl From<NoMemory> for JsonError {
    ghost from_gives = { λ _ error. error ≡ json_error.NoMemory };

    fn from(_refused: NoMemory) -> JsonError {
        JsonError::NoMemory
    }
}
