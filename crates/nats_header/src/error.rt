//! Why a header was refused.
ghost use Rattle.std.specs.Prelude.{◌≡◌, Some};
ghost use Rattle.nats_header.specs.Errors.{header_error_text};
ghost use Rattle.nats_header.specs.declared.error.HeaderError.TheVariants as header_error;

use nats_names::NoMemory;
use std::error::Error;
use std::fmt;

/// Why a name or a value was refused, tested in this order. The first two are the crate's `ParseHeaderNameError` and
/// `ParseHeaderValueError`; one type for all is this library's own.
#[derive(Clone, Copy, Debug, PartialEq, Eq)]
pub enum HeaderError {
    /// The name has a byte that is no visible ASCII character, or a colon.
    Name,
    /// The value has a CR or an LF.
    Value,
    /// Want of memory.
    NoMemory,
}

/// Prints the crate's texts.
impl fmt::Display for HeaderError {
    ghost output = { λ error. Some (header_error_text error) };

    fn fmt<W: fmt::Write>(&self, f: &mut fmt::Formatter<W>) -> fmt::Result {
        match self {
            HeaderError::Name => write!(
                f,
                "invalid header name (name cannot contain non-ascii alphanumeric characters other than '-')"
            ),
            HeaderError::Value => write!(
                f,
                "invalid character found in header value (value cannot contain '\\r' or '\\n')"
            ),
            HeaderError::NoMemory => write!(f, "out of memory"),
        }
    }
}

impl Error for HeaderError {}

impl From<NoMemory> for HeaderError {
    ghost from_gives = { λ _ error. error ≡ header_error.NoMemory };

    fn from(_refused: NoMemory) -> HeaderError {
        HeaderError::NoMemory
    }
}
