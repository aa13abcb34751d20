//! Why a text makes no address of a server.
ghost use Rattle.std.specs.Prelude.{◌≡◌, Some};
ghost use Rattle.nats_names.specs.Errors.{addr_error_text};
ghost use Rattle.nats_names.specs.declared.addr_error.AddrError.TheVariants as addr_error;

use crate::NoMemory;
use std::error::Error;
use std::fmt;

/// Why a text makes no address of a server. The crate answers an error of input with these words.
#[derive(Clone, Copy, Debug, PartialEq, Eq)]
pub enum AddrError {
    /// The text is no URL.
    Url,
    /// The scheme is none of `nats`, `tls`, `ws` and `wss`.
    Scheme,
    /// Want of memory. Own variant.
    NoMemory,
}

impl fmt::Display for AddrError {
    ghost output = { λ error. Some (addr_error_text error) };

    fn fmt<W: fmt::Write>(&self, f: &mut fmt::Formatter<W>) -> fmt::Result {
        match self {
            AddrError::Url => write!(f, "NATS server URL is invalid"),
            AddrError::Scheme => write!(f, "invalid scheme for NATS server URL"),
            AddrError::NoMemory => write!(f, "out of memory"),
        }
    }
}

impl Error for AddrError {}

impl From<NoMemory> for AddrError {
    ghost from_gives = { λ _ error. error ≡ addr_error.NoMemory };

    fn from(_refused: NoMemory) -> AddrError {
        AddrError::NoMemory
    }
}
