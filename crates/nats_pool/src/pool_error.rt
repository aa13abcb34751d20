//! Why a pool was not replaced.
ghost use Rattle.std.specs.Prelude.{Some};
ghost use Rattle.nats_pool.specs.Errors.{set_server_pool_text};

use nats_names::NoMemory;
use std::alloc::AllocError;
use std::error::Error;
use std::fmt;

/// Why a pool was not replaced. The crate's `SetServerPoolErrorKind`.
#[derive(Clone, Copy, Debug, PartialEq, Eq)]
pub enum SetServerPoolErrorKind {
    /// The session is closed.
    Send,
    /// A text is no address.
    InvalidAddress,
    /// There is no address.
    EmptyPool,
    /// Some addresses are of `ws` or `wss`, and others are not.
    MixedSchemes,
    /// Want of memory. Own variant.
    NoMemory,
}

impl fmt::Display for SetServerPoolErrorKind {
    ghost output = { λ kind. Some (set_server_pool_text kind) };

    fn fmt<W: fmt::Write>(&self, f: &mut fmt::Formatter<W>) -> fmt::Result {
        match self {
            SetServerPoolErrorKind::Send => write!(f, "failed to send set_server_pool command"),
            SetServerPoolErrorKind::InvalidAddress => write!(f, "invalid server address"),
            SetServerPoolErrorKind::EmptyPool => write!(f, "server pool cannot be empty"),
            SetServerPoolErrorKind::MixedSchemes => write!(
                f,
                "cannot mix websocket and non-websocket URLs in server pool"
            ),
            SetServerPoolErrorKind::NoMemory => write!(f, "out of memory"),
        }
    }
}

impl Error for SetServerPoolErrorKind {}

impl From<NoMemory> for SetServerPoolErrorKind {
    ghost use Rattle.std.specs.Prelude.{◌≡◌};
    ghost use Rattle.nats_pool.specs.declared.pool_error.SetServerPoolErrorKind.TheVariants as kind;

    ghost from_gives = { λ _ error. error ≡ kind.NoMemory };

    fn from(_refused: NoMemory) -> SetServerPoolErrorKind {
        SetServerPoolErrorKind::NoMemory
    }
}

impl From<AllocError> for SetServerPoolErrorKind {
    ghost use Rattle.std.specs.Prelude.{◌≡◌};
    ghost use Rattle.nats_pool.specs.declared.pool_error.SetServerPoolErrorKind.TheVariants as kind;

    ghost from_gives = { λ _ error. error ≡ kind.NoMemory };

    fn from(_refused: AllocError) -> SetServerPoolErrorKind {
        SetServerPoolErrorKind::NoMemory
    }
}
