//! Why a command on a live link was refused.
ghost use Rattle.std.specs.Prelude.{◌≡◌, Some};
ghost use Rattle.nats_live.specs.Causes.{live_error_text, connect_refused};

use nats_dial::{ConnectError, ConnectErrorKind};
use nats_names::NoMemory;
use nats_system::{PublishError, SubscribeError};
use std::alloc::{AllocError, AllocFailed};
use std::fmt;

/// Why a command on a live link was refused. Own type of this library.
#[derive(Debug, Drop)]
pub enum LiveError {
    /// No link came about, for another cause than memory.
    Connect(ConnectError),
    /// The message was not published.
    Publish(PublishError),
    /// The subject was not subscribed to.
    Subscribe(SubscribeError),
    /// The link ended first.
    LinkEnded,
    /// Want of memory.
    NoMemory,
}

/// Prints the error of the call, or that the link ended.
impl fmt::Display for LiveError {
    ghost output = { λ error. Some (live_error_text error) };

    fn fmt<W: fmt::Write>(&self, f: &mut fmt::Formatter<W>) -> fmt::Result {
        match self {
            LiveError::Connect(error) => write!(f, "{error}"),
            LiveError::Publish(error) => write!(f, "{error}"),
            LiveError::Subscribe(error) => write!(f, "{error}"),
            LiveError::LinkEnded => write!(f, "link ended"),
            LiveError::NoMemory => write!(f, "out of memory"),
        }
    }
}

impl std::error::Error for LiveError {}

impl From<NoMemory> for LiveError {
    ghost use Rattle.std.specs.Prelude.{◌≡◌};
    ghost use Rattle.nats_live.specs.declared.error.LiveError.TheVariants as refused;

    ghost from_gives = { λ _ e. e ≡ refused.NoMemory };

    fn from(_refused: NoMemory) -> LiveError {
        LiveError::NoMemory
    }
}

impl From<AllocError> for LiveError {
    ghost use Rattle.std.specs.Prelude.{◌≡◌};
    ghost use Rattle.nats_live.specs.declared.error.LiveError.TheVariants as refused;

    ghost from_gives = { λ _ e. e ≡ refused.NoMemory };

    fn from(_refused: AllocError) -> LiveError {
        LiveError::NoMemory
    }
}

impl<T: Drop> From<AllocFailed<T>> for LiveError {
    ghost use Rattle.std.specs.Prelude.{◌≡◌};
    ghost use Rattle.nats_live.specs.declared.error.LiveError.TheVariants as refused;

    ghost from_gives = { λ _ e. e ≡ refused.NoMemory };

    fn from(_refused: AllocFailed<T>) -> LiveError {
        LiveError::NoMemory
    }
}

// The refusal to connect: want of memory is one of its own.
pub(crate) fn connect_refused(error: ConnectError) -> LiveError
    ensures { result ≡ connect_refused error }
{
    if matches!(error.kind(), ConnectErrorKind::NoMemory) {
        return LiveError::NoMemory;
    }
    LiveError::Connect(error)
}
