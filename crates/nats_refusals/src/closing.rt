//! The errors of calls that end something: each holds what it came of.
ghost use Rattle.std.specs.Prelude.{Some};
ghost use Rattle.nats_refusals.specs.Texts.{unsubscribe_text, drain_text, reconnect_text};

use nats_names::Cause;
use std::error::Error;
use std::fmt;

/// Why a subscription was not told to end: the session is closed, or memory is wanting. The crate's
/// `UnsubscribeError`, which holds a text.
#[derive(Debug, Drop, PartialEq, Eq)]
pub struct UnsubscribeError(pub Cause);

/// Prints that it was not sent, without the cause, as the crate does.
impl fmt::Display for UnsubscribeError {
    ghost output = { λ error. Some unsubscribe_text };

    fn fmt<W: fmt::Write>(&self, f: &mut fmt::Formatter<W>) -> fmt::Result {
        write!(f, "failed to send unsubscribe")
    }
}

impl Error for UnsubscribeError {}

/// Why a session was not told to drain: it is closed, or memory is wanting. The crate's `DrainError`.
#[derive(Debug, Drop, PartialEq, Eq)]
pub struct DrainError(pub Cause);

/// Prints that it was not sent, and the cause.
impl fmt::Display for DrainError {
    ghost output = { λ error. Some (drain_text error.0) };

    fn fmt<W: fmt::Write>(&self, f: &mut fmt::Formatter<W>) -> fmt::Result {
        write!(f, "failed to send drain: {}", self.0)
    }
}

impl Error for DrainError {}

/// Why a session was not told to connect anew: it is closed, or memory is wanting. The crate's `ReconnectError`.
#[derive(Debug, Drop, PartialEq, Eq)]
pub struct ReconnectError(pub Cause);

/// Prints that it was not sent, and the cause.
impl fmt::Display for ReconnectError {
    ghost output = { λ error. Some (reconnect_text error.0) };

    fn fmt<W: fmt::Write>(&self, f: &mut fmt::Formatter<W>) -> fmt::Result {
        write!(f, "failed to send reconnect: {}", self.0)
    }
}

impl Error for ReconnectError {}
