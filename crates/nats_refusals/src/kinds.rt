//! The kinds of the errors of requests, flushes and the pool of servers.
ghost use Rattle.std.specs.Prelude.{Some};
ghost use Rattle.nats_refusals.specs.Texts.{request_kind_text, flush_kind_text, server_pool_kind_text};

use nats_names::Error;
use std::fmt;

/// Why a request has no reply. The crate's `RequestErrorKind`.
#[derive(Clone, Copy, Debug, PartialEq, Eq)]
pub enum RequestErrorKind {
    /// Its time was over first.
    TimedOut,
    /// Nobody answers requests to the subject.
    NoResponders,
    /// The subject may not be published to.
    InvalidSubject,
    /// The message is larger than the server takes.
    MaxPayloadExceeded,
    /// The session is closed, no ticket is left, or the request was dropped.
    Other,
    /// Want of memory. Own variant.
    NoMemory,
}

/// Why a request has no reply: the kind, and where it is known, what it came of. The crate's `RequestError`.
pub type RequestError = Error<RequestErrorKind>;

impl fmt::Display for RequestErrorKind {
    ghost output = { λ kind. Some (request_kind_text kind) };

    fn fmt<W: fmt::Write>(&self, f: &mut fmt::Formatter<W>) -> fmt::Result {
        match self {
            RequestErrorKind::TimedOut => write!(f, "request timed out"),
            RequestErrorKind::NoResponders => write!(f, "no responders"),
            RequestErrorKind::InvalidSubject => write!(f, "invalid subject"),
            RequestErrorKind::MaxPayloadExceeded => write!(f, "max payload size exceeded"),
            RequestErrorKind::Other => write!(f, "request failed"),
            RequestErrorKind::NoMemory => write!(f, "out of memory"),
        }
    }
}

impl std::error::Error for RequestErrorKind {}

/// Why a flush was not done. The crate's `FlushErrorKind`.
#[derive(Clone, Copy, Debug, PartialEq, Eq)]
pub enum FlushErrorKind {
    /// It was not accepted: the session is closed, or no ticket is left.
    SendError,
    /// The link ended first.
    FlushError,
    /// Want of memory. Own variant.
    NoMemory,
}

/// Why a flush was not done: the kind, and where it is known, what it came of. The crate's `FlushError`.
pub type FlushError = Error<FlushErrorKind>;

impl fmt::Display for FlushErrorKind {
    ghost output = { λ kind. Some (flush_kind_text kind) };

    fn fmt<W: fmt::Write>(&self, f: &mut fmt::Formatter<W>) -> fmt::Result {
        match self {
            FlushErrorKind::SendError => write!(f, "failed to send flush request"),
            FlushErrorKind::FlushError => write!(f, "flush failed"),
            FlushErrorKind::NoMemory => write!(f, "out of memory"),
        }
    }
}

impl std::error::Error for FlushErrorKind {}

/// Why the servers of a pool were not told. The crate's `ServerPoolErrorKind`.
#[derive(Clone, Copy, Debug, PartialEq, Eq)]
pub enum ServerPoolErrorKind {
    /// The session is closed.
    Send,
    /// Want of memory. Own variant.
    NoMemory,
}

/// Why the servers of a pool were not told: the kind, and where it is known, what it came of. The crate's
/// `ServerPoolError`.
pub type ServerPoolError = Error<ServerPoolErrorKind>;

impl fmt::Display for ServerPoolErrorKind {
    ghost output = { λ kind. Some (server_pool_kind_text kind) };

    fn fmt<W: fmt::Write>(&self, f: &mut fmt::Formatter<W>) -> fmt::Result {
        match self {
            ServerPoolErrorKind::Send => write!(f, "failed to send server_pool command"),
            ServerPoolErrorKind::NoMemory => write!(f, "out of memory"),
        }
    }
}

impl std::error::Error for ServerPoolErrorKind {}
