//! The errors of a client's calls.
ghost use Rattle.std.specs.Prelude.{Some};
ghost use Rattle.nats_system.specs.Errors.{publish_kind_text, subscribe_kind_text};

use nats_names::Error;
use std::fmt;

/// Why a message was not published. The crate's `PublishErrorKind`.
#[derive(Clone, Copy, Debug, PartialEq, Eq)]
pub enum PublishErrorKind {
    /// The message is larger than the server takes.
    MaxPayloadExceeded,
    /// The subject or the reply may not be published to.
    InvalidSubject,
    /// The session is closed.
    Send,
    /// As many calls wait as may. Own variant.
    Full,
    /// Want of memory. Own variant.
    NoMemory,
}

/// Why a message was not published: the kind, and where it is known, what it came of. The crate's `PublishError`.
pub type PublishError = Error<PublishErrorKind>;

impl fmt::Display for PublishErrorKind {
    ghost output = { λ kind. Some (publish_kind_text kind) };

    fn fmt<W: fmt::Write>(&self, f: &mut fmt::Formatter<W>) -> fmt::Result {
        match self {
            PublishErrorKind::MaxPayloadExceeded => write!(f, "max payload size exceeded"),
            PublishErrorKind::InvalidSubject => write!(f, "invalid subject"),
            PublishErrorKind::Send => write!(f, "failed to send message"),
            PublishErrorKind::Full => write!(f, "client inbox is full"),
            PublishErrorKind::NoMemory => write!(f, "out of memory"),
        }
    }
}

impl std::error::Error for PublishErrorKind {}

/// Why a subject was not subscribed to. The crate's `SubscribeErrorKind`.
#[derive(Clone, Copy, Debug, PartialEq, Eq)]
pub enum SubscribeErrorKind {
    /// The subject may not be subscribed to.
    InvalidSubject,
    /// The queue group is no name.
    InvalidQueueName,
    /// The session is closed, or no number is left.
    Other,
    /// As many calls wait as may. Own variant.
    Full,
    /// Want of memory. Own variant.
    NoMemory,
}

/// Why a subject was not subscribed to: the kind, and where it is known, what it came of. The crate's
/// `SubscribeError`.
pub type SubscribeError = Error<SubscribeErrorKind>;

impl fmt::Display for SubscribeErrorKind {
    ghost output = { λ kind. Some (subscribe_kind_text kind) };

    fn fmt<W: fmt::Write>(&self, f: &mut fmt::Formatter<W>) -> fmt::Result {
        match self {
            SubscribeErrorKind::InvalidSubject => write!(f, "invalid subject"),
            SubscribeErrorKind::InvalidQueueName => write!(f, "invalid queue name"),
            SubscribeErrorKind::Other => write!(f, "subscribe failed"),
            SubscribeErrorKind::Full => write!(f, "client inbox is full"),
            SubscribeErrorKind::NoMemory => write!(f, "out of memory"),
        }
    }
}

impl std::error::Error for SubscribeErrorKind {}
