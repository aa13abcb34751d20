//! The errors of calls, each of a refusal.
ghost use Rattle.std.specs.Prelude.{◌≡◌};
ghost use Rattle.nats_refusals.specs.Kinds.{source_of, publish_kind, subscribe_kind, request_kind, flush_kind, closing_cause};

use crate::kinds::{FlushError, FlushErrorKind, RequestError, RequestErrorKind};
use crate::refusal::Refusal;
use nats_names::{Cause, Error};
use nats_system::{PublishError, PublishErrorKind, SubscribeError, SubscribeErrorKind};

/// What a refusal came of, the same in every error.
fn source(refusal: Refusal) -> Option<Cause>
    ensures { result ≡ source_of refusal }
{
    match refusal {
        Refusal::InvalidSubject => Some(Cause::Format),
        Refusal::TooLarge { limit, size } => Some(Cause::Payload { limit, size }),
        Refusal::Closed => Some(Cause::Closed),
        Refusal::NoNumber => Some(Cause::NoNumber),
        Refusal::NoPart => Some(Cause::NoPart),
        Refusal::NoResponders => Some(Cause::NoResponders),
        Refusal::FlushFailed | Refusal::Dropped => Some(Cause::Dropped),
        Refusal::InvalidQueueName | Refusal::Full | Refusal::TimedOut | Refusal::NoMemory => None,
    }
}

/// The error of this kind, with what the refusal came of.
fn error<Kind: Copy>(kind: Kind, refusal: Refusal) -> Error<Kind>
    ensures { result ≡ (kind, source_of refusal) }
{
    match source(refusal) {
        Some(source) => Error::with_source(kind, source),
        None => Error::new(kind),
    }
}

/// Why a message was not published.
pub fn publish_error(refusal: Refusal) -> PublishError
    ensures { result ≡ (publish_kind refusal, source_of refusal) }
{
    let kind = match refusal {
        Refusal::InvalidSubject => PublishErrorKind::InvalidSubject,
        Refusal::TooLarge { .. } => PublishErrorKind::MaxPayloadExceeded,
        Refusal::Full => PublishErrorKind::Full,
        Refusal::NoMemory => PublishErrorKind::NoMemory,
        _ => PublishErrorKind::Send,
    };
    error(kind, refusal)
}

/// Why a subject was not subscribed to.
pub fn subscribe_error(refusal: Refusal) -> SubscribeError
    ensures { result ≡ (subscribe_kind refusal, source_of refusal) }
{
    let kind = match refusal {
        Refusal::InvalidSubject => SubscribeErrorKind::InvalidSubject,
        Refusal::InvalidQueueName => SubscribeErrorKind::InvalidQueueName,
        Refusal::Full => SubscribeErrorKind::Full,
        Refusal::NoMemory => SubscribeErrorKind::NoMemory,
        _ => SubscribeErrorKind::Other,
    };
    error(kind, refusal)
}

/// Why a request has no reply.
pub fn request_error(refusal: Refusal) -> RequestError
    ensures { result ≡ (request_kind refusal, source_of refusal) }
{
    let kind = match refusal {
        Refusal::TimedOut => RequestErrorKind::TimedOut,
        Refusal::NoResponders => RequestErrorKind::NoResponders,
        Refusal::InvalidSubject => RequestErrorKind::InvalidSubject,
        Refusal::TooLarge { .. } => RequestErrorKind::MaxPayloadExceeded,
        Refusal::NoMemory => RequestErrorKind::NoMemory,
        _ => RequestErrorKind::Other,
    };
    error(kind, refusal)
}

/// Why a flush was not done.
pub fn flush_error(refusal: Refusal) -> FlushError
    ensures { result ≡ (flush_kind refusal, source_of refusal) }
{
    let kind = match refusal {
        Refusal::FlushFailed => FlushErrorKind::FlushError,
        Refusal::NoMemory => FlushErrorKind::NoMemory,
        _ => FlushErrorKind::SendError,
    };
    error(kind, refusal)
}

/// What a refused drain, reconnect or end of a subscription came of: want of memory, or that the session is closed.
pub fn closing_cause(refusal: Refusal) -> Cause
    ensures { result ≡ closing_cause refusal }
{
    match refusal {
        Refusal::NoMemory => Cause::NoMemory,
        _ => Cause::Closed,
    }
}
