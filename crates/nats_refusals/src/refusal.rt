//! What a reply comes to.
ghost use Rattle.std.specs.Prelude.{◌≡◌};
ghost use Rattle.nats_refusals.specs.Refusals.{answer_of, flushed_of, asked_of};

use nats_history::CallReply;
use nats_wire::Message;

/// Why a call of a client came to nothing. Own type: each error of the crate tells a part of it.
#[derive(Clone, Copy, Debug, PartialEq, Eq)]
pub enum Refusal {
    /// A subject may not stand there.
    InvalidSubject,
    /// A queue group may not stand there.
    InvalidQueueName,
    /// The message is larger than the server takes.
    TooLarge {
        /// The most bytes that the server takes.
        limit: u64,
        /// The bytes of the message.
        size: u64,
    },
    /// The session is closed, or is to close.
    Closed,
    /// The last number or ticket was given.
    NoNumber,
    /// The client has one part alone.
    NoPart,
    /// As many calls wait as may.
    Full,
    /// A flush was not done before its link ended.
    FlushFailed,
    /// Nobody answers requests to the subject.
    NoResponders,
    /// The time of a request was over first.
    TimedOut,
    /// A request was dropped.
    Dropped,
    /// Want of memory.
    NoMemory,
}

/// What the reply of a call comes to: the number or the ticket that it gave, none where it gives none, or why it came
/// to nothing. The replies of tickets are no replies of calls: `flushed` and `asked` tell of these.
pub fn answer(reply: &CallReply) -> Result<Option<u64>, Refusal>
    ensures { result ≡ answer_of reply.now }
{
    match reply {
        CallReply::Accepted => Ok(None),
        CallReply::Numbered(number) => Ok(Some(*number)),
        CallReply::InvalidSubject => Err(Refusal::InvalidSubject),
        CallReply::InvalidQueueName => Err(Refusal::InvalidQueueName),
        CallReply::MaxPayloadExceeded { limit, size } => Err(Refusal::TooLarge {
            limit: *limit,
            size: *size,
        }),
        CallReply::Closed => Err(Refusal::Closed),
        CallReply::NoNumber => Err(Refusal::NoNumber),
        CallReply::Full => Err(Refusal::Full),
        CallReply::FlushFailed => Err(Refusal::FlushFailed),
        CallReply::NoResponders => Err(Refusal::NoResponders),
        CallReply::TimedOut => Err(Refusal::TimedOut),
        CallReply::Dropped | CallReply::Flushed | CallReply::Replied(_) => Err(Refusal::Dropped),
    }
}

/// What the reply by which a flush's ticket settled comes to: it is done, or it failed.
pub fn flushed(reply: &CallReply) -> Result<(), Refusal>
    ensures { result ≡ flushed_of reply.now }
{
    match reply {
        CallReply::Flushed => Ok(()),
        CallReply::Accepted
        | CallReply::Numbered(_)
        | CallReply::Replied(_)
        | CallReply::InvalidSubject
        | CallReply::InvalidQueueName
        | CallReply::MaxPayloadExceeded { .. }
        | CallReply::Closed
        | CallReply::NoNumber
        | CallReply::Full
        | CallReply::FlushFailed
        | CallReply::NoResponders
        | CallReply::TimedOut
        | CallReply::Dropped => Err(Refusal::FlushFailed),
    }
}

/// What the reply by which a request's ticket settled comes to: the message by which it was replied, or why there is
/// none.
pub fn asked(reply: CallReply) -> Result<Message, Refusal>
    ensures { result ≡ asked_of reply }
{
    match reply {
        CallReply::Replied(message) => Ok(message),
        CallReply::NoResponders => Err(Refusal::NoResponders),
        CallReply::TimedOut => Err(Refusal::TimedOut),
        CallReply::Accepted
        | CallReply::Numbered(_)
        | CallReply::Flushed
        | CallReply::InvalidSubject
        | CallReply::InvalidQueueName
        | CallReply::MaxPayloadExceeded { .. }
        | CallReply::Closed
        | CallReply::NoNumber
        | CallReply::Full
        | CallReply::FlushFailed
        | CallReply::Dropped => Err(Refusal::Dropped),
    }
}
