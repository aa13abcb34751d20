//! What a user asks of a session, and what it answers.
ghost use Rattle.std.specs.Prelude.{◌≡◌, IfOk};

use nats_wire::{
    Bytes, HeaderMap, Message, NoMemory, OutboundMessage, Subject, Token, copy_headers,
    copy_subject,
};
use std::alloc::Global;

/// What a user asks of a session.
#[derive(Debug, Drop, PartialEq, Eq)]
pub enum Call {
    /// A message for the subscribers of its subject.
    Publish(OutboundMessage),
    /// A subscription to `subject`, shared with the others of the queue group where one is given.
    Subscribe {
        subject: Subject,
        queue_group: Option<Subject>,
    },
    /// No further messages for the subscription of this number: it is shut as soon as the call is accepted, and
    /// those that wait can still be taken.
    Unsubscribe(u64),
    /// The subscription of this number ends once so many messages were put into its queue in all, those before the call
    /// counted.
    Limit(u64, u64),
    /// The subscription of this number is drained: the server is asked for no further messages of it, those that it
    /// sent are still put into its queue, and then it ends; it ends also where its link does.
    Drain(u64),
    /// All subscriptions are drained, then the link ends and the session closes. Later calls are refused.
    DrainAll,
    /// A ticket that is settled once the link took all bytes that wait when the call is handled.
    Flush,
    /// A message for those that answer requests to its subject. Its ticket is settled by the reply that comes under the
    /// `token`, by its deadline, or by a later request under the same token.
    Request {
        subject: Subject,
        payload: Bytes,
        headers: Option<HeaderMap>,
        token: Token,
    },
    /// The user lets the subscription of this number go, whatever the reply: its waiting messages go, and no later
    /// call may name it.
    DropSub(u64),
    /// The link is to end once the calls before this one are handled, so that another is tried.
    Reconnect,
}

/// What a subscription asks for.
#[derive(Debug, Drop, PartialEq, Eq)]
pub struct Interest {
    /// Which messages.
    pub subject: Subject,
    /// The group whose members share them, where one was given.
    pub queue_group: Option<Subject>,
}

/// The answer to a call.
#[derive(Debug, Drop, PartialEq, Eq)]
pub enum CallReply {
    /// The call was accepted.
    Accepted,
    /// The call was accepted, and this is the number or the ticket that it gave, from 1.
    Numbered(u64),
    /// A flush is done: the link took all bytes that waited when it was handled.
    Flushed,
    /// The message by which a request was replied.
    Replied(Message),
    /// A subject or a reply may not be published to, or a subject may not be subscribed to; or a request's inbox
    /// prefix may not be published to.
    InvalidSubject,
    /// A queue group has no letter, or a space, a tab, a CR or an LF.
    InvalidQueueName,
    /// The payload with its header block is larger than the server takes; both in bytes.
    MaxPayloadExceeded { limit: u64, size: u64 },
    /// The session closed, or is to close: a drain of the whole session was accepted.
    Closed,
    /// The number or the ticket 2^64 - 1 was given, and none follows it.
    NoNumber,
    /// As many accepted calls wait as the client capacity.
    Full,
    /// A flush was not done before its link ended or the session closed.
    FlushFailed,
    /// Nobody answers requests to the subject: the reply has the status 503.
    NoResponders,
    /// The deadline of a request came before its reply.
    TimedOut,
    /// A request waits no more, as a later one under its token was handled or the session closed.
    Dropped,
}

/// The answer to a take.
#[derive(Debug, Drop, PartialEq, Eq)]
pub enum TakeReply {
    /// The oldest waiting message of the subscription.
    Message(Message),
    /// None waits, and some may still come.
    Empty,
    /// None waits, and none will come: the subscription is shut or ended.
    Ended,
}

impl Call {
    /// An equal call, which shares its bytes.
    pub fn copy(&self, alloc: Global) -> Result<Call, NoMemory>
        ensures { IfOk result (λ c. c ≡ self.now) }
    {
        match self {
            Call::Publish(message) => Ok(Call::Publish(message.copy(alloc)?)),
            Call::Subscribe {
                subject,
                queue_group,
            } => Ok(Call::Subscribe {
                subject: subject.copy(alloc)?,
                queue_group: copy_subject(alloc, queue_group)?,
            }),
            Call::Unsubscribe(s) => Ok(Call::Unsubscribe(*s)),
            Call::Limit(s, n) => Ok(Call::Limit(*s, *n)),
            Call::Drain(s) => Ok(Call::Drain(*s)),
            Call::DrainAll => Ok(Call::DrainAll),
            Call::Flush => Ok(Call::Flush),
            Call::Request {
                subject,
                payload,
                headers,
                token,
            } => Ok(Call::Request {
                subject: subject.copy(alloc)?,
                payload: payload.clone()?,
                headers: copy_headers(alloc, headers)?,
                token: token.copy(),
            }),
            Call::DropSub(s) => Ok(Call::DropSub(*s)),
            Call::Reconnect => Ok(Call::Reconnect),
        }
    }
}

impl Interest {
    /// An equal interest, which shares its bytes.
    pub fn copy(&self, alloc: Global) -> Result<Interest, NoMemory>
        ensures { IfOk result (λ i. i ≡ self.now) }
    {
        Ok(Interest {
            subject: self.subject.copy(alloc)?,
            queue_group: copy_subject(alloc, &self.queue_group)?,
        })
    }
}

impl CallReply {
    /// An equal reply.
    pub fn copy(&self, alloc: Global) -> Result<CallReply, NoMemory>
        ensures { IfOk result (λ r. r ≡ self.now) }
    {
        match self {
            CallReply::Accepted => Ok(CallReply::Accepted),
            CallReply::Numbered(number) => Ok(CallReply::Numbered(*number)),
            CallReply::Flushed => Ok(CallReply::Flushed),
            CallReply::Replied(message) => Ok(CallReply::Replied(message.copy(alloc)?)),
            CallReply::FlushFailed => Ok(CallReply::FlushFailed),
            CallReply::NoResponders => Ok(CallReply::NoResponders),
            CallReply::TimedOut => Ok(CallReply::TimedOut),
            CallReply::Dropped => Ok(CallReply::Dropped),
            CallReply::InvalidSubject => Ok(CallReply::InvalidSubject),
            CallReply::InvalidQueueName => Ok(CallReply::InvalidQueueName),
            CallReply::MaxPayloadExceeded { limit, size } => Ok(CallReply::MaxPayloadExceeded {
                limit: *limit,
                size: *size,
            }),
            CallReply::Closed => Ok(CallReply::Closed),
            CallReply::NoNumber => Ok(CallReply::NoNumber),
            CallReply::Full => Ok(CallReply::Full),
        }
    }
}

impl TakeReply {
    /// An equal reply, which shares its bytes.
    pub fn copy(&self, alloc: Global) -> Result<TakeReply, NoMemory>
        ensures { IfOk result (λ r. r ≡ self.now) }
    {
        match self {
            TakeReply::Message(message) => Ok(TakeReply::Message(message.copy(alloc)?)),
            TakeReply::Empty => Ok(TakeReply::Empty),
            TakeReply::Ended => Ok(TakeReply::Ended),
        }
    }
}
