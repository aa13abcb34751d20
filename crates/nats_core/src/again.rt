//! Replies a second time, for a journal. What that takes memory for is copied before the turn is played.
ghost use Rattle.std.specs.Prelude.{◌≡◌, IfOk};
ghost use Rattle.std.specs.Option.{option_copied};
ghost use Rattle.nats_core.specs.Replies.{IsPlain, IsPlainReply, message_of, taken_message, waiting_for};

use crate::entry::StepReply;
use nats_session::{CallReply, ConnectionHandler, Message, NoMemory, TakeReply, Turn};
use std::alloc::Global;

/// The reply of a call again. It takes no memory: the reply of a call holds no message.
pub(crate) fn call_again(reply: &CallReply) -> CallReply
    requires { IsPlain reply.now }
    ensures { result ≡ reply.now }
{
    match reply {
        CallReply::Accepted => CallReply::Accepted,
        CallReply::Numbered(number) => CallReply::Numbered(*number),
        CallReply::Flushed => CallReply::Flushed,
        CallReply::Replied(_) => unreachable!(),
        CallReply::InvalidSubject => CallReply::InvalidSubject,
        CallReply::InvalidQueueName => CallReply::InvalidQueueName,
        CallReply::MaxPayloadExceeded { limit, size } => CallReply::MaxPayloadExceeded {
            limit: *limit,
            size: *size,
        },
        CallReply::Closed => CallReply::Closed,
        CallReply::NoNumber => CallReply::NoNumber,
        CallReply::Full => CallReply::Full,
        CallReply::FlushFailed => CallReply::FlushFailed,
        CallReply::NoResponders => CallReply::NoResponders,
        CallReply::TimedOut => CallReply::TimedOut,
        CallReply::Dropped => CallReply::Dropped,
    }
}

/// The reply of a take again, with a copy of the message that was taken, if one was.
fn take_again(reply: &TakeReply, message: Option<Message>) -> TakeReply
    requires { message ≡ taken_message reply.now }
    ensures { result ≡ reply.now }
{
    match reply {
        TakeReply::Message(_) => match message {
            Some(message) => TakeReply::Message(message),
            None => unreachable!(),
        },
        TakeReply::Empty => TakeReply::Empty,
        TakeReply::Ended => TakeReply::Ended,
    }
}

/// The reply of a turn again, for a journal of one's own, with a copy of the message that was taken, if one was. It
/// takes no memory: `message_for` took it before the turn was played. Own call.
pub fn reply_again(reply: &StepReply, message: Option<Message>) -> StepReply
    requires plain { IsPlainReply reply.now }
    requires message { message ≡ message_of reply.now }
    ensures { result ≡ reply.now }
{
    match reply {
        StepReply::Done => StepReply::Done,
        StepReply::Call(reply) => StepReply::Call(call_again(reply)),
        StepReply::Take(reply) => StepReply::Take(take_again(reply, message)),
    }
}

/// A copy of a message, if there is one.
fn copied(alloc: Global, message: Option<&Message>) -> Result<Option<Message>, NoMemory>
    ensures { IfOk result (λ m. m ≡ option_copied message.entry) }
{
    match message {
        Some(message) => Ok(Some(message.copy(alloc)?)),
        None => Ok(None),
    }
}

/// A copy of the message that a turn is to take next, if it is a take and one waits for it. It takes no memory where
/// there is no such message. Own call.
pub fn message_for(
    alloc: Global,
    handler: &ConnectionHandler,
    turn: &Turn,
) -> Result<Option<Message>, NoMemory>
    ensures { IfOk result (λ m. m ≡ waiting_for handler.now.parts turn.now) }
{
    match turn {
        Turn::Take(sid) => copied(alloc, handler.first_waiting(*sid)),
        Turn::Up(_)
        | Turn::Piece(_)
        | Turn::Write(_)
        | Turn::Tick
        | Turn::Lost
        | Turn::GiveUp
        | Turn::Hangup
        | Turn::Do(_)
        | Turn::Deadline(_) => Ok(None),
    }
}
