//! What a poll of a call comes to.
ghost use Rattle.std.specs.Prelude.{◌≡◌, IfOk, OnErr, true};
ghost use Rattle.nats_rpc.specs.Calls.{outcome_of, takes_memory};

use nats_core::{CallReply, Message, NoMemory};
use std::alloc::Global;

/// What a poll of a call comes to.
#[derive(Debug, Drop, PartialEq, Eq)]
pub enum Outcome {
    /// The call is not settled: an attempt of it waits for its reply, or its request met a full client.
    Waiting,
    /// The message that replied to an attempt.
    Replied(Message),
    /// Nobody answers requests to the subject.
    NoResponders,
    /// No attempt was replied to in time, and none is left.
    TimedOut,
    /// A request was refused by this reply; or it was dropped, as its session closed.
    Refused(CallReply),
}

impl Outcome {
    /// An equal outcome, which shares its bytes.
    ///
    /// # Errors
    ///
    /// `NoMemory`, only for an outcome that holds a message or a reply.
    pub fn copy(&self, alloc: Global) -> Result<Outcome, NoMemory>
        ensures ok { IfOk result (λ o. o ≡ self.now) }
        ensures wants { OnErr result (takes_memory self.now ≡ true) }
    {
        match self {
            Outcome::Waiting => Ok(Outcome::Waiting),
            Outcome::Replied(message) => Ok(Outcome::Replied(message.copy(alloc)?)),
            Outcome::NoResponders => Ok(Outcome::NoResponders),
            Outcome::TimedOut => Ok(Outcome::TimedOut),
            Outcome::Refused(reply) => Ok(Outcome::Refused(reply.copy(alloc)?)),
        }
    }

    /// What a call comes to by the reply of an attempt's ticket.
    pub(crate) fn of_reply(reply: CallReply) -> Outcome
        ensures { result ≡ outcome_of reply }
    {
        match reply {
            CallReply::Replied(message) => Outcome::Replied(message),
            CallReply::NoResponders => Outcome::NoResponders,
            other => Outcome::Refused(other),
        }
    }
}
