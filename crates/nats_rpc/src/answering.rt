//! What answering a message takes: opening a subscription, taking a message, asking for its answer, publishing that.
ghost use Rattle.std.specs.Prelude.{◌≡◌, IfOk, Some, None, Ok, Err, true};
ghost use Rattle.nats_rpc.specs.Serving.{Subscribes, Takes, Asks, MayTakeIn, publish_of, served_by, is_done, Publishes};

use nats_core::{
    Bytes, Call, CallReply, Core, Message, NoMemory, OutboundMessage, StepError, StepReply,
    Subject, TakeReply, Turn,
};
use nats_names::Seq;
use std::alloc::Global;

/// Why a service was not opened.
#[derive(Debug, Drop, PartialEq, Eq)]
pub enum OpenError {
    /// The subscribe was refused by this reply.
    Refused(CallReply),
    /// Want of memory.
    NoMemory,
}

/// What one message came to.
#[derive(Debug, Drop, PartialEq, Eq)]
pub enum Served {
    /// An answer was published, and the publish was accepted.
    Answered,
    /// The message that was taken asks for no reply.
    NoReply,
    /// No message waits, and some may still come.
    Empty,
    /// No message waits, and none will come.
    Ended,
    /// The publish of an answer was refused by this reply. Where the client is full the answer is kept, else it is
    /// given up.
    Refused(CallReply),
}

/// An answer that is not published yet, and where it is to go.
#[derive(Debug, Drop, PartialEq, Eq)]
pub struct Kept {
    pub reply: Subject,
    pub answer: Seq<u8>,
}

/// What a message that was taken comes to before anything is published.
#[derive(Drop)]
pub enum Asking {
    /// This answer is to be published.
    Kept(Kept),
    /// Nothing is, and this is told.
    Told(Served),
}

/// Submits the subscribe of a service.
pub fn subscribe(
    alloc: Global,
    core: &mut Core,
    subject: Subject,
    group: Option<Subject>,
) -> Result<u64, OpenError>
    ensures { Subscribes subject group core.old result core.new }
{
    let call = Call::Subscribe {
        subject,
        queue_group: group,
    };
    match core.submit(alloc, call) {
        Ok(CallReply::Numbered(number)) => Ok(number),
        Ok(reply) => Err(OpenError::Refused(reply)),
        Err(_) => Err(OpenError::NoMemory),
    }
}

/// Takes the oldest message of a subscription, if one waits; one that was let go has ended.
fn take(alloc: Global, core: &mut Core, number: u64) -> Result<TakeReply, NoMemory>
    ensures { Takes number core.old result core.new }
{
    match core.step(alloc, Turn::Take(number)) {
        Ok(StepReply::Take(reply)) => Ok(reply),
        Ok(StepReply::Done | StepReply::Call(_)) => unreachable!(),
        Err(StepError::OutOfTurn | StepError::LinkGone { .. }) => Ok(TakeReply::Ended),
        Err(StepError::NoMemory) => Err(NoMemory),
    }
}

/// Where the answer to a message is to go.
fn reply_of(message: Message) -> Option<Subject>
    ensures { result ≡ message.reply }
{
    message.reply
}

/// Asks a function for the answer to a message, where that has a reply.
fn ask<F: FnMut(&Message) -> Vec<u8>>(answer: &mut F, message: Message) -> Option<Kept>
    requires { F.IsAlwaysCallable answer.old }
    ensures callable { F.IsAlwaysCallable answer.new }
    ensures asks { Asks F.FnMut (λ v. v.items) message answer.old result answer.new }
{
    if message.reply.is_none() {
        return None;
    }
    let answer = Seq::from_vec(answer(&message));
    match reply_of(message) {
        Some(reply) => Some(Kept { reply, answer }),
        None => None,
    }
}

/// Takes the oldest message of a subscription, and asks for its answer.
pub fn take_in<F: FnMut(&Message) -> Vec<u8>>(
    alloc: Global,
    core: &mut Core,
    number: u64,
    answer: &mut F,
) -> Result<Asking, NoMemory>
    requires { F.IsAlwaysCallable answer.old }
    ensures callable { F.IsAlwaysCallable answer.new }
    ensures takes { MayTakeIn F.FnMut (λ v. v.items) number core.old answer.old result core.new answer.new }
{
    match take(alloc, core, number)? {
        TakeReply::Message(message) => match ask(answer, message) {
            Some(kept) => Ok(Asking::Kept(kept)),
            None => Ok(Asking::Told(Served::NoReply)),
        },
        TakeReply::Empty => Ok(Asking::Told(Served::Empty)),
        TakeReply::Ended => Ok(Asking::Told(Served::Ended)),
    }
}

/// The publish of an answer.
fn publish_of(alloc: Global, kept: &Kept) -> Result<Call, NoMemory>
    ensures { IfOk result (λ call. call ≡ publish_of kept.now) }
{
    let payload = Bytes::copy_from_slice(alloc, kept.answer.as_slice())?;
    let subject = kept.reply.copy(alloc)?;
    Ok(Call::Publish(OutboundMessage {
        subject,
        reply: None,
        payload,
        headers: None,
    }))
}

/// What is told of the reply of a publish, and whether its answer is done with.
fn served_by(reply: CallReply) -> (Served, bool)
    ensures served { result.0 ≡ served_by reply }
    ensures done { result.1 ≡ is_done reply }
{
    match reply {
        CallReply::Accepted => (Served::Answered, true),
        CallReply::Full => (Served::Refused(CallReply::Full), false),
        other => (Served::Refused(other), true),
    }
}

/// Submits the publish of an answer: what is told of its reply, and whether the answer is done with.
pub fn publish(alloc: Global, core: &mut Core, kept: &Kept) -> Result<(Served, bool), NoMemory>
    ensures { Publishes kept.now core.old result core.new }
{
    let call = publish_of(alloc, kept)?;
    match core.submit(alloc, call) {
        Ok(reply) => Ok(served_by(reply)),
        Err(_) => Err(NoMemory),
    }
}
