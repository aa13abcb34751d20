//! A message is published on a link: the publish, and then a flush, until the link took all of it.
ghost use Rattle.std.specs.Prelude.{◌≡◌, ◌++◌, ℕ, List, None, Some, IfOk};
ghost use Rattle.nats_live.specs.declared.error.LiveError.TheVariants as refused;
ghost use Rattle.nats_dial.specs.Lines.{Took};
ghost use Rattle.nats_core.specs.Calls.{parts_in};
ghost use Rattle.nats_live.specs.Flow.{Accepts, Flushes, FlushEnds, HasBegun, IsSettled, Publishes, publish_answer, ticket_of};

use crate::error::LiveError;
use crate::step::{play, write_some};
use bytes::Bytes;
use nats_core::{
    Call, CallReply, Core, LinkWrite, NoMemory, OutboundMessage, StepReply, Subject, Turn,
};
use nats_names::Cause;
use nats_system::{PublishError, PublishErrorKind};
use std::alloc::Global;
use std::sync::Wait;

// A message of this subject and payload, without a reply and without headers.
fn message_of(alloc: Global, subject: &str, payload: &[u8]) -> Result<OutboundMessage, NoMemory>
    ensures { IfOk result (λ m. m
        ≡ record { subject = subject.now; reply = None; payload = payload.now; headers = None }) }
{
    Ok(OutboundMessage {
        subject: Subject::from_text(alloc, subject)?,
        reply: None,
        payload: Bytes::copy_from_slice(alloc, payload)?,
        headers: None,
    })
}

// The refusal of a publish of this kind, by this cause.
fn refused_as(kind: PublishErrorKind, cause: Cause) -> LiveError
    ensures { result ≡ refused.Publish (kind, Some cause) }
{
    LiveError::Publish(PublishError::with_source(kind, cause))
}

// What the reply to a publish comes to, as a client tells it.
fn publish_answer(reply: StepReply) -> Result<(), LiveError>
    ensures { result ≡ publish_answer reply }
{
    match reply {
        StepReply::Call(CallReply::Accepted) => Ok(()),
        StepReply::Call(CallReply::InvalidSubject) => {
            Err(refused_as(PublishErrorKind::InvalidSubject, Cause::Format))
        }
        StepReply::Call(CallReply::MaxPayloadExceeded { limit, size }) => Err(refused_as(
            PublishErrorKind::MaxPayloadExceeded,
            Cause::Payload { limit, size },
        )),
        StepReply::Call(_) | StepReply::Done | StepReply::Take(_) => {
            Err(refused_as(PublishErrorKind::Send, Cause::Closed))
        }
    }
}

// The ticket of a flush that was accepted.
fn ticket_of(reply: StepReply) -> Result<u64, LiveError>
    ensures { result ≡ ticket_of reply }
{
    match reply {
        StepReply::Call(CallReply::Numbered(ticket)) => Ok(ticket),
        StepReply::Call(_) | StepReply::Done | StepReply::Take(_) => {
            Err(refused_as(PublishErrorKind::Send, Cause::Closed))
        }
    }
}

// Makes both calls, and answers the flush's ticket.
fn submit(alloc: Global, core: &mut Core, subject: &str, payload: &[u8]) -> Result<u64, LiveError>
    ensures { (most : ℕ) (joined : List ℕ) → HasBegun most joined core.old.session
        → Accepts most joined subject.now payload.now result core.old.session core.new.session }
{
    let message = message_of(alloc, subject, payload)?;
    let reply = play(alloc, core, Turn::Do(Call::Publish(message)))?;
    publish_answer(reply)?;
    let reply = play(alloc, core, Turn::Do(Call::Flush))?;
    ticket_of(reply)
}

// Whether a flush is settled, and how.
fn settled(core: &mut Core, ticket: u64) -> Option<Result<(), LiveError>>
    ensures { IsSettled ticket core.old result core.new }
{
    match core.reply_of(ticket) {
        Some(CallReply::Flushed) => Some(Ok(())),
        Some(_) => Some(Err(LiveError::LinkEnded)),
        None if !core.handler().is_up() => Some(Err(LiveError::LinkEnded)),
        None => None,
    }
}

// Writes until the flush is settled.
fn flush<R: Wait, T: LinkWrite>(
    rt: &R,
    alloc: Global,
    core: &mut Core,
    ticket: u64,
    write: &mut T,
) -> Result<(), LiveError>
    ensures { (text took head : List ℕ) → ticket ≡ 1 → Flushes text took core.old.session
        → Took (head ++ took) (T.write_told write.old)
        → FlushEnds (parts_in core.old).link.is_up (head ++ text) result (T.write_told write.new) }
{
    'writes: for _ in rt.forever() {
        match settled(core, ticket) {
            Some(end) => return end,
            None => {
                write_some(alloc, core, write)?;
            }
        }
    }
    unreachable!()
}

// Publishes a message on a session that has begun, and waits until the link took all of its text.
pub(crate) fn publish_on<R: Wait, T: LinkWrite>(
    rt: &R,
    alloc: Global,
    core: &mut Core,
    subject: &str,
    payload: &[u8],
    write: &mut T,
) -> Result<(), LiveError>
    ensures { (most : ℕ) (joined head : List ℕ) → HasBegun most joined core.old.session
        → Took head (T.write_told write.old)
        → Publishes most joined head subject.now payload.now result core.old.session (T.write_told write.new) }
{
    let ticket = submit(alloc, core, subject, payload)?;
    flush(rt, alloc, core, ticket, write)
}
