//! The publishes of one worker.
ghost use Rattle.std.specs.Prelude.{◌≡◌, suc, IfOk, OnOk};
ghost use Rattle.nats_history.specs.declared.turn.Turn.TheVariants as turns;
ghost use Rattle.nats_seat_workers.specs.Publishing as words;

use crate::error::{WorkError, refusal_by};
use nats_core::{Bytes, Call, CallReply, NoMemory, OutboundMessage, StepReply, Subject};
use nats_seats::{PlayError, Receipt, Seated};
use std::alloc::Global;
use std::sync::Wait;

/// The publish `k` of a worker: the decimal text of `k` on the subject `t.` with the worker's number.
fn publish_call(alloc: Global, worker: u64, k: u64) -> Result<Call, NoMemory>
    ensures { IfOk result (λ call. turns.Do call ≡ words.publish_of worker k) }
{
    let subject = format!(in alloc; "t.{worker}")?;
    let payload = format!(in alloc; "{k}")?;
    Ok(Call::Publish(OutboundMessage {
        subject: Subject::from_text(alloc, subject.as_str())?,
        reply: None,
        payload: Bytes::copy_from_slice(alloc, payload.as_bytes())?,
        headers: None,
    }))
}

fn is_acceptance(reply: &CallReply) -> bool
    ensures { result ≡ words.is_acceptance reply.now }
{
    matches!(reply, CallReply::Accepted)
}

/// Whether a reply is that the call was accepted, with no number.
pub(crate) fn is_accepted(reply: &StepReply) -> bool
    ensures { result ≡ words.is_accepted reply.now }
{
    match reply {
        StepReply::Call(reply) => is_acceptance(reply),
        _ => false,
    }
}

/// That a call was accepted, or what stood against it.
fn accepted(played: &Result<Receipt, PlayError>) -> Result<(), WorkError>
    ensures { OnOk result (words.WasAccepted played.now) }
{
    match played {
        Ok(receipt) => {
            if is_accepted(&receipt.reply) {
                Ok(())
            } else {
                Err(WorkError::Refused)
            }
        }
        Err(error) => Err(refusal_by(error)),
    }
}

/// Makes one publish, which is to be accepted.
fn publish<R: Wait>(
    rt: &R,
    alloc: Global,
    seat: &mut Seated,
    worker: u64,
    k: u64,
) -> Result<(), WorkError>
    ensures { OnOk result (words.Accepts seat.old seat.new (words.publish_of worker k)) }
{
    let call = publish_call(alloc, worker, k)?;
    let played = seat.submit(rt, alloc, call);
    let told = accepted(&played);
    drop(played);
    told
}

/// Makes a worker's publishes from 1 to `count` with its seat, each of which is to be accepted.
pub(crate) fn publish_all<R: Wait>(
    rt: &R,
    alloc: Global,
    mut seat: Seated,
    worker: u64,
    count: u64,
) -> Result<Seated, WorkError>
    requires { words.IsFresh seat (suc worker) }
    ensures { IfOk result (λ done. words.HasWorked worker count seat done) }
{
    let mut done = 0;
    'publishes: while done < count {
        done += 1;
        publish(rt, alloc, &mut seat, worker, done)?;
    }
    Ok(seat)
}
