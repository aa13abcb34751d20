//! The publishes of one worker.
ghost use Rattle.std.specs.Prelude.{◌≡◌, IfOk};
ghost use Rattle.nats_thread_text.specs.Report as words;

use nats_client::{Bytes, Client, NoMemory, OutboundMessage, PublishErrorKind, Subject, Tallies};
use std::alloc::Global;
use std::sync::Wait;

/// A worker: its number, its client, and whether memory was wanting to it.
#[derive(Drop)]
pub(crate) struct Worker<G: Tallies> {
    pub(crate) number: u64,
    pub(crate) client: Client<G>,
    pub(crate) is_short: bool,
}

/// The publish `k` of a worker: the decimal text of `k` on the subject `t.` with the worker's number.
fn message_of(alloc: Global, worker: u64, k: u64) -> Result<OutboundMessage, NoMemory>
    ensures { IfOk result (λ message. message ≡ words.message_of worker k) }
{
    let subject = format!(in alloc; "t.{worker}")?;
    let payload = format!(in alloc; "{k}")?;
    Ok(OutboundMessage {
        subject: Subject::from_text(alloc, subject.as_str())?,
        reply: None,
        payload: Bytes::copy_from_slice(alloc, payload.as_bytes())?,
        headers: None,
    })
}

/// Makes one publish; a refusal is passed over.
fn publish<G: Tallies, R: Wait>(
    rt: &R,
    alloc: Global,
    client: &mut Client<G>,
    worker: u64,
    k: u64,
) -> Result<(), NoMemory>
    ensures { client.new.parts ≡ client.old.parts }
{
    let message = message_of(alloc, worker, k)?;
    match client.try_publish(rt, alloc, message) {
        Ok(()) => Ok(()),
        Err(error) => match error.kind() {
            PublishErrorKind::NoMemory => Err(NoMemory),
            _ => Ok(()),
        },
    }
}

/// Makes a worker's publishes from 1 to `count`.
fn publish_all<G: Tallies, R: Wait>(
    rt: &R,
    alloc: Global,
    client: &mut Client<G>,
    worker: u64,
    count: u64,
) -> Result<(), NoMemory>
    ensures { client.new.parts ≡ client.old.parts }
{
    for done in 0..count {
        publish(rt, alloc, client, worker, done + 1)?;
    }
    Ok(())
}

/// Lets a worker make its publishes, and gives it back with all that its client had.
pub(crate) fn work<G: Tallies, R: Wait>(
    rt: &R,
    alloc: Global,
    mut worker: Worker<G>,
    count: u64,
) -> Worker<G>
    ensures { result.client.parts ≡ worker.client.parts }
{
    let done = publish_all(rt, alloc, &mut worker.client, worker.number, count);
    worker.is_short = done.is_err();
    worker
}
