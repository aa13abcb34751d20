//! A worker: a member of the queue group `workers` that does the jobs of `jobs.*` and answers each. Once it is told to
//! stop it drains its subscription, so that the jobs on their way are still done and answered, and then its client. It
//! runs over memory alone: standard input is what the server sends, and what the client sends is printed behind `>`.
//! The line `STOP` stands for the signal to stop.
#![tactic(auto)]

ghost use Rattle.std.specs.Prelude.{◌≡◌, ◌^◌, false};

use anyhow::{Result, anyhow};
use memchr::memmem;
use nats_client::{ALL_PARTS, Bytes, Client, Message, Subject, Subscriber, TakeReply, Tallies};
use std::alloc::Global;
use std::io::Read;
use std::marker::Brand;
use std::sync::Wait;
use std::sync::ledger::Blank;

/// What stands for the signal to stop.
const STOP: &[u8] = b"STOP\r\n";

/// What the server answers to the PING of a drain.
const PONG: &[u8] = b"PONG\r\n";

/// Answers a job where it names a subject for the reply.
fn answer<G: Tallies, R: Wait>(
    rt: &R,
    alloc: Global,
    client: &mut Client<G>,
    job: &Message,
) -> Result<()> {
    if let Some(reply) = &job.reply {
        client.publish(rt, alloc, reply.copy(alloc)?, Bytes::from_static(b"done"))?;
    }
    Ok(())
}

/// Does the jobs that wait.
fn work<G: Tallies, R: Wait>(
    rt: &R,
    alloc: Global,
    client: &mut Client<G>,
    jobs: &mut Subscriber<G>,
) -> Result<()> {
    for _ in rt.forever() {
        match jobs.poll_next(rt, alloc)? {
            TakeReply::Message(job) => answer(rt, alloc, client, &job)?,
            TakeReply::Empty | TakeReply::Ended => break,
        }
    }
    Ok(())
}

/// Works until it is told to stop, does the last jobs, and closes.
fn serve<G: Tallies, R: Wait + Print>(
    rt: &R,
    alloc: Global,
    client: &mut Client<G>,
    before: &[u8],
    behind: &[u8],
) -> Result<()> {
    let group = Subject::from_static("workers");
    let mut jobs = client.queue_subscribe(rt, alloc, "jobs.*", group)?;
    example_link::gives(rt, alloc, client, before)?;
    work(rt, alloc, client, &mut jobs)?;
    jobs.drain(rt, alloc)?;
    example_link::takes(rt, alloc, client)?;
    example_link::gives(rt, alloc, client, behind)?;
    work(rt, alloc, client, &mut jobs)?;
    client.drain(rt, alloc)?;
    example_link::takes(rt, alloc, client)?;
    example_link::gives(rt, alloc, client, PONG)
}

/// Serves as a client of its own, and prints whether it is closed.
fn run<G: Tallies, R: Wait + Print>(rt: &R, alloc: Global, blank: Blank, sent: &[u8]) -> Result<()>
    requires name { blank.name ≡ G.name }
    requires parts { blank.parts ≡ G.parts }
    requires all { blank.parts ≡ 2 ^ 63 }
    requires kept { G.is_kept ≡ false }
{
    let stop = memmem::find(sent, STOP).ok_or(anyhow!("no signal to stop"))?;
    let mut client: Client<G> = example_link::client(rt, alloc, blank)?;
    serve(
        rt,
        alloc,
        &mut client,
        &sent[..stop],
        &sent[stop + STOP.len()..],
    )?;
    println!(rt; "closed: {}", client.hub().is_closed(rt))?;
    Ok(())
}

fn main(rt: HostRuntime) -> Result<()> {
    let alloc = rt.alloc();
    let mut sent = Vec::new(alloc);
    rt.stdin().read_to_end(&mut sent)?;
    run::<Brand, HostRuntime>(&rt, alloc, Blank::new(ALL_PARTS), sent.as_slice())
}
