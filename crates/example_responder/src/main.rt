//! A responder: a member of the queue group `clocks` that answers each request on `time.now`, with the time zone in a
//! header. It ends after three requests. It runs over memory alone: standard input is what the server sends, and what
//! the client sends is printed behind `>`. A client that connects to a server makes the same calls.
#![tactic(auto)]

ghost use Rattle.std.specs.Prelude.{◌≡◌, ◌^◌, false};

use anyhow::Result;
use nats_client::{ALL_PARTS, Bytes, Client, Message, Subject, Subscriber, Tallies};
use nats_header::HeaderMap;
use std::alloc::Global;
use std::io::Read;
use std::marker::Brand;
use std::sync::Wait;
use std::sync::ledger::Blank;

/// How many requests come before it ends.
const COUNT: u64 = 3;

/// Answers a request where it names a subject for the reply.
fn answer<G: Tallies, R: Wait>(
    rt: &R,
    alloc: Global,
    client: &mut Client<G>,
    request: &Message,
) -> Result<()> {
    let Some(reply) = &request.reply else {
        return Ok(());
    };
    let to = reply.copy(alloc)?;
    let mut headers = HeaderMap::new(alloc);
    headers.insert(alloc, "Zone", "UTC")?;
    client.publish_with_headers(rt, alloc, to, headers, Bytes::from_static(b"10:07"))?;
    Ok(())
}

/// Answers each request, until none will come.
fn serve<G: Tallies, R: Wait>(
    rt: &R,
    alloc: Global,
    client: &mut Client<G>,
    requests: &mut Subscriber<G>,
) -> Result<()> {
    for _ in rt.forever() {
        match requests.next(rt, alloc)? {
            Some(request) => answer(rt, alloc, client, &request)?,
            None => break,
        }
    }
    Ok(())
}

/// Subscribes, hears what the server sends, and serves.
fn run<G: Tallies, R: Wait + Print>(rt: &R, alloc: Global, blank: Blank, sent: &[u8]) -> Result<()>
    requires name { blank.name ≡ G.name }
    requires parts { blank.parts ≡ G.parts }
    requires all { blank.parts ≡ 2 ^ 63 }
    requires kept { G.is_kept ≡ false }
{
    let mut client: Client<G> = example_link::client(rt, alloc, blank)?;
    let group = Subject::from_static("clocks");
    let mut requests = client.queue_subscribe(rt, alloc, "time.now", group)?;
    requests.unsubscribe_after(rt, alloc, COUNT)?;
    example_link::takes(rt, alloc, &client)?;
    example_link::gives(rt, alloc, &client, sent)?;
    serve(rt, alloc, &mut client, &mut requests)?;
    example_link::takes(rt, alloc, &client)
}

fn main(rt: HostRuntime) -> Result<()> {
    let alloc = rt.alloc();
    let mut sent = Vec::new(alloc);
    rt.stdin().read_to_end(&mut sent)?;
    run::<Brand, HostRuntime>(&rt, alloc, Blank::new(ALL_PARTS), sent.as_slice())
}
