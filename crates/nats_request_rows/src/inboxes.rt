//! Requests that ask for replies at an inbox of their caller's.
ghost use Rattle.std.specs.Prelude.{◌≡◌, ◌^◌, true};

use crate::ask::{self, Way};
use crate::peer::{Peer, Plan};
use crate::{hand, replies};
use anyhow::{Result, anyhow};
use nats_client::{Client, Request, Tallies};
use std::alloc::Global;
use std::sync::Wait;
use std::sync::ledger::Blank;
use std::thread::Threads;

/// The most bytes of a message.
const LIMIT: u64 = 32;

/// How many milliseconds a request of its own time waits.
const OWN_TIME: u64 = 5;

/// Asks as a request says, by a clock that soon gives that the time is over, and prints what came of it.
fn asks<G: Tallies, R: Wait + Print>(
    rt: &R,
    alloc: Global,
    client: &mut Client<G>,
    subject: &'static str,
    request: Request,
    name: &str,
) -> Result<()>
    requires { G.parts ≡ 2 ^ 63 }
{
    let mut clock = hand::ending(alloc, OWN_TIME)?;
    let told = ask::as_said(rt, alloc, client, subject, request, &mut clock)?;
    let text = hand::takes(rt, alloc, client.hub())?;
    let shown = hand::shown(alloc, text.as_str())?;
    Ok(println!(rt; "{name}:{} => {}", shown.as_str(), told.as_str())?)
}

/// A request whose own time is over.
fn timed(alloc: Global) -> Result<Request> {
    Ok(ask::at(alloc, "hi", "my.box")?.timeout(Some(OWN_TIME)))
}

/// Requests whose own time is over, with an inbox and without, with a body and headers and without.
fn late<G: Tallies, R: Wait + Print>(rt: &R, alloc: Global, client: &mut Client<G>) -> Result<()>
    requires { G.parts ≡ 2 ^ 63 }
{
    asks(rt, alloc, client, "svc", timed(alloc)?, "too late")?;
    let request = timed(alloc)?.headers(ask::headers(alloc, "v")?);
    asks(rt, alloc, client, "svc", request, "with headers")?;
    let request = Request::new().timeout(Some(OWN_TIME));
    asks(rt, alloc, client, "svc", request, "without an inbox")
}

/// Requests that are refused before their inbox is subscribed to, and inboxes that may not be.
fn refused<G: Tallies, R: Wait + Print>(rt: &R, alloc: Global, client: &mut Client<G>) -> Result<()>
    requires { G.parts ≡ 2 ^ 63 }
{
    let request = ask::at(alloc, "hi", "my.box")?;
    asks(rt, alloc, client, "a b", request, "bad subject")?;
    let request = ask::at(alloc, "123456789012345678901234567890123", "my.box")?;
    asks(rt, alloc, client, "svc", request, "too large")?;
    let request = ask::at(alloc, "123456789012345678901234567890123", "my box")?;
    asks(
        rt,
        alloc,
        client,
        "svc",
        request,
        "too large, at a bad inbox",
    )?;
    for inbox in ["", "my box", "my..box", ".my.box", "my.box."] {
        asks(
            rt,
            alloc,
            client,
            "svc",
            ask::at(alloc, "hi", inbox)?,
            "bad inbox",
        )?;
    }
    Ok(())
}

/// Asks at an inbox, and without one, by a client that has one part alone.
fn asks_alone<G: Tallies, R: Wait + Print>(
    rt: &R,
    alloc: Global,
    client: &mut Client<G>,
) -> Result<()>
    requires { G.parts ≡ 2 ^ 63 }
{
    asks(rt, alloc, client, "svc", timed(alloc)?, "one part")?;
    let request = Request::new().timeout(Some(OWN_TIME));
    asks(
        rt,
        alloc,
        client,
        "svc",
        request,
        "one part, without an inbox",
    )
}

/// The fourth of four clones, each of the one before, has one part alone: it asks.
fn alone<G: Tallies, R: Wait + Print>(rt: &R, alloc: Global, client: &mut Client<G>) -> Result<()>
    requires { G.parts ≡ 2 ^ 63 }
{
    let mut last = client.clone()?;
    for _ in 0..3u64 {
        let next = last.clone()?;
        client.settle(last);
        last = next;
    }
    let done = asks_alone(rt, alloc, &mut last);
    client.settle(last);
    done
}

/// Requests that the peer hears.
fn heard<G: Tallies + Send + Sync, R: Threads + Wait + Print + Sync>(
    rt: &R,
    alloc: Global,
    client: &mut Client<G>,
    peer: &mut Peer,
) -> Result<()>
    requires { G.parts ≡ 2 ^ 63 }
{
    let row = ("at an inbox", Way::Inbox("a", "my.box"), Plan::Reply);
    ask::play(rt, alloc, client, peer, row)?;
    let row = ("at the same inbox", Way::Inbox("b", "my.box"), Plan::Twice);
    ask::play(rt, alloc, client, peer, row)?;
    let row = ("with headers", Way::Inbox("c", "my.box"), Plan::Headers);
    ask::play(rt, alloc, client, peer, row)?;
    let row = ("nobody answers", Way::Inbox("d", "my.box"), Plan::Nobody);
    ask::play(rt, alloc, client, peer, row)?;
    let row = ("an error", Way::Inbox("e", "my.box"), Plan::Error);
    ask::play(rt, alloc, client, peer, row)?;
    let row = (
        "on the next link",
        Way::Inbox("f", "my.box"),
        Plan::NextLink,
    );
    ask::play(rt, alloc, client, peer, row)
}

/// A request whose client hangs up, and one behind it.
fn hung_up<G: Tallies + Send + Sync, R: Threads + Wait + Print + Sync>(
    rt: &R,
    alloc: Global,
    client: &mut Client<G>,
    peer: &mut Peer,
) -> Result<()>
    requires { G.parts ≡ 2 ^ 63 }
{
    let row = ("hung up", Way::Inbox("g", "my.box"), Plan::Hangup);
    ask::play(rt, alloc, client, peer, row)?;
    asks(rt, alloc, client, "svc", timed(alloc)?, "closed")
}

/// Requests at an inbox of their caller's, and what their hub came to.
pub(crate) fn play_inboxes<G: Tallies + Send + Sync, R: Threads + Wait + Print + Sync>(
    rt: &R,
    alloc: Global,
    blank: Blank,
) -> Result<()>
    requires name { blank.name ≡ G.name }
    requires parts { blank.parts ≡ G.parts }
    requires all { blank.parts ≡ 2 ^ 63 }
    requires kept { G.is_kept ≡ true }
{
    let mut client = hand::begin::<G, R>(rt, alloc, blank, hand::config(alloc)?, LIMIT)?;
    let mut peer = Peer::new(alloc);
    refused(rt, alloc, &mut client)?;
    late(rt, alloc, &mut client)?;
    alone(rt, alloc, &mut client)?;
    heard(rt, alloc, &mut client, &mut peer)?;
    hung_up(rt, alloc, &mut client, &mut peer)?;
    replies::tells(rt, alloc, &client)?;
    hand::finishes(rt, alloc, client)
}
