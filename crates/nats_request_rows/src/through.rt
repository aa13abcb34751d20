//! What a client does for code that knows its traits alone.
ghost use Rattle.std.specs.Prelude.{◌≡◌, ◌^◌, true};

use crate::{ask, hand};
use anyhow::Result;
use nats_client::traits::{Publisher, Requester, Subscriber, TimeoutProvider};
use nats_client::{Client, OutboundMessage, Request, Subject, Tallies};
use std::alloc::Global;
use std::sync::Wait;
use std::sync::ledger::Blank;

/// The most bytes of a message.
const LIMIT: u64 = 32;

/// Publishes in both ways.
fn publishes<P: Publisher, R: Wait>(rt: &R, alloc: Global, publisher: &mut P) -> Result<()> {
    publisher.publish_with_reply(rt, alloc, "a", "r", ask::body("p1"))?;
    let message = OutboundMessage {
        subject: Subject::from_static("b"),
        reply: None,
        payload: ask::body("p2"),
        headers: None,
    };
    Ok(publisher.publish_message(rt, alloc, message)?)
}

/// Why a subject is not published to, if it is not.
fn publish_refusal<P: Publisher, R: Wait>(
    rt: &R,
    alloc: Global,
    publisher: &mut P,
) -> Result<String> {
    match publisher.publish_with_reply(rt, alloc, "a", "r r", ask::body("p3")) {
        Ok(()) => Ok(String::from_str(alloc, "published")?),
        Err(error) => Ok(format!(in alloc; "{error}")?),
    }
}

/// Why a subject is not subscribed to, if it is not.
fn subscribe_refusal<S: Subscriber, R: Wait>(
    rt: &R,
    alloc: Global,
    subscriber: &mut S,
    subject: &'static str,
) -> Result<String> {
    match subscriber.subscribe(rt, alloc, subject) {
        Ok(_) => Ok(String::from_str(alloc, "subscribed")?),
        Err(error) => Ok(format!(in alloc; "{error}")?),
    }
}

/// Asks as a request says, by a clock that gives that the time is over once it is that of the requester.
fn asks<A: Requester + TimeoutProvider, R: Wait>(
    rt: &R,
    alloc: Global,
    requester: &mut A,
    request: Request,
) -> Result<String>
    requires { A.MayAsk }
{
    let mut clock = hand::ending(alloc, requester.timeout().unwrap_or(0))?;
    let answer = requester.send_request(rt, alloc, "svc", request, &mut clock);
    ask::told(alloc, &answer)
}

/// Prints what was written, and what came of a call.
fn print<G: Tallies, R: Wait + Print>(
    rt: &R,
    alloc: Global,
    client: &Client<G>,
    name: &str,
    told: &str,
) -> Result<()> {
    let text = hand::takes(rt, alloc, client.hub())?;
    let shown = hand::shown(alloc, text.as_str())?;
    Ok(println!(rt; "{name}:{} => {told}", shown.as_str())?)
}

/// Makes each call.
fn rows<G: Tallies, R: Wait + Print>(rt: &R, alloc: Global, client: &mut Client<G>) -> Result<()>
    requires { G.parts ≡ 2 ^ 63 }
{
    publishes(rt, alloc, client)?;
    print(rt, alloc, client, "through Publisher", "published")?;
    let told = publish_refusal(rt, alloc, client)?;
    print(rt, alloc, client, "through Publisher", told.as_str())?;
    let told = subscribe_refusal(rt, alloc, client, "a..b")?;
    print(rt, alloc, client, "through Subscriber", told.as_str())?;
    let told = asks(rt, alloc, client, Request::new().payload(ask::body("q")))?;
    print(rt, alloc, client, "through Requester", told.as_str())?;
    let told = asks(rt, alloc, client, ask::at(alloc, "q", "my.box")?)?;
    print(
        rt,
        alloc,
        client,
        "through Requester, at an inbox",
        told.as_str(),
    )
}

/// Calls through the traits, and what their hub came to.
pub(crate) fn play_through<G: Tallies, R: Wait + Print>(
    rt: &R,
    alloc: Global,
    blank: Blank,
) -> Result<()>
    requires name { blank.name ≡ G.name }
    requires parts { blank.parts ≡ G.parts }
    requires all { blank.parts ≡ 2 ^ 63 }
    requires kept { G.is_kept ≡ true }
{
    let mut client = hand::begin::<G, R>(rt, alloc, blank, hand::config(alloc)?, LIMIT)?;
    rows(rt, alloc, &mut client)?;
    hand::finishes(rt, alloc, client)
}
