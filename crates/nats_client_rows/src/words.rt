//! What calls hand to the session: their own words, each in its place.
ghost use Rattle.std.specs.Prelude.{◌≡◌, ◌^◌, true};

use crate::hand;
use anyhow::{Result, anyhow};
use nats_client::{Bytes, Client, OutboundMessage, Subject, Subscriber, Tallies};
use nats_header::HeaderMap;
use std::alloc::Global;
use std::sync::Wait;
use std::sync::ledger::Blank;

/// Headers with this value of the name `K`.
fn headers(alloc: Global, value: &str) -> Result<HeaderMap> {
    let mut headers = HeaderMap::new(alloc);
    match headers.insert(alloc, "K", value) {
        Ok(()) => Ok(headers),
        Err(error) => Err(anyhow!("{error}")),
    }
}

/// A message without headers that asks for no reply.
fn message(subject: &'static str, payload: &'static [u8]) -> OutboundMessage {
    OutboundMessage {
        subject: Subject::from_static(subject),
        reply: None,
        payload: Bytes::from_static(payload),
        headers: None,
    }
}

/// Publishes in each way, and prints what waits for the link after each.
fn publish<G: Tallies, R: Wait + Print>(
    rt: &R,
    alloc: Global,
    client: &mut Client<G>,
) -> Result<()> {
    client.publish(rt, alloc, "a", Bytes::from_static(b"p1"))?;
    hand::takes(rt, alloc, client.hub(), "publish")?;
    client.publish_with_headers(
        rt,
        alloc,
        "b",
        headers(alloc, "v")?,
        Bytes::from_static(b"p2"),
    )?;
    hand::takes(rt, alloc, client.hub(), "publish_with_headers")?;
    client.publish_with_reply(rt, alloc, "c", "r1", Bytes::from_static(b"p3"))?;
    hand::takes(rt, alloc, client.hub(), "publish_with_reply")?;
    let with = headers(alloc, "w")?;
    client.publish_with_reply_and_headers(rt, alloc, "d", "r2", with, Bytes::from_static(b"p4"))?;
    hand::takes(rt, alloc, client.hub(), "publish_with_reply_and_headers")?;
    client.try_publish(rt, alloc, message("e", b"p5"))?;
    hand::takes(rt, alloc, client.hub(), "try_publish")?;
    client.start_send(rt, alloc, message("f", b"p6"))?;
    hand::takes(rt, alloc, client.hub(), "start_send")
}

/// Subscribes in each way, and prints what waits for the link after each.
fn subscribe<G: Tallies, R: Wait + Print>(
    rt: &R,
    alloc: Global,
    client: &mut Client<G>,
    subscribers: &mut Vec<Subscriber<G>>,
) -> Result<()> {
    subscribers.push(client.subscribe(rt, alloc, "h")?)?;
    hand::takes(rt, alloc, client.hub(), "subscribe")?;
    let group = Subject::from_static("q");
    subscribers.push(client.queue_subscribe(rt, alloc, "i", group)?)?;
    hand::takes(rt, alloc, client.hub(), "queue_subscribe")?;
    subscribers.push(client.try_subscribe(rt, alloc, "j")?)?;
    hand::takes(rt, alloc, client.hub(), "try_subscribe")
}

/// Ends the three subscriptions in its own way each, and prints what waits for the link.
fn end<G: Tallies, R: Wait + Print>(
    rt: &R,
    alloc: Global,
    client: &mut Client<G>,
    subscribers: &mut [Subscriber<G>],
) -> Result<()> {
    let [first, second, third] = subscribers else {
        return Err(anyhow!("no three subscriptions"));
    };
    first.unsubscribe(rt, alloc)?;
    hand::takes(rt, alloc, client.hub(), "unsubscribe")?;
    second.unsubscribe_after(rt, alloc, 3)?;
    hand::takes(rt, alloc, client.hub(), "unsubscribe_after")?;
    third.drain(rt, alloc)?;
    hand::takes(rt, alloc, client.hub(), "drain of a subscriber")
}

/// Loses the link, and drains once the next is up.
fn reconnect<G: Tallies, R: Wait + Print>(
    rt: &R,
    alloc: Global,
    client: &mut Client<G>,
) -> Result<()> {
    client.force_reconnect(rt, alloc)?;
    println!(rt; "reconnect: {}", client.connection_state(rt))?;
    hand::up(rt, alloc, client.hub())?;
    client.drain(rt, alloc)?;
    hand::takes(rt, alloc, client.hub(), "drain")
}

/// Closes the subscribers into a client, the last first.
fn close<G: Tallies, R: Wait>(
    rt: &R,
    alloc: Global,
    client: &mut Client<G>,
    subscribers: &mut Vec<Subscriber<G>>,
) -> Result<()>
    requires { G.parts ≡ 2 ^ 63 }
{
    for _ in 0..3u64 {
        if let Some(subscriber) = subscribers.pop()
            && subscriber.close(rt, alloc, client).is_err()
        {
            return Err(anyhow!("no memory"));
        }
    }
    Ok(())
}

/// Makes each call once.
fn calls<G: Tallies, R: Wait + Print>(rt: &R, alloc: Global, client: &mut Client<G>) -> Result<()>
    requires { G.parts ≡ 2 ^ 63 }
{
    let mut subscribers = Vec::new(alloc);
    publish(rt, alloc, client)?;
    subscribe(rt, alloc, client, &mut subscribers)?;
    client.flush(rt, alloc)?;
    end(rt, alloc, client, subscribers.as_mut_slice())?;
    reconnect(rt, alloc, client)?;
    close(rt, alloc, client, &mut subscribers)
}

/// Plays all calls once.
pub(crate) fn play_words<G: Tallies, R: Wait + Print>(
    rt: &R,
    alloc: Global,
    blank: Blank,
) -> Result<()>
    requires name { blank.name ≡ G.name }
    requires parts { blank.parts ≡ G.parts }
    requires all { blank.parts ≡ 2 ^ 63 }
    requires kept { G.is_kept ≡ true }
{
    let mut client = hand::begin::<G, R>(rt, alloc, blank)?;
    calls(rt, alloc, &mut client)?;
    let audit = hand::finishes(rt, alloc, client)?;
    println!(rt; "turns {}", audit.journal.len())?;
    Ok(())
}
