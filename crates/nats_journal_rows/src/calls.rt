//! A client makes each call once, beside a link.

use crate::told::Tail;
use anyhow::{Result, anyhow};
use nats_client::traits::Publisher;
use nats_client::{Bytes, Client, OutboundMessage, RequestErrorKind, Subject, Subscriber, Tallies};
use nats_header::HeaderMap;
use nats_outside::FakeClock;
use std::alloc::Global;
use std::sync::Wait;

/// Headers with this value of the name `K`.
fn headers(alloc: Global, value: &str) -> Result<HeaderMap> {
    let mut headers = HeaderMap::new(alloc);
    match headers.insert(alloc, "K", value) {
        Ok(()) => Ok(headers),
        Err(error) => Err(anyhow!("{error}")),
    }
}

/// A message without headers that asks for no reply.
fn message(subject: &'static str, payload: Bytes) -> OutboundMessage {
    OutboundMessage {
        subject: Subject::from_static(subject),
        reply: None,
        payload,
        headers: None,
    }
}

/// Publishes with headers, with a reply, and with both.
fn publish_more<G: Tallies, R: Wait>(
    rt: &R,
    alloc: Global,
    client: &mut Client<G>,
    tail: Tail,
) -> Result<()> {
    let with = headers(alloc, "v")?;
    client.publish_with_headers(rt, alloc, tail.of("b", "bz"), with, tail.bytes("p2", "p2z"))?;
    let (subject, reply) = (tail.of("c", "cz"), tail.of("r1", "r1z"));
    client.publish_with_reply(rt, alloc, subject, reply, tail.bytes("p3", "p3z"))?;
    let with = headers(alloc, "w")?;
    let (subject, reply) = (tail.of("d", "dz"), tail.of("r2", "r2z"));
    let payload = tail.bytes("p4", "p4z");
    Ok(client.publish_with_reply_and_headers(rt, alloc, subject, reply, with, payload)?)
}

/// Flushes, and publishes in each way.
pub(crate) fn publish<G: Tallies, R: Wait>(
    rt: &R,
    alloc: Global,
    client: &mut Client<G>,
    tail: Tail,
) -> Result<()> {
    client.flush(rt, alloc)?;
    client.publish(rt, alloc, tail.of("a", "az"), tail.bytes("p1", "p1z"))?;
    publish_more(rt, alloc, client, tail)?;
    let to_try = message(tail.of("e", "ez"), tail.bytes("p5", "p5z"));
    client.try_publish(rt, alloc, to_try)?;
    let to_send = message(tail.of("f", "fz"), tail.bytes("p6", "p6z"));
    client.start_send(rt, alloc, to_send)?;
    let whole = message(tail.of("g", "gz"), tail.bytes("p7", "p7z"));
    Ok(client.publish_message(rt, alloc, whole)?)
}

/// Subscribes in each way.
pub(crate) fn subscribe<G: Tallies, R: Wait>(
    rt: &R,
    alloc: Global,
    client: &mut Client<G>,
    tail: Tail,
) -> Result<Vec<Subscriber<G>>> {
    let mut subscribers = Vec::new(alloc);
    subscribers.push(client.subscribe(rt, alloc, tail.of("h", "hz"))?)?;
    let group = Subject::from_static(tail.of("q", "qz"));
    subscribers.push(client.queue_subscribe(rt, alloc, tail.of("i", "iz"), group)?)?;
    subscribers.push(client.try_subscribe(rt, alloc, tail.of("j", "jz"))?)?;
    Ok(subscribers)
}

/// Asks, beside a clock by which the time is over at once: whether it is told so.
fn is_late<G: Tallies, R: Wait>(
    rt: &R,
    alloc: Global,
    client: &mut Client<G>,
    tail: Tail,
    clock: &mut FakeClock,
) -> bool {
    let asked = client.request(
        rt,
        alloc,
        tail.of("k", "kz"),
        tail.bytes("p8", "p8z"),
        clock,
    );
    match asked {
        Ok(_) => false,
        Err(error) => matches!(error.kind(), RequestErrorKind::TimedOut),
    }
}

/// Asks, and gets no reply in time.
pub(crate) fn ask<G: Tallies, R: Wait>(
    rt: &R,
    alloc: Global,
    client: &mut Client<G>,
    tail: Tail,
) -> Result<()> {
    let mut clock = FakeClock::told(vec![in alloc; 0u64, 10_000]?);
    if is_late(rt, alloc, client, tail, &mut clock) {
        Ok(())
    } else {
        Err(anyhow!("a request is not late"))
    }
}

/// Ends the three subscriptions in its own way each, and then the link and the session.
pub(crate) fn end<G: Tallies, R: Wait>(
    rt: &R,
    alloc: Global,
    client: &mut Client<G>,
    subscribers: &mut [Subscriber<G>],
) -> Result<()> {
    let [first, second, third] = subscribers else {
        return Err(anyhow!("no three subscriptions"));
    };
    first.unsubscribe(rt, alloc)?;
    second.unsubscribe_after(rt, alloc, 3)?;
    third.drain(rt, alloc)?;
    client.force_reconnect(rt, alloc)?;
    Ok(client.drain(rt, alloc)?)
}
