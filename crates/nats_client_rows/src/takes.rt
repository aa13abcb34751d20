//! What a subscriber takes.
ghost use Rattle.std.specs.Prelude.{◌≡◌, ◌^◌, true};

use crate::hand;
use anyhow::{Result, anyhow};
use nats_client::{Bytes, Client, Subscriber, TakeReply, Tallies};
use std::alloc::Global;
use std::str;
use std::sync::Wait;
use std::sync::ledger::Blank;

/// Prints what one take answered.
fn show<R: Print>(rt: &R, name: &str, reply: &TakeReply) -> Result<()> {
    match reply {
        TakeReply::Message(message) => println!(rt;
            "{name}: {} {}",
            message.subject.as_str(),
            str::from_utf8(message.payload.as_slice()).unwrap_or("(bytes)")
        )?,
        TakeReply::Empty => println!(rt; "{name}: empty")?,
        TakeReply::Ended => println!(rt; "{name}: ended")?,
    }
    Ok(())
}

/// Takes once, and then at most three times.
fn take<G: Tallies, R: Wait + Print>(
    rt: &R,
    alloc: Global,
    subscriber: &mut Subscriber<G>,
) -> Result<()> {
    let reply = subscriber
        .poll_next(rt, alloc)
        .ok()
        .ok_or(anyhow!("no memory"))?;
    show(rt, "poll_next", &reply)?;
    let reply = subscriber
        .next_within(rt, alloc, 3)
        .ok()
        .ok_or(anyhow!("no memory"))?;
    show(rt, "next_within", &reply)
}

/// Waits for the next message, which is there.
fn wait<G: Tallies, R: Wait + Print>(
    rt: &R,
    alloc: Global,
    subscriber: &mut Subscriber<G>,
) -> Result<()> {
    match subscriber.next(rt, alloc) {
        Ok(Some(message)) => show(rt, "next", &TakeReply::Message(message)),
        Ok(None) => show(rt, "next", &TakeReply::Ended),
        Err(_) => Err(anyhow!("no memory")),
    }
}

/// Prints why a message is not published.
fn publish<G: Tallies, R: Wait + Print>(
    rt: &R,
    alloc: Global,
    client: &mut Client<G>,
    subject: &'static str,
) -> Result<()> {
    match client.publish(rt, alloc, subject, Bytes::from_static(b"x")) {
        Ok(()) => println!(rt; "published")?,
        Err(error) => println!(rt; "{error}")?,
    }
    Ok(())
}

/// The link gives messages, and the subscriber takes them in each way.
fn take_all<G: Tallies, R: Wait + Print>(
    rt: &R,
    alloc: Global,
    client: &Client<G>,
    subscriber: &mut Subscriber<G>,
) -> Result<()> {
    let hub = client.hub();
    hand::gives(rt, alloc, hub, b"MSG b 1 2\r\nhi\r\n")?;
    take(rt, alloc, subscriber)?;
    hand::gives(rt, alloc, hub, b"MSG b 1 2\r\nyo\r\nMSG b 1 3\r\nyes\r\n")?;
    take(rt, alloc, subscriber)?;
    hand::gives(rt, alloc, hub, b"MSG b 1 4\r\nlast\r\n")?;
    wait(rt, alloc, subscriber)?;
    subscriber.unsubscribe(rt, alloc)?;
    wait(rt, alloc, subscriber)
}

/// What a client refuses to publish: a subject that may not be published to, and anything once it drains.
fn refuse<G: Tallies, R: Wait + Print>(
    rt: &R,
    alloc: Global,
    client: &mut Client<G>,
) -> Result<()> {
    publish(rt, alloc, client, "no good")?;
    client.drain(rt, alloc)?;
    publish(rt, alloc, client, "b")
}

/// A subscription, from its first message to its last.
fn subscription<G: Tallies, R: Wait + Print>(
    rt: &R,
    alloc: Global,
    client: &mut Client<G>,
) -> Result<()>
    requires { G.parts ≡ 2 ^ 63 }
{
    let mut subscriber = client.subscribe(rt, alloc, "b")?;
    take_all(rt, alloc, client, &mut subscriber)?;
    refuse(rt, alloc, client)?;
    match subscriber.close(rt, alloc, client) {
        Ok(()) => Ok(()),
        Err(_) => Err(anyhow!("no memory")),
    }
}

/// A hub with one subscription, and what it came to.
pub(crate) fn play_takes<G: Tallies, R: Wait + Print>(
    rt: &R,
    alloc: Global,
    blank: Blank,
) -> Result<()>
    requires name { blank.name ≡ G.name }
    requires parts { blank.parts ≡ G.parts }
    requires all { blank.parts ≡ 2 ^ 63 }
    requires kept { G.is_kept ≡ true }
{
    let mut client = hand::begin::<G, R>(rt, alloc, blank)?;
    subscription(rt, alloc, &mut client)?;
    let audit = hand::finishes(rt, alloc, client)?;
    println!(rt; "turns {}", audit.journal.len())?;
    Ok(())
}
