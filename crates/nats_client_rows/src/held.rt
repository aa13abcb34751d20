//! How parts are given away, and what a hub without room answers.
ghost use Rattle.std.specs.Prelude.{◌≡◌, ◌^◌, true};

use anyhow::{Result, anyhow};
use nats_client::{Bytes, Client, Config, FinishError, OutboundMessage, Poll, Subject, Tallies};
use std::alloc::Global;
use std::sync::Wait;
use std::sync::ledger::Blank;

/// Clones a client, its clone, and so on.
fn clones<G: Tallies, R: Print>(rt: &R, client: Client<G>) -> Result<()> {
    let mut last = client;
    for _ in 0..5u64 {
        match last.clone() {
            Ok(clone) => {
                println!(rt; "cloned")?;
                last = clone;
            }
            Err(error) => println!(rt; "not cloned: {error}")?,
        }
    }
    Ok(())
}

/// What a client answers at once where there is no room for a call.
fn full<G: Tallies, R: Wait + Print>(rt: &R, alloc: Global, client: &mut Client<G>) -> Result<()> {
    let message = OutboundMessage {
        subject: Subject::from_static("a"),
        reply: None,
        payload: Bytes::new(),
        headers: None,
    };
    match client.try_publish(rt, alloc, message) {
        Ok(()) => println!(rt; "published")?,
        Err(error) => println!(rt; "try_publish: {error}")?,
    }
    match client.try_subscribe(rt, alloc, "a") {
        Ok(_) => println!(rt; "subscribed")?,
        Err(error) => println!(rt; "try_subscribe: {error}")?,
    }
    match client.poll_ready(rt) {
        Poll::Ready(_) => println!(rt; "ready")?,
        Poll::Pending => println!(rt; "poll_ready: pending")?,
    }
    let _ = client.poll_close();
    match client.poll_ready(rt) {
        Poll::Ready(Err(error)) => println!(rt; "poll_ready: {error}")?,
        Poll::Ready(Ok(())) | Poll::Pending => println!(rt; "not shut")?,
    }
    println!(rt; "max_payload {}", client.max_payload(rt))?;
    let inbox = client
        .new_inbox(rt, alloc)
        .ok()
        .ok_or(anyhow!("no memory"))?;
    println!(rt;
        "inbox {} {}",
        &inbox.as_str().starts_with("_INBOX."),
        inbox.len()
    )?;
    Ok(())
}

/// A hub without room, whose first client is not the only one.
pub(crate) fn play_held<G: Tallies, R: Wait + Print>(
    rt: &R,
    alloc: Global,
    blank: Blank,
) -> Result<()>
    requires name { blank.name ≡ G.name }
    requires parts { blank.parts ≡ G.parts }
    requires all { blank.parts ≡ 2 ^ 63 }
    requires kept { G.is_kept ≡ true }
{
    let Ok(config) = Config::new(alloc) else {
        return Err(anyhow!("no memory"));
    };
    let config = Config {
        client_capacity: 0,
        ..config
    };
    let Ok(mut client) = Client::<G>::over(alloc, blank, config, true, 7) else {
        return Err(anyhow!("no memory"));
    };
    full(rt, alloc, &mut client)?;
    match client.clone() {
        Ok(clone) => clones(rt, clone)?,
        Err(error) => println!(rt; "not cloned: {error}")?,
    }
    match client.finish(rt, alloc) {
        Ok(_) => println!(rt; "finished")?,
        Err(FinishError::Held(_)) => println!(rt; "held")?,
        Err(FinishError::NoMemory(_)) => println!(rt; "no memory")?,
    }
    Ok(())
}
