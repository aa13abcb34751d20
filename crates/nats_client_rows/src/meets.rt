//! Two threads that meet over one hub: one waits for a message, and the other's call is answered meanwhile.
ghost use Rattle.std.specs.Prelude.{◌≡◌, ◌^◌, true};

use crate::hand;
use anyhow::{Result, anyhow};
use nats_client::{Bytes, Client, OutboundMessage, Subject, Subscriber, Tallies, Turn};
use std::alloc::Global;
use std::sync::Wait;
use std::sync::ledger::Blank;
use std::thread;
use std::thread::Threads;

/// How often the second thread calls before the first is told of a message.
const CALLS: u64 = 100;

/// The length of the next message, or 0.
fn waits<G: Tallies, R: Wait>(rt: &R, alloc: Global, subscriber: &mut Subscriber<G>) -> u64 {
    match subscriber.next(rt, alloc) {
        Ok(Some(message)) => message.payload.len() as u64,
        Ok(None) | Err(_) => 0,
    }
}

/// Publishes so often, and then has the link give the message for which the other thread waits. How many calls were
/// answered.
fn calls<G: Tallies, R: Wait>(rt: &R, alloc: Global, client: &mut Client<G>) -> u64 {
    let mut answered = 0u64;
    for _ in 0..CALLS {
        let message = OutboundMessage {
            subject: Subject::from_static("t"),
            reply: None,
            payload: Bytes::new(),
            headers: None,
        };
        if client.try_publish(rt, alloc, message).is_ok() {
            answered = answered.saturating_add(1);
        }
    }
    let piece = Bytes::from_static(b"MSG w 1 5\r\nhello\r\n");
    let _ = client.hub().play(rt, alloc, Turn::Piece(piece));
    answered
}

/// `next` waits on one thread while each `try_publish` on the other is answered.
pub(crate) fn play_meets<G: Tallies + Send + Sync, R: Threads + Wait + Print + Sync>(
    rt: &R,
    alloc: Global,
    blank: Blank,
) -> Result<()>
    requires name { blank.name ≡ G.name }
    requires parts { blank.parts ≡ G.parts }
    requires all { blank.parts ≡ 2 ^ 63 }
    requires kept { G.is_kept ≡ true }
{
    let mut client = hand::begin::<G, R>(rt, alloc, blank)?;
    let mut subscriber = client.subscribe(rt, alloc, "w")?;
    let (length, answered) = thread::join(
        rt,
        || -> u64 { waits(rt, alloc, &mut subscriber) },
        || -> u64 { calls(rt, alloc, &mut client) },
    );
    println!(rt;
        "second_call_is_answered_while_first_waits: {answered} calls, then {length} bytes"
    )?;
    match subscriber.close(rt, alloc, &mut client) {
        Ok(()) => {}
        Err(_) => return Err(anyhow!("no memory")),
    }
    hand::finishes(rt, alloc, client)?;
    Ok(())
}
