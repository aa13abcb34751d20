//! What the client saw, held against the journal of its session.

use crate::crew::{LIMIT, Seen, is_limited};
use anyhow::{Result, anyhow};
use nats_client::{Message, TakeReply};
use nats_session::{CallReply, SubRow, Transcript, run};
use std::alloc::Global;
use std::str;

/// The number that is a message's payload.
pub fn number_of(message: &Message) -> Result<u64> {
    let text = str::from_utf8(message.payload.as_slice()).unwrap_or("");
    match text.parse::<u64>() {
        Ok(number) => Ok(number),
        Err(_) => Err(anyhow!("a payload is no number")),
    }
}

/// The numbers that were put into the queue of a subscription.
fn put_of(alloc: Global, row: &SubRow) -> Result<Vec<u64>> {
    let mut put = Vec::new(alloc);
    'puts: for (_, message) in row.puts.as_slice() {
        put.push(number_of(message)?)?;
    }
    Ok(put)
}

/// The numbers that were taken from a subscription.
fn taken_of(alloc: Global, row: &SubRow) -> Result<Vec<u64>> {
    let mut taken = Vec::new(alloc);
    'takes: for (_, reply) in row.takes.as_slice() {
        if let TakeReply::Message(message) = reply {
            taken.push(number_of(message)?)?;
        }
    }
    Ok(taken)
}

/// The numbers by which requests were replied, none for one that was refused.
fn replies_of(alloc: Global, transcript: &Transcript) -> Result<Vec<Option<u64>>> {
    let mut replies = Vec::new(alloc);
    'tickets: for ticket in transcript.tickets.as_slice() {
        match ticket {
            Some((_, CallReply::Replied(message))) => replies.push(Some(number_of(message)?))?,
            Some(_) => replies.push(None)?,
            None => return Err(anyhow!("a request is not settled")),
        }
    }
    Ok(replies)
}

/// Whether each number is larger than the one before.
fn is_rising(numbers: &[u64]) -> bool {
    let mut last = 0;
    'numbers: for number in numbers {
        if *number <= last {
            return false;
        }
        last = *number;
    }
    true
}

/// What is wrong with a subscription that gave these numbers, where something is.
fn fault_of(put: &[u64], taken: &[u64], gave: &[u64], is_limited: bool) -> Option<&'static str> {
    if taken != gave {
        Some("gave other numbers than its journal says")
    } else if !put.starts_with(taken) {
        Some("gave other numbers than were put")
    } else if !is_rising(put) {
        Some("was put a number twice, or out of order")
    } else if is_limited && put.len() as u64 > LIMIT {
        Some("passed its limit")
    } else {
        None
    }
}

/// Plays the journal anew and holds what the client saw against it. It prints a line for each subscription, one for the
/// requests, and one for the links.
///
/// # Errors
///
/// What differs.
pub fn compare<R: Print>(rt: &R, alloc: Global, seen: &Seen) -> Result<()> {
    let mut turns = Vec::new(alloc);
    'entries: for entry in seen.audit.journal.as_slice() {
        turns.push(entry.turn.copy(alloc)?)?;
    }
    let transcript = run(alloc, seen.audit.config.copy(alloc)?, turns.as_slice())?;
    let rows = transcript.subs.as_slice();
    if rows.len() != seen.taken.len() {
        return Err(anyhow!("another number of subscriptions"));
    }
    'rows: for (place, (row, gave)) in rows.iter().zip(seen.taken.as_slice()).enumerate() {
        let number = place.saturating_add(1);
        let (put, taken) = (put_of(alloc, row)?, taken_of(alloc, row)?);
        println!(rt;
            "subscription {number}: put {}, took {}",
            put.len(),
            taken.len()
        )?;
        let (put, taken) = (put.as_slice(), taken.as_slice());
        if let Some(fault) = fault_of(put, taken, gave.as_slice(), is_limited(place)) {
            return Err(anyhow!("subscription {number} {fault}"));
        }
    }
    let replied = seen.replies.iter().flatten().count();
    println!(rt; "requests: {}, replied {replied}", seen.replies.len())?;
    println!(rt; "links: {}", transcript.links.as_slice().len())?;
    if replies_of(alloc, &transcript)?.as_slice() != seen.replies.as_slice() {
        return Err(anyhow!("a request came to another end than its journal says"));
    }
    Ok(())
}
