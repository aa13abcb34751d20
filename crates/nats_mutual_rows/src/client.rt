//! A client of a hub of its own, and what it does on one thread.
ghost use Rattle.std.specs.Prelude.{◌≡◌, ◌^◌, true, false};
ghost use Rattle.nats_hub.specs.Tallying.{is_do};

use anyhow::{Result, anyhow};
use nats_client::{
    Bytes, Client, Config, FinishError, Hub, Message, Subject, Subscriber, Tallies, Turn,
    usual_server,
};
use nats_outside::FakeClock;
use std::alloc::Global;
use std::str;
use std::sync::Wait;
use std::sync::ledger::Blank;

/// Plays a turn.
pub(crate) fn play<G: Tallies, R: Wait>(
    rt: &R,
    alloc: Global,
    hub: &Hub<G>,
    turn: Turn,
) -> Result<()>
    requires { is_do turn ≡ false }
{
    match hub.play(rt, alloc, turn) {
        Ok(_) => Ok(()),
        Err(error) => Err(anyhow!("{error:?}")),
    }
}

/// A client over a new hub of default settings, whose link is up.
pub(crate) fn begin<G: Tallies, R: Wait>(rt: &R, alloc: Global, blank: Blank) -> Result<Client<G>>
    requires name { blank.name ≡ G.name }
    requires parts { blank.parts ≡ G.parts }
    requires all { blank.parts ≡ 2 ^ 63 }
    requires kept { G.is_kept ≡ true }
{
    let Ok(config) = Config::new(alloc) else {
        return Err(anyhow!("no memory"));
    };
    match Client::over(alloc, blank, config, true, 7) {
        Ok(client) => {
            play(rt, alloc, client.hub(), Turn::Up(usual_server(alloc)))?;
            Ok(client)
        }
        Err(_) => Err(anyhow!("no memory")),
    }
}

/// A text as a body.
fn body(alloc: Global, text: &str) -> Result<Bytes> {
    Ok(Bytes::copy_from_slice(alloc, text.as_bytes())?)
}

/// The text of a body.
fn text_of(message: &Message) -> &str {
    str::from_utf8(message.payload.as_slice()).unwrap_or("(bytes)")
}

/// Asks with a number: whether it is replied with that number behind the subject.
fn is_replied<G: Tallies, R: Wait>(
    rt: &R,
    alloc: Global,
    client: &mut Client<G>,
    subject: &'static str,
    number: u64,
) -> Result<bool> {
    let text = format!(in alloc; "{number}")?;
    let body = body(alloc, text.as_str())?;
    let mut clock = FakeClock::told(vec![in alloc; 0u64]?);
    let Ok(message) = client.request(rt, alloc, subject, body, &mut clock) else {
        return Ok(false);
    };
    let wanted = format!(in alloc; "{subject} {number}")?;
    Ok(text_of(&message) == wanted.as_str())
}

/// Asks with each number from 1 to `count`: how many are replied as they should be.
pub(crate) fn asks<G: Tallies, R: Wait>(
    rt: &R,
    alloc: Global,
    client: &mut Client<G>,
    subject: &'static str,
    count: u64,
) -> Result<u64> {
    let mut right = 0u64;
    'numbers: for number in 1..=count {
        if is_replied(rt, alloc, client, subject, number)? {
            right = right.saturating_add(1);
        }
    }
    Ok(right)
}

/// Replies to a request with its own text behind the subject to which it was sent: whether it asked for a reply.
fn replies<G: Tallies, R: Wait>(
    rt: &R,
    alloc: Global,
    client: &mut Client<G>,
    message: &Message,
) -> Result<bool> {
    let Some(inbox) = &message.reply else {
        return Ok(false);
    };
    let text = format!(in alloc; "{} {}", message.subject.as_str(), text_of(message))?;
    let to = Subject::from_text(alloc, inbox.as_str())?;
    client.publish(rt, alloc, to, body(alloc, text.as_str())?)?;
    Ok(true)
}

/// Replies to so many requests: how many messages asked for a reply.
pub(crate) fn answers<G: Tallies, R: Wait>(
    rt: &R,
    alloc: Global,
    client: &mut Client<G>,
    subscriber: &mut Subscriber<G>,
    count: u64,
) -> Result<u64> {
    let mut answered = 0u64;
    for _ in 0..count {
        let Some(message) = subscriber.next(rt, alloc)? else {
            break;
        };
        if replies(rt, alloc, client, &message)? {
            answered = answered.saturating_add(1);
        }
    }
    Ok(answered)
}

/// Prints what a hub came to: how many accepted calls its holders made, and how many its journal has.
pub(crate) fn finishes<G: Tallies, R: Wait + Print>(
    rt: &R,
    alloc: Global,
    client: Client<G>,
) -> Result<()>
    requires { G.parts ≡ 2 ^ 63 }
{
    match client.finish(rt, alloc) {
        Ok(audit) => {
            let (made, accepted) = (audit.tally.made, audit.tally.accepted);
            println!(rt; "made {made} accepted {accepted}")?;
            Ok(())
        }
        Err(FinishError::Held(_)) => Err(anyhow!("held")),
        Err(FinishError::NoMemory(_)) => Err(anyhow!("no memory")),
    }
}
