//! Events that nobody asks for.
ghost use Rattle.std.specs.Prelude.{◌≡◌, ◌^◌, true};

use crate::told::begin;
use anyhow::{Result, anyhow};
use nats_client::{Client, Event, Tallies, Turn, usual_server};
use std::alloc::Global;
use std::sync::Wait;
use std::sync::ledger::Blank;

/// How often the link is lost and comes up again, each with an event.
const TIMES: u64 = 70;

/// How many events are asked for at most.
const MOST: u64 = 1_000;

/// The link is lost and comes up again.
fn blink<G: Tallies, R: Wait>(rt: &R, alloc: Global, client: &Client<G>) -> Result<()> {
    let lost = client.hub().play(rt, alloc, Turn::Lost).is_ok();
    let up = client
        .hub()
        .play(rt, alloc, Turn::Up(usual_server(alloc)))
        .is_ok();
    if lost && up {
        Ok(())
    } else {
        Err(anyhow!("a link is in the way"))
    }
}

/// The oldest event that waits, as text.
fn next<G: Tallies, R: Wait>(rt: &R, alloc: Global, client: &Client<G>) -> Result<Option<String>> {
    match client.poll_event(rt) {
        Some(event) => Ok(Some(event.to_string(alloc)?)),
        None => Ok(None),
    }
}

/// Prints how many events wait, and the last of them. None waits behind it.
fn drain<G: Tallies, R: Wait + Print>(
    rt: &R,
    alloc: Global,
    client: &Client<G>,
    name: &str,
) -> Result<()> {
    let (mut count, mut last) = (0u64, String::new(alloc));
    for _ in 0..MOST {
        let Some(text) = next(rt, alloc, client)? else {
            break;
        };
        count = count.saturating_add(1);
        last = text;
    }
    println!(rt; "{name}: {count} events, the last: {}", last.as_str())?;
    Ok(())
}

/// More events come than may wait: the later ones are dropped, also one that is told to the hub. Once they are handed
/// out, those that come then wait.
pub(crate) fn wait<G: Tallies, R: Wait + Print>(rt: &R, alloc: Global, blank: Blank) -> Result<()>
    requires name { blank.name ≡ G.name }
    requires parts { blank.parts ≡ G.parts }
    requires all { blank.parts ≡ 2 ^ 63 }
    requires kept { G.is_kept ≡ true }
{
    let client = begin::<G, R>(rt, alloc, blank)?;
    for _ in 0..TIMES {
        blink(rt, alloc, &client)?;
    }
    client.hub().note(rt, Event::Closed);
    drain(rt, alloc, &client, "of 142")?;
    blink(rt, alloc, &client)?;
    client.hub().note(rt, Event::LameDuckMode);
    drain(rt, alloc, &client, "of 3")
}
