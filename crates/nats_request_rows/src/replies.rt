//! What a request is told that is not simply replied: that nobody answers, an error, that its time is over, or that it
//! was dropped; and replies that are nobody's.
ghost use Rattle.std.specs.Prelude.{◌≡◌, ◌^◌, true};

use crate::ask::{self, Way};
use crate::hand;
use crate::peer::{Peer, Plan};
use anyhow::Result;
use nats_client::{Client, Tallies};
use std::alloc::Global;
use std::sync::Wait;
use std::sync::ledger::Blank;
use std::thread::Threads;

/// The most bytes of a message.
const LIMIT: u64 = 1_048_576;

/// How many milliseconds a request waits by default.
const TIME: u64 = 10_000;

/// Prints the events that wait, and the counts of messages and links.
pub(crate) fn tells<G: Tallies, R: Wait + Print>(
    rt: &R,
    alloc: Global,
    client: &Client<G>,
) -> Result<()> {
    for _ in 0..8u64 {
        match client.poll_event(rt) {
            Some(event) => println!(rt; "event: {}", event.to_string(alloc)?)?,
            None => break,
        }
    }
    let counts = client.statistics(rt);
    println!(rt;
        "messages in {} out {} links {}",
        counts.in_messages, counts.out_messages, counts.connects
    )?;
    Ok(())
}

/// Asks by a clock whose second look is one millisecond before the time is over, and whose third is at its end.
fn asks_too_long<G: Tallies, R: Wait>(
    rt: &R,
    alloc: Global,
    client: &mut Client<G>,
    text: &'static str,
) -> Result<String> {
    let mut clock = hand::ending(alloc, TIME)?;
    ask::plainly(rt, alloc, client, "svc", text, &mut clock)
}

/// A request whose time is over, and whose reply comes then.
fn late<G: Tallies, R: Wait + Print>(
    rt: &R,
    alloc: Global,
    client: &mut Client<G>,
    peer: &mut Peer,
) -> Result<()> {
    let told = asks_too_long(rt, alloc, client, "late")?;
    peer.hear(rt, alloc, client.hub())?;
    peer.answers(rt, alloc, client.hub())?;
    ask::print(rt, alloc, peer, "too late", told.as_str())
}

/// Requests over one link that are not simply replied, each with one behind it that is.
fn rows<G: Tallies + Send + Sync, R: Threads + Wait + Print + Sync>(
    rt: &R,
    alloc: Global,
    client: &mut Client<G>,
    peer: &mut Peer,
) -> Result<()>
    requires { G.parts ≡ 2 ^ 63 }
{
    let row = ("nobody answers", Way::Plain("a"), Plan::Nobody);
    ask::play(rt, alloc, client, peer, row)?;
    let row = ("an error", Way::Plain("b"), Plan::Error);
    ask::play(rt, alloc, client, peer, row)?;
    let row = ("two replies", Way::Plain("c"), Plan::Twice);
    ask::play(rt, alloc, client, peer, row)?;
    let row = ("a stray message", Way::Plain("d"), Plan::Stray);
    ask::play(rt, alloc, client, peer, row)?;
    late(rt, alloc, client, peer)?;
    let row = ("after it", Way::Plain("e"), Plan::Reply);
    ask::play(rt, alloc, client, peer, row)
}

/// Requests whose link is lost, or whose client hangs up.
fn lost<G: Tallies + Send + Sync, R: Threads + Wait + Print + Sync>(
    rt: &R,
    alloc: Global,
    client: &mut Client<G>,
    peer: &mut Peer,
) -> Result<()>
    requires { G.parts ≡ 2 ^ 63 }
{
    let row = ("on the next link", Way::Plain("f"), Plan::NextLink);
    ask::play(rt, alloc, client, peer, row)?;
    let row = ("hung up", Way::Plain("g"), Plan::Hangup);
    ask::play(rt, alloc, client, peer, row)
}

/// Requests that are not simply replied, and what their hub came to.
pub(crate) fn play_replies<G: Tallies + Send + Sync, R: Threads + Wait + Print + Sync>(
    rt: &R,
    alloc: Global,
    blank: Blank,
) -> Result<()>
    requires name { blank.name ≡ G.name }
    requires parts { blank.parts ≡ G.parts }
    requires all { blank.parts ≡ 2 ^ 63 }
    requires kept { G.is_kept ≡ true }
{
    let mut client = hand::begin::<G, R>(rt, alloc, blank, hand::config(alloc)?, LIMIT)?;
    let mut peer = Peer::new(alloc);
    rows(rt, alloc, &mut client, &mut peer)?;
    lost(rt, alloc, &mut client, &mut peer)?;
    tells(rt, alloc, &client)?;
    hand::finishes(rt, alloc, client)
}
