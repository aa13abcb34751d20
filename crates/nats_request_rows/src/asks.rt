//! Requests that are replied, one after the other and two at a time.
ghost use Rattle.std.specs.Prelude.{◌≡◌, ◌^◌, true};

use crate::ask::{self, Way};
use crate::hand;
use crate::peer::{Peer, Plan};
use anyhow::Result;
use nats_client::{Client, Hub, Tallies};
use std::alloc::Global;
use std::sync::Wait;
use std::sync::ledger::Blank;
use std::thread;
use std::thread::Threads;

/// The most bytes of a message.
const LIMIT: u64 = 1_048_576;

/// Asks with this body by a clock that stands still.
fn asks<G: Tallies, R: Wait>(
    rt: &R,
    alloc: Global,
    client: &mut Client<G>,
    text: &'static str,
) -> Result<String> {
    let mut clock = hand::still(alloc)?;
    ask::plainly(rt, alloc, client, "svc", text, &mut clock)
}

/// Two clients ask at once: what their requests came to.
fn both<G: Tallies + Send + Sync, R: Threads + Wait + Sync>(
    rt: &R,
    alloc: Global,
    one: &mut Client<G>,
    two: &mut Client<G>,
) -> (Result<String>, Result<String>) {
    thread::join(
        rt,
        || -> Result<String> { asks(rt, alloc, one, "one") },
        || -> Result<String> { asks(rt, alloc, two, "two") },
    )
}

/// The peer hears two requests, and replies to the later one first.
fn crosses<G: Tallies, R: Wait>(
    rt: &R,
    alloc: Global,
    hub: &Hub<G>,
    peer: &mut Peer,
) -> Result<()> {
    peer.hear_two(rt, alloc, hub)?;
    peer.answers_both(rt, alloc, hub)
}

/// Two clients ask at once, while the peer replies to the later request first: what their requests came to.
fn crossed<G: Tallies + Send + Sync, R: Threads + Wait + Sync>(
    rt: &R,
    alloc: Global,
    client: &mut Client<G>,
    peer: &mut Peer,
) -> Result<(Result<String>, Result<String>)>
    requires { G.parts ≡ 2 ^ 63 }
{
    let mut two = client.clone()?;
    let other = client.clone()?;
    let hub = other.hub();
    let (told, played) = thread::join(
        rt,
        || -> (Result<String>, Result<String>) { both(rt, alloc, client, &mut two) },
        || -> Result<()> { crosses(rt, alloc, hub, peer) },
    );
    client.settle(two);
    client.settle(other);
    played?;
    Ok(told)
}

/// Two requests cross, and what came of each is printed.
fn play_crossed<G: Tallies + Send + Sync, R: Threads + Wait + Print + Sync>(
    rt: &R,
    alloc: Global,
    client: &mut Client<G>,
    peer: &mut Peer,
) -> Result<()>
    requires { G.parts ≡ 2 ^ 63 }
{
    let (one, two) = crossed(rt, alloc, client, peer)?;
    println!(rt; "crossed: one => {}", one?.as_str())?;
    println!(rt; "crossed: two => {}", two?.as_str())?;
    peer.forget(alloc);
    Ok(())
}

/// Requests that are replied, over one link.
fn rows<G: Tallies + Send + Sync, R: Threads + Wait + Print + Sync>(
    rt: &R,
    alloc: Global,
    client: &mut Client<G>,
    peer: &mut Peer,
) -> Result<()>
    requires { G.parts ≡ 2 ^ 63 }
{
    let row = ("request", Way::Plain("hi"), Plan::Reply);
    ask::play(rt, alloc, client, peer, row)?;
    let row = ("with headers", Way::Headers("hey", "v"), Plan::Headers);
    ask::play(rt, alloc, client, peer, row)?;
    let row = ("own reply", Way::Plain("ho"), Plan::First);
    ask::play(rt, alloc, client, peer, row)?;
    play_crossed(rt, alloc, client, peer)?;
    let row = ("empty", Way::Plain(""), Plan::Reply);
    ask::play(rt, alloc, client, peer, row)
}

/// Requests that are replied, and what their hub came to.
pub(crate) fn play_asks<G: Tallies + Send + Sync, R: Threads + Wait + Print + Sync>(
    rt: &R,
    alloc: Global,
    blank: Blank,
) -> Result<()>
    requires name { blank.name ≡ G.name }
    requires parts { blank.parts ≡ G.parts }
    requires all { blank.parts ≡ 2 ^ 63 }
    requires kept { G.is_kept ≡ true }
{
    let mut client = hand::begin::<G, R>(rt, alloc, blank, hand::config(alloc)?, LIMIT)?;
    let mut peer = Peer::new(alloc);
    rows(rt, alloc, &mut client, &mut peer)?;
    hand::finishes(rt, alloc, client)
}
