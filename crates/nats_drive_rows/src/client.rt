//! The client.
ghost use Rattle.std.specs.Prelude.{◌≡◌, ◌^◌, false};

use crate::pool;
use anyhow::{Result, anyhow};
use nats_client::{Bytes, Client, Subscriber, Tallies};
use nats_drive::{Connected, Servers, Starter, World, connect_with_options};
use nats_pool::{ConnectOptions, ServerPool};
use std::alloc::Global;
use std::sync::Wait;
use std::sync::ledger::Blank;

/// Takes a message, and puts its payload on a line.
pub fn take<G: Tallies, R: Wait>(
    rt: &R,
    alloc: Global,
    subscriber: &mut Subscriber<G>,
    out: &mut String,
) -> Result<()> {
    let Some(message) = subscriber.next(rt, alloc)? else {
        return Err(anyhow!("the subscription ended"));
    };
    let Ok(text) = std::str::from_utf8(message.payload.as_slice()) else {
        return Err(anyhow!("the payload is no text"));
    };
    Ok(out.push_str(format!(in alloc; "took {text}\n")?.as_str())?)
}

/// Subscribes, takes a message on each link, publishes and drains; and asks for the pool meanwhile and after it.
fn work<G: Tallies, Q: ServerPool, R: Wait>(
    rt: &R,
    alloc: Global,
    client: &mut Client<G>,
    servers: &Servers<G, Q>,
) -> Result<String> {
    let mut out = String::new(alloc);
    let mut subscriber = client.subscribe(rt, alloc, "a")?;
    take(rt, alloc, &mut subscriber, &mut out)?;
    take(rt, alloc, &mut subscriber, &mut out)?;
    pool::while_open(rt, alloc, servers, &mut out)?;
    client.publish(rt, alloc, "b", Bytes::copy_from_slice(alloc, b"done")?)?;
    client.drain(rt, alloc)?;
    wait_for_end(rt, alloc, &mut subscriber, &mut out)?;
    pool::once_closed(rt, alloc, servers, &mut out)?;
    Ok(out)
}

/// Waits until the subscription ended, which is once the session is closed.
pub fn wait_for_end<G: Tallies, R: Wait>(
    rt: &R,
    alloc: Global,
    subscriber: &mut Subscriber<G>,
    out: &mut String,
) -> Result<()> {
    let last = subscriber.next(rt, alloc);
    let is_over = matches!(last, Ok(None));
    drop(last);
    if !is_over {
        return Err(anyhow!("the subscription went on"));
    }
    Ok(out.push_str("drained\n")?)
}

/// Connects on default options, and works.
pub fn play<
    G: Tallies + Send + Sync + 'static,
    R: Wait + Copy + Drop + Send + 'static,
    P: Starter,
    W: World + Drop + Send + 'static,
>(rt: &R, alloc: Global, blank: Blank, starter: &mut P, world: W, addr: String) -> Result<String>
where
    W::Read: Send + 'static,
    W::Write: Send + 'static,
    W::Ticks: Send + 'static,
    requires name { blank.name ≡ G.name }
    requires parts { blank.parts ≡ G.parts }
    requires all { blank.parts ≡ 2 ^ 63 }
    requires kept { G.is_kept ≡ false }
{
    let options = ConnectOptions::new();
    match connect_with_options::<G, R, P, W, String>(
        rt, alloc, blank, starter, world, addr, options,
    ) {
        Ok(connected) => {
            let Connected {
                mut client,
                servers,
            } = connected;
            work(rt, alloc, &mut client, &servers)
        }
        Err(_) => Err(anyhow!("no link came up")),
    }
}
