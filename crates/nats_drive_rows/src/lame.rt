//! A server that is about to stop and names another, and the client that goes there once it is gone.
ghost use Rattle.std.specs.Prelude.{◌≡◌, ◌^◌, false};

use crate::client::{take, wait_for_end};
use crate::server::{greet, hear, hear_end, told};
use anyhow::{Result, anyhow};
use nats_client::{Client, Tallies};
use nats_drive::{Connected, Starter, World, connect_with_options};
use nats_pool::ConnectOptions;
use std::alloc::Global;
use std::io::{Read, Write};
use std::net::{SocketAddr, TcpListener};
use std::sync::Wait;
use std::sync::ledger::Blank;

/// The events that were not handed out yet, each on a line of its own.
fn events<G: Tallies, R: Wait>(
    rt: &R,
    alloc: Global,
    client: &Client<G>,
    out: &mut String,
) -> Result<()> {
    for _ in rt.forever() {
        let Some(event) = client.poll_event(rt) else {
            return Ok(());
        };
        out.push_str(format!(in alloc; "event: {event}\n")?.as_str())?;
    }
    unreachable!()
}

/// Subscribes, takes a message from each server and drains: what came, and all events.
fn work<G: Tallies, R: Wait>(rt: &R, alloc: Global, client: &mut Client<G>) -> Result<String> {
    let mut out = String::new(alloc);
    let mut subscriber = client.subscribe(rt, alloc, "a")?;
    take(rt, alloc, &mut subscriber, &mut out)?;
    take(rt, alloc, &mut subscriber, &mut out)?;
    client.drain(rt, alloc)?;
    wait_for_end(rt, alloc, &mut subscriber, &mut out)?;
    events(rt, alloc, client, &mut out)?;
    Ok(out)
}

/// Connects to the server that is about to stop, and goes on at the one that it names.
pub fn follow<
    G: Tallies + Send + Sync + 'static,
    R: Wait + Copy + Drop + Send + 'static,
    P: Starter,
    W: World + Drop + Send + 'static,
>(rt: &R, alloc: Global, blank: Blank, starter: &mut P, world: W, addr: String) -> Result<String>
where
    W::Read: Send + 'static,
    W::Write: Send + 'static,
    W::Ticks: Send + 'static,
    requires name { blank.name ≡ G.name }
    requires parts { blank.parts ≡ G.parts }
    requires all { blank.parts ≡ 2 ^ 63 }
    requires kept { G.is_kept ≡ false }
{
    let options = ConnectOptions::new();
    match connect_with_options::<G, R, P, W, String>(
        rt, alloc, blank, starter, world, addr, options,
    ) {
        Ok(Connected { mut client, .. }) => work(rt, alloc, &mut client),
        Err(refused) => Err(anyhow!("{}", refused.error)),
    }
}

/// The link on which the server says that it is about to stop, that there is another, and a message behind it.
fn stop<S: Read + Write>(
    alloc: Global,
    stream: &mut S,
    heard: &mut Vec<u8>,
    other: SocketAddr,
) -> Result<()> {
    greet(stream, heard)?;
    let info = format!(in alloc;
        "INFO {{\"max_payload\":100,\"ldm\":true,\"connect_urls\":[\"{other}\"]}}\r\n"
    )?;
    stream.write_all(info.as_bytes())?;
    Ok(stream.write_all(b"MSG a 1 2\r\nhi\r\n")?)
}

/// The link to the other server, on which the client drains.
fn go_on<S: Read + Write>(stream: &mut S, heard: &mut Vec<u8>) -> Result<()> {
    greet(stream, heard)?;
    stream.write_all(b"MSG a 1 3\r\nyou\r\n")?;
    hear(stream, heard, b"UNSUB 1\r\nPING\r\n")?;
    stream.write_all(b"PONG\r\n")?;
    hear_end(stream)
}

/// Plays both servers, the first of which is gone for good once its link ended, and tells the commands that they heard.
pub fn serve(alloc: Global, first: TcpListener, second: &TcpListener) -> Result<String> {
    let mut out = String::new(alloc);
    let mut heard = Vec::new(alloc);
    let (mut stream, _) = first.accept()?;
    stop(alloc, &mut stream, &mut heard, second.local_addr()?)?;
    drop(first);
    drop(stream);
    told(alloc, "lame server", heard.as_slice(), &mut out)?;
    let mut heard = Vec::new(alloc);
    let (mut stream, _) = second.accept()?;
    go_on(&mut stream, &mut heard)?;
    told(alloc, "other server", heard.as_slice(), &mut out)?;
    Ok(out)
}
