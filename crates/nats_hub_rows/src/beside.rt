//! A hub beside one link in memory, from the first turn to the loss of the link.
ghost use Rattle.std.specs.Prelude.{◌≡◌, ◌^◌, true};

use crate::tells;
use anyhow::{Result, anyhow};
use nats_client::{Bytes, Client, Config, Hub, ServerInfo, Tallies, Turn, usual_server};
use nats_links::{
    LoopEnd, NoMemory, ReadOnce, WriteOnce, read_loop, read_once, tick_loop, write_loop, write_once,
};
use nats_names::Text;
use nats_outside::{Dialer, FakeClock, FakeDialer, FakeLink, FakeRead, FakeWrite};
use std::alloc::Global;
use std::net::{IpAddr, Ipv4Addr, SocketAddr};
use std::str;
use std::sync::Wait;
use std::sync::ledger::Blank;

/// The most bytes that the link gives at a read and takes at a write.
const MOST: usize = 16;

/// What the link gives: two messages and a ping.
const GIVEN: &[u8] = b"MSG a 1 2\r\nhi\r\nPING\r\nMSG a 1 3\r\nyes\r\n";

pub(crate) fn lacks(_: NoMemory) -> anyhow::Error {
    anyhow!("no memory")
}

/// Both halves of a link in memory.
pub(crate) fn halves(alloc: Global, link: FakeLink) -> Result<(FakeRead, FakeWrite)> {
    let mut dialer = FakeDialer::told(alloc, vec![in alloc; link]?);
    let to = SocketAddr::new(IpAddr::V4(Ipv4Addr::new(127, 0, 0, 1)), 4222);
    match dialer.dial(&to, 1_000) {
        Ok(halves) => Ok(halves),
        Err(_) => Err(anyhow!("no link")),
    }
}

fn end_word(end: LoopEnd) -> &'static str {
    match end {
        LoopEnd::Lost => "lost",
        LoopEnd::Gone => "gone",
        LoopEnd::NoMemory => "no memory",
    }
}

/// A link in memory that gives `GIVEN`.
fn given(alloc: Global) -> Result<(FakeRead, FakeWrite)> {
    let link = FakeLink::new(alloc, Bytes::from_static(GIVEN), MOST).map_err(lacks)?;
    halves(alloc, link)
}

/// Reads once and prints what came of it.
pub(crate) fn reads<G: Tallies, R: Wait + Print>(
    rt: &R,
    alloc: Global,
    hub: &Hub<G>,
    number: u64,
    from: &mut FakeRead,
) -> Result<()> {
    let mut buf = [0u8; MOST];
    match read_once(rt, alloc, hub, number, from, &mut buf).map_err(lacks)? {
        ReadOnce::Played(count) => println!(rt; "read_once: {count} bytes")?,
        ReadOnce::Lost => println!(rt; "read_once: lost")?,
        ReadOnce::Gone => println!(rt; "read_once: gone")?,
    }
    Ok(())
}

/// Writes once and prints what came of it. Whether bytes were written.
pub(crate) fn writes<G: Tallies, R: Wait + Print>(
    rt: &R,
    alloc: Global,
    hub: &Hub<G>,
    number: u64,
    out: &mut FakeWrite,
) -> Result<bool> {
    match write_once(rt, alloc, hub, number, out).map_err(lacks)? {
        WriteOnce::Wrote(count) => {
            println!(rt; "write_once: {count} bytes")?;
            return Ok(true);
        }
        WriteOnce::Idle => println!(rt; "write_once: idle")?,
        WriteOnce::Lost => println!(rt; "write_once: lost")?,
        WriteOnce::Gone => println!(rt; "write_once: gone")?,
    }
    Ok(false)
}

/// Writes until nothing waits, and prints the lines that the link took.
fn writes_all<G: Tallies, R: Wait + Print>(
    rt: &R,
    alloc: Global,
    hub: &Hub<G>,
    number: u64,
    out: &mut FakeWrite,
) -> Result<()> {
    for _ in 0..8u64 {
        if !writes(rt, alloc, hub, number, out)? {
            break;
        }
    }
    for line in str::from_utf8(out.taken()).unwrap_or("(bytes)").lines() {
        println!(rt; "taken: {line}")?;
    }
    Ok(())
}

/// A link that is up moves bytes until it ends.
fn moves<G: Tallies, R: Wait + Print>(
    rt: &R,
    alloc: Global,
    hub: &Hub<G>,
    number: u64,
    halves: (&mut FakeRead, &mut FakeWrite),
) -> Result<()> {
    let (from, out) = halves;
    reads(rt, alloc, hub, number, from)?;
    writes_all(rt, alloc, hub, number, out)?;
    let end = end_word(read_loop(rt, alloc, hub, number, from));
    println!(rt; "read_loop: {end}")?;
    Ok(())
}

/// Each call on a link that is over, whose writing half is shut.
fn gone<G: Tallies, R: Wait + Print>(
    rt: &R,
    alloc: Global,
    hub: &Hub<G>,
    number: u64,
    halves: (&mut FakeRead, &mut FakeWrite),
) -> Result<()> {
    let (from, out) = halves;
    reads(rt, alloc, hub, number, from)?;
    writes(rt, alloc, hub, number, out)?;
    let end = end_word(write_loop(rt, alloc, hub, number, out));
    println!(rt; "write_loop: {end}")?;
    let end = end_word(read_loop(rt, alloc, hub, number, from));
    println!(rt; "read_loop: {end}")?;
    Ok(())
}

/// A second link comes up and answers no tick.
fn ticks<G: Tallies, R: Wait + Print>(
    rt: &R,
    alloc: Global,
    client: &Client<G>,
    server: ServerInfo,
) -> Result<()> {
    let hub = client.hub();
    let _ = hub.play(rt, alloc, Turn::Up(server));
    let mut clock = FakeClock::told(vec![in alloc; 0u64]?);
    let end = end_word(tick_loop(rt, alloc, hub, hub.link(rt), &mut clock, 10));
    println!(rt; "tick_loop: {end}")?;
    tells::events(rt, alloc, client)
}

/// A server of this version.
fn server(alloc: Global) -> Result<ServerInfo> {
    let mut info = usual_server(alloc);
    info.version = Text::from_text(alloc, "2.10.18").map_err(lacks)?;
    Ok(info)
}

/// A client, before its first link, beside it, and once it is lost.
pub(crate) fn play<G: Tallies, R: Wait + Print>(rt: &R, alloc: Global, blank: Blank) -> Result<()>
    requires name { blank.name ≡ G.name }
    requires parts { blank.parts ≡ G.parts }
    requires all { blank.parts ≡ 2 ^ 63 }
    requires kept { G.is_kept ≡ true }
{
    let config = Config::new(alloc).map_err(lacks)?;
    let mut client = Client::<G>::over(alloc, blank, config, true, 7).map_err(lacks)?;
    tells::told(rt, alloc, &client, "before a link")?;
    let _ = client.hub().play(rt, alloc, Turn::Up(server(alloc)?));
    client.publish(rt, alloc, "a", Bytes::from_static(b"hello"))?;
    let (mut from, mut out) = given(alloc)?;
    let number = client.hub().link(rt);
    moves(rt, alloc, client.hub(), number, (&mut from, &mut out))?;
    tells::told(rt, alloc, &client, "once it is lost")?;
    gone(rt, alloc, client.hub(), number, (&mut from, &mut out))?;
    tells::events(rt, alloc, &client)?;
    ticks(rt, alloc, &client, server(alloc)?)
}
