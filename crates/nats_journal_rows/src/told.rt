//! A client whose calls are all kept.
ghost use Rattle.std.specs.Prelude.{◌≡◌, ◌<◌, ◌^◌, true};

use crate::calls::{ask, end, publish, subscribe};
use crate::entries::line_of;
use anyhow::{Result, anyhow};
use nats_client::{
    Audit, Bytes, Client, Config, FinishError, Subscriber, TakeReply, Tallies, Turn, usual_server,
};
use nats_core::{ReadOnce, WriteOnce};
use nats_links::{read_once, write_once};
use nats_outside::{Dialer, FakeDialer, FakeLink, FakeRead, FakeWrite};
use std::alloc::Global;
use std::net::{Ipv4Addr, SocketAddr};
use std::sync::Wait;
use std::sync::ledger::Blank;

/// How many bytes the link takes at a write.
const TAKEN: usize = 7;

/// How many bytes are read at most.
const ROOM: usize = 64;

/// What stands behind each subject, reply, group and payload.
#[derive(Clone, Copy)]
pub(crate) enum Tail {
    /// Nothing.
    Empty,
    /// The letter `z`.
    Z,
}

impl Tail {
    /// The first text where nothing stands behind it, else the second.
    pub(crate) fn of(self, plain: &'static str, tailed: &'static str) -> &'static str {
        match self {
            Tail::Empty => plain,
            Tail::Z => tailed,
        }
    }

    /// The bytes of the first text where nothing stands behind it, else of the second.
    pub(crate) fn bytes(self, plain: &'static str, tailed: &'static str) -> Bytes {
        Bytes::from_static(self.of(plain, tailed).as_bytes())
    }
}

/// The halves of a link that gives these bytes, at most so many at once, and takes as many at once.
fn halves(alloc: Global, bytes: Bytes, most: usize) -> Result<(FakeRead, FakeWrite)>
    requires { 0 < most }
{
    let link = FakeLink::new(alloc, bytes, most)?;
    let mut dialer = FakeDialer::told(alloc, vec![in alloc; link]?);
    match dialer.dial(&SocketAddr::from((Ipv4Addr::LOCALHOST, 4_222)), 1_000) {
        Ok(halves) => Ok(halves),
        Err(_) => Err(anyhow!("no link")),
    }
}

/// The link gives a message at once.
fn read<G: Tallies, R: Wait>(rt: &R, alloc: Global, client: &Client<G>, tail: Tail) -> Result<()> {
    let bytes = tail.bytes("MSG h 1 2\r\nhi\r\n", "MSG hz 1 3\r\nhiz\r\n");
    let (mut from, _out) = halves(alloc, bytes, ROOM)?;
    let mut buf = [0u8; ROOM];
    let hub = client.hub();
    match read_once(rt, alloc, hub, hub.link(rt), &mut from, &mut buf)? {
        ReadOnce::Played(_) => Ok(()),
        ReadOnce::Lost | ReadOnce::Gone => Err(anyhow!("nothing was read")),
    }
}

/// The link takes seven bytes of what waits.
fn write<G: Tallies, R: Wait>(rt: &R, alloc: Global, client: &Client<G>) -> Result<()> {
    let (_from, mut out) = halves(alloc, Bytes::new(), TAKEN)?;
    let hub = client.hub();
    match write_once(rt, alloc, hub, hub.link(rt), &mut out)? {
        WriteOnce::Wrote(_) => Ok(()),
        WriteOnce::Idle | WriteOnce::Lost | WriteOnce::Gone => Err(anyhow!("nothing was written")),
    }
}

/// The first subscriber takes a message.
fn take<G: Tallies, R: Wait>(
    rt: &R,
    alloc: Global,
    subscribers: &mut [Subscriber<G>],
) -> Result<()> {
    let [first, ..] = subscribers else {
        return Err(anyhow!("no subscription"));
    };
    match first.poll_next(rt, alloc)? {
        TakeReply::Message(_) => Ok(()),
        TakeReply::Empty | TakeReply::Ended => Err(anyhow!("no message")),
    }
}

/// Closes the subscribers into a client, the first first.
fn close<G: Tallies, R: Wait>(
    rt: &R,
    alloc: Global,
    client: &mut Client<G>,
    subscribers: Vec<Subscriber<G>>,
) -> Result<()>
    requires { G.parts ≡ 2 ^ 63 }
{
    for subscriber in subscribers {
        if subscriber.close(rt, alloc, client).is_err() {
            return Err(anyhow!("no memory"));
        }
    }
    Ok(())
}

/// Makes each call once, beside a link that gives a message and takes seven bytes.
fn work<G: Tallies, R: Wait>(
    rt: &R,
    alloc: Global,
    client: &mut Client<G>,
    tail: Tail,
) -> Result<()>
    requires { G.parts ≡ 2 ^ 63 }
{
    publish(rt, alloc, client, tail)?;
    let mut subscribers = subscribe(rt, alloc, client, tail)?;
    ask(rt, alloc, client, tail)?;
    read(rt, alloc, client, tail)?;
    take(rt, alloc, subscribers.as_mut_slice())?;
    write(rt, alloc, client)?;
    end(rt, alloc, client, subscribers.as_mut_slice())?;
    close(rt, alloc, client, subscribers)
}

/// A client of a new hub that keeps its journal, whose link is up.
pub(crate) fn begin<G: Tallies, R: Wait>(rt: &R, alloc: Global, blank: Blank) -> Result<Client<G>>
    requires name { blank.name ≡ G.name }
    requires parts { blank.parts ≡ G.parts }
    requires all { blank.parts ≡ 2 ^ 63 }
    requires kept { G.is_kept ≡ true }
{
    let client = Client::over(alloc, blank, Config::new(alloc)?, true, 7)?;
    match client.hub().play(rt, alloc, Turn::Up(usual_server(alloc))) {
        Ok(_) => Ok(client),
        Err(_) => Err(anyhow!("no link came up")),
    }
}

/// Prints what a hub came to, and each entry of its journal.
fn show<R: Print>(rt: &R, alloc: Global, audit: &Audit) -> Result<()> {
    let (made, accepted) = (audit.tally.made, audit.tally.accepted);
    let count = audit.journal.len();
    println!(rt; "made {made}, accepted {accepted}, entries {count}")?;
    for entry in audit.journal.as_slice() {
        println!(rt; "entry:{}", line_of(alloc, entry)?.as_str())?;
    }
    Ok(())
}

/// What the hub came to of a client that made each call once, with this behind its words. It is printed.
pub(crate) fn kept<G: Tallies, R: Wait + Print>(
    rt: &R,
    alloc: Global,
    blank: Blank,
    tail: Tail,
) -> Result<Audit>
    requires name { blank.name ≡ G.name }
    requires parts { blank.parts ≡ G.parts }
    requires all { blank.parts ≡ 2 ^ 63 }
    requires kept { G.is_kept ≡ true }
{
    let mut client = begin::<G, R>(rt, alloc, blank)?;
    work(rt, alloc, &mut client, tail)?;
    match client.finish(rt, alloc) {
        Ok(audit) => {
            show(rt, alloc, &audit)?;
            Ok(audit)
        }
        Err(FinishError::Held(_) | FinishError::NoMemory(_)) => Err(anyhow!("no audit")),
    }
}
