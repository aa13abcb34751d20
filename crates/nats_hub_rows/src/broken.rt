//! Links that fail: what a read or a write answers then, and which turns the journal has.
ghost use Rattle.std.specs.Prelude.{◌≡◌, ◌^◌, ◌<◌, true};

use crate::beside::{halves, lacks, reads, writes};
use anyhow::{Result, anyhow};
use nats_client::{Audit, Bytes, Client, Config, FinishError, Hub, Tallies, Turn, usual_server};
use nats_core::Entry;
use nats_outside::FakeLink;
use std::alloc::Global;
use std::sync::Wait;
use std::sync::ledger::Blank;

/// How many bytes the link takes before it fails.
const TAKEN: usize = 3;

/// A link whose first read fails: its loss is played.
fn read_fails<G: Tallies, R: Wait + Print>(rt: &R, alloc: Global, hub: &Hub<G>) -> Result<()> {
    let link = FakeLink::failing(
        alloc,
        Bytes::from_static(b"PING\r\n"),
        TAKEN,
        vec![in alloc; 1u64]?,
        Vec::new(alloc),
    )
    .map_err(lacks)?;
    let (mut from, _out) = halves(alloc, link)?;
    reads(rt, alloc, hub, hub.link(rt), &mut from)
}

/// A link that fails once it took three bytes: these are played, and then its loss.
fn write_fails<G: Tallies, R: Wait + Print>(rt: &R, alloc: Global, hub: &Hub<G>) -> Result<()> {
    let link = FakeLink::failing(
        alloc,
        Bytes::from_static(b""),
        TAKEN,
        Vec::new(alloc),
        vec![in alloc; 2u64]?,
    )
    .map_err(lacks)?;
    let (_from, mut out) = halves(alloc, link)?;
    let number = hub.link(rt);
    writes(rt, alloc, hub, number, &mut out)?;
    writes(rt, alloc, hub, number, &mut out)?;
    Ok(())
}

/// Prints a turn of a journal.
fn print_turn<R: Print>(rt: &R, entry: &Entry) -> Result<()> {
    match &entry.turn {
        Turn::Up(_) => println!(rt; "journal: up")?,
        Turn::Do(_) => println!(rt; "journal: do")?,
        Turn::Write(count) => println!(rt; "journal: write {count}")?,
        Turn::Lost => println!(rt; "journal: lost")?,
        _ => println!(rt; "journal: another turn")?,
    }
    Ok(())
}

fn print_journal<R: Print>(rt: &R, audit: &Audit) -> Result<()> {
    for entry in audit.journal.as_slice() {
        print_turn(rt, entry)?;
    }
    Ok(())
}

/// Two links, of which one fails as it is read, and one as it is written, and then the journal.
pub(crate) fn play_broken<G: Tallies, R: Wait + Print>(
    rt: &R,
    alloc: Global,
    blank: Blank,
) -> Result<()>
    requires name { blank.name ≡ G.name }
    requires parts { blank.parts ≡ G.parts }
    requires all { blank.parts ≡ 2 ^ 63 }
    requires kept { G.is_kept ≡ true }
{
    let config = Config::new(alloc).map_err(lacks)?;
    let mut client = Client::<G>::over(alloc, blank, config, true, 7).map_err(lacks)?;
    let _ = client.hub().play(rt, alloc, Turn::Up(usual_server(alloc)));
    read_fails(rt, alloc, client.hub())?;
    let _ = client.hub().play(rt, alloc, Turn::Up(usual_server(alloc)));
    client.publish(rt, alloc, "a", Bytes::from_static(b"hello"))?;
    write_fails(rt, alloc, client.hub())?;
    match client.finish(rt, alloc) {
        Ok(audit) => print_journal(rt, &audit),
        Err(FinishError::Held(_) | FinishError::NoMemory(_)) => Err(anyhow!("no audit")),
    }
}
