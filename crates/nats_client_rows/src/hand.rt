//! A hub that is driven by hand.
ghost use Rattle.std.specs.Prelude.{◌≡◌, ◌^◌, true, false};
ghost use Rattle.nats_hub.specs.Tallying.{is_do};

use anyhow::{Result, anyhow};
use nats_client::{Audit, Client, Config, FinishError, Hub, Tallies};
use nats_core::{Bytes, Turn, usual_server};
use std::alloc::Global;
use std::str;
use std::sync::Wait;
use std::sync::ledger::Blank;

/// Plays a turn.
pub(crate) fn play<G: Tallies, R: Wait>(
    rt: &R,
    alloc: Global,
    hub: &Hub<G>,
    turn: Turn,
) -> Result<()>
    requires { is_do turn ≡ false }
{
    match hub.play(rt, alloc, turn) {
        Ok(_) => Ok(()),
        Err(error) => Err(anyhow!("{error:?}")),
    }
}

/// A link comes up.
pub(crate) fn up<G: Tallies, R: Wait>(rt: &R, alloc: Global, hub: &Hub<G>) -> Result<()> {
    play(rt, alloc, hub, Turn::Up(usual_server(alloc)))
}

/// A client over a new hub of default settings, whose link is up.
pub(crate) fn begin<G: Tallies, R: Wait>(rt: &R, alloc: Global, blank: Blank) -> Result<Client<G>>
    requires name { blank.name ≡ G.name }
    requires parts { blank.parts ≡ G.parts }
    requires all { blank.parts ≡ 2 ^ 63 }
    requires kept { G.is_kept ≡ true }
{
    let Ok(config) = Config::new(alloc) else {
        return Err(anyhow!("no memory"));
    };
    match Client::over(alloc, blank, config, true, 7) {
        Ok(client) => {
            up(rt, alloc, client.hub())?;
            Ok(client)
        }
        Err(_) => Err(anyhow!("no memory")),
    }
}

/// The link gives these bytes.
pub(crate) fn gives<G: Tallies, R: Wait>(
    rt: &R,
    alloc: Global,
    hub: &Hub<G>,
    bytes: &'static [u8],
) -> Result<()> {
    play(rt, alloc, hub, Turn::Piece(Bytes::from_static(bytes)))
}

/// Prints the lines of a piece, each with a bar behind it.
fn show<R: Print>(rt: &R, piece: &Bytes) -> Result<()> {
    let text = str::from_utf8(piece.as_slice()).unwrap_or("(bytes)");
    for line in text.lines() {
        print!(rt; " {line} |")?;
    }
    Ok(())
}

/// The link takes what waits for it, which is printed behind the name of what was called.
pub(crate) fn takes<G: Tallies, R: Wait + Print>(
    rt: &R,
    alloc: Global,
    hub: &Hub<G>,
    name: &str,
) -> Result<()> {
    print!(rt; "{name}:")?;
    let mut count = 0u64;
    let pieces = hub
        .pieces_on(rt, alloc, hub.link(rt))
        .ok()
        .ok_or(anyhow!("no memory"))?;
    if let Some(pieces) = pieces {
        for piece in pieces.iter() {
            show(rt, piece)?;
            count = count.saturating_add(piece.len() as u64);
        }
    }
    println!(rt; "")?;
    play(rt, alloc, hub, Turn::Write(count))
}

/// Prints what a hub came to: how many accepted calls its holders made, and how many its journal has.
pub(crate) fn finishes<G: Tallies, R: Wait + Print>(
    rt: &R,
    alloc: Global,
    client: Client<G>,
) -> Result<Audit>
    requires { G.parts ≡ 2 ^ 63 }
{
    match client.finish(rt, alloc) {
        Ok(audit) => {
            let (made, accepted) = (audit.tally.made, audit.tally.accepted);
            println!(rt; "made {made} accepted {accepted}")?;
            Ok(audit)
        }
        Err(FinishError::Held(_)) => Err(anyhow!("held")),
        Err(FinishError::NoMemory(_)) => Err(anyhow!("no memory")),
    }
}
