//! The link of the example programs. It is played in memory: what the server sends is handed in, and what the client
//! sends is printed.
#![tactic(auto)]

ghost use Rattle.std.specs.Prelude.{◌≡◌, ◌^◌, false, IfOk};
ghost use Rattle.nats_hub.specs.Tallying.{is_do};

use anyhow::{Result, anyhow};
use nats_client::{Bytes, Client, Config, Hub, Tallies, Turn, usual_server};
use std::alloc::Global;
use std::str;
use std::sync::Wait;
use std::sync::ledger::Blank;

/// Plays a turn.
fn play<G: Tallies, R: Wait>(rt: &R, alloc: Global, hub: &Hub<G>, turn: Turn) -> Result<()>
    requires { is_do turn ≡ false }
{
    match hub.play(rt, alloc, turn) {
        Ok(_) => Ok(()),
        Err(error) => Err(anyhow!("{error:?}")),
    }
}

/// A client of default settings, whose link is up.
///
/// # Errors
///
/// Want of memory.
pub fn client<G: Tallies, R: Wait>(rt: &R, alloc: Global, blank: Blank) -> Result<Client<G>>
    requires name { blank.name ≡ G.name }
    requires parts { blank.parts ≡ G.parts }
    requires all { blank.parts ≡ 2 ^ 63 }
    requires kept { G.is_kept ≡ false }
    ensures { IfOk result (λ client. client.parts ≡ 2 ^ 63) }
{
    let Ok(config) = Config::new(alloc) else {
        return Err(anyhow!("no memory"));
    };
    match Client::over(alloc, blank, config, false, 1) {
        Ok(client) => {
            play(rt, alloc, client.hub(), Turn::Up(usual_server(alloc)))?;
            Ok(client)
        }
        Err(_) => Err(anyhow!("no memory")),
    }
}

/// The server sends these bytes.
///
/// # Errors
///
/// Want of memory, and bytes that end the link.
pub fn gives<G: Tallies, R: Wait>(
    rt: &R,
    alloc: Global,
    client: &Client<G>,
    bytes: &[u8],
) -> Result<()> {
    let piece = Bytes::copy_from_slice(alloc, bytes)?;
    play(rt, alloc, client.hub(), Turn::Piece(piece))
}

/// Prints what the client sends, which the link takes.
///
/// # Errors
///
/// Want of memory, and a standard output that fails.
pub fn takes<G: Tallies, R: Wait + Print>(rt: &R, alloc: Global, client: &Client<G>) -> Result<()> {
    let hub = client.hub();
    let mut count = 0u64;
    let Ok(pieces) = hub.pieces_on(rt, alloc, hub.link(rt)) else {
        return Err(anyhow!("no memory"));
    };
    for piece in pieces.iter().flatten() {
        let text = str::from_utf8(piece.as_slice()).unwrap_or("(bytes)\n");
        print!(rt; "> {text}")?;
        count = count.saturating_add(piece.len() as u64);
    }
    play(rt, alloc, hub, Turn::Write(count))
}
