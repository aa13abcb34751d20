//! A hub that is driven by hand.
ghost use Rattle.std.specs.Prelude.{◌≡◌, ◌^◌, true, false};
ghost use Rattle.nats_hub.specs.Tallying.{is_do};

use anyhow::{Result, anyhow};
use nats_client::{Client, Config, FinishError, Hub, Tallies, Turn, usual_server};
use nats_outside::FakeClock;
use std::alloc::Global;
use std::str;
use std::sync::Wait;
use std::sync::ledger::Blank;

/// What a subject begins with at which a request without an inbox of its own asks for replies.
pub(crate) const INBOX: &str = "_INBOX.MUX1.";

/// Plays a turn.
pub(crate) fn play<G: Tallies, R: Wait>(
    rt: &R,
    alloc: Global,
    hub: &Hub<G>,
    turn: Turn,
) -> Result<()>
    requires { is_do turn ≡ false }
{
    match hub.play(rt, alloc, turn) {
        Ok(_) => Ok(()),
        Err(error) => Err(anyhow!("{error:?}")),
    }
}

/// A link comes up, whose server takes messages of so many bytes.
pub(crate) fn up<G: Tallies, R: Wait>(
    rt: &R,
    alloc: Global,
    hub: &Hub<G>,
    limit: u64,
) -> Result<()> {
    let mut server = usual_server(alloc);
    server.max_payload = limit;
    play(rt, alloc, hub, Turn::Up(server))
}

/// The default settings.
pub(crate) fn config(alloc: Global) -> Result<Config> {
    match Config::new(alloc) {
        Ok(config) => Ok(config),
        Err(_) => Err(anyhow!("no memory")),
    }
}

/// A client over a new hub of these settings, whose link is up.
pub(crate) fn begin<G: Tallies, R: Wait>(
    rt: &R,
    alloc: Global,
    blank: Blank,
    config: Config,
    limit: u64,
) -> Result<Client<G>>
    requires name { blank.name ≡ G.name }
    requires parts { blank.parts ≡ G.parts }
    requires all { blank.parts ≡ 2 ^ 63 }
    requires kept { G.is_kept ≡ true }
{
    match Client::over(alloc, blank, config, true, 7) {
        Ok(client) => {
            up(rt, alloc, client.hub(), limit)?;
            Ok(client)
        }
        Err(_) => Err(anyhow!("no memory")),
    }
}

/// A clock that stands still.
pub(crate) fn still(alloc: Global) -> Result<FakeClock> {
    Ok(FakeClock::told(vec![in alloc; 0u64]?))
}

/// A clock that stands at 0, then one millisecond before so many milliseconds, and then there.
pub(crate) fn ending(alloc: Global, end: u64) -> Result<FakeClock> {
    Ok(FakeClock::told(vec![in alloc; 0u64, end.saturating_sub(1), end]?))
}

/// Takes what waits for the link, if one is up: its text.
pub(crate) fn takes<G: Tallies, R: Wait>(rt: &R, alloc: Global, hub: &Hub<G>) -> Result<String> {
    let mut text = String::new(alloc);
    let mut count = 0u64;
    let pieces = hub
        .pieces_on(rt, alloc, hub.link(rt))
        .ok()
        .ok_or(anyhow!("no memory"))?;
    if let Some(pieces) = pieces {
        for piece in pieces.iter() {
            text.push_str(str::from_utf8(piece.as_slice()).unwrap_or("(bytes)"))?;
            count = count.saturating_add(piece.len() as u64);
        }
        play(rt, alloc, hub, Turn::Write(count))?;
    }
    Ok(text)
}

/// Adds a word of a line. Of the token of an inbox only its length is told.
fn add_word(alloc: Global, line: &mut String, word: &str) -> Result<()> {
    line.push_str(" ")?;
    match word.strip_prefix(INBOX) {
        Some("*") | None => line.push_str(word)?,
        Some(token) => {
            line.push_str(format!(in alloc; "{INBOX}({})", token.len())?.as_str())?;
        }
    }
    Ok(())
}

/// The lines of a text, each with a bar behind it.
pub(crate) fn shown(alloc: Global, text: &str) -> Result<String> {
    let mut line = String::new(alloc);
    'lines: for words in text.lines() {
        'words: for word in words.split(' ') {
            add_word(alloc, &mut line, word)?;
        }
        line.push_str(" |")?;
    }
    Ok(line)
}

/// Prints what a hub came to: how many accepted calls its holders made, and how many its journal has.
pub(crate) fn finishes<G: Tallies, R: Wait + Print>(
    rt: &R,
    alloc: Global,
    client: Client<G>,
) -> Result<()>
    requires { G.parts ≡ 2 ^ 63 }
{
    match client.finish(rt, alloc) {
        Ok(audit) => {
            let (made, accepted) = (audit.tally.made, audit.tally.accepted);
            println!(rt; "made {made} accepted {accepted}")?;
            Ok(())
        }
        Err(FinishError::Held(_)) => Err(anyhow!("held")),
        Err(FinishError::NoMemory(_)) => Err(anyhow!("no memory")),
    }
}
