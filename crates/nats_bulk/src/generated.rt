//! The list of turns.
ghost use Rattle.std.specs.Prelude.{◌≡◌, IfOk, codes};
ghost use Rattle.nats_bulk.specs.Generated as words;

use nats_history::{Call, Config, NoMemory, Turn};
use nats_wire::{Bytes, OutboundMessage, ServerInfo, Subject, Token};
use std::alloc::Global;

/// How large a payload the link's server takes, in bytes.
const MAX_PAYLOAD: u64 = 1_048_576;

/// How many bytes the link takes at a time, and how many at the end of each round.
const WRITTEN: u64 = 64;

const WRITTEN_LAST: u64 = 1_000_000;

fn mux_id() -> Token
    ensures { result ≡ codes "BULK" }
{
    match Token::new("BULK") {
        Some(id) => id,
        None => unreachable!(),
    }
}

/// The settings under which the list is played: 2,048 calls and 65,536 messages of a subscription may wait, and
/// subjects are tested.
pub fn bulk_config(alloc: Global) -> Result<Config, NoMemory>
    ensures { IfOk result (λ config. config ≡ words.bulk_config) }
{
    Ok(Config {
        client_capacity: 2048,
        subscription_capacity: 65_536,
        skip_subject_validation: false,
        inbox_prefix: Subject::from_text(alloc, "_INBOX")?,
        mux_id: mux_id(),
    })
}

fn publish(alloc: Global, k: u64) -> Result<Turn, NoMemory>
    ensures { IfOk result (λ turn. turn ≡ words.publishing k) }
{
    let payload = format!(in alloc; "{k}")?;
    Ok(Turn::Do(Call::Publish(OutboundMessage {
        subject: Subject::from_text(alloc, "bulk.a")?,
        reply: None,
        payload: Bytes::copy_from_slice(alloc, payload.as_bytes())?,
        headers: None,
    })))
}

fn message(alloc: Global, start: &str, k: u64) -> Result<Turn, NoMemory>
    ensures { IfOk result (λ turn. turn ≡ words.message_of start.now k) }
{
    let payload = format!(in alloc; "{k}")?;
    let text = format!(in alloc; "{start}{}\r\n{payload}\r\n", payload.len())?;
    Ok(Turn::Piece(Bytes::copy_from_slice(alloc, text.as_bytes())?))
}

fn turn_at(alloc: Global, k: u64) -> Result<Turn, NoMemory>
    ensures { IfOk result (λ turn. turn ≡ words.turn_at k) }
{
    match k % 8 {
        1 => publish(alloc, k),
        2 => message(alloc, "MSG bulk.a 1 ", k),
        3 => Ok(Turn::Take(1)),
        4 => message(alloc, "MSG bulk.b 2 ", k),
        5 => Ok(Turn::Write(WRITTEN)),
        6 => Ok(Turn::Do(Call::Flush)),
        7 => Ok(Turn::Take(2)),
        _ => Ok(Turn::Write(WRITTEN_LAST)),
    }
}

fn subscribe(alloc: Global, subject: &str) -> Result<Turn, NoMemory>
    ensures { IfOk result (λ turn. turn ≡ words.subscribing_to subject.now) }
{
    Ok(Turn::Do(Call::Subscribe {
        subject: Subject::from_text(alloc, subject)?,
        queue_group: None,
    }))
}

fn opening(alloc: Global) -> Result<Vec<Turn>, NoMemory>
    ensures { IfOk result (λ turns. turns.items ≡ words.opening) }
{
    let mut info = ServerInfo::default(alloc);
    info.max_payload = MAX_PAYLOAD;
    let mut turns = Vec::new(alloc);
    turns.push(Turn::Up(info))?;
    turns.push(subscribe(alloc, "bulk.a")?)?;
    turns.push(subscribe(alloc, "bulk.b")?)?;
    Ok(turns)
}

/// The list: a link comes up, two subscriptions are made, and then a turn for each number from 1 to `count`, of
/// eight kinds that come round and round: a publish, a message and its take for each subscription, writes and a
/// flush.
///
/// # Errors
///
/// For want of memory.
pub fn bulk_turns(alloc: Global, count: u64) -> Result<Vec<Turn>, NoMemory>
    ensures { IfOk result (λ turns. turns.items ≡ words.generated count) }
{
    let mut turns = opening(alloc)?;
    for k in 0..count {
        turns.push(turn_at(alloc, k + 1)?)?;
    }
    Ok(turns)
}
