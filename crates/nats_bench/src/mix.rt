//! The list of turns that is played.
ghost use Rattle.std.specs.Prelude.{◌<◌, length, IfOk};

use nats_session::{Bytes, Call, NoMemory, ServerInfo, Subject, Turn};
use std::alloc::Global;

/// How many subscriptions there are; their numbers begin at 1.
const SUBSCRIPTIONS: u64 = 100;

/// How many bytes the link takes at a time.
const WRITTEN: u64 = 64;

fn subscribe(alloc: Global, number: u64) -> Result<Turn, NoMemory> {
    let subject = format!(in alloc; "bench.{number}")?;
    Ok(Turn::Do(Call::Subscribe {
        subject: Subject::from_text(alloc, subject.as_str())?,
        queue_group: None,
    }))
}

fn message(alloc: Global, number: u64) -> Result<Turn, NoMemory> {
    let text = format!(in alloc; "MSG bench.{number} {number} 11\r\nHello World\r\n")?;
    let bytes = Bytes::copy_from_slice(alloc, text.as_bytes())?;
    Ok(Turn::Piece(bytes))
}

/// The turns that a list begins with: the link comes up, and each subscription is made.
fn opening(alloc: Global) -> Result<Vec<Turn>, NoMemory> {
    let mut turns = Vec::new(alloc);
    turns.push(Turn::Up(ServerInfo::default(alloc)))?;
    for number in 1..=SUBSCRIPTIONS {
        turns.push(subscribe(alloc, number)?)?;
    }
    Ok(turns)
}

/// The turns that then come round and round: a message for each subscription, which is taken at once, and at the
/// end a take where none waits.
fn round(alloc: Global) -> Result<Vec<Turn>, NoMemory>
    ensures { IfOk result (λ turns. 0 < length turns.items) }
{
    let mut turns = Vec::new(alloc);
    for number in 1..=SUBSCRIPTIONS {
        turns.push(message(alloc, number)?)?;
        turns.push(Turn::Take(number))?;
        turns.push(Turn::Write(WRITTEN))?;
    }
    turns.push(Turn::Take(SUBSCRIPTIONS))?;
    Ok(turns)
}

fn turn_at<'a>(opening: &'a [Turn], round: &'a [Turn], index: usize) -> &'a Turn
    requires { 0 < length round.now }
{
    if index < opening.len() {
        &opening[index]
    } else {
        &round[(index - opening.len()) % round.len()]
    }
}

/// The mixed list of `count` turns: the opening, then the round again and again, cut where it is long enough. Equal
/// pieces share their bytes.
pub fn mixed_turns(alloc: Global, count: usize) -> Result<Vec<Turn>, NoMemory> {
    let opening = opening(alloc)?;
    let round = round(alloc)?;
    let mut turns = Vec::new(alloc);
    for index in 0..count {
        let turn = turn_at(opening.as_slice(), round.as_slice(), index);
        turns.push(turn.copy(alloc)?)?;
    }
    Ok(turns)
}
