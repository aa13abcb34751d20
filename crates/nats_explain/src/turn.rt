//! Why a turn may not come where it stands.
use nats_script::NoMemory;
use nats_session::{Call, Config, LinkWord, RunError, Transcript, Turn, run};
use std::alloc::Global;

fn ends_up(transcript: &Transcript) -> bool {
    match transcript.links.as_slice().last() {
        Some(link) => link.end == LinkWord::Up,
        None => false,
    }
}

/// Whether a link is up behind these turns.
fn is_up(alloc: Global, config: &Config, turns: &[Turn]) -> Result<bool, NoMemory> {
    match run(alloc, config.copy(alloc)?, turns) {
        Ok(transcript) => Ok(ends_up(&transcript)),
        Err(RunError::OutOfTurn { place: _ }) => Ok(false),
        Err(RunError::NoMemory) => Err(NoMemory),
    }
}

/// The number of the subscription that a call names.
fn named(call: &Call) -> u64 {
    match call {
        Call::Unsubscribe(s) | Call::Limit(s, _) | Call::Drain(s) | Call::DropSub(s) => *s,
        Call::Publish(_)
        | Call::Subscribe { .. }
        | Call::DrainAll
        | Call::Flush
        | Call::Request { .. }
        | Call::Reconnect => 0,
    }
}

fn no_subscription(alloc: Global, s: u64) -> Result<String, NoMemory> {
    Ok(format!(in alloc; "no subscription {s} was given, or it was let go")?)
}

/// Why no link may come up, and connecting may not be given up.
fn no_new_link(alloc: Global, is_up: bool) -> Result<String, NoMemory> {
    Ok(String::from_str(
        alloc,
        if is_up {
            "a link is up already"
        } else {
            "the session is closed"
        },
    )?)
}

/// Why a turn may not come behind these.
fn why(alloc: Global, config: &Config, before: &[Turn], turn: &Turn) -> Result<String, NoMemory> {
    match turn {
        Turn::Piece(_) | Turn::Write(_) | Turn::Tick | Turn::Lost => {
            Ok(String::from_str(alloc, "no link is up")?)
        }
        Turn::Up(_) | Turn::GiveUp => no_new_link(alloc, is_up(alloc, config, before)?),
        Turn::Hangup => no_new_link(alloc, false),
        Turn::Do(call) => no_subscription(alloc, named(call)),
        Turn::Take(s) => no_subscription(alloc, *s),
        Turn::Deadline(t) => Ok(format!(in alloc; "ticket {t} was given to no request")?),
    }
}

fn of_place(
    alloc: Global,
    config: &Config,
    turns: &[Turn],
    place: u64,
) -> Result<Option<String>, NoMemory> {
    let before = (place as usize).saturating_sub(1);
    match (turns.get(before), turns.get(..before)) {
        (Some(turn), Some(earlier)) => {
            let why = why(alloc, config, earlier, turn)?;
            let line = place.saturating_add(1);
            Ok(Some(format!(in alloc; "turn {place}, in script line {line}: {why}")?))
        }
        _ => Ok(None),
    }
}

/// Why the first turn that may not come where it stands may not; none where all may.
pub fn trouble(alloc: Global, config: &Config, turns: &[Turn]) -> Result<Option<String>, NoMemory> {
    match run(alloc, config.copy(alloc)?, turns) {
        Ok(_) => Ok(None),
        Err(RunError::OutOfTurn { place }) => of_place(alloc, config, turns, place),
        Err(RunError::NoMemory) => Err(NoMemory),
    }
}
